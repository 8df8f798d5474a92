//! String literals.

ghost use Rattle.std.specs.Prelude.{◌≡◌};
ghost use Rattle.porch_check.specs.Calls.{literal_form};
ghost use Rattle.porch_operands.specs.Answers.{answered};
ghost use Rattle.porch_operands.specs.Views.{as_form};
ghost use Rattle.porch_leaves.specs.Contexts.{as_context};

use crate::context::Context;
use porch_lex::{Refusal, Rule};
use porch_operands::Form;
use sqlite_items::Items;

/// A literal of these characters, as an argument of `printf` or `puts`.
pub fn literal<'t>(at: u32, characters: Items<u8>, context: Context) -> Result<Form<'t>, Refusal>
    ensures { literal_form at characters (as_context context) ≡ answered as_form result }
{
    if context.is_shown() {
        Ok(Form::Literal(characters))
    } else {
        Err(Refusal {
            at,
            rule: Rule::StringValue,
        })
    }
}
