//! `sizeof` of a type, which stands only where an allocation takes a size.

ghost use Rattle.std.specs.Prelude.{◌≡◌};
ghost use Rattle.porch_check.specs.Calls.{size_form};
ghost use Rattle.porch_operands.specs.Answers.{answered};
ghost use Rattle.porch_operands.specs.Views.{as_form};
ghost use Rattle.porch_leaves.specs.Contexts.{as_context};

use crate::context::Context;
use porch_lex::{Refusal, Rule};
use porch_operands::Form;

/// `sizeof` of a type.
pub fn size<'t>(at: u32, context: Context, shape: u32) -> Result<Form<'t>, Refusal>
    ensures { size_form at (as_context context) shape ≡ answered as_form result }
{
    if context.allows_size() {
        Ok(Form::Size(shape))
    } else {
        Err(Refusal {
            at,
            rule: Rule::SizeofPlace,
        })
    }
}
