//! `puts` and `putchar`.

ghost use Rattle.std.specs.Prelude.{◌≡◌, Ok, IfOk, IfErr};
ghost use Rattle.porch_typed.specs.Views.{expression_of};
ghost use Rattle.porch_typed.specs.Mirror as tree;
ghost use Rattle.porch_check.specs.Scopes.{Scopes};
ghost use Rattle.porch_check.specs.Operands.{operand};
ghost use Rattle.porch_check.specs.Calls.{int_form, puts_form};
ghost use Rattle.porch_operands.specs.Views.{as_form, as_typed};
ghost use Rattle.porch_nodes.specs.Answers.{Refuses};
ghost use Rattle.porch_calls.specs.inside.Steps.{character_of_value, put_character_of, text_of_value};

use porch_access::reading::value_in;
use porch_arguments::{fit_value, is_char_pointer, take_literal};
use porch_lex::{Refusal, Rule, SourceFault};
use porch_nodes::unary;
use porch_operands::{Form, Table, Typed, Value};
use porch_rows::drop_tree;
use porch_typed::Expression;
use porch_types::{INT, Kind};
use sqlite_items::{Boxed, Items};
use std::alloc::{AllocError, Global};

/// `puts` of an argument, which begins at a place.
#[tactic(auto, using(crate::proofs::Others::other_text))]
pub(crate) fn puts<'t, T: Table>(
    alloc: Global,
    at: u32,
    form: Form<'t>,
    table: &mut T,
) -> Result<Typed, SourceFault>
    ensures made { IfOk result (λ x. puts_form at (as_form form.entry) (T.scopes table.old)
        ≡ Ok (operand (as_typed x), T.scopes table.new)) }
    ensures refused { IfErr result (λ f. Refuses f
        (puts_form at (as_form form.entry) (T.scopes table.old))) }
{
    match take_literal(form) {
        Ok(characters) => Ok(put_literal(characters)),
        Err(form) => {
            let value = value_in(at, form, table)?;
            put_text(alloc, at, value)
        }
    }
}

fn put_literal(characters: Items<u8>) -> Typed
    ensures { operand (as_typed result) ≡ int_form (tree.put_literal characters) }
{
    int_of(literal_tree(characters))
}

// What gives an int.
fn int_of(e: Expression) -> Typed
    ensures { operand (as_typed result) ≡ int_form (expression_of e) }
{
    unary::value_of(e, Value::Integer(Kind::Int))
}

fn literal_tree(characters: Items<u8>) -> Expression
    ensures { expression_of result ≡ tree.put_literal characters }
{
    Expression::PutLiteral(characters)
}

fn put_text(alloc: Global, at: u32, value: Typed) -> Result<Typed, SourceFault>
    ensures made { IfOk result (λ x. (s : Scopes) →
        text_of_value at (as_typed value) s ≡ Ok (operand (as_typed x), s)) }
    ensures refused { IfErr result (λ f. (s : Scopes) →
        Refuses f (text_of_value at (as_typed value) s)) }
{
    if is_char_pointer(value.sort.value) {
        Ok(text_of(alloc, value.tree)?)
    } else {
        drop_tree(value.tree);
        Err(SourceFault::Refused(mismatch(at)))
    }
}

fn mismatch(at: u32) -> Refusal
    ensures { result ≡ record { at = at; rule = Rule.Mismatch } }
{
    Refusal {
        at,
        rule: Rule::Mismatch,
    }
}

fn text_of(alloc: Global, e: Expression) -> Result<Typed, AllocError>
    ensures { IfOk result (λ x. operand (as_typed x)
        ≡ int_form (tree.put_text (expression_of e))) }
{
    let e = Boxed::new(alloc, e)?;
    Ok(int_of(text_tree(e)))
}

fn text_tree(e: Boxed<Expression>) -> Expression
    ensures { expression_of result ≡ tree.put_text (expression_of e) }
{
    Expression::PutText(e)
}

/// `putchar` of an argument, which begins at a place.
pub(crate) fn putchar<'t, T: Table>(
    alloc: Global,
    at: u32,
    form: Form<'t>,
    table: &mut T,
) -> Result<Typed, SourceFault>
    ensures made { IfOk result (λ x.
        put_character_of at (as_form form.entry) (T.scopes table.old)
        ≡ Ok (operand (as_typed x), T.scopes table.new)) }
    ensures refused { IfErr result (λ f. Refuses f
        (put_character_of at (as_form form.entry) (T.scopes table.old))) }
{
    let value = value_in(at, form, table)?;
    put_value(alloc, at, value, table)
}

fn put_value<T: Table>(
    alloc: Global,
    at: u32,
    value: Typed,
    table: &T,
) -> Result<Typed, SourceFault>
    ensures made { IfOk result (λ x.
        character_of_value at (as_typed value) (T.scopes table.now)
        ≡ Ok (operand (as_typed x), T.scopes table.now)) }
    ensures refused { IfErr result (λ f. Refuses f
        (character_of_value at (as_typed value) (T.scopes table.now))) }
{
    let e = fit_value(alloc, at, INT, value, table)?;
    Ok(character_of(alloc, e)?)
}

fn character_of(alloc: Global, e: Expression) -> Result<Typed, AllocError>
    ensures { IfOk result (λ x. operand (as_typed x)
        ≡ int_form (tree.put_character (expression_of e))) }
{
    let e = Boxed::new(alloc, e)?;
    Ok(int_of(character_tree(e)))
}

fn character_tree(e: Boxed<Expression>) -> Expression
    ensures { expression_of result ≡ tree.put_character (expression_of e) }
{
    Expression::PutCharacter(e)
}
