//! One argument of `printf`, as its conversion shows it.

ghost use Rattle.std.specs.Prelude.{◌≡◌, false, Ok, IfOk, IfErr};
ghost use Rattle.porch_typed.specs.Views.{expression_of, print_of};
ghost use Rattle.porch_typed.specs.Mirror as tree;
ghost use Rattle.porch_check.specs.Operands.{Form as FormOf, Typed as TypedTree};
ghost use Rattle.porch_check.specs.Scopes.{Scopes};
ghost use Rattle.porch_check.specs.Calls.{printed_number, printed_text, shown_number};
ghost use Rattle.porch_operands.specs.Answers.{answered};
ghost use Rattle.porch_operands.specs.Views.{as_form, as_typed, as_value};
ghost use Rattle.porch_nodes.specs.Answers.{Refuses};
ghost use Rattle.porch_literals.specs.Directives.{as_directive};
ghost use Rattle.porch_arguments.specs.Views.{as_argument};
ghost use Rattle.porch_formats.specs.inside.Shown.{is_bytes, printed_one, text_of_value};

use porch_access::reading::value_in;
use porch_arguments::{Argument, is_char_pointer, take_literal};
use porch_lex::{Refusal, Rule, SourceFault};
use porch_literals::directive::Shown;
use porch_literals::takes::{shown_kind, takes};
use porch_operands::kinds::promoted;
use porch_operands::{Form, Table, Typed, Value};
use porch_rows::drop_tree;
use porch_typed::{Conversion, Expression, Print};
use porch_types::Kind;
use sqlite_items::{Boxed, Items};
use std::alloc::{AllocError, Global};

/// An argument, as a conversion shows it.
pub(crate) fn show<'t, T: Table>(
    alloc: Global,
    how: Shown,
    argument: Argument<'t>,
    table: &mut T,
) -> Result<Print, SourceFault>
    ensures made { IfOk result (λ p.
        printed_one (as_directive how) (as_argument argument.entry) (T.scopes table.old)
        ≡ Ok (print_of p, T.scopes table.new)) }
    ensures piece { IfOk result (λ p. is_bytes (print_of p) ≡ false) }
    ensures refused { IfErr result (λ f. Refuses f
        (printed_one (as_directive how) (as_argument argument.entry) (T.scopes table.old))) }
{
    match how {
        Shown::Number(how) => show_number(alloc, how, argument.at, argument.form, table),
        Shown::Text => show_text(argument.at, argument.form, table),
    }
}

#[tactic(auto, using(crate::proofs::Others::other_number))]
fn show_number<'t, T: Table>(
    alloc: Global,
    how: Conversion,
    at: u32,
    form: Form<'t>,
    table: &mut T,
) -> Result<Print, SourceFault>
    ensures made { IfOk result (λ p.
        printed_number how at (as_form form.entry) (T.scopes table.old)
        ≡ Ok (print_of p, T.scopes table.new)) }
    ensures piece { IfOk result (λ p. is_bytes (print_of p) ≡ false) }
    ensures refused { IfErr result (λ f. Refuses f
        (printed_number how at (as_form form.entry) (T.scopes table.old))) }
{
    match take_literal(form) {
        Ok(_) => Err(SourceFault::Refused(mismatch(at))),
        Err(form) => {
            let value = value_in(at, form, table)?;
            number_of(alloc, how, at, value)
        }
    }
}

fn mismatch(at: u32) -> Refusal
    ensures { result ≡ record { at = at; rule = Rule.Format } }
{
    Refusal {
        at,
        rule: Rule::Format,
    }
}

fn number_of(alloc: Global, how: Conversion, at: u32, value: Typed) -> Result<Print, SourceFault>
    ensures made { IfOk result (λ p.
        shown_number how at (as_typed value) (as_value value.sort.value) ≡ Ok (print_of p)) }
    ensures piece { IfOk result (λ p. is_bytes (print_of p) ≡ false) }
    ensures refused { IfErr result (λ f. Refuses f
        (shown_number how at (as_typed value) (as_value value.sort.value))) }
{
    match kind_of(how, at, value.sort.value) {
        Ok(kind) => Ok(converted(alloc, how, kind, value.tree)?),
        Err(refusal) => {
            drop_tree(value.tree);
            Err(SourceFault::Refused(refusal))
        }
    }
}

// The kind that a conversion shows, where it takes the value.
fn kind_of(how: Conversion, at: u32, value: Value) -> Result<Kind, Refusal>
    ensures { (x : TypedTree) → shown_number how at x (as_value value)
        ≡ answered (λ kind. tree.number how (tree.conversion kind x.tree)) result }
{
    match value {
        Value::Integer(kind) => kind_of_integer(how, at, kind),
        Value::Address { shape: _, to: _ } => Err(mismatch(at)),
        Value::NoAddress => Err(mismatch(at)),
        Value::Record(_) => Err(mismatch(at)),
        Value::Nothing => Err(mismatch(at)),
    }
}

fn kind_of_integer(how: Conversion, at: u32, kind: Kind) -> Result<Kind, Refusal>
    ensures { (x : TypedTree) → shown_number how at x (as_value (Value.Integer kind))
        ≡ answered (λ kind. tree.number how (tree.conversion kind x.tree)) result }
{
    if takes(how, promoted(kind)) {
        Ok(shown_kind(how))
    } else {
        Err(mismatch(at))
    }
}

fn converted(alloc: Global, how: Conversion, kind: Kind, e: Expression) -> Result<Print, AllocError>
    ensures { IfOk result (λ p. print_of p
        ≡ tree.number how (tree.conversion kind (expression_of e))) }
{
    let e = Boxed::new(alloc, e)?;
    Ok(number_piece(how, conversion(kind, e)))
}

fn conversion(kind: Kind, e: Boxed<Expression>) -> Expression
    ensures { expression_of result ≡ tree.conversion kind (expression_of e) }
{
    Expression::Conversion(kind, e)
}

fn number_piece(how: Conversion, e: Expression) -> Print
    ensures { print_of result ≡ tree.number how (expression_of e) }
{
    Print::Number(how, e)
}

#[tactic(auto, using(crate::proofs::Others::other_text))]
fn show_text<'t, T: Table>(at: u32, form: Form<'t>, table: &mut T) -> Result<Print, SourceFault>
    ensures made { IfOk result (λ p.
        printed_text at (as_form form.entry) (T.scopes table.old)
        ≡ Ok (print_of p, T.scopes table.new)) }
    ensures piece { IfOk result (λ p. is_bytes (print_of p) ≡ false) }
    ensures refused { IfErr result (λ f. Refuses f
        (printed_text at (as_form form.entry) (T.scopes table.old))) }
{
    match take_literal(form) {
        Ok(characters) => Ok(literal_piece(characters)),
        Err(form) => {
            let value = value_in(at, form, table)?;
            text_of(at, value)
        }
    }
}

fn literal_piece(characters: Items<u8>) -> Print
    ensures { print_of result ≡ tree.literal characters }
{
    Print::Literal(characters)
}

fn text_of(at: u32, value: Typed) -> Result<Print, SourceFault>
    ensures made { IfOk result (λ p. (s : Scopes) →
        text_of_value at s (as_typed value) ≡ Ok (print_of p, s)) }
    ensures piece { IfOk result (λ p. is_bytes (print_of p) ≡ false) }
    ensures refused { IfErr result (λ f. (s : Scopes) →
        Refuses f (text_of_value at s (as_typed value))) }
{
    if is_char_pointer(value.sort.value) {
        Ok(text_piece(value.tree))
    } else {
        drop_tree(value.tree);
        Err(SourceFault::Refused(mismatch(at)))
    }
}

fn text_piece(e: Expression) -> Print
    ensures { print_of result ≡ tree.text (expression_of e) }
{
    Print::Text(e)
}
