//! Calls of the library.

ghost use Rattle.std.specs.Prelude.{◌≡◌, ◌∷◌, [], false, Ok, IfOk, IfErr, MatchOption};
ghost use Rattle.porch_check.specs.Operands.{operand};
ghost use Rattle.porch_check.specs.Calls.{library_call};
ghost use Rattle.porch_check.specs.Scopes as scopes;
ghost use Rattle.porch_operands.specs.Views.{as_library, as_typed};
ghost use Rattle.porch_nodes.specs.Answers.{Refuses};
ghost use Rattle.porch_arguments.specs.Views.{as_argument, left};
ghost use Rattle.porch_calls.specs.inside.Counts.{is_one, is_two};

use crate::allocations::{calloc, malloc};
use crate::freeing::{checkpoint, free};
use crate::putting::{putchar, puts};
use porch_arguments::{Argument, count_of, take_first};
use porch_formats::printed;
use porch_lex::{Refusal, Rule, SourceFault};
use porch_operands::{Library, Table, Typed};
use sqlite_items::Items;
use std::alloc::Global;

/// A call of a function of the library. `at` is where it begins, and the first argument stands last.
pub(crate) fn library_call<'t, T: Table>(
    alloc: Global,
    library: Library,
    at: u32,
    turned: Items<Argument<'t>>,
    table: &mut T,
) -> Result<Typed, SourceFault>
    ensures made { IfOk result (λ x.
        library_call (as_library library) at (left turned.entry) (T.scopes table.old)
        ≡ Ok (operand (as_typed x), T.scopes table.new)) }
    ensures refused { IfErr result (λ f. Refuses f
        (library_call (as_library library) at (left turned.entry) (T.scopes table.old))) }
{
    match library {
        Library::Printf => print(alloc, at, turned, table),
        Library::Puts => put_line(alloc, at, turned, table),
        Library::Putchar => put_character(alloc, at, turned, table),
        Library::Malloc => allocate(alloc, at, turned, table),
        Library::Calloc => allocate_zeroed(alloc, at, turned, table),
        Library::Free => release(alloc, at, turned, table),
        Library::Checkpoint => mark(at, &turned, table),
    }
}

fn refused(rule: Rule, at: u32) -> SourceFault
    ensures { result ≡ SourceFault.Refused (record { at = at; rule = rule }) }
{
    SourceFault::Refused(Refusal { at, rule })
}

// The argument, where there is just one.
#[tactic(auto, using(crate::proofs::Counted::just_one, crate::proofs::Counted::more_than_one))]
fn take_only<'t>(turned: Items<Argument<'t>>) -> Option<Argument<'t>>
    ensures { MatchOption result (is_one (left turned.entry) ≡ false)
        (λ a. left turned.entry ≡ as_argument a ∷ []) }
{
    let mut turned = turned;
    match take_first(&mut turned) {
        Some(first) => {
            if count_of(&turned) == 0 {
                Some(first)
            } else {
                None
            }
        }
        None => None,
    }
}

// `puts`
#[tactic(auto, using(crate::proofs::Others::not_one_text))]
fn put_line<'t, T: Table>(
    alloc: Global,
    at: u32,
    turned: Items<Argument<'t>>,
    table: &mut T,
) -> Result<Typed, SourceFault>
    ensures made { IfOk result (λ x.
        library_call scopes.of_puts at (left turned.entry) (T.scopes table.old)
        ≡ Ok (operand (as_typed x), T.scopes table.new)) }
    ensures refused { IfErr result (λ f. Refuses f
        (library_call scopes.of_puts at (left turned.entry) (T.scopes table.old))) }
{
    match take_only(turned) {
        Some(argument) => puts(alloc, argument.at, argument.form, table),
        None => Err(refused(Rule::Mismatch, at)),
    }
}

// `putchar`
#[tactic(auto, using(crate::proofs::Others::not_one_character))]
fn put_character<'t, T: Table>(
    alloc: Global,
    at: u32,
    turned: Items<Argument<'t>>,
    table: &mut T,
) -> Result<Typed, SourceFault>
    ensures made { IfOk result (λ x.
        library_call scopes.of_putchar at (left turned.entry) (T.scopes table.old)
        ≡ Ok (operand (as_typed x), T.scopes table.new)) }
    ensures refused { IfErr result (λ f. Refuses f
        (library_call scopes.of_putchar at (left turned.entry) (T.scopes table.old))) }
{
    match take_only(turned) {
        Some(argument) => putchar(alloc, argument.at, argument.form, table),
        None => Err(refused(Rule::Mismatch, at)),
    }
}

// `malloc`
#[tactic(auto, using(crate::proofs::Others::not_one_size))]
fn allocate<'t, T: Table>(
    alloc: Global,
    at: u32,
    turned: Items<Argument<'t>>,
    table: &mut T,
) -> Result<Typed, SourceFault>
    ensures made { IfOk result (λ x.
        library_call scopes.of_malloc at (left turned.entry) (T.scopes table.old)
        ≡ Ok (operand (as_typed x), T.scopes table.new)) }
    ensures refused { IfErr result (λ f. Refuses f
        (library_call scopes.of_malloc at (left turned.entry) (T.scopes table.old))) }
{
    match take_only(turned) {
        Some(argument) => malloc(alloc, at, argument.form, table),
        None => Err(refused(Rule::Mismatch, at)),
    }
}

// `free`
#[tactic(auto, using(crate::proofs::Others::not_one_pointer))]
fn release<'t, T: Table>(
    alloc: Global,
    at: u32,
    turned: Items<Argument<'t>>,
    table: &mut T,
) -> Result<Typed, SourceFault>
    ensures made { IfOk result (λ x.
        library_call scopes.of_free at (left turned.entry) (T.scopes table.old)
        ≡ Ok (operand (as_typed x), T.scopes table.new)) }
    ensures refused { IfErr result (λ f. Refuses f
        (library_call scopes.of_free at (left turned.entry) (T.scopes table.old))) }
{
    match take_only(turned) {
        Some(argument) => free(alloc, argument.at, argument.form, table),
        None => Err(refused(Rule::Mismatch, at)),
    }
}

// `printf`
fn print<'t, T: Table>(
    alloc: Global,
    at: u32,
    turned: Items<Argument<'t>>,
    table: &mut T,
) -> Result<Typed, SourceFault>
    ensures made { IfOk result (λ x.
        library_call scopes.of_printf at (left turned.entry) (T.scopes table.old)
        ≡ Ok (operand (as_typed x), T.scopes table.new)) }
    ensures refused { IfErr result (λ f. Refuses f
        (library_call scopes.of_printf at (left turned.entry) (T.scopes table.old))) }
{
    let mut turned = turned;
    match take_first(&mut turned) {
        Some(format) => printed(alloc, at, format.form, format.at, turned, table),
        None => Err(refused(Rule::Format, at)),
    }
}

// `calloc`
#[tactic(auto, using(crate::proofs::Others::not_two_sizes))]
fn allocate_zeroed<'t, T: Table>(
    alloc: Global,
    at: u32,
    turned: Items<Argument<'t>>,
    table: &mut T,
) -> Result<Typed, SourceFault>
    ensures made { IfOk result (λ x.
        library_call scopes.of_calloc at (left turned.entry) (T.scopes table.old)
        ≡ Ok (operand (as_typed x), T.scopes table.new)) }
    ensures refused { IfErr result (λ f. Refuses f
        (library_call scopes.of_calloc at (left turned.entry) (T.scopes table.old))) }
{
    match take_two(turned) {
        Some((count, size)) => calloc(alloc, at, count, size.form, table),
        None => Err(refused(Rule::Mismatch, at)),
    }
}

// The arguments, where there are just two.
#[tactic(auto, using(crate::proofs::Counted::not_two))]
fn take_two<'t>(turned: Items<Argument<'t>>) -> Option<(Argument<'t>, Argument<'t>)>
    ensures { MatchOption result (is_two (left turned.entry) ≡ false)
        (λ p. left turned.entry ≡ as_argument p.0 ∷ as_argument p.1 ∷ []) }
{
    let mut turned = turned;
    match take_first(&mut turned) {
        Some(first) => match take_only(turned) {
            Some(second) => Some((first, second)),
            None => None,
        },
        None => None,
    }
}

// `checkpoint`
#[tactic(auto, using(crate::proofs::Counted::is_empty, crate::proofs::Counted::isnt_empty))]
fn mark<'t, T: Table>(
    at: u32,
    turned: &Items<Argument<'t>>,
    table: &T,
) -> Result<Typed, SourceFault>
    ensures made { IfOk result (λ x.
        library_call scopes.of_checkpoint at (left turned.now) (T.scopes table.now)
        ≡ Ok (operand (as_typed x), T.scopes table.now)) }
    ensures refused { IfErr result (λ f. Refuses f
        (library_call scopes.of_checkpoint at (left turned.now) (T.scopes table.now))) }
{
    if count_of(turned) == 0 {
        Ok(checkpoint())
    } else {
        Err(refused(Rule::Mismatch, at))
    }
}
