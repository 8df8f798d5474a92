//! Arguments of a call against the types of the parameters. No call takes memory.

ghost use Rattle.std.specs.Prelude.{◌≡◌, ℕ, take, slice_get};
ghost use Rattle.std.specs.List.{list_all};
ghost use Rattle.porch_flat.specs.whole.Places.{argument_places, params_of, place};
ghost use Rattle.porch_flat.specs.whole.Rules.{fits, has_constant};

use crate::flat::Operand;
use crate::whole::types::{is_constant_of, same_number, type_of_var};
use crate::whole::{Flat, Function};

/// Whether an operand that is a variable has the type that its place asks for.
pub(crate) fn fits(f: &Function, o: Operand, ty: Option<u32>) -> bool
    ensures { result ≡ fits f.now (place o ty) }
{
    match o {
        Operand::Var(v) => same_number(type_of_var(f, v), ty),
        Operand::Constant(_) => true,
    }
}

/// Whether an operand that is a constant lies in the type that its place asks for.
pub(crate) fn has_constant(flat: &Flat, o: Operand, ty: Option<u32>) -> bool
    ensures { result ≡ has_constant flat.now o ty }
{
    match o {
        Operand::Var(_) => true,
        Operand::Constant(z) => is_constant_of(flat, ty, z),
    }
}

/// The types of a function's parameters; none where there is no function of the number.
pub(crate) fn params(flat: &Flat, g: u32) -> &[u32]
    ensures { result.now ≡ params_of (slice_get flat.now.functions g) }
{
    match flat.functions.get(g as usize) {
        Some(f) => first_types(f.vars.as_slice(), f.params),
        None => &[],
    }
}

fn first_types(types: &[u32], count: u32) -> &[u32]
    ensures { result.now ≡ take count types.now }
{
    if (count as usize) < types.len() {
        &types[..count as usize]
    } else {
        types
    }
}

fn type_of_parameter(types: &[u32], at: usize) -> Option<u32>
    ensures { result ≡ slice_get types.now at }
{
    types.get(at).copied()
}

/// Whether the arguments that are variables have the types of the parameters.
#[tactic(auto, using(crate::proofs::Arguments::places_more))]
pub(crate) fn fit_parameters(f: &Function, os: &[Operand], types: &[u32]) -> bool
    ensures { result ≡ list_all (fits f.now) (argument_places os.now types.now) }
{
    for (at, o) in os.iter().enumerate() {
        if !fits(f, *o, type_of_parameter(types, at)) {
            return false;
        }
    }
    true
}

/// Whether the arguments that are constants lie in the types of the parameters.
#[tactic(auto, using(crate::proofs::Arguments::places_more))]
pub(crate) fn have_constants(flat: &Flat, os: &[Operand], types: &[u32]) -> bool
    ensures { result ≡ list_all (λ p. has_constant flat.now p.operand p.ty)
        (argument_places os.now types.now) }
{
    for (at, o) in os.iter().enumerate() {
        if !has_constant(flat, *o, type_of_parameter(types, at)) {
            return false;
        }
    }
    true
}
