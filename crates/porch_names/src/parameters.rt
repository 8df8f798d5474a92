//! Parameters of functions, and the types of functions.

ghost use Rattle.std.specs.Prelude.{◌≡◌, List, map, Ok, IfOk, IfErr, OnOk};
ghost use Rattle.std.specs.Option.{option_map};
ghost use Rattle.porch_check.specs.Shapes.{shape_of};
ghost use Rattle.porch_check.specs.Declarations as declarations;
ghost use Rattle.porch_check.specs.Declarations.{declared_parameter, parameter_type as parameter_type_of, result_type as result_type_of};
ghost use Rattle.porch_scopes.specs.Known.{scopes_of};
ghost use Rattle.porch_scopes.specs.Answers.{IsRefusalOf};
ghost use Rattle.porch_names.specs.Views.{as_name, as_parameter};

use crate::name::{Name, is_hindered, refusal};
use porch_lex::{Rule, SourceFault};
use porch_scopes::{Meaning, Scopes};
use porch_shape::Shape;
use std::alloc::{AllocError, Global};

/// A parameter: its place, its name where it has one, and its type.
#[derive(Clone, Copy, Debug)]
pub struct Parameter<'t> {
    pub at: u32,
    pub name: Option<Name<'t>>,
    pub shape: u32,
}

/// The type of a parameter: an array is a pointer to its first element.
pub fn parameter_type<'t>(scopes: &mut Scopes<'t>, at: u32, shape: u32) -> Result<u32, SourceFault>
    ensures typed { IfOk result (λ n. parameter_type_of at
        (shape_of (scopes_of scopes.old).shapes shape) shape (scopes_of scopes.old)
        ≡ Ok (n, scopes_of scopes.new)) }
    ensures outer { OnOk result ((scopes_of scopes.new).outer ≡ (scopes_of scopes.old).outer) }
    ensures refused { IfErr result (λ e. IsRefusalOf e (parameter_type_of at
        (shape_of (scopes_of scopes.old).shapes shape) shape (scopes_of scopes.old))) }
{
    match scopes.shapes.shape(shape) {
        Shape::Array(of, _) => {
            let of = *of;
            Ok(scopes.pointer(of)?)
        }
        Shape::Structure(_) => Err(refusal(Rule::StructValue, at)),
        Shape::Whole(_) | Shape::Pointer(_) => Ok(shape),
        Shape::Void | Shape::Function(_, _) => Err(refusal(Rule::Mismatch, at)),
    }
}

/// Declares a parameter of a number in the scope of its list.
pub fn declare_parameter<'t>(
    scopes: &mut Scopes<'t>,
    at: u32,
    number: u32,
    name: Option<Name<'t>>,
    shape: u32,
) -> Result<Parameter<'t>, SourceFault>
    ensures typed { IfOk result (λ p. declared_parameter at number (option_map as_name name.entry)
        shape (scopes_of scopes.old) ≡ Ok (as_parameter p, scopes_of scopes.new)) }
    ensures outer { OnOk result ((scopes_of scopes.new).outer ≡ (scopes_of scopes.old).outer) }
    ensures refused { IfErr result (λ e. IsRefusalOf e (declared_parameter at number
        (option_map as_name name.entry) shape (scopes_of scopes.old))) }
{
    match name {
        None => {
            let shape = parameter_type(scopes, at, shape)?;
            Ok(Parameter { at, name, shape })
        }
        Some(known) => {
            if is_hindered(scopes, known.bytes) {
                return Err(refusal(Rule::Twice, known.at));
            }
            let shape = parameter_type(scopes, at, shape)?;
            scopes.declare(known.bytes, Meaning::Variable(number, shape))?;
            Ok(Parameter { at, name, shape })
        }
    }
}

/// The type of a function with this result and these parameters. A result is void or a scalar.
pub fn result_type<'t>(
    alloc: Global,
    scopes: &mut Scopes<'t>,
    at: u32,
    gives: u32,
    params: &[Parameter<'t>],
) -> Result<u32, SourceFault>
    ensures typed { IfOk result (λ n. result_type_of at
        (shape_of (scopes_of scopes.old).shapes gives) gives (map as_parameter params.now)
        (scopes_of scopes.old) ≡ Ok (n, scopes_of scopes.new)) }
    ensures outer { OnOk result ((scopes_of scopes.new).outer ≡ (scopes_of scopes.old).outer) }
    ensures refused { IfErr result (λ e. IsRefusalOf e (result_type_of at
        (shape_of (scopes_of scopes.old).shapes gives) gives (map as_parameter params.now)
        (scopes_of scopes.old))) }
{
    match scopes.shapes.shape(gives) {
        Shape::Array(_, _) | Shape::Function(_, _) => Err(refusal(Rule::Mismatch, at)),
        Shape::Structure(_) => Err(refusal(Rule::StructValue, at)),
        Shape::Void | Shape::Whole(_) | Shape::Pointer(_) => {
            let types = types_of(alloc, params)?;
            Ok(scopes.function(gives, types.as_slice())?)
        }
    }
}

fn types_of<'t>(alloc: Global, params: &[Parameter<'t>]) -> Result<Vec<u32>, AllocError>
    ensures { IfOk result (λ types. types.items
        ≡ map (λ (p : declarations.Parameter). p.shape) (map as_parameter params.now)) }
{
    let mut types = Vec::with_capacity(alloc, params.len())?;
    for parameter in params {
        types.push(parameter.shape)?;
    }
    Ok(types)
}
