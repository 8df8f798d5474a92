//! What stands in front of the body of a function.

ghost use Rattle.std.specs.Prelude.{◌≡◌, List, map, Ok, Err, IfOk, IfErr, OnOk};
ghost use Rattle.porch_check.specs.Shapes.{shape_of};
ghost use Rattle.porch_check.specs.Scopes.{entered, hindrance};
ghost use Rattle.porch_check.specs.Declarations as declarations;
ghost use Rattle.porch_check.specs.Units.{all_have_names, no_function, result_of as result_of_shape};
ghost use Rattle.porch_scopes.specs.Views.{scope_of};
ghost use Rattle.porch_scopes.specs.Known.{scopes_of};
ghost use Rattle.porch_scopes.specs.Answers.{IsRefusalOf};
ghost use Rattle.porch_names.specs.Views.{as_name, as_parameter};
ghost use Rattle.porch_declarators.specs.Views.{as_part};
ghost use Rattle.porch_functions.specs.Lists.{IsListOf};

use porch_declarators::Part;
use porch_lex::{Refusal, Rule, SourceFault};
use porch_names::{Name, Parameter, refusal};
use porch_scopes::{Meaning, Scope, Scopes};
use porch_shape::Shape;
use sqlite_items::Items;
use std::alloc::{AllocError, Global};

/// The number of void.
const VOID: u32 = 8;

/// A parameter list, with the scope at its end.
#[derive(Drop)]
pub struct ParameterList<'t> {
    pub params: Vec<Parameter<'t>>,
    pub scope: Scope<'t>,
}

/// The parameter list that stands directly round a name, if what stands there is one.
pub fn into_list<'t>(parts: Vec<Part<'t>>) -> Option<ParameterList<'t>>
    ensures { IsListOf result (map as_part parts.entry.items) }
{
    let mut parts = parts;
    if parts.is_empty() {
        return None;
    }
    match parts.remove(0) {
        Part::Listed(_, params, scope) => Some(ParameterList { params, scope }),
        Part::Star(_) | Part::Counted(_, _) => None,
    }
}

/// Each parameter of a function with a body has a name.
pub fn have_names<'t>(params: &[Parameter<'t>]) -> Result<(), SourceFault>
    ensures named { IfOk result (λ _. all_have_names (map as_parameter params.now) ≡ Ok 0) }
    ensures refused { IfErr result
        (λ e. IsRefusalOf e (all_have_names (map as_parameter params.now))) }
{
    for parameter in params {
        if parameter.name.is_none() {
            return Err(refusal(Rule::Mismatch, parameter.at));
        }
    }
    Ok(())
}

/// The type that a function of a type gives, or none where that is void.
pub fn result_of<'t>(scopes: &Scopes<'t>, shape: u32) -> Option<u32>
    ensures { result ≡ result_of_shape (shape_of (scopes_of scopes.now).shapes shape) }
{
    match scopes.shapes.shape(shape) {
        Shape::Function(gives, _) => { if *gives == VOID { None } else { Some(*gives) } }
        Shape::Void | Shape::Whole(_) | Shape::Pointer(_) => None,
        Shape::Array(_, _) | Shape::Structure(_) => None,
    }
}

/// What a body breaks that stands behind a declarator of no function.
pub fn refusal_of_other<'t>(scopes: &Scopes<'t>, first: u32, name: Name<'t>, shape: u32) -> Refusal
    ensures { no_function first (as_name name.entry)
        (shape_of (scopes_of scopes.now).shapes shape)
        (hindrance name.entry.bytes.now (scopes_of scopes.now)) ≡ Err result }
{
    match scopes.hindrance(name.bytes) {
        None => refused(Rule::Mismatch, first),
        Some(Meaning::Function) => match scopes.shapes.shape(shape) {
            Shape::Function(_, _) => refused(Rule::Mismatch, first),
            Shape::Void | Shape::Whole(_) | Shape::Pointer(_) => { refused(Rule::Twice, name.at) }
            Shape::Array(_, _) | Shape::Structure(_) => refused(Rule::Twice, name.at),
        },
        Some(Meaning::Variable(_, _))
        | Some(Meaning::Global(_, _))
        | Some(Meaning::TypeName(_))
        | Some(Meaning::Enumerator(_))
        | Some(Meaning::Library(_))
        | Some(Meaning::Null) => refused(Rule::Twice, name.at),
    }
}

fn refused(rule: Rule, at: u32) -> Refusal
    ensures { result ≡ record { at = at; rule = rule } }
{
    Refusal { at, rule }
}

/// Enters the scope of the parameters, which are the first variables.
pub fn begin_body<'t>(
    alloc: Global,
    scopes: &mut Scopes<'t>,
    list: ParameterList<'t>,
) -> Result<(), AllocError>
    ensures { OnOk result (scopes_of scopes.new ≡ record
        (entered (scope_of list.entry.scope) (scopes_of scopes.old)) {
          variables = map (λ (p : declarations.Parameter). p.shape)
              (map as_parameter list.entry.params.items);
        }) }
{
    let ParameterList { params, scope } = list;
    let variables = types_of(alloc, &params)?;
    scopes.reenter(alloc, scope)?;
    scopes.variables = variables;
    Ok(())
}

fn types_of<'t>(alloc: Global, params: &[Parameter<'t>]) -> Result<Items<u32>, AllocError>
    ensures { IfOk result (λ types. types
        ≡ map (λ (p : declarations.Parameter). p.shape) (map as_parameter params.now)) }
{
    let mut types = Items::new(alloc);
    for parameter in params {
        types.push(parameter.shape)?;
    }
    Ok(types)
}
