//! Calls: the values of the arguments, the variables, and the frame.

ghost use Rattle.std.specs.Prelude.{◌≡◌, ◌<◌, ◌+◌, ◌^◌, ◌∷◌, [], map, take, slice_get, ◌++◌, IfOk, OnOk, vec_len, vec_capacity};
ghost use Rattle.std.specs.List.{list_all};
ghost use Rattle.std.specs.Option.{option_map};
ghost use Rattle.porch_flat.specs.declared.whole.Flat.{Flat};
ghost use Rattle.porch_flat.specs.whole.Form as form;
ghost use Rattle.porch_flat.specs.whole.Places.{params_of, vars_of};
ghost use Rattle.porch_objects.specs.Meaning.{Environment};
ghost use Rattle.porch_abstract.specs.Held.{Answers};
ghost use Rattle.porch_abstract.specs.Machine.{variables_with};
ghost use Rattle.porch_live.specs.Views.{value_of};
ghost use Rattle.porch_steps.specs.inside.Calls.{is_there, values_of, variable_object, entered_by, begun_by};
ghost use Rattle.porch_steps.specs.inside.Effects.{Does};
ghost use Rattle.porch_steps.specs.inside.Kept.{state_of};

use crate::compute::operand;
use crate::frame::{Frame, Phase};
use crate::run::Run;
use porch_abstract::AStep;
use porch_flat::Operand;
use porch_flat::whole::Flat;
use porch_live::{Object, Root, Value};
use porch_types::Types;
use porch_values::Act;
use std::alloc::{AllocError, Global};

fn is_there(value: Value) -> bool
    ensures { result ≡ is_there (value_of value) }
{
    match value {
        Value::Number(_) => true,
        Value::Null => true,
        Value::Pointer { home: _, leaf: _ } => true,
        Value::Past {
            home: _,
            leaf: _,
            until: _,
        } => true,
        Value::Indeterminate => false,
    }
}

fn are_there(values: &[Value]) -> bool
    ensures { result ≡ list_all (λ v. is_there (value_of v)) values.now }
{
    values.iter().all(|v| is_there(*v))
}

fn first_of(numbers: &[u32], count: u32) -> &[u32]
    ensures { result.now ≡ take count numbers.now }
{
    let end = count as usize;
    if end < numbers.len() {
        &numbers[..end]
    } else {
        numbers
    }
}

// The types of a function's parameters.
fn params_of(flat: &Flat, function: usize) -> &[u32]
    ensures { result.now ≡ params_of (slice_get flat.now.functions function) }
{
    match flat.functions.get(function) {
        Some(function) => first_of(function.vars.as_slice(), function.params),
        None => &[],
    }
}

// The types of a function's variables.
pub(crate) fn vars_of(flat: &Flat, function: usize) -> &[u32]
    ensures { result.now ≡ vars_of (slice_get flat.now.functions function) }
{
    match flat.functions.get(function) {
        Some(function) => function.vars.as_slice(),
        None => &[],
    }
}

fn number_at(numbers: &[u32], at: usize) -> Option<u32>
    ensures { result ≡ slice_get numbers.now at }
{
    numbers.get(at).copied()
}

fn value_at(values: &[Value], at: usize) -> Option<Value>
    ensures { result ≡ slice_get values.now at }
{
    values.get(at).copied()
}

// The values of a call's arguments, in the types of its parameters.
fn argument_values(
    alloc: Global,
    flat: &Flat,
    run: &Run,
    params: &[u32],
    operands: &[Operand],
) -> Result<Vec<Value>, AllocError>
    ensures { IfOk result (λ values. map value_of values.items
        ≡ values_of flat.now operands.now params.now (state_of run.now)) }
{
    let mut values = Vec::new(alloc);
    for (at, read) in operands.iter().enumerate() {
        values.push(operand(flat, run, number_at(params, at), *read))?;
    }
    Ok(values)
}

fn new_variable(
    alloc: Global,
    types: &Types,
    ty: u32,
    value: Option<Value>,
) -> Result<Object, AllocError>
    ensures { IfOk result (λ object. object
        ≡ variable_object types.now ty (option_map value_of value)) }
{
    let root = Root { ty, count: 1 };
    match value {
        Some(value) => Ok(Object::single(root, value)),
        None => Object::fresh(alloc, types, root),
    }
}

fn push_variable(variables: &mut Vec<Object>, variable: Object) -> Result<(), AllocError>
    ensures { OnOk result (variables.new.items ≡ variables.old.items ++ variable ∷ []) }
{
    match variables.push(variable) {
        Ok(()) => Ok(()),
        Err(_) => Err(AllocError),
    }
}

// The variables of a call: the first have the arguments.
pub(crate) fn new_variables(
    alloc: Global,
    types: &Types,
    vars: &[u32],
    values: &[Value],
) -> Result<Vec<Object>, AllocError>
    ensures { IfOk result (λ objects. objects.items
        ≡ variables_with types.now vars.now (map value_of values.now)) }
{
    let mut objects = Vec::new(alloc);
    for (at, ty) in vars.iter().enumerate() {
        let object = new_variable(alloc, types, *ty, value_at(values, at))?;
        push_variable(&mut objects, object)?;
    }
    Ok(objects)
}

impl Run {
    // Room for one more caller, and a turn that can be counted.
    fn make_room(&mut self) -> Result<(), AllocError>
        ensures same { state_of self.new ≡ state_of self.old }
        ensures frame { self.new.frame ≡ self.old.frame }
        ensures phase { self.new.phase ≡ self.old.phase }
        ensures callers { self.new.callers.items ≡ self.old.callers.items }
        ensures room { OnOk result (vec_len self.new.callers < vec_capacity self.new.callers) }
        ensures turns { OnOk result (self.new.turns + 1 < 2 ^ 64) }
    {
        if self.turns == u64::MAX {
            return Err(AllocError);
        }
        self.callers.reserve(1)
    }

    // A call with these variables: its value goes to a variable of the caller.
    #[tactic(auto, using(crate::proofs::Frames::pushed))]
    fn enter(
        &mut self,
        function: usize,
        into: Option<u32>,
        variables: Vec<Object>,
    ) -> Result<AStep, AllocError>
        requires running { self.old.phase ≡ Phase.Running }
        requires place { self.old.frame.next + 1 < 2 ^ 64 }
        ensures entered { Answers (entered_by self.old function into variables.items)
            (state_of self.old) (state_of self.new) result }
    {
        self.make_room()?;
        self.store.enter(variables)?;
        let Frame {
            function: caller,
            next,
            into: receiver,
        } = self.frame;
        let behind = Frame {
            function: caller,
            next: next + 1,
            into: receiver,
        };
        match self.callers.push(behind) {
            Ok(()) => {}
            Err(_) => unreachable!(),
        }
        self.turns += 1;
        self.frame = Frame {
            function,
            next: 0,
            into,
        };
        Ok(AStep::Went)
    }

    /// A call: its value goes to a variable of the caller.
    #[inline(never)]
    #[tactic(auto, using(crate::proofs::Arguments::all_there))]
    pub(crate) fn call(
        &mut self,
        alloc: Global,
        flat: &Flat,
        into: Option<u32>,
        function: u32,
        operands: &[Operand],
    ) -> Result<AStep, AllocError>
        requires running { self.old.phase ≡ Phase.Running }
        requires place { self.old.frame.next + 1 < 2 ^ 64 }
        ensures done { Does flat.now self.old self.new
            (form.call into function operands.now) result }
    {
        let number = function as usize;
        let values = argument_values(alloc, flat, self, params_of(flat, number), operands)?;
        if are_there(&values) {
            let variables = new_variables(alloc, &flat.types, vars_of(flat, number), &values)?;
            self.enter(number, into, variables)
        } else {
            Ok(AStep::Act {
                act: Act::Indeterminate,
            })
        }
    }

    /// The first call, that of `main`.
    pub(crate) fn begin(
        &mut self,
        function: usize,
        variables: Vec<Object>,
    ) -> Result<AStep, AllocError>
        requires begun { self.old.phase ≡ Phase.Begun }
        ensures begun { Answers (begun_by self.old function variables.items)
            (state_of self.old) (state_of self.new) result }
    {
        if self.turns == u64::MAX {
            return Err(AllocError);
        }
        self.store.enter(variables)?;
        self.callers.clear();
        self.turns += 1;
        self.phase = Phase::Running;
        self.frame = Frame {
            function,
            next: 0,
            into: None,
        };
        Ok(AStep::Went)
    }
}
