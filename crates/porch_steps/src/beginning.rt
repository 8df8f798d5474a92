//! What a run begins with: the labels of each function, and the globals.

ghost use Rattle.std.specs.Prelude.{◌≡◌, ◌++◌, ◌∷◌, [], map, IfOk, OnOk};
ghost use Rattle.porch_abstract.specs.Machine.{global_object, with_init, with_inits};
ghost use Rattle.porch_objects.specs.Store.{with_leaves};
ghost use Rattle.porch_steps.specs.inside.Beginning.{AreLabelsOf};

use porch_flat::whole::{Function, Labels};
use porch_flat::{GlobalObject, Init};
use porch_live::{Home, Object, Root, Value};
use porch_types::Types;
use std::alloc::{AllocError, Global};

fn push_labels(all: &mut Vec<Labels>, labels: Labels) -> Result<(), AllocError>
    ensures { OnOk result (all.new.items ≡ all.old.items ++ labels ∷ []) }
{
    match all.push(labels) {
        Ok(()) => Ok(()),
        Err(_) => Err(AllocError),
    }
}

/// Where the labels of each function stand.
pub(crate) fn labels_of(alloc: Global, functions: &[Function]) -> Result<Vec<Labels>, AllocError>
    ensures { IfOk result (λ all. AreLabelsOf functions.now all.items) }
{
    let mut all = Vec::new(alloc);
    for at in 0..functions.len() {
        let function = &functions[at];
        let labels = Labels::new(alloc, function.commands.as_slice())?;
        push_labels(&mut all, labels)?;
    }
    Ok(all)
}

// A leaf of a global gets what it is initialised with.
fn put_init(object: &mut Object, init: Init) -> Result<(), AllocError>
    ensures { OnOk result (object.new
        ≡ with_leaves object.old (with_init object.old.leaves init)) }
{
    match init {
        Init::Value(leaf, number) => object.set_leaf(u64::from(leaf), Value::Number(number)),
        Init::Address(leaf, global, first) => object.set_leaf(
            u64::from(leaf),
            Value::Pointer {
                home: Home::Global(global),
                leaf: u64::from(first),
            },
        ),
    }
}

fn put_inits(object: &mut Object, inits: &[Init]) -> Result<(), AllocError>
    ensures { OnOk result (object.new
        ≡ with_leaves object.old (with_inits object.old.leaves inits.now)) }
{
    for at in 0..inits.len() {
        put_init(object, inits[at])?;
    }
    Ok(())
}

fn new_global(alloc: Global, types: &Types, global: &GlobalObject) -> Result<Object, AllocError>
    ensures { IfOk result (λ object. object ≡ global_object types.now global.now) }
{
    let root = Root {
        ty: global.ty,
        count: 1,
    };
    let mut object = Object::zeroed(alloc, types, root)?;
    put_inits(&mut object, global.inits.as_slice())?;
    Ok(object)
}

fn push_global(all: &mut Vec<Object>, object: Object) -> Result<(), AllocError>
    ensures { OnOk result (all.new.items ≡ all.old.items ++ object ∷ []) }
{
    match all.push(object) {
        Ok(()) => Ok(()),
        Err(_) => Err(AllocError),
    }
}

/// The globals as the program begins.
pub(crate) fn global_objects(
    alloc: Global,
    types: &Types,
    globals: &[GlobalObject],
) -> Result<Vec<Object>, AllocError>
    ensures { IfOk result (λ all. all.items ≡ map (global_object types.now) globals.now) }
{
    let mut all = Vec::new(alloc);
    for at in 0..globals.len() {
        let object = new_global(alloc, types, &globals[at])?;
        push_global(&mut all, object)?;
    }
    Ok(all)
}
