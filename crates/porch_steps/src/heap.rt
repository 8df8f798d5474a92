//! Commands on pointers that change what lives, and texts.

ghost use Rattle.std.specs.Prelude.{◌≡◌, ◌<◌, ◌+◌, ◌^◌, Ok};
ghost use Rattle.porch_flat.specs.declared.whole.Flat.{Flat};
ghost use Rattle.porch_flat.specs.whole.Form as form;
ghost use Rattle.porch_flat.specs.whole.Places.{pointed, type_at};
ghost use Rattle.porch_objects.specs.Meaning.{Environment};
ghost use Rattle.porch_abstract.specs.Held.{Answers};
ghost use Rattle.porch_abstract.specs.whole.Machine.{var_type};
ghost use Rattle.porch_live.specs.Views.{value_of};
ghost use Rattle.porch_steps.specs.inside.Effects.{Does, allocated_by};
ghost use Rattle.porch_steps.specs.inside.Kept.{frame_of, state_of};

use crate::compute::{operand, pointee_of_variable, variable};
use crate::frame::Phase;
use crate::run::Run;
use crate::take::put;
use porch_abstract::AStep;
use porch_flat::Operand;
use porch_flat::whole::{Flat, pointee_of_var};
use porch_live::{Value, leaves_of};
use porch_values::Act;
use std::alloc::{AllocError, Global};

/// The number of `char` in each list of types.
const CHAR: u32 = 0;

// The type that a variable of the frame points to.
fn pointee_type(flat: &Flat, run: &Run, variable: u32) -> Option<u32>
    ensures { result
        ≡ pointed (type_at flat.now (var_type flat.now (frame_of run.now.frame) variable)) }
{
    match flat.functions.get(run.frame.function) {
        Some(function) => pointee_of_var(flat, function, variable),
        None => None,
    }
}

impl Run {
    /// What a pointer points to becomes an operand.
    #[inline(never)]
    pub(crate) fn store_value(
        &mut self,
        flat: &Flat,
        to: u32,
        read: &Operand,
    ) -> Result<AStep, AllocError>
        requires running { self.old.phase ≡ Phase.Running }
        requires place { self.old.frame.next + 1 < 2 ^ 64 }
        ensures done { Does flat.now self.old self.new (form.store to read.now) result }
    {
        let ty = pointee_type(flat, self, to);
        let value = operand(flat, self, ty, *read);
        let pointer = variable(self, to);
        match self.store.store(pointer, value) {
            Ok(Ok(())) => {
                self.frame.next += 1;
                Ok(AStep::Went)
            }
            Ok(Err(act)) => Ok(AStep::Act { act }),
            Err(error) => Err(error),
        }
    }

    /// The struct that a pointer points to becomes another one.
    #[inline(never)]
    pub(crate) fn copy_struct(
        &mut self,
        alloc: Global,
        flat: &Flat,
        to: u32,
        from: u32,
    ) -> Result<AStep, AllocError>
        requires running { self.old.phase ≡ Phase.Running }
        requires place { self.old.frame.next + 1 < 2 ^ 64 }
        ensures done { Does flat.now self.old self.new (form.copy to from) result }
    {
        let count = leaves_of(&flat.types, pointee_of_variable(flat, self, to));
        let target = variable(self, to);
        let source = variable(self, from);
        match self.store.copy(alloc, count, target, source) {
            Ok(Ok(())) => {
                self.frame.next += 1;
                Ok(AStep::Went)
            }
            Ok(Err(act)) => Ok(AStep::Act { act }),
            Err(error) => Err(error),
        }
    }

    fn allocate_number(
        &mut self,
        alloc: Global,
        flat: &Flat,
        zeros: bool,
        to: u32,
        count: i128,
    ) -> Result<AStep, AllocError>
        requires running { self.old.phase ≡ Phase.Running }
        requires place { self.old.frame.next + 1 < 2 ^ 64 }
        ensures done { (under : Environment)
            → Answers (allocated_by flat.now under self.old zeros to count)
            (state_of self.old) (state_of self.new) result }
    {
        let pointee = pointee_of_variable(flat, self, to);
        match self
            .store
            .allocate(alloc, &flat.types, pointee, zeros, count)
        {
            Ok(Ok(address)) => {
                put(&mut self.store, to, address);
                self.frame.next += 1;
                Ok(AStep::Went)
            }
            Ok(Err(act)) => Ok(AStep::Act { act }),
            Err(error) => Err(error),
        }
    }

    /// A variable becomes a pointer to a new object.
    #[inline(never)]
    pub(crate) fn allocate(
        &mut self,
        alloc: Global,
        flat: &Flat,
        zeros: bool,
        to: u32,
        read: &Operand,
    ) -> Result<AStep, AllocError>
        requires running { self.old.phase ≡ Phase.Running }
        requires place { self.old.frame.next + 1 < 2 ^ 64 }
        ensures done { Does flat.now self.old self.new (form.allocate zeros to read.now) result }
    {
        match operand(flat, self, None, *read) {
            Value::Number(count) => self.allocate_number(alloc, flat, zeros, to, count),
            Value::Null => Ok(AStep::Act {
                act: Act::Indeterminate,
            }),
            Value::Pointer { home: _, leaf: _ } => Ok(AStep::Act {
                act: Act::Indeterminate,
            }),
            Value::Past {
                home: _,
                leaf: _,
                until: _,
            } => Ok(AStep::Act {
                act: Act::Indeterminate,
            }),
            Value::Indeterminate => Ok(AStep::Act {
                act: Act::Indeterminate,
            }),
        }
    }

    /// Ends the object that a pointer points to.
    #[inline(never)]
    pub(crate) fn free(&mut self, flat: &Flat, from: u32) -> Result<AStep, AllocError>
        requires running { self.old.phase ≡ Phase.Running }
        requires place { self.old.frame.next + 1 < 2 ^ 64 }
        ensures done { Does flat.now self.old self.new (form.free from) result }
    {
        let pointer = variable(self, from);
        match self.store.release(pointer) {
            Ok(()) => {
                self.frame.next += 1;
                Ok(AStep::Went)
            }
            Err(act) => Ok(AStep::Act { act }),
        }
    }

    /// Shows the text that a pointer points to, and a variable becomes the number of bytes.
    #[inline(never)]
    pub(crate) fn text(
        &mut self,
        alloc: Global,
        flat: &Flat,
        to: u32,
        from: u32,
    ) -> Result<AStep, AllocError>
        requires running { self.old.phase ≡ Phase.Running }
        requires place { self.old.frame.next + 1 < 2 ^ 64 }
        ensures done { Does flat.now self.old self.new (form.text to from) result }
    {
        let pointer = variable(self, from);
        match self.store.text(alloc, &flat.types, CHAR, pointer) {
            Ok(Ok(text)) => self.show_text(to, &text),
            Ok(Err(act)) => Ok(AStep::Act { act }),
            Err(error) => Err(error),
        }
    }
}
