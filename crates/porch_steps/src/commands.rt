//! Commands on variables: what each leads to is computed, and then done.
//!
//! None of the functions for a command is inlined: a function clears all its locals when it begins, and one for all commands
//! would clear those of all in each step. Nor are the ways for all values, which need more locals than the quick ones.

ghost use Rattle.std.specs.Prelude.{◌≡◌, ◌<◌, ◌+◌, ◌^◌};
ghost use Rattle.porch_flat.specs.whole.Form as form;
ghost use Rattle.porch_flat.specs.whole.Views.{within_of};
ghost use Rattle.porch_objects.specs.Meaning.{without_input};
ghost use Rattle.porch_abstract.specs.Held.{Answers};
ghost use Rattle.porch_steps.specs.Held.{AreLabels};
ghost use Rattle.porch_steps.specs.inside.Effects.{Does, done_by};
ghost use Rattle.porch_steps.specs.inside.Kept.{state_of};

use crate::compute::{
    compute_branch, compute_cast, compute_complement, compute_jump, compute_kill, compute_move,
    compute_operator, compute_return, compute_show,
};
use crate::frame::Phase;
use crate::numbers::{branch_place, compare_numbers, move_number, operate_numbers};
use crate::pointers::{
    compute_comparison, compute_difference, compute_load, compute_step, compute_subobject,
};
use crate::run::Run;
use porch_abstract::AStep;
use porch_flat::Operand;
use porch_flat::whole::{Comparison, Direction, Display, Flat, Labels, Within};
use porch_values::{Op, Widths};
use std::alloc::AllocError;

impl Run {
    /// A variable becomes an operand.
    #[inline(never)]
    pub(crate) fn perform_move(
        &mut self,
        flat: &Flat,
        variable: u32,
        read: &Operand,
    ) -> Result<AStep, AllocError>
        requires running { self.old.phase ≡ Phase.Running }
        requires place { self.old.frame.next + 1 < 2 ^ 64 }
        ensures done { Does flat.now self.old self.new (form.move variable read.now) result }
    {
        match move_number(flat, self, variable, read) {
            Some(number) => self.give_number(variable, number),
            None => self.move_value(flat, variable, read),
        }
    }

    // The same for all values.
    #[inline(never)]
    fn move_value(
        &mut self,
        flat: &Flat,
        variable: u32,
        read: &Operand,
    ) -> Result<AStep, AllocError>
        requires running { self.old.phase ≡ Phase.Running }
        requires place { self.old.frame.next + 1 < 2 ^ 64 }
        ensures done { Does flat.now self.old self.new (form.move variable read.now) result }
    {
        let effect = compute_move(flat, self, variable, *read);
        self.take(effect)
    }

    /// A variable becomes another one, converted.
    #[inline(never)]
    pub(crate) fn perform_cast(
        &mut self,
        flat: &Flat,
        widths: Widths,
        to: u32,
        from: u32,
    ) -> Result<AStep, AllocError>
        requires running { self.old.phase ≡ Phase.Running }
        requires place { self.old.frame.next + 1 < 2 ^ 64 }
        ensures done { Answers
            (done_by flat.now (without_input widths) self.old (form.cast to from))
            (state_of self.old) (state_of self.new) result }
    {
        let effect = compute_cast(flat, self, widths, to, from);
        self.take(effect)
    }

    /// A variable becomes a sum.
    #[inline(never)]
    pub(crate) fn perform_sum(
        &mut self,
        flat: &Flat,
        widths: Widths,
        to: u32,
        left: &Operand,
        right: &Operand,
    ) -> Result<AStep, AllocError>
        requires running { self.old.phase ≡ Phase.Running }
        requires place { self.old.frame.next + 1 < 2 ^ 64 }
        ensures done { Answers
            (done_by flat.now (without_input widths) self.old
            (form.operator Op.Add to left.now right.now))
            (state_of self.old) (state_of self.new) result }
    {
        self.operate(flat, widths, Op::Add, to, left, right)
    }

    /// A variable becomes what a subtraction gives.
    #[inline(never)]
    pub(crate) fn perform_subtraction(
        &mut self,
        flat: &Flat,
        widths: Widths,
        to: u32,
        left: &Operand,
        right: &Operand,
    ) -> Result<AStep, AllocError>
        requires running { self.old.phase ≡ Phase.Running }
        requires place { self.old.frame.next + 1 < 2 ^ 64 }
        ensures done { Answers
            (done_by flat.now (without_input widths) self.old
            (form.operator Op.Sub to left.now right.now))
            (state_of self.old) (state_of self.new) result }
    {
        self.operate(flat, widths, Op::Sub, to, left, right)
    }

    /// A variable becomes the result of an operator.
    #[inline(never)]
    pub(crate) fn perform_operator(
        &mut self,
        flat: &Flat,
        widths: Widths,
        op: Op,
        to: u32,
        left: &Operand,
        right: &Operand,
    ) -> Result<AStep, AllocError>
        requires running { self.old.phase ≡ Phase.Running }
        requires place { self.old.frame.next + 1 < 2 ^ 64 }
        ensures done { Answers
            (done_by flat.now (without_input widths) self.old
            (form.operator op to left.now right.now))
            (state_of self.old) (state_of self.new) result }
    {
        self.operate(flat, widths, op, to, left, right)
    }

    // The quick way where it serves. It is inlined, so that most is settled where the operator is known.
    #[inline(always)]
    fn operate(
        &mut self,
        flat: &Flat,
        widths: Widths,
        op: Op,
        to: u32,
        left: &Operand,
        right: &Operand,
    ) -> Result<AStep, AllocError>
        requires running { self.old.phase ≡ Phase.Running }
        requires place { self.old.frame.next + 1 < 2 ^ 64 }
        ensures done { Answers
            (done_by flat.now (without_input widths) self.old
            (form.operator op to left.now right.now))
            (state_of self.old) (state_of self.new) result }
    {
        match operate_numbers(flat, self, widths, op, to, left, right) {
            Some(number) => self.give_number(to, number),
            None => self.operate_values(flat, widths, op, to, left, right),
        }
    }

    // The same for all values.
    #[inline(never)]
    fn operate_values(
        &mut self,
        flat: &Flat,
        widths: Widths,
        op: Op,
        to: u32,
        left: &Operand,
        right: &Operand,
    ) -> Result<AStep, AllocError>
        requires running { self.old.phase ≡ Phase.Running }
        requires place { self.old.frame.next + 1 < 2 ^ 64 }
        ensures done { Answers
            (done_by flat.now (without_input widths) self.old
            (form.operator op to left.now right.now))
            (state_of self.old) (state_of self.new) result }
    {
        let effect = compute_operator(flat, self, widths, op, to, *left, *right)?;
        self.take(effect)
    }

    /// A variable becomes a complement.
    #[inline(never)]
    pub(crate) fn perform_complement(
        &mut self,
        flat: &Flat,
        widths: Widths,
        to: u32,
        read: &Operand,
    ) -> Result<AStep, AllocError>
        requires running { self.old.phase ≡ Phase.Running }
        requires place { self.old.frame.next + 1 < 2 ^ 64 }
        ensures done { Answers
            (done_by flat.now (without_input widths) self.old (form.complement to read.now))
            (state_of self.old) (state_of self.new) result }
    {
        let effect = compute_complement(flat, self, widths, to, *read)?;
        self.take(effect)
    }

    /// A variable becomes 1 or 0.
    #[inline(never)]
    pub(crate) fn perform_comparison(
        &mut self,
        flat: &Flat,
        how: Comparison,
        to: u32,
        left: &Operand,
        right: &Operand,
    ) -> Result<AStep, AllocError>
        requires running { self.old.phase ≡ Phase.Running }
        requires place { self.old.frame.next + 1 < 2 ^ 64 }
        ensures done { Does flat.now self.old self.new
            (form.comparison how to left.now right.now) result }
    {
        match compare_numbers(flat, self, how, left, right) {
            Some(number) => self.give_number(to, number),
            None => self.compare_all(flat, how, to, left, right),
        }
    }

    // The same for all values.
    #[inline(never)]
    fn compare_all(
        &mut self,
        flat: &Flat,
        how: Comparison,
        to: u32,
        left: &Operand,
        right: &Operand,
    ) -> Result<AStep, AllocError>
        requires running { self.old.phase ≡ Phase.Running }
        requires place { self.old.frame.next + 1 < 2 ^ 64 }
        ensures done { Does flat.now self.old self.new
            (form.comparison how to left.now right.now) result }
    {
        let effect = compute_comparison(flat, self, how, to, *left, *right);
        self.take(effect)
    }

    /// A variable becomes a pointer to a part of an object.
    #[inline(never)]
    pub(crate) fn perform_subobject(
        &mut self,
        flat: &Flat,
        to: u32,
        within: Within,
        leaf: u32,
    ) -> Result<AStep, AllocError>
        requires running { self.old.phase ≡ Phase.Running }
        requires place { self.old.frame.next + 1 < 2 ^ 64 }
        ensures done { Does flat.now self.old self.new
            (form.subobject to (within_of within) leaf) result }
    {
        let effect = compute_subobject(flat, self, to, within, leaf)?;
        self.take(effect)
    }

    /// A variable becomes a pointer to another element of its row.
    #[inline(never)]
    pub(crate) fn perform_step(
        &mut self,
        flat: &Flat,
        way: Direction,
        to: u32,
        from: u32,
        read: &Operand,
    ) -> Result<AStep, AllocError>
        requires running { self.old.phase ≡ Phase.Running }
        requires place { self.old.frame.next + 1 < 2 ^ 64 }
        ensures done { Does flat.now self.old self.new (form.step way to from read.now) result }
    {
        let effect = compute_step(flat, self, way, to, from, *read)?;
        self.take(effect)
    }

    /// A variable becomes the number of elements between two pointers.
    #[inline(never)]
    pub(crate) fn perform_difference(
        &mut self,
        flat: &Flat,
        to: u32,
        left: u32,
        right: u32,
    ) -> Result<AStep, AllocError>
        requires running { self.old.phase ≡ Phase.Running }
        requires place { self.old.frame.next + 1 < 2 ^ 64 }
        ensures done { Does flat.now self.old self.new (form.difference to left right) result }
    {
        let effect = compute_difference(flat, self, to, left, right);
        self.take(effect)
    }

    /// A variable becomes what a pointer points to.
    #[inline(never)]
    pub(crate) fn perform_load(
        &mut self,
        flat: &Flat,
        to: u32,
        from: u32,
    ) -> Result<AStep, AllocError>
        requires running { self.old.phase ≡ Phase.Running }
        requires place { self.old.frame.next + 1 < 2 ^ 64 }
        ensures done { Does flat.now self.old self.new (form.load to from) result }
    {
        let effect = compute_load(flat, self, to, from);
        self.take(effect)
    }

    /// All leaves of a variable become indeterminate.
    #[inline(never)]
    pub(crate) fn perform_kill(&mut self, flat: &Flat, variable: u32) -> Result<AStep, AllocError>
        requires running { self.old.phase ≡ Phase.Running }
        requires place { self.old.frame.next + 1 < 2 ^ 64 }
        ensures done { Does flat.now self.old self.new (form.kill variable) result }
    {
        let effect = compute_kill(flat, self, variable);
        self.take(effect)
    }

    /// A number is shown.
    #[inline(never)]
    pub(crate) fn perform_show(
        &mut self,
        flat: &Flat,
        how: Display,
        variable: u32,
        read: &Operand,
    ) -> Result<AStep, AllocError>
        requires running { self.old.phase ≡ Phase.Running }
        requires place { self.old.frame.next + 1 < 2 ^ 64 }
        ensures done { Does flat.now self.old self.new (form.show how variable read.now) result }
    {
        let effect = compute_show(flat, self, how, variable, *read);
        self.take(effect)
    }

    /// Goes on at a label.
    #[inline(never)]
    pub(crate) fn perform_jump(
        &mut self,
        flat: &Flat,
        labels: &[Labels],
        label: u32,
    ) -> Result<AStep, AllocError>
        requires labels { AreLabels flat.now labels.now }
        requires running { self.old.phase ≡ Phase.Running }
        requires place { self.old.frame.next + 1 < 2 ^ 64 }
        ensures done { Does flat.now self.old self.new (form.jump label) result }
    {
        let effect = compute_jump(flat, self, labels, label);
        self.take(effect)
    }

    /// Goes on at a label where an operand isn't 0.
    #[inline(never)]
    pub(crate) fn perform_branch(
        &mut self,
        flat: &Flat,
        labels: &[Labels],
        read: &Operand,
        label: u32,
    ) -> Result<AStep, AllocError>
        requires labels { AreLabels flat.now labels.now }
        requires running { self.old.phase ≡ Phase.Running }
        requires place { self.old.frame.next + 1 < 2 ^ 64 }
        ensures done { Does flat.now self.old self.new (form.branch read.now label) result }
    {
        match branch_place(flat, self, labels, read, label) {
            Some(place) => self.go(place),
            None => self.branch_value(flat, labels, read, label),
        }
    }

    // The same for all values.
    #[inline(never)]
    fn branch_value(
        &mut self,
        flat: &Flat,
        labels: &[Labels],
        read: &Operand,
        label: u32,
    ) -> Result<AStep, AllocError>
        requires labels { AreLabels flat.now labels.now }
        requires running { self.old.phase ≡ Phase.Running }
        requires place { self.old.frame.next + 1 < 2 ^ 64 }
        ensures done { Does flat.now self.old self.new (form.branch read.now label) result }
    {
        let effect = compute_branch(flat, self, labels, *read, label);
        self.take(effect)
    }

    /// The frame ends, with a value or none.
    #[inline(never)]
    pub(crate) fn perform_return(
        &mut self,
        flat: &Flat,
        read: &Option<Operand>,
    ) -> Result<AStep, AllocError>
        requires running { self.old.phase ≡ Phase.Running }
        requires place { self.old.frame.next + 1 < 2 ^ 64 }
        ensures done { Does flat.now self.old self.new (form.return read.now) result }
    {
        let effect = compute_return(flat, self, *read);
        self.take(effect)
    }
}
