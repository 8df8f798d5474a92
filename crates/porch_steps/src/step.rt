//! The next step of a run.

ghost use Rattle.std.specs.Prelude.{◌≡◌, ◌<◌, ◌+◌, ◌^◌};
ghost use Rattle.porch_flat.specs.whole.Form.{form_of};
ghost use Rattle.porch_objects.specs.Meaning.{without_input};
ghost use Rattle.porch_abstract.specs.Held.{Answers};
ghost use Rattle.porch_abstract.specs.whole.Machine.{next};
ghost use Rattle.porch_steps.specs.Held.{AreLabels};
ghost use Rattle.porch_steps.specs.inside.Effects.{done_by};
ghost use Rattle.porch_steps.specs.inside.Kept.{state_of};

use crate::calls::{new_variables, vars_of};
use crate::compute::code;
use crate::frame::Phase;
use crate::run::Run;
use porch_abstract::AStep;
use porch_flat::whole::{
    Command, Comparison, Direction, Display, Flat, Labels, Within, main_number,
};
use porch_live::Value;
use porch_values::{Op, Widths};
use std::alloc::{AllocError, Global};

impl Run {
    // What a command does.
    fn perform(
        &mut self,
        alloc: Global,
        flat: &Flat,
        labels: &[Labels],
        widths: Widths,
        command: &Command,
    ) -> Result<AStep, AllocError>
        requires labels { AreLabels flat.now labels.now }
        requires running { self.old.phase ≡ Phase.Running }
        requires place { self.old.frame.next + 1 < 2 ^ 64 }
        ensures done { Answers
            (done_by flat.now (without_input widths) self.old (form_of command.now))
            (state_of self.old) (state_of self.new) result }
    {
        match command {
            Command::Move(v, o) => self.perform_move(flat, *v, o),
            Command::Cast(v, w) => self.perform_cast(flat, widths, *v, *w),
            Command::Add(v, a, b) => self.perform_sum(flat, widths, *v, a, b),
            Command::Sub(v, a, b) => self.perform_subtraction(flat, widths, *v, a, b),
            Command::Mul(v, a, b) => self.perform_operator(flat, widths, Op::Mul, *v, a, b),
            Command::Div(v, a, b) => self.perform_operator(flat, widths, Op::Div, *v, a, b),
            Command::Rem(v, a, b) => self.perform_operator(flat, widths, Op::Rem, *v, a, b),
            Command::And(v, a, b) => self.perform_operator(flat, widths, Op::And, *v, a, b),
            Command::Or(v, a, b) => self.perform_operator(flat, widths, Op::Or, *v, a, b),
            Command::Xor(v, a, b) => self.perform_operator(flat, widths, Op::Xor, *v, a, b),
            Command::Shl(v, a, b) => self.perform_operator(flat, widths, Op::Shl, *v, a, b),
            Command::Shr(v, a, b) => self.perform_operator(flat, widths, Op::Shr, *v, a, b),
            Command::Not(v, o) => self.perform_complement(flat, widths, *v, o),
            Command::Lt(v, a, b) => self.perform_comparison(flat, Comparison::Less, *v, a, b),
            Command::Le(v, a, b) => self.perform_comparison(flat, Comparison::LessEqual, *v, a, b),
            Command::Eq(v, a, b) => self.perform_comparison(flat, Comparison::Equal, *v, a, b),
            Command::Ne(v, a, b) => self.perform_comparison(flat, Comparison::NotEqual, *v, a, b),
            Command::Local(v, w, leaf) => self.perform_subobject(
                flat,
                *v,
                Within::Variable(*w),
                *leaf,
            ),
            Command::GlobalA(v, g, leaf) => self.perform_subobject(
                flat,
                *v,
                Within::Global(*g),
                *leaf,
            ),
            Command::Member(v, p, leaf) => self.perform_subobject(
                flat,
                *v,
                Within::Pointee(*p),
                *leaf,
            ),
            Command::Step(v, p, o) => self.perform_step(flat, Direction::Forward, *v, *p, o),
            Command::Back(v, p, o) => self.perform_step(flat, Direction::Back, *v, *p, o),
            Command::Diff(v, p, q) => self.perform_difference(flat, *v, *p, *q),
            Command::Load(v, p) => self.perform_load(flat, *v, *p),
            Command::Store(p, o) => self.store_value(flat, *p, o),
            Command::Copy(p, q) => self.copy_struct(alloc, flat, *p, *q),
            Command::Kill(v) => self.perform_kill(flat, *v),
            Command::Alloc(v, o) => self.allocate(alloc, flat, false, *v, o),
            Command::Calloc(v, o) => self.allocate(alloc, flat, true, *v, o),
            Command::Free(p) => self.free(flat, *p),
            Command::Char(v, o) => self.perform_show(flat, Display::Char, *v, o),
            Command::Dec(v, o) => self.perform_show(flat, Display::Dec, *v, o),
            Command::Hex(v, o) => self.perform_show(flat, Display::Hex, *v, o),
            Command::Text(v, p) => self.text(alloc, flat, *v, *p),
            Command::Label(_) => self.on(),
            Command::Jump(n) => self.perform_jump(flat, labels, *n),
            Command::If(o, n) => self.perform_branch(flat, labels, o, *n),
            Command::Turn => self.count(),
            Command::Call(into, function, operands) => self.call(
                alloc,
                flat,
                *into,
                *function,
                operands.as_slice(),
            ),
            Command::Return(o) => self.perform_return(flat, o),
            Command::Checkpoint => self.reach(),
            Command::Restore(_) => self.on(),
            Command::Table(_, _) => self.on(),
            Command::Saved(_, _) => self.on(),
            Command::Push(_) => self.on(),
        }
    }

    /// The next step, whichever it is.
    pub(crate) fn take_next(
        &mut self,
        alloc: Global,
        flat: &Flat,
        labels: &[Labels],
        widths: Widths,
    ) -> Result<AStep, AllocError>
        requires labels { AreLabels flat.now labels.now }
        ensures steps { Answers (next flat.now (without_input widths) (state_of self.old))
            (state_of self.old) (state_of self.new) result }
    {
        match self.phase {
            Phase::Begun => self.start(alloc, flat, widths),
            Phase::Running => self.proceed(alloc, flat, labels, widths),
            Phase::Over => Ok(AStep::Ended { value: 0 }),
        }
    }

    // The next step in a function: its next command, and behind the last its end.
    fn proceed(
        &mut self,
        alloc: Global,
        flat: &Flat,
        labels: &[Labels],
        widths: Widths,
    ) -> Result<AStep, AllocError>
        requires labels { AreLabels flat.now labels.now }
        requires running { self.old.phase ≡ Phase.Running }
        ensures steps { Answers (next flat.now (without_input widths) (state_of self.old))
            (state_of self.old) (state_of self.new) result }
    {
        let commands = code(flat, self.frame.function);
        if self.frame.next < commands.len() {
            self.perform(alloc, flat, labels, widths, &commands[self.frame.next])
        } else {
            self.give_back(Value::Indeterminate)
        }
    }

    // The first step, the call of `main`.
    fn start(&mut self, alloc: Global, flat: &Flat, widths: Widths) -> Result<AStep, AllocError>
        requires begun { self.old.phase ≡ Phase.Begun }
        ensures steps { Answers (next flat.now (without_input widths) (state_of self.old))
            (state_of self.old) (state_of self.new) result }
    {
        let main = main_number(flat).unwrap_or(0);
        let variables = new_variables(alloc, &flat.types, vars_of(flat, main), &[])?;
        self.begin(main, variables)
    }
}
