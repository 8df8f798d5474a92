//! What a command is, whatever its name: one form over which every table goes.

ghost use Rattle.std.specs.Prelude.{◌≡◌};
ghost use Rattle.porch_flat.specs.whole.Form.{form_of, is_turn, is_mode, label_of};
ghost use Rattle.porch_flat.specs.whole.Views.{view_of};

use crate::flat::Operand;
use crate::whole::{Command, Comparison, Direction, Display};
use porch_values::Op;

/// What a leaf is counted in.
#[derive(Clone, Copy)]
pub enum Within {
    Variable(u32),
    Global(u32),
    Pointee(u32),
}

/// The form of a command. Lists stay in the command.
#[derive(Clone, Copy)]
pub enum Form<'a> {
    Move(u32, Operand),
    Cast(u32, u32),
    Operator(Op, u32, Operand, Operand),
    Complement(u32, Operand),
    Comparison(Comparison, u32, Operand, Operand),
    Subobject(u32, Within, u32),
    Step(Direction, u32, u32, Operand),
    Difference(u32, u32, u32),
    Load(u32, u32),
    Store(u32, Operand),
    Copy(u32, u32),
    Kill(u32),
    Allocate(bool, u32, Operand),
    Free(u32),
    Show(Display, u32, Operand),
    Text(u32, u32),
    Label(u32),
    Jump(u32),
    Branch(Operand, u32),
    Turn,
    Call(Option<u32>, u32, &'a [Operand]),
    Return(Option<Operand>),
    Checkpoint,
    Restore(&'a [u32]),
    Table(u32, u32),
    Saved(u32, u32),
    Push(&'a [u32]),
}

/// The form of a command. It takes no memory.
pub fn form_of_command(command: &Command) -> Form<'_>
    ensures { view_of result ≡ form_of command.now }
{
    match command {
        Command::Move(v, o) => Form::Move(*v, *o),
        Command::Cast(v, w) => Form::Cast(*v, *w),
        Command::Add(v, a, b) => Form::Operator(Op::Add, *v, *a, *b),
        Command::Sub(v, a, b) => Form::Operator(Op::Sub, *v, *a, *b),
        Command::Mul(v, a, b) => Form::Operator(Op::Mul, *v, *a, *b),
        Command::Div(v, a, b) => Form::Operator(Op::Div, *v, *a, *b),
        Command::Rem(v, a, b) => Form::Operator(Op::Rem, *v, *a, *b),
        Command::And(v, a, b) => Form::Operator(Op::And, *v, *a, *b),
        Command::Or(v, a, b) => Form::Operator(Op::Or, *v, *a, *b),
        Command::Xor(v, a, b) => Form::Operator(Op::Xor, *v, *a, *b),
        Command::Shl(v, a, b) => Form::Operator(Op::Shl, *v, *a, *b),
        Command::Shr(v, a, b) => Form::Operator(Op::Shr, *v, *a, *b),
        Command::Not(v, o) => Form::Complement(*v, *o),
        Command::Lt(v, a, b) => Form::Comparison(Comparison::Less, *v, *a, *b),
        Command::Le(v, a, b) => Form::Comparison(Comparison::LessEqual, *v, *a, *b),
        Command::Eq(v, a, b) => Form::Comparison(Comparison::Equal, *v, *a, *b),
        Command::Ne(v, a, b) => Form::Comparison(Comparison::NotEqual, *v, *a, *b),
        Command::Local(v, w, leaf) => Form::Subobject(*v, Within::Variable(*w), *leaf),
        Command::GlobalA(v, g, leaf) => Form::Subobject(*v, Within::Global(*g), *leaf),
        Command::Member(v, p, leaf) => Form::Subobject(*v, Within::Pointee(*p), *leaf),
        Command::Step(v, p, o) => Form::Step(Direction::Forward, *v, *p, *o),
        Command::Back(v, p, o) => Form::Step(Direction::Back, *v, *p, *o),
        Command::Diff(v, p, q) => Form::Difference(*v, *p, *q),
        Command::Load(v, p) => Form::Load(*v, *p),
        Command::Store(p, o) => Form::Store(*p, *o),
        Command::Copy(p, q) => Form::Copy(*p, *q),
        Command::Kill(v) => Form::Kill(*v),
        Command::Alloc(v, o) => Form::Allocate(false, *v, *o),
        Command::Calloc(v, o) => Form::Allocate(true, *v, *o),
        Command::Free(p) => Form::Free(*p),
        Command::Char(v, o) => Form::Show(Display::Char, *v, *o),
        Command::Dec(v, o) => Form::Show(Display::Dec, *v, *o),
        Command::Hex(v, o) => Form::Show(Display::Hex, *v, *o),
        Command::Text(v, p) => Form::Text(*v, *p),
        Command::Label(n) => Form::Label(*n),
        Command::Jump(n) => Form::Jump(*n),
        Command::If(o, n) => Form::Branch(*o, *n),
        Command::Turn => Form::Turn,
        Command::Call(r, f, os) => Form::Call(*r, *f, os.as_slice()),
        Command::Return(o) => Form::Return(*o),
        Command::Checkpoint => Form::Checkpoint,
        Command::Restore(vs) => Form::Restore(vs.as_slice()),
        Command::Table(k, n) => Form::Table(*k, *n),
        Command::Saved(k, n) => Form::Saved(*k, *n),
        Command::Push(vs) => Form::Push(vs.as_slice()),
    }
}

/// The label that stands here.
pub(crate) fn label_of_command(command: &Command) -> Option<u32>
    ensures { result ≡ label_of (form_of command.now) }
{
    match form_of_command(command) {
        Form::Label(n) => Some(n),
        Form::Move(_, _)
        | Form::Cast(_, _)
        | Form::Operator(_, _, _, _)
        | Form::Complement(_, _)
        | Form::Comparison(_, _, _, _)
        | Form::Subobject(_, _, _)
        | Form::Step(_, _, _, _)
        | Form::Difference(_, _, _)
        | Form::Load(_, _)
        | Form::Store(_, _)
        | Form::Copy(_, _)
        | Form::Kill(_)
        | Form::Allocate(_, _, _)
        | Form::Free(_)
        | Form::Show(_, _, _)
        | Form::Text(_, _)
        | Form::Jump(_)
        | Form::Branch(_, _)
        | Form::Turn
        | Form::Call(_, _, _)
        | Form::Return(_)
        | Form::Checkpoint
        | Form::Restore(_)
        | Form::Table(_, _)
        | Form::Saved(_, _)
        | Form::Push(_) => None,
    }
}

/// Whether the command counts a turn wherever it is reached.
pub(crate) fn is_turn_command(command: &Command) -> bool
    ensures { result ≡ is_turn (form_of command.now) }
{
    match form_of_command(command) {
        Form::Turn => true,
        Form::Move(_, _)
        | Form::Cast(_, _)
        | Form::Operator(_, _, _, _)
        | Form::Complement(_, _)
        | Form::Comparison(_, _, _, _)
        | Form::Subobject(_, _, _)
        | Form::Step(_, _, _, _)
        | Form::Difference(_, _, _)
        | Form::Load(_, _)
        | Form::Store(_, _)
        | Form::Copy(_, _)
        | Form::Kill(_)
        | Form::Allocate(_, _, _)
        | Form::Free(_)
        | Form::Show(_, _, _)
        | Form::Text(_, _)
        | Form::Label(_)
        | Form::Jump(_)
        | Form::Branch(_, _)
        | Form::Call(_, _, _)
        | Form::Return(_)
        | Form::Checkpoint
        | Form::Restore(_)
        | Form::Table(_, _)
        | Form::Saved(_, _)
        | Form::Push(_) => false,
    }
}

/// Whether the command is for saving and rebuilding frames.
pub(crate) fn is_mode_command(command: &Command) -> bool
    ensures { result ≡ is_mode (form_of command.now) }
{
    match form_of_command(command) {
        Form::Restore(_) => true,
        Form::Table(_, _) => true,
        Form::Saved(_, _) => true,
        Form::Push(_) => true,
        Form::Move(_, _)
        | Form::Cast(_, _)
        | Form::Operator(_, _, _, _)
        | Form::Complement(_, _)
        | Form::Comparison(_, _, _, _)
        | Form::Subobject(_, _, _)
        | Form::Step(_, _, _, _)
        | Form::Difference(_, _, _)
        | Form::Load(_, _)
        | Form::Store(_, _)
        | Form::Copy(_, _)
        | Form::Kill(_)
        | Form::Allocate(_, _, _)
        | Form::Free(_)
        | Form::Show(_, _, _)
        | Form::Text(_, _)
        | Form::Label(_)
        | Form::Jump(_)
        | Form::Branch(_, _)
        | Form::Turn
        | Form::Call(_, _, _)
        | Form::Return(_)
        | Form::Checkpoint => false,
    }
}
