//! The whole flat text as data: every command, the rules that a program may break, and the programs that
//! break none. The program that runs uses `flat` as yet.

mod arguments;
mod arity;
mod calls;
mod copies;
mod form;
mod jumps;
mod kinds;
mod labels;
mod laws;
mod modes;
mod numbers;
mod rules;
mod types;
mod valid;
mod walk;

use crate::flat::{GlobalObject, Operand};
pub use calls::{reaching, reaching_is_least};
pub use form::{Form, Within, form_of_command};
pub use labels::Labels;
pub use laws::{the_first_broken_rule_is_one, the_search_finds_the_first};
use porch_types::Types;
use sqlite_items::Items;
pub use types::{compared_type, pointee_of_var, type_at, type_of_var};
pub use valid::{Plain, Valid, ValidFault};
pub use walk::main_number;

/// How two operands compare.
#[derive(Clone, Copy, Debug, PartialEq, Eq)]
pub enum Comparison {
    Less,
    LessEqual,
    Equal,
    NotEqual,
}

/// Which way a pointer moves along its row.
#[derive(Clone, Copy, Debug, PartialEq, Eq)]
pub enum Direction {
    Forward,
    Back,
}

/// How a number is shown: its low byte, in decimal, in hexadecimal.
#[derive(Clone, Copy, Debug, PartialEq, Eq)]
pub enum Display {
    Char,
    Dec,
    Hex,
}

/// A command, one variant for each form of the text. Its arguments stand in the order of the text. A
/// number is that of a variable where nothing else is said.
#[derive(Drop)]
pub enum Command {
    /// The variable becomes the operand.
    Move(u32, Operand),
    /// The first variable becomes the second, converted.
    Cast(u32, u32),
    /// The variable becomes the result, in its own kind. So do those up to `Not`.
    Add(u32, Operand, Operand),
    Sub(u32, Operand, Operand),
    Mul(u32, Operand, Operand),
    Div(u32, Operand, Operand),
    Rem(u32, Operand, Operand),
    And(u32, Operand, Operand),
    Or(u32, Operand, Operand),
    Xor(u32, Operand, Operand),
    Shl(u32, Operand, Operand),
    Shr(u32, Operand, Operand),
    /// The complement.
    Not(u32, Operand),
    /// The variable becomes 1 where the comparison holds, else 0. So do those up to `Ne`.
    Lt(u32, Operand, Operand),
    Le(u32, Operand, Operand),
    Eq(u32, Operand, Operand),
    Ne(u32, Operand, Operand),
    /// A pointer to the subobject at a leaf of the second variable.
    Local(u32, u32, u32),
    /// A pointer to the subobject at a leaf of a global.
    GlobalA(u32, u32, u32),
    /// A pointer to the subobject at a leaf of what the second variable points to.
    Member(u32, u32, u32),
    /// The second variable, forward by so many elements.
    Step(u32, u32, Operand),
    /// The second variable, back by so many elements.
    Back(u32, u32, Operand),
    /// How many elements the second variable lies behind the third.
    Diff(u32, u32, u32),
    /// The variable becomes what the pointer points to.
    Load(u32, u32),
    /// What the pointer points to becomes the operand.
    Store(u32, Operand),
    /// The struct that the first pointer points to becomes the one that the second points to.
    Copy(u32, u32),
    /// The variable becomes indeterminate.
    Kill(u32),
    /// A new object of so many elements, with nothing in it.
    Alloc(u32, Operand),
    /// A new object of so many elements, all 0 and null.
    Calloc(u32, Operand),
    /// Ends the object.
    Free(u32),
    /// Shows the operand; the variable becomes the number of bytes. So do `Dec` and `Hex`.
    Char(u32, Operand),
    Dec(u32, Operand),
    Hex(u32, Operand),
    /// Shows the text that the second variable points to.
    Text(u32, u32),
    /// A place to go on at, by the label's number.
    Label(u32),
    /// Goes on at a label.
    Jump(u32),
    /// Goes on at a label where the operand isn't 0.
    If(Operand, u32),
    /// Counts a turn.
    Turn,
    /// Calls the function of the number; its value goes to the variable.
    Call(Option<u32>, u32, Items<Operand>),
    /// Ends the frame, with a value or without.
    Return(Option<Operand>),
    Checkpoint,
    /// For rebuilding a frame: its variables are filled.
    Restore(Items<u32>),
    /// For rebuilding a frame: goes on at a label where the call number is the one that is kept.
    Table(u32, u32),
    /// For saving a frame: keeps the call number and goes on at a label.
    Saved(u32, u32),
    /// For saving a frame: its variables are taken.
    Push(Items<u32>),
}

/// A function: its name, the type of its result, how many of its variables are parameters, the type
/// of each variable, and its commands. Behind the last command stands the end, which returns without
/// a value.
#[derive(Drop)]
pub struct Function {
    pub name: Items<u8>,
    pub result: Option<u32>,
    pub params: u32,
    pub vars: Items<u32>,
    pub commands: Items<Command>,
}

/// A flat program.
#[derive(Drop)]
pub struct Flat {
    pub types: Types,
    pub globals: Items<GlobalObject>,
    pub functions: Items<Function>,
}

/// The rules that a program can break, in the order in which one line is held against them.
#[derive(Clone, Copy, Debug, PartialEq, Eq)]
pub enum FlatRule {
    /// A number names something, and is within its limit.
    Number,
    /// The types are those that the form asks for.
    Kind,
    /// A constant lies in its kind, and is 0 where it stands for a pointer.
    Constant,
    /// A jump leads to a label, and backward only to one that a turn follows.
    Jump,
    /// Arguments and results are those of the function.
    Arity,
    /// The commands for saving and rebuilding frames stand where they have to.
    Modes,
    /// There is a function `main` without parameters that gives an int.
    Main,
}

/// Which programs are asked for.
#[derive(Clone, Copy, Debug, PartialEq, Eq)]
pub enum Sort {
    /// Programs without commands for saving and rebuilding frames.
    Plain,
    /// Programs that save and rebuild their frames.
    Rewritten,
}
