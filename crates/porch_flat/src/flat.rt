//! The program as data.

use porch_types::Types;
use sqlite_items::Items;

/// What a command reads: a variable of its frame by number, or a constant.
#[derive(Clone, Copy, Debug, PartialEq, Eq)]
pub enum Operand {
    Var(u32),
    Constant(i128),
}

/// A command. Its arguments stand in the order of its text.
#[derive(Clone, Copy, Debug, PartialEq, Eq)]
pub enum Command {
    /// The variable becomes the operand.
    Move(u32, Operand),
    /// The variable becomes the sum, in its own kind.
    Add(u32, Operand, Operand),
    /// The variable becomes the difference.
    Sub(u32, Operand, Operand),
    /// The variable becomes the product.
    Mul(u32, Operand, Operand),
    /// The variable becomes 1 where the first operand is below the second, else 0.
    Lt(u32, Operand, Operand),
    /// The low byte of the operand is shown, and the variable becomes 1, the number of bytes.
    Char(u32, Operand),
    /// A place to go on at.
    Label(u32),
    /// Goes on at a label.
    Jump(u32),
    /// Goes on at a label where the operand isn't 0.
    If(Operand, u32),
    /// Counts a turn.
    Turn,
    /// Ends the frame, with a value or without.
    Return(Option<Operand>),
}

/// A function: its name, the type of its result, how many of its variables are parameters, the type of each variable, and
/// its commands. Behind the last command stands the end, which returns without a value.
#[derive(Drop)]
pub struct Function {
    pub name: Items<u8>,
    pub result: Option<u32>,
    pub params: u32,
    pub vars: Items<u32>,
    pub commands: Items<Command>,
}

/// A value of a leaf before the program begins. A leaf that no `Init` names is 0 or null.
#[derive(Clone, Copy, Debug, PartialEq, Eq)]
pub enum Init {
    /// An integer, which isn't 0.
    Value(u32, i128),
    /// The address of a leaf of a global.
    Address(u32, u32, u32),
}

/// A global object: its type, and what its leaves begin with.
#[derive(Drop)]
pub struct GlobalObject {
    pub ty: u32,
    pub inits: Items<Init>,
}

/// A flat program.
#[derive(Drop)]
pub struct Flat {
    pub types: Types,
    pub globals: Items<GlobalObject>,
    pub functions: Items<Function>,
}
