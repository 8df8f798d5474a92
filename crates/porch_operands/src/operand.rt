//! What an expression is found to be.

ghost use Rattle.std.specs.Prelude.{◌≡◌, ◌||◌};
ghost use Rattle.porch_check.specs.Operands.{is_no_address, is_scalar, typed_as};
ghost use Rattle.porch_check.specs.Operands as operands;
ghost use Rattle.porch_typed.specs.Mirror.{Expression as Tree};
ghost use Rattle.porch_operands.specs.Views.{as_value, typed_with};

use porch_typed::{Expression, Operator, Place};
use porch_types::Kind;
use sqlite_items::Items;

/// The type of a value. An array's is a pointer to its first element.
#[derive(Clone, Copy, Debug, PartialEq, Eq)]
pub enum Value {
    Integer(Kind),
    /// A pointer: its own type, and the one that it points to.
    Address { shape: u32, to: u32 },
    /// `NULL`, where no typed pointer stands opposite.
    NoAddress,
    Record(u32),
    Nothing,
}

/// What is known of a value, its tree apart.
#[derive(Clone, Copy, Debug, PartialEq, Eq)]
pub struct Sort {
    pub value: Value,
    /// An integer constant of value 0, also in parentheses.
    pub is_zero: bool,
    /// A call of `malloc` or `calloc`, also in parentheses.
    pub is_allocation: bool,
}

/// A function of the library.
#[derive(Clone, Copy, Debug, PartialEq, Eq)]
pub enum Library {
    Printf,
    Puts,
    Putchar,
    Malloc,
    Calloc,
    Free,
    Checkpoint,
}

/// A value, with its tree.
#[derive(Drop)]
pub struct Typed {
    pub tree: Expression,
    pub sort: Sort,
}

/// What an expression is. The last five are found only where their context allows them.
#[derive(Drop)]
pub enum Form<'t> {
    Operand(Typed),
    /// A place, and the type of what is there.
    Place(Place, u32),
    Literal(Items<u8>),
    /// `sizeof` of a type in an allocation.
    Size(u32),
    /// The same, with a count.
    Sized(Typed, u32),
    /// A function of the program, by its name and the name's place in the text.
    Callee(u32, &'t [u8]),
    LibraryCallee(Library),
}

/// What becomes of an operand's tree.
#[derive(Clone, Copy, Debug, PartialEq, Eq)]
pub enum Becomes {
    Itself,
    /// A null pointer of a type.
    Null(u32),
    /// It is converted to a kind.
    Converted(Kind),
    /// Its value is dropped.
    Discarded,
}

/// An operator with what its right operand becomes, and the value that it gives.
#[derive(Clone, Copy, Debug, PartialEq, Eq)]
pub struct Operation {
    pub operator: Operator,
    pub right: Becomes,
    pub value: Value,
}

impl Value {
    /// Whether it is an integer or a pointer.
    pub fn is_scalar(self) -> bool
        ensures { result ≡ is_scalar (as_value self) }
    {
        match self {
            Value::Integer(_) => true,
            Value::Address { shape: _, to: _ } => true,
            Value::NoAddress => true,
            Value::Record(_) | Value::Nothing => false,
        }
    }

    fn is_no_address(self) -> bool
        ensures { result ≡ is_no_address (as_value self) }
    {
        match self {
            Value::NoAddress => true,
            Value::Integer(_) | Value::Record(_) | Value::Nothing => false,
            Value::Address { shape: _, to: _ } => false,
        }
    }
}

impl Sort {
    /// A value that is neither the constant 0 nor an allocation.
    pub fn of(value: Value) -> Sort
        ensures { (e : Tree) → typed_with e result ≡ typed_as e (as_value value) }
    {
        Sort {
            value,
            is_zero: false,
            is_allocation: false,
        }
    }

    /// Whether it agrees with every pointer.
    pub fn is_null(self) -> bool
        ensures { result ≡ (self.is_zero || is_no_address (as_value self.value)) }
    {
        self.is_zero || self.value.is_no_address()
    }
}
