//! The typed tree. A type is its number in the program's types; a variable, a global and a function
//! are numbered in the order of their declarations.

use porch_types::{Kind, Types};
use porch_values::Op;
use sqlite_items::{Boxed, Items};

/// How two operands compare.
#[derive(Clone, Copy, Debug, PartialEq, Eq)]
pub enum Comparison {
    Less,
    Greater,
    LessEqual,
    GreaterEqual,
    Equal,
    NotEqual,
}

/// Which way a pointer or a number goes.
#[derive(Clone, Copy, Debug, PartialEq, Eq)]
pub enum Direction {
    Forward,
    Back,
}

/// An operator with one integer operand.
#[derive(Clone, Copy, Debug, PartialEq, Eq)]
pub enum Unary {
    Plus,
    Minus,
    Complement,
}

/// An operator between two operands.
#[derive(Clone, Copy, Debug, PartialEq, Eq)]
pub enum Operator {
    /// Both operands are used, then converted to the kind.
    Arithmetic(Op, Kind),
    /// A shift: the left operand is converted to the kind, and the right one stays as it is.
    Shift(Op, Kind),
    /// Integers, converted to the kind.
    Compare(Comparison, Kind),
    /// Two pointers of the pointer type.
    ComparePointers(Comparison, u32),
    /// A pointer, which is of the type, and an integer.
    Forward(u32),
    /// A pointer, which is of the type, less an integer.
    Back(u32),
    /// An integer, and a pointer of the type.
    ForwardOf(u32),
    /// Two pointers of the pointer type; the result is a long.
    Difference(u32),
}

/// How an argument of `printf` is shown.
#[derive(Clone, Copy, Debug, PartialEq, Eq)]
pub enum Conversion {
    /// `%c`
    Character,
    /// `%d`
    Decimal,
    /// `%u`
    Unsigned,
    /// `%x`
    Hexadecimal,
    /// `%ld`
    Long,
    /// `%lu`
    UnsignedLong,
}

/// An expression. A type that it holds is its own, so that of an address is a pointer type; that of an
/// assignment and of an increment is its place's too.
#[cycle(typed)]
#[derive(Drop)]
pub enum Expression {
    Constant(Kind, i128),
    NullPointer(u32),
    /// A scalar at a place, used at once.
    Read(u32, Place),
    /// A struct, as its place.
    Whole(u32, Place),
    /// A pointer to a place.
    Address(u32, Place),
    /// An array as a pointer to its first element.
    First(u32, Place),
    /// Operators of one level from left to right, each with the operand behind it.
    Row(Boxed<Expression>, Items<(Operator, Expression)>),
    /// `&&`, of two or more.
    AllOf(Boxed<Expression>, Items<Expression>),
    /// `||`, of two or more.
    AnyOf(Boxed<Expression>, Items<Expression>),
    Unary(Unary, Kind, Boxed<Expression>),
    /// `!`
    Isnt(Boxed<Expression>),
    /// `condition ? chosen : other`. There is no type where both are void.
    Choice {
        ty: Option<u32>,
        condition: Boxed<Expression>,
        chosen: Boxed<Expression>,
        other: Boxed<Expression>,
    },
    /// Of two or more the last gives the value.
    Sequence(Boxed<Expression>, Items<Expression>),
    /// A scalar or a struct is stored, and is the value.
    Assign(u32, Place, Boxed<Expression>),
    /// An assignment with an operator.
    AssignBy(u32, Operator, Place, Boxed<Expression>),
    /// `++` and `--`. In front of its operand the value is the new one.
    Increment {
        ty: u32,
        before: bool,
        way: Direction,
        place: Place,
    },
    /// To a kind: a cast, or what becomes an argument, an initial value, a result or a stored value.
    Conversion(Kind, Boxed<Expression>),
    /// To void.
    Discard(Boxed<Expression>),
    /// A member, by its first leaf, of a struct that is no place.
    MemberOf {
        ty: u32,
        leaf: u32,
        of: Boxed<Expression>,
    },
    Call(u32, Items<Expression>),
    /// `putchar`
    PutCharacter(Boxed<Expression>),
    /// `puts` of a pointer.
    PutText(Boxed<Expression>),
    /// `puts` of a literal.
    PutLiteral(Items<u8>),
    /// `printf`
    Print(Items<Print>),
    /// An object of so many elements, all 0 or not: a pointer of the type.
    Allocate {
        ty: u32,
        zeroed: bool,
        count: Boxed<Expression>,
    },
    /// `free`
    Release(Boxed<Expression>),
    Checkpoint,
}

/// A part of an object.
#[cycle(typed)]
#[derive(Drop)]
pub enum Place {
    Variable(u32),
    Global(u32),
    /// What a pointer points to.
    Pointee(Boxed<Expression>),
    /// A member of a struct, by its first leaf.
    Member(u32, Boxed<Place>),
}

/// A piece of what `printf` shows.
#[cycle(typed)]
#[derive(Drop)]
pub enum Print {
    Bytes(Items<u8>),
    Number(Conversion, Expression),
    /// `%s` of a pointer.
    Text(Expression),
    /// `%s` of a literal.
    Literal(Items<u8>),
}

/// What a leaf begins with.
#[derive(Clone, Copy, Debug, PartialEq, Eq)]
pub enum Fill {
    Constant(i128),
    Null,
    /// The address of a leaf of a global.
    Address(u32, u32),
}

/// What a variable begins with where its declaration is reached.
#[derive(Drop)]
pub enum Initial {
    Nothing,
    Value(Expression),
    /// Leaves, rising, and what they begin with. All others are 0 and null.
    Filled(Items<(u32, Fill)>),
}

/// A statement.
#[cycle(statement)]
#[derive(Drop)]
pub enum Statement {
    Block(Items<Statement>),
    /// The declaration of a variable is reached.
    Declare(u32, Initial),
    Evaluate(Expression),
    /// An `if`, where a missing `else` is an empty block.
    Choose {
        condition: Expression,
        chosen: Boxed<Statement>,
        other: Boxed<Statement>,
    },
    While {
        condition: Expression,
        body: Boxed<Statement>,
    },
    Do {
        body: Boxed<Statement>,
        condition: Expression,
    },
    For {
        start: Option<Expression>,
        condition: Option<Expression>,
        next: Option<Expression>,
        body: Boxed<Statement>,
    },
    /// Its value has the kind.
    Switch {
        kind: Kind,
        value: Expression,
        entries: Items<SwitchEntry>,
    },
    /// `break`
    Leave,
    /// `continue`
    GoRound,
    Return(Option<Expression>),
}

/// What stands in the braces of a switch.
#[cycle(statement)]
#[derive(Drop)]
pub enum SwitchEntry {
    Case(i128),
    Default,
    Statement(Statement),
}

/// A function with its body. The first of its variables are its parameters.
#[derive(Drop)]
pub struct Function {
    pub name: Items<u8>,
    pub result: Option<u32>,
    pub params: u32,
    /// The type of each variable.
    pub variables: Items<u32>,
    pub body: Items<Statement>,
    /// How many tokens its text has.
    pub tokens: u32,
}

/// A global object: its type, and what its leaves begin with, which rise. All others are 0 and null.
#[derive(Drop)]
pub struct GlobalVariable {
    pub ty: u32,
    pub fills: Items<(u32, Fill)>,
}

/// A program.
#[derive(Drop)]
pub struct Program {
    pub types: Types,
    /// The number of the pointer type to each of its own types, which are the first. Those behind them
    /// are there so that each of these has one.
    pub pointers: Items<u32>,
    pub globals: Items<GlobalVariable>,
    /// In the order of their definitions.
    pub functions: Items<Function>,
    /// The number of `main`.
    pub main: u32,
}
