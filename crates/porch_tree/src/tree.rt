//! The tree of a source text, with one variant for each alternative of the grammar.
//!
//! Its parts stand in the order of the text, and each repetition of the grammar is a list. A place
//! `at` is a byte of the text, from 0, that of a part's first token. It is kept where the part
//! doesn't begin with another part or a name. What a text may write in more than one way, as the
//! order of the words of a kind, is kept as it is written, so that a tree is the tree of one list
//! of tokens.

use crate::word::Keyword;
use sqlite_items::{Boxed, Items};

/// A name, a constant or a string literal: the bytes of the text from `at` up to `to`.
#[derive(Clone, Copy, Debug, PartialEq, Eq)]
pub struct Name {
    pub at: u32,
    pub to: u32,
}

/// How many `const` stand in front of the words of a base, and how many behind them.
#[derive(Clone, Copy, Debug, PartialEq, Eq)]
pub struct Consts {
    pub before: u32,
    pub behind: u32,
}

/// The two words before a tag.
#[derive(Clone, Copy, Debug, PartialEq, Eq)]
pub enum TagSort {
    Struct,
    Enum,
}

/// An operator in front of its operand.
#[derive(Clone, Copy, Debug, PartialEq, Eq)]
pub enum Prefix {
    Increase,
    Decrease,
    Address,
    Pointee,
    Plus,
    Minus,
    Complement,
    Not,
    Sizeof,
}

/// The levels of the left-associative operators, the weakest first.
#[derive(Clone, Copy, Debug, PartialEq, Eq)]
pub enum Level {
    Any,
    All,
    BitOr,
    BitXor,
    BitAnd,
    Equality,
    Relation,
    Shift,
    Sum,
    Product,
}

/// A left-associative operator between its operands.
#[derive(Clone, Copy, Debug, PartialEq, Eq)]
pub enum Infix {
    Any,
    All,
    BitOr,
    BitXor,
    BitAnd,
    Equal,
    NotEqual,
    Less,
    Greater,
    LessEqual,
    GreaterEqual,
    ShiftLeft,
    ShiftRight,
    Add,
    Sub,
    Mul,
    Div,
    Rem,
}

/// An assignment: `=`, or an operator with it.
#[derive(Clone, Copy, Debug, PartialEq, Eq)]
pub enum Assigning {
    Plain,
    Mul,
    Div,
    Rem,
    Add,
    Sub,
    ShiftLeft,
    ShiftRight,
    BitAnd,
    BitXor,
    BitOr,
}

/// An expression.
#[cycle(tree)]
#[derive(Drop)]
pub enum Expr {
    Name(Name),
    /// An integer constant.
    Whole(Name),
    /// A character constant.
    Character(Name),
    /// String literals that stand side by side.
    Texts {
        first: Name,
        more: Items<Name>,
    },
    /// `( expr )`
    Nested {
        at: u32,
        expr: Boxed<Expr>,
    },
    /// An operand, and what stands behind it, at least one suffix.
    Suffixed {
        operand: Boxed<Expr>,
        suffixes: Items<Suffix>,
    },
    /// An operator in front of its operand.
    Prefixed {
        at: u32,
        prefix: Prefix,
        operand: Boxed<Expr>,
    },
    /// `sizeof ( typename )`
    SizeOf {
        at: u32,
        name: Boxed<TypeName>,
    },
    /// `( typename ) operand`
    Cast {
        at: u32,
        name: Boxed<TypeName>,
        operand: Boxed<Expr>,
    },
    /// Operands of one level, each but the first behind its operator. There are at least two.
    Row {
        level: Level,
        first: Boxed<Expr>,
        more: Items<(Infix, Expr)>,
    },
    /// `condition ? chosen : other`
    Conditional {
        condition: Boxed<Expr>,
        chosen: Boxed<Expr>,
        other: Boxed<Expr>,
    },
    /// `place = value`, or with an operator.
    Assign {
        assigning: Assigning,
        place: Boxed<Expr>,
        value: Boxed<Expr>,
    },
    /// Expressions with commas between them, at least two.
    Sequence {
        first: Boxed<Expr>,
        more: Items<Expr>,
    },
}

/// What stands behind an operand.
#[cycle(tree)]
#[derive(Drop)]
pub enum Suffix {
    /// `[ expr ]`
    Index(Expr),
    /// Arguments in parentheses.
    Call(Items<Expr>),
    /// `. name`
    Member(Name),
    /// `-> name`
    Arrow(Name),
    Increased,
    Decreased,
}

/// A type in front of its declarators.
#[cycle(tree)]
#[derive(Drop)]
pub enum Base {
    /// A kind: its words as written, `const` among them.
    Kind {
        at: u32,
        words: Items<Keyword>,
    },
    Void {
        at: u32,
        consts: Consts,
    },
    /// A typedef name.
    TypedefName {
        at: u32,
        name: Name,
        consts: Consts,
    },
    /// `struct` or `enum` and a tag.
    Tag {
        at: u32,
        sort: TagSort,
        tag: Name,
        consts: Consts,
    },
    /// `struct`, a tag or none, and its fields, at least one.
    Struct {
        at: u32,
        tag: Option<Name>,
        fields: Items<Field>,
        consts: Consts,
    },
    /// `enum`, a tag or none, and its constants, at least one.
    Enum {
        at: u32,
        tag: Option<Name>,
        constants: Items<Constant>,
        consts: Consts,
    },
}

/// Members of one base, at least one.
#[cycle(tree)]
#[derive(Drop)]
pub struct Field {
    pub base: Base,
    pub declarators: Items<Declarator>,
}

/// An enumeration constant, with its value where the text gives one.
#[cycle(tree)]
#[derive(Drop)]
pub struct Constant {
    pub name: Name,
    pub value: Option<Expr>,
}

/// What a declared name is to its base. Of a declarator without tokens the place is 0.
#[cycle(tree)]
#[derive(Drop)]
pub struct Declarator {
    pub at: u32,
    /// How many `const` stand behind each `*`.
    pub stars: Items<u32>,
    pub core: Core,
    pub brackets: Items<Bracket>,
}

/// What a declarator is about.
#[cycle(tree)]
#[derive(Drop)]
pub enum Core {
    /// No name: in a type name, or in a parameter.
    Lacking,
    Named(Name),
    /// `( declarator )`
    Inner {
        at: u32,
        declarator: Boxed<Declarator>,
    },
}

/// What stands behind the core of a declarator.
#[cycle(tree)]
#[derive(Drop)]
pub enum Bracket {
    /// `[ count ]`
    Count(Option<Expr>),
    /// `( )`
    EmptyList,
    /// `( void )`
    VoidList,
    /// Parameters in parentheses, at least one.
    ParamList(Items<Param>),
}

/// A parameter.
#[cycle(tree)]
#[derive(Drop)]
pub struct Param {
    pub base: Base,
    pub declarator: Declarator,
}

/// A type by itself. Its declarator has no core and no parameters.
#[cycle(tree)]
#[derive(Drop)]
pub struct TypeName {
    pub base: Base,
    pub declarator: Declarator,
}

/// What an object begins with.
#[derive(Drop)]
pub enum Initial {
    Value(Expr),
    /// Initialisers in braces, at least one, and whether a comma stands behind the last.
    Braced {
        at: u32,
        items: Items<Initial>,
        comma: bool,
    },
}

/// A declared name, with its initialiser if it has one.
#[derive(Drop)]
pub struct Entry {
    pub declarator: Declarator,
    pub initial: Option<Initial>,
}

/// A declaration: the place of `static` if it stands there, the base and the entries.
#[derive(Drop)]
pub struct Declaration {
    pub fixed: Option<u32>,
    pub base: Base,
    pub entries: Items<Entry>,
}

/// A statement.
#[cycle(statement)]
#[derive(Drop)]
pub enum Stmt {
    /// `{ declarations statements }`
    Block {
        at: u32,
        declarations: Items<Declaration>,
        body: Items<Stmt>,
    },
    /// `expr ;`, or `;`
    Evaluate(Option<Expr>),
    /// `if ( condition ) chosen`, and `else other` if it stands there
    Choose {
        at: u32,
        condition: Expr,
        chosen: Boxed<Stmt>,
        other: Option<Boxed<Stmt>>,
    },
    /// `while ( condition ) body`
    While {
        at: u32,
        condition: Expr,
        body: Boxed<Stmt>,
    },
    /// `do body while ( condition ) ;`
    Do {
        at: u32,
        body: Boxed<Stmt>,
        condition: Expr,
    },
    /// `for ( start ; condition ; next ) body`
    For {
        at: u32,
        start: Option<Expr>,
        condition: Option<Expr>,
        next: Option<Expr>,
        body: Boxed<Stmt>,
    },
    /// `switch ( value ) { entries }`
    Switch {
        at: u32,
        value: Expr,
        entries: Items<SwitchEntry>,
    },
    Break {
        at: u32,
    },
    Continue {
        at: u32,
    },
    /// `return value ;`
    Return {
        at: u32,
        value: Option<Expr>,
    },
}

/// What stands in the braces of a switch.
#[cycle(statement)]
#[derive(Drop)]
pub enum SwitchEntry {
    /// `case value :`
    Case { at: u32, value: Expr },
    /// `default :`
    Default { at: u32 },
    Stmt(Stmt),
}

/// A function with its body: the place of `static` if it stands there, the base, the declarator, and
/// the block.
#[derive(Drop)]
pub struct Definition {
    pub fixed: Option<u32>,
    pub base: Base,
    pub declarator: Declarator,
    pub declarations: Items<Declaration>,
    pub body: Items<Stmt>,
}

/// What a text is made of.
#[derive(Drop)]
pub enum Item {
    /// `typedef base declarator ;`
    Typedef { base: Base, declarator: Declarator },
    Declaration(Declaration),
    Function(Definition),
}

/// A whole text.
#[derive(Drop)]
pub struct Tree {
    pub items: Items<Item>,
}
