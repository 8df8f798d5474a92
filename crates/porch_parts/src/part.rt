//! The parts of types and declarators that are still to be ended, and what stands in front of the next
//! token.

use porch_tree::{
    Base, Bracket, Constant, Core, Declarator, Field, Keyword, Name, Param, TagSort, TypeName,
};
use sqlite_items::{Boxed, Items};

/// The place of a base, and how many `const` stand in front of its words.
#[derive(Clone, Copy, Debug)]
pub struct Front {
    pub at: u32,
    pub before: u32,
}

/// A base that its last word or brace has ended, but for `const` behind it.
#[derive(Drop)]
pub enum Form {
    Void,
    Typedef(Name),
    Tag(TagSort, Name),
    Fields(Option<Name>, Items<Field>),
    Constants(Option<Name>, Items<Constant>),
}

/// A declarator as far as it has been read.
#[derive(Drop)]
pub struct Declaring {
    pub at: u32,
    pub stars: Items<u32>,
    pub core: Core,
    pub brackets: Items<Bracket>,
}

/// A part that is still to be ended.
#[derive(Drop)]
pub enum Part {
    /// A base, and declarators behind it, each with a comma behind it.
    Typed {
        base: Boxed<Base>,
        declarators: Items<Declarator>,
    },
    /// `struct {` and fields.
    InFields {
        front: Front,
        tag: Option<Name>,
        fields: Items<Field>,
    },
    /// `enum {` and constants, each with a comma behind it.
    InConstants {
        front: Front,
        tag: Option<Name>,
        constants: Items<Constant>,
    },
    /// An enumeration constant and `=`.
    InConstant(Name),
    /// Parameters, each with a comma behind it.
    InParams {
        declaring: Boxed<Declaring>,
        params: Items<Param>,
    },
    /// `[` of a count.
    InCount(Boxed<Declaring>),
    /// `(` around a declarator, behind these stars.
    InInner {
        at: u32,
        stars: Items<u32>,
        inner_at: u32,
    },
    /// A type by itself, in a part that is no type.
    Alone,
}

/// What stands in front of the next token.
#[derive(Drop)]
pub enum Point {
    AtBase,
    /// Words of a kind, or `const`: how many, and whether no other word has been read.
    BehindWords {
        at: u32,
        words: Items<Keyword>,
        number: u32,
        only: bool,
    },
    AtTag(Front, TagSort),
    BehindTag(Front, TagSort, Name),
    /// A base, and how many `const` behind it.
    BehindForm {
        front: Front,
        form: Form,
        behind: u32,
    },
    AtConstant,
    BehindConstant(Name),
    AtValue,
    AtDeclarator,
    /// Stars, and the `const` behind the last of them.
    BehindStar {
        at: u32,
        stars: Items<u32>,
        consts: u32,
    },
    /// `(` has been read where a core may stand.
    AtCore {
        at: u32,
        stars: Items<u32>,
        inner_at: u32,
    },
    BehindCore(Boxed<Declaring>),
    AtCount(Boxed<Declaring>),
    /// An expression begins with this very token.
    AtExpr,
    /// A base, a declarator or a type ended in front of this very token.
    OverBase(Boxed<Base>),
    OverDeclarator(Boxed<Declaring>),
    OverType(Boxed<TypeName>),
    /// No unit has these tokens.
    Broken,
}
