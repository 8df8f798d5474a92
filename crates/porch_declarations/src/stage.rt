//! What has been read of a declaration, and what stands in front of the next token.

use porch_parts::{Reader, Turn};
use porch_tree::{Declaration, Declarator, Initial};
use sqlite_items::{Boxed, Items};

/// Braces that are still to be closed: their place, and initialisers, each with a comma behind it.
#[derive(Drop)]
pub struct Brace {
    pub at: u32,
    pub items: Items<Initial>,
}

/// What is still to be ended, in types and expressions and in braces.
#[derive(Drop)]
pub struct Declarer {
    pub reader: Reader,
    pub braces: Items<Brace>,
}

/// What stands in front of the next token. The entries of a declaration are those that have ended.
#[derive(Drop)]
pub enum Stage {
    AtStart,
    /// A base and a declarator are being read, behind `static` at a place or not.
    InTyped(Option<u32>, Turn),
    InDeclared(Boxed<Declaration>, Turn),
    /// An initialiser of this declarator begins.
    AtInitial(Boxed<Declaration>, Boxed<Declarator>),
    InValue(Boxed<Declaration>, Boxed<Declarator>, Turn),
    BehindInitial(Boxed<Declaration>, Boxed<Declarator>, Boxed<Initial>),
    /// The declaration has ended with its `;`.
    Over(Boxed<Declaration>),
    /// The `{` of a body has been read behind a declarator.
    Headed(Boxed<Declaration>, Boxed<Declarator>),
    /// No unit has these tokens.
    Broken,
}
