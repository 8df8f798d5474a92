//! What names and tags mean.

use porch_tree::tree::TagSort;

/// A function of the library.
#[derive(Clone, Copy, Debug)]
pub enum Library {
    Printf,
    Puts,
    Putchar,
    Malloc,
    Calloc,
    Free,
    Checkpoint,
}

/// What a name means.
#[derive(Clone, Copy, Debug)]
pub enum Meaning {
    /// An object of a function: its number there, and its type.
    Variable(u32, u32),
    /// An object of the file: its number, and its type.
    Global(u32, u32),
    /// A typedef name, of a type.
    TypeName(u32),
    /// An enumeration constant.
    Enumerator(i128),
    /// A function of the program.
    Function,
    Library(Library),
    /// `NULL`
    Null,
}

/// What a tag means: the word that it is declared with, its type where that is `struct`, and whether a
/// brace of it was opened.
#[derive(Clone, Copy, Debug)]
pub struct Tag {
    pub sort: TagSort,
    pub shape: u32,
    pub begun: bool,
}
