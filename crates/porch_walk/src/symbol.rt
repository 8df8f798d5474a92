//! What may still be to come behind the tokens that a walk has read.

use porch_tree::{TagSort, Word};

/// What may begin where an operand begins.
#[derive(Clone, Copy, Debug)]
pub enum Mode {
    /// An assignment, or all that an assignment may be.
    Assign,
    /// A conditional, or all that it may be.
    Cond,
    /// A cast, or all that it may be.
    Cast,
    /// A unary behind `++` or `--`: no type in parentheses.
    Unary,
    /// A unary or a type in parentheses, behind `sizeof`.
    Size,
}

/// Whether a declarator has a name.
#[derive(Clone, Copy, Debug)]
pub enum Naming {
    Must,
    May,
    /// It must, and the name is a typedef name from behind the `;` on.
    Typedef,
    /// It has none, and no parentheses: that of a type name.
    Abstract,
}

/// Which words of a kind have been read: `char`, one of `short` and `long`, `int`, a sign.
#[derive(Clone, Copy, Debug)]
pub struct Kinds {
    pub char: bool,
    pub length: bool,
    pub int: bool,
    pub sign: bool,
}

/// A part that is to come. A list of them is to come in its order.
#[derive(Clone, Copy, Debug)]
pub enum Symbol {
    /// This word.
    Must(Word),
    /// An operand, and where its mode is an assignment or a conditional, what is behind it.
    Operand(Mode),
    /// The same, of which a parenthesis has been read.
    Open(Mode),
    /// More string literals.
    Texts,
    /// Suffixes.
    Suffixes,
    /// Operators with their operands, `?` with what belongs to it, and where what was read is a
    /// unary, an assignment.
    Behind(bool),
    /// Assignments, each behind a comma.
    Commas,
    /// Assignments with commas between them, or nothing.
    Optional,
    /// A base, or what is left of it behind `const`.
    Base,
    /// More words of a kind.
    Kind(Kinds),
    /// More `const`.
    Consts,
    /// What is behind `struct` or `enum`.
    Tag(TagSort),
    /// What is behind a tag.
    TagBody(TagSort),
    /// More fields, and the brace that closes them.
    Fields,
    /// More declarators of a field, and the semicolon.
    MoreDeclarators,
    /// `=` and the value of a constant of an enumeration, or nothing.
    ConstantValue,
    /// More constants, and the brace that closes them.
    Constants,
    Declarator(Naming),
    /// More `const` behind a star, and the rest of the declarator.
    Pointer(Naming),
    /// What is behind a parenthesis where a core may lack, up to the parenthesis that closes it.
    Nameless,
    /// Brackets and parameter lists.
    Brackets,
    /// Brackets.
    Counts,
    /// A count or nothing, and the bracket that closes it.
    Count,
    /// Parameters or nothing, and the parenthesis that closes them.
    Parameters,
    /// The same, of which `void` has been read.
    Void,
    /// More parameters, and the parenthesis that closes them.
    MoreParameters,
    /// Entries, and the semicolon.
    Entries,
    /// What is behind the declarator of an entry, and further entries.
    Entry,
    /// More entries, and the semicolon.
    MoreEntries,
    Initial,
    /// More initialisers, and the brace that closes them.
    MoreInitials,
    /// An initialiser and more of them, or the brace that closes them.
    NextInitial,
    /// Entries of the file, the first of which may be a function.
    FileEntries,
    /// What is behind the first declarator.
    FirstEntry,
    /// The semicolon of a typedef.
    EndTypedef,
    /// Declarations, and then statements.
    Body,
    /// Statements.
    Statements,
    Statement,
    /// The other branch of a choice, or nothing.
    Else,
    /// Labels and statements of a switch.
    Cases,
}
