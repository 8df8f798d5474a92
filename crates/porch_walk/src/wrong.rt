//! What is wrong with a text's tokens.

/// The rules that a token can break in a walk.
#[derive(Clone, Copy, Debug, PartialEq, Eq)]
pub enum WalkFault {
    /// No unit of the grammar goes on with this token.
    Syntax,
    /// The token is outside the language.
    Outside,
}

/// A broken rule, and the number of the token, from 0, at which it is broken; behind the last token it is
/// how many there are.
#[derive(Clone, Copy, Debug, PartialEq, Eq)]
pub struct WrongToken {
    pub token: usize,
    pub fault: WalkFault,
}
