//! What words order.

use porch_session::Limits;
use porch_values::Widths;

/// What the words of the command line order. The name of a layout is borrowed from its word.
#[derive(Clone, Copy, Debug)]
pub enum Order<'w> {
    /// Compile a source and run it.
    Exec { layout: &'w str, limits: Limits },
    /// Print the flat program of a source.
    Compile,
    /// Begin a session with a source.
    Start { layout: &'w str, limits: Limits },
    /// Go on with a session.
    Resume { layout: &'w str, limits: Limits },
    /// Close the program of a folder.
    Clear,
    /// Look for undefined behaviour in a source, for at most so many turns.
    Vet { widths: Widths, turns: u64 },
    /// Describe a folder.
    Show,
    /// Try the lives of a generated source, whose number is 0 to 999,999.
    Drill { number: u32 },
}

/// The words are none of the command line's.
#[derive(Clone, Copy, Debug, PartialEq, Eq)]
pub struct Usage;
