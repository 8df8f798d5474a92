//! When a file is open.
ghost use Rattle.std.specs.Prelude.{◌≢◌, ◌<◌};

/// A file is open where it has at least so many bytes and its byte 0 is the letter. The letter isn't the byte 0, which
/// closes; and an open file has more than one byte, since a crash may leave any one byte of a file that was empty.
#[derive(Clone, Copy)]
pub struct Gate {
    /// The byte 0 of an open file.
    pub letter: u8,
    /// The least number of bytes of an open file.
    pub least: u64,
    pub ghost no_zero: { letter ≢ 0 },
    pub ghost wide: { 1 < least },
}
