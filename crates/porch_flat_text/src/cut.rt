//! The parts of a line.

ghost use Rattle.std.specs.Prelude.{◌≡◌, ◌<◌, length, IfSome};
ghost use Rattle.std.specs.Option.{option_map};
ghost use Rattle.porch_flat_text.specs.inside.Cuts.{before, behind, word_part, inner_part, first, rest, line_of};

/// What stands before the first such byte, and what stands behind it.
fn cut(text: &[u8], mark: u8) -> (&[u8], &[u8])
    ensures before { result.0.now ≡ before mark text.now }
    ensures behind { result.1.now ≡ behind mark text.now }
{
    for (at, byte) in text.iter().enumerate() {
        if *byte == mark {
            return (&text[..at], &text[at + 1..]);
        }
    }
    (text, &[])
}

/// The word of a line, and what stands in the brackets.
pub(crate) fn parts_of(line: &[u8]) -> (&[u8], &[u8])
    ensures word { result.0.now ≡ word_part line.now }
    ensures inner { result.1.now ≡ inner_part line.now }
{
    let (word, behind) = cut(line, b'(');
    let (inner, _) = cut(behind, b')');
    (word, inner)
}

/// The first argument, and the rest behind a comma and a space.
pub(crate) fn next_argument(inner: &[u8]) -> (&[u8], &[u8])
    ensures first { result.0.now ≡ first inner.now }
    ensures rest { result.1.now ≡ rest inner.now }
{
    let (argument, behind) = cut(inner, b',');
    match behind {
        [] => (argument, behind),
        [_, rest @ ..] => (argument, rest),
    }
}

/// The first line with its newline, and what stands behind it, where there is a whole line.
pub(crate) fn first_line(text: &[u8]) -> Option<(&[u8], &[u8])>
    ensures found { option_map (λ found. (found.0.now, found.1.now)) result ≡ line_of text.now }
    ensures shorter { IfSome result (λ found. length found.1.now < length text.now) }
{
    for (at, byte) in text.iter().enumerate() {
        if *byte == b'\n' {
            return Some((&text[..at + 1], &text[at + 1..]));
        }
    }
    None
}

/// How many lines there are up to one that begins as `END();` does, no more than there is room for: the shortest
/// command has eight bytes. It is a hint at the room that the commands of a function take.
pub(crate) fn lines_to_end(text: &[u8]) -> usize {
    let mut lines = 0usize;
    let mut last = 0;
    let mut before = 0;
    for (at, byte) in text.iter().enumerate() {
        if before == b'\n' && last == b'E' && *byte == b'N' {
            return lines.min(at / 8);
        }
        if *byte == b'\n' {
            lines = lines.saturating_add(1);
        }
        before = last;
        last = *byte;
    }
    lines.min(text.len() / 8)
}
