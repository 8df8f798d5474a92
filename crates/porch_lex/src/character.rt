//! The classes of bytes.

ghost use Rattle.std.specs.Prelude.{◌≡◌, ◌∷◌, ◌+◌, ◌≤◌, nat_eq, [], length, take, drop};
ghost use Rattle.std.specs.List.{list_all, prefix_len, position_or_len, starts_with};
ghost use Rattle.porch_lex.specs.Characters.{is_space, is_blank, is_newline, is_digit, is_letter, is_word, is_printed, digit_value, is_digit_of};

pub fn is_space(c: u8) -> bool
    ensures { result ≡ is_space c }
{
    c == b' ' || (b'\t' <= c && c <= b'\r')
}

pub fn is_blank(c: u8) -> bool
    ensures { result ≡ is_blank c }
{
    c == b' ' || c == b'\t'
}

pub fn is_digit(c: u8) -> bool
    ensures { result ≡ is_digit c }
{
    b'0' <= c && c <= b'9'
}

pub fn is_letter(c: u8) -> bool
    ensures { result ≡ is_letter c }
{
    (b'A' <= c && c <= b'Z') || (b'a' <= c && c <= b'z') || c == b'_'
}

pub fn is_word(c: u8) -> bool
    ensures { result ≡ is_word c }
{
    is_letter(c) || is_digit(c)
}

pub fn is_printed(c: u8) -> bool
    ensures { result ≡ is_printed c }
{
    b' ' <= c && c <= b'~'
}

/// The value of a digit, or 16.
pub fn digit_value(c: u8) -> u8
    ensures value { result ≡ digit_value c }
    ensures small { result ≤ 16 }
{
    if is_digit(c) {
        c - b'0'
    } else if b'a' <= c && c <= b'f' {
        c - b'a' + 10
    } else if b'A' <= c && c <= b'F' {
        c - b'A' + 10
    } else {
        16
    }
}

pub fn is_digit_of(base: u8, c: u8) -> bool
    ensures { result ≡ is_digit_of base c }
{
    digit_value(c) < base
}

/// Whether this byte is the first of the text.
pub fn begins(text: &[u8], c: u8) -> bool
    ensures { result ≡ starts_with nat_eq text.now (c ∷ []) }
{
    match text {
        [] => false,
        [first, ..] => c == *first,
    }
}

/// Whether these bytes are the first two of the text.
pub fn begins_two(text: &[u8], c: u8, d: u8) -> bool
    ensures { result ≡ starts_with nat_eq text.now (c ∷ d ∷ []) }
{
    match text {
        [] => false,
        [_] => false,
        [first, second, ..] => c == *first && d == *second,
    }
}

/// Whether there are only spaces and tabs.
pub fn are_blanks(text: &[u8]) -> bool
    ensures { result ≡ list_all is_blank text.now }
{
    text.iter().all(|c| is_blank(*c))
}

/// What follows so many bytes.
#[tactic(auto, using(crate::proofs::Slices::rest_is))]
pub fn rest_from(text: &[u8], at: usize) -> &[u8]
    requires { at ≤ length text.now }
    ensures { result.now ≡ drop at text.now }
{
    &text[at..]
}

/// So many bytes in front.
pub fn front_of(text: &[u8], count: usize) -> &[u8]
    requires { count ≤ length text.now }
    ensures { result.now ≡ take count text.now }
{
    &text[..count]
}

/// How many letters, digits and underscores stand in front.
pub fn word_length(text: &[u8]) -> usize
    ensures value { result ≡ prefix_len is_word text.now }
    ensures within { result ≤ length text.now }
{
    let mut at = 0;
    while at < text.len() && is_word(text[at]) {
        at += 1;
    }
    at
}

/// How many digits of a base stand in front.
pub fn digit_length(base: u8, text: &[u8]) -> usize
    ensures value { result ≡ prefix_len (is_digit_of base) text.now }
    ensures within { result ≤ length text.now }
{
    let mut at = 0;
    while at < text.len() && is_digit_of(base, text[at]) {
        at += 1;
    }
    at
}

/// How many spaces and tabs stand in front.
pub fn blank_length(text: &[u8]) -> usize
    ensures value { result ≡ prefix_len is_blank text.now }
    ensures within { result ≤ length text.now }
{
    let mut at = 0;
    while at < text.len() && is_blank(text[at]) {
        at += 1;
    }
    at
}

/// How many bytes stand before the first newline, or before the end.
pub fn line_length(text: &[u8]) -> usize
    ensures value { result ≡ position_or_len is_newline text.now }
    ensures within { result ≤ length text.now }
{
    let mut at = 0;
    while at < text.len() && text[at] != b'\n' {
        at += 1;
    }
    at
}
