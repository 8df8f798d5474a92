//! Comments and includes.

ghost use Rattle.std.specs.Prelude.{◌≡◌, ◌≤◌, ◌+◌, nat_eq, length};
ghost use Rattle.std.specs.List.{list_any, starts_with};
ghost use Rattle.porch_lex.specs.Gaps.{is_comment_end, comment_length, headers, after_blanks, is_header_line, is_include};
ghost use Rattle.porch_lex.specs.Lexemes.{comment_lexeme, directive_lexeme};

use crate::character::{are_blanks, begins, blank_length, front_of, line_length, rest_from};
use crate::lexeme::Lexeme;
use crate::refusal::Rule;

/// What begins with `/*`: the text after it.
pub fn comment_lexeme(text: &[u8]) -> Lexeme
    ensures { result ≡ comment_lexeme (comment_length text.now) }
{
    match comment_length(text) {
        None => Lexeme::Fault(Rule::Word),
        Some(length) => Lexeme::Gap(length + 2, false),
    }
}

/// What begins with a `#` that is the first in its line: the text after it.
pub fn directive_lexeme(text: &[u8]) -> Lexeme
    ensures { result ≡ directive_lexeme text.now }
{
    let length = line_length(text);
    if is_include(front_of(text, length)) {
        Lexeme::Gap(length + 1, false)
    } else {
        Lexeme::Fault(Rule::Outside)
    }
}

/// Whether the text ends a comment at its beginning.
fn is_comment_end(text: &[u8]) -> bool
    ensures { result ≡ is_comment_end text.now }
{
    match text {
        [] => false,
        [first, rest @ ..] => *first == b'*' && begins(rest, b'/'),
    }
}

/// How many bytes there are up to the end of the first `*/`.
fn comment_length(text: &[u8]) -> Option<usize>
    ensures { result ≡ comment_length text.now }
{
    let mut at = 0;
    while at < text.len() {
        if is_comment_end(rest_from(text, at)) {
            return Some(at + 2);
        }
        at += 1;
    }
    None
}

fn after_blanks(text: &[u8]) -> &[u8]
    ensures { result.now ≡ after_blanks text.now }
{
    rest_from(text, blank_length(text))
}

fn begins_with(text: &[u8], word: &str) -> bool
    ensures { result ≡ starts_with nat_eq text.now word.now }
{
    text.starts_with(word.as_bytes())
}

fn is_header_line(text: &[u8], header: &str) -> bool
    ensures { result ≡ is_header_line text.now header.now }
{
    begins_with(text, header) && are_blanks(rest_from(text, header.len()))
}

fn is_header(text: &[u8]) -> bool
    ensures { result ≡ list_any (is_header_line text.now) headers }
{
    is_header_line(text, "<stdio.h>")
        || (is_header_line(text, "<stdlib.h>") || is_header_line(text, "\"porch.h\""))
}

fn is_include(line: &[u8]) -> bool
    ensures { result ≡ is_include line.now }
{
    let word = after_blanks(line);
    begins_with(word, "include") && is_header(after_blanks(rest_from(word, 7)))
}
