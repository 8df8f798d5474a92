//! What the pieces of a text are: words, constants and marks.

ghost use Rattle.std.specs.Prelude.{◌≡◌, ◌≤◌, ◌==◌, ◌&&◌, not, length};
ghost use Rattle.std.specs.List.{list_any, list_all, prefix_len};
ghost use Rattle.std.specs.Str.{bytes_eq};
ghost use Rattle.porch_syntax.specs.Token.{is_between, is_space, is_digit, is_letter, is_word, is_name, is_decimal, reserved};
ghost use Rattle.porch_syntax.specs.inside.Lexing.{decimal_kind, name_kind, word_kind, mark_kind, quoted_kind, other_kind, kind_of, quoted_more, more_of, length_of};

use crate::token::Token;

/// What a piece of the text is.
#[derive(Clone, Copy)]
pub enum Lexeme {
    Fixed(Token),
    Name,
    Wrong,
}

/// The keywords of C90, and the two names that the language gives a meaning of its own.
const RESERVED: [&str; 34] = [
    "auto", "break", "case", "char", "const", "continue", "default", "do", "double", "else",
    "enum", "extern", "float", "for", "goto", "if", "int", "long", "register", "return", "short",
    "signed", "sizeof", "static", "struct", "switch", "typedef", "union", "unsigned", "void",
    "volatile", "while", "main", "putchar",
];

pub fn space(c: u8) -> bool
    ensures { result ≡ is_space c }
{
    c == 32 || (9 <= c && c <= 13)
}

fn digit(c: u8) -> bool
    ensures { result ≡ is_digit c }
{
    48 <= c && c <= 57
}

fn letter(c: u8) -> bool
    ensures { result ≡ is_letter c }
{
    (65 <= c && c <= 90) || (97 <= c && c <= 122) || c == 95
}

fn word_character(c: u8) -> bool
    ensures { result ≡ is_word c }
{
    letter(c) || digit(c)
}

fn all_words(text: &[u8]) -> bool
    ensures { result ≡ list_all is_word text.now }
{
    text.iter().all(|c| word_character(*c))
}

fn all_digits(text: &[u8]) -> bool
    ensures { result ≡ list_all is_digit text.now }
{
    text.iter().all(|c| digit(*c))
}

fn named(lexeme: &[u8]) -> bool
    ensures { result ≡ is_name lexeme.now }
{
    match lexeme {
        [] => false,
        [first, rest @ ..] => letter(*first) && all_words(rest),
    }
}

fn decimal(lexeme: &[u8]) -> bool
    ensures { result ≡ is_decimal lexeme.now }
{
    match lexeme {
        [] => false,
        [only] => digit(*only),
        [first, _, ..] => digit(*first) && *first != 48 && all_digits(lexeme),
    }
}

fn is(lexeme: &[u8], word: &str) -> bool
    ensures { result ≡ bytes_eq lexeme.now word.now }
{
    lexeme == word.as_bytes()
}

fn is_one_of(lexeme: &[u8], words: &[&str]) -> bool
    ensures { result ≡ list_any (λ word. bytes_eq lexeme.now word.now) words.now }
{
    words.iter().any(|word| is(lexeme, word))
}

fn is_reserved(lexeme: &[u8]) -> bool
    ensures { result ≡ list_any (bytes_eq lexeme.now) reserved }
{
    is_one_of(lexeme, &RESERVED)
}

fn name(lexeme: &[u8]) -> Lexeme
    ensures { result ≡ name_kind lexeme.now }
{
    if is_reserved(lexeme) {
        Lexeme::Wrong
    } else {
        Lexeme::Name
    }
}

fn word(lexeme: &[u8]) -> Lexeme
    ensures { result ≡ word_kind lexeme.now }
{
    if is(lexeme, "int") {
        Lexeme::Fixed(Token::Int)
    } else if is(lexeme, "main") {
        Lexeme::Fixed(Token::Main)
    } else if is(lexeme, "void") {
        Lexeme::Fixed(Token::Void)
    } else if is(lexeme, "while") {
        Lexeme::Fixed(Token::While)
    } else if is(lexeme, "return") {
        Lexeme::Fixed(Token::Return)
    } else if is(lexeme, "putchar") {
        Lexeme::Fixed(Token::Putchar)
    } else {
        name(lexeme)
    }
}

fn constant(lexeme: &[u8]) -> Lexeme
    ensures { result ≡ decimal_kind lexeme.now }
{
    let mut value: u64 = 0;
    for c in lexeme {
        value = 10 * value + c.saturating_sub(48) as u64;
        if value >= 2147483648 {
            return Lexeme::Wrong;
        }
    }
    Lexeme::Fixed(Token::Whole(value as i32))
}

fn mark(c: u8) -> Lexeme
    ensures { result ≡ mark_kind c }
{
    match c {
        b'(' => Lexeme::Fixed(Token::OpenParenthesis),
        b')' => Lexeme::Fixed(Token::CloseParenthesis),
        b'{' => Lexeme::Fixed(Token::OpenBrace),
        b'}' => Lexeme::Fixed(Token::CloseBrace),
        b';' => Lexeme::Fixed(Token::Semicolon),
        b'=' => Lexeme::Fixed(Token::Assign),
        b'<' => Lexeme::Fixed(Token::Less),
        b'+' => Lexeme::Fixed(Token::Plus),
        b'-' => Lexeme::Fixed(Token::Minus),
        b'*' => Lexeme::Fixed(Token::Star),
        _ => Lexeme::Wrong,
    }
}

fn plain(c: u8) -> bool
    ensures { result ≡ (is_between 32 126 c && not (c == 39) && not (c == 92)) }
{
    32 <= c && c <= 126 && c != 39 && c != 92
}

fn quoted(before: u8, c: u8, after: u8) -> Lexeme
    ensures { result ≡ quoted_kind before c after }
{
    if before == 39 && after == 39 && plain(c) {
        Lexeme::Fixed(Token::Character(c))
    } else {
        Lexeme::Wrong
    }
}

fn other(lexeme: &[u8]) -> Lexeme
    ensures { result ≡ other_kind lexeme.now }
{
    match lexeme {
        [] => Lexeme::Wrong,
        [c] => mark(*c),
        [_, _] => Lexeme::Wrong,
        [before, c, after] => quoted(*before, *c, *after),
        [_, _, _, _, ..] => Lexeme::Wrong,
    }
}

/// What these characters are.
pub fn classify(lexeme: &[u8]) -> Lexeme
    ensures { result ≡ kind_of lexeme.now }
{
    if named(lexeme) {
        word(lexeme)
    } else if decimal(lexeme) {
        constant(lexeme)
    } else {
        other(lexeme)
    }
}

fn word_length(text: &[u8]) -> usize
    ensures { result ≡ prefix_len is_word text.now }
{
    let mut at = 0;
    while at < text.len() && word_character(text[at]) {
        at += 1;
    }
    at
}

fn quoted_length(text: &[u8]) -> usize
    ensures { result ≡ quoted_more text.now }
{
    match text {
        [] => 0,
        [_] => 1,
        [_, _, ..] => 2,
    }
}

#[tactic(auto, using(crate::proofs::Pieces::prefix_within))]
fn more_length(first: u8, behind: &[u8]) -> usize
    ensures value { result ≡ more_of first behind.now }
    ensures within { result ≤ length behind.now }
{
    if word_character(first) {
        word_length(behind)
    } else if first == 39 {
        quoted_length(behind)
    } else {
        0
    }
}

/// How many characters the piece at the front has.
pub fn piece_length(text: &[u8]) -> usize
    ensures value { result ≡ length_of text.now }
    ensures within { result ≤ length text.now }
{
    match text {
        [] => 0,
        [first, behind @ ..] => more_length(*first, behind) + 1,
    }
}
