//! Worked texts for the lexer: tokens with their places, and where texts break a rule of tokens.

use porch_lex::{
    Refusal, Rule, SOURCE_LIMIT, SourceFault, Token, TokenKind, character_of, lex, whole_of,
};
use porch_tree::{Keyword, Mark};
use std::alloc::Global;
use std::process::Abort;
use std::test::Fail;

fn expect_refused(rt: &impl Abort, alloc: Global, text: &[u8], at: u32, rule: Rule) {
    match lex(alloc, text) {
        Err(SourceFault::Refused(refusal)) => {
            assert_eq!(rt; refusal, Refusal { at, rule }, "{text:?}");
        }
        _ => assert!(rt; false, "no rule is broken in {text:?}"),
    }
}

fn expect_rows(rt: &impl Abort, alloc: Global, rule: Rule, rows: &[(&str, u32)]) {
    for (text, at) in rows {
        expect_refused(rt, alloc, text.as_bytes(), *at, rule);
    }
}

#[test]
fn a_byte_that_begins_no_token_is_named(rt: HostRuntime) {
    let rows = [
        // a byte that begins no token
        ("int x; $ int main(void){return 0;}", 7),
        ("int x; ` int main(void){return 0;}", 7),
        ("int x; \x00 int main(void){return 0;}", 7),
        ("int x; \x7f int main(void){return 0;}", 7),
        // a comment before # makes that # a byte like any other
        (
            "/* one */ #include <stdlib.h>\nint main(void){return 0;}",
            10,
        ),
        // # elsewhere than first in its line begins no token
        ("int x; #define A int main(void){return 0;}", 7),
        // a byte above 127 outside comments and literals
        ("int é ; int main(void){return 0;}", 4),
        // a backslash at a line's end joins no lines
        ("int x \\\n; int main(void){return 0;}", 6),
        // tokens of the whole text come before the grammar
        ("int main(void){return 1 2; return 0;} @", 38),
    ];
    expect_rows(&rt, rt.alloc(), Rule::Byte, &rows);
}

#[test]
fn a_constant_a_literal_or_a_comment_out_of_form_is_named_at_its_first_byte(rt: HostRuntime) {
    let rows = [
        // a constant with a letter, a digit or a dot at its end, or digits that aren't its base's
        ("int main(void){return 08;}", 22),
        ("int main(void){return 1.5;}", 22),
        ("int main(void){return 1e3;}", 22),
        ("int main(void){return 1ll;}", 22),
        ("int main(void){return 09;}", 22),
        ("int main(void){return 0b1;}", 22),
        ("int main(void){return 0xU;}", 22),
        // a literal or a comment that isn't ended, or holds what it may not
        ("int main(void){return 'a", 22),
        ("int main(void){return '", 22),
        ("int main(void){return '\\", 22),
        ("int main(void){return '\x7f'", 22),
        ("int main(void){return '\\'", 22),
        ("int main(void){return L''", 23),
        ("int main(void){return \"a\tb\"", 22),
        ("int main(void){return \"\\q\"", 22),
        ("int main(void){return \"\\x1ff\"", 22),
        ("int main(void){return \"é\"", 22),
        ("int main(void){return /* x", 22),
        ("int main(void){return /*/", 22),
        // a constant that is both too wide and followed by a letter
        ("int main(void){return 77777777777777y; return 0;}", 22),
        // a suffix is u, l, ul or lu
        ("int main(void){return 7uul; return 0;}", 22),
        // an octal escape has at most three digits, so this holds two characters
        ("int main(void){return '\\0601'; return 0;}", 22),
        // 8 is no octal digit, so this holds two characters
        ("int main(void){return '\\18'; return 0;}", 22),
        // an escape above 255
        ("int main(void){puts(\"\\x100\"); return 0;}", 20),
        // an escape that isn't there
        ("int main(void){putchar('\\e'); return 0;}", 23),
        // a newline ends no string literal
        ("int main(void){puts(\"one\ntwo\"); return 0;}", 20),
        // a comment that isn't ended
        ("int x; int main(void){return 0;} /* the end", 33),
        // no hexadecimal digits
        ("int main(void){return 0X; return 0;}", 22),
        // tokens of the whole text come before the grammar, directives among them
        ("int main(void){float x; return 08;}", 31),
        // three quotes are a character constant that holds none
        ("int main(void){return '''; return 0;}", 22),
    ];
    expect_rows(&rt, rt.alloc(), Rule::Word, &rows);
    // a byte that is no text by itself
    let high = [b'p', b'(', b'"', 0xfc, b'"', b')'];
    expect_refused(&rt, rt.alloc(), &high, 2, Rule::Word);
}

#[test]
fn a_constant_past_its_greatest_value_is_named(rt: HostRuntime) {
    let rows = [
        // a constant past the greatest value of its spelling
        (
            "int main(void){return 99999999999999999999999999999999999;}",
            22,
        ),
        ("int main(void){return 0x100000000;}", 22),
        ("int main(void){return 2147483648l;}", 22),
        ("int main(void){return 4294967296ul;}", 22),
        // the first decimal past int, without a suffix
        ("int x=2147483650; int main(void){return 0;}", 6),
        // the first octal past unsigned int
        ("unsigned x=040000000001; int main(void){return 0;}", 11),
        // an l constant past the least long, also in hexadecimal
        ("long x=0x80000001L; int main(void){return 0;}", 7),
        // a u constant past unsigned int
        ("unsigned long x=4294967297U; int main(void){return 0;}", 16),
    ];
    expect_rows(&rt, rt.alloc(), Rule::WideConstant, &rows);
}

#[test]
fn a_directive_that_is_no_include_is_named_at_its_hash(rt: HostRuntime) {
    let rows = [
        // a directive that isn't one of the three includes, at its #
        ("int x;\n  #include <string.h>\nint main(void){}", 9),
        ("int x;\n  #define A\nint main(void){}", 9),
        ("int x;\n  #include \"stdio.h\"\nint main(void){}", 9),
        ("int x;\n  #pragma x\nint main(void){}", 9),
        ("int x;\n  #if 0\nint main(void){}", 9),
        // a carriage return before the newline stands in the include's line
        ("#include <stdio.h>\r\nint main(void){return 0;}", 0),
        // behind an include only spaces and tabs may stand
        (
            "#include \"porch.h\" /* ours */\nint main(void){return 0;}",
            0,
        ),
        // the name of an include stands without blanks inside its brackets
        ("\t # include <stdlib.h >\nint main(void){return 0;}", 2),
        // a directive behind the program
        ("int main(void){return 0;}\n#undef x", 26),
        // tokens of the whole text come before the typing rules
        ("int main(void){return x;}\n#line 7", 26),
    ];
    expect_rows(&rt, rt.alloc(), Rule::Outside, &rows);
}

fn token(kind: TokenKind, from: u32, to: u32) -> Token {
    Token { kind, from, to }
}

#[test]
fn a_small_text_has_these_tokens(rt: HostRuntime) -> Result<(), Fail> {
    let text = " #\tinclude<stdio.h> \n/*\n#*/int x;x=a+++0x1fUL>>='\\x41';p->m(\"a\"\"\\\"\");";
    let want = [
        token(TokenKind::Keyword(Keyword::Int), 27, 30),
        token(TokenKind::Name, 31, 32),
        token(TokenKind::Mark(Mark::Semicolon), 32, 33),
        token(TokenKind::Name, 33, 34),
        token(TokenKind::Mark(Mark::Equal), 34, 35),
        token(TokenKind::Name, 35, 36),
        token(TokenKind::Mark(Mark::PlusPlus), 36, 38),
        token(TokenKind::Mark(Mark::Plus), 38, 39),
        token(TokenKind::Whole, 39, 45),
        token(TokenKind::Mark(Mark::ShiftRightEqual), 45, 48),
        token(TokenKind::Character, 48, 54),
        token(TokenKind::Mark(Mark::Semicolon), 54, 55),
        token(TokenKind::Name, 55, 56),
        token(TokenKind::Mark(Mark::Arrow), 56, 58),
        token(TokenKind::Name, 58, 59),
        token(TokenKind::Mark(Mark::OpenParenthesis), 59, 60),
        token(TokenKind::Text, 60, 63),
        token(TokenKind::Text, 63, 67),
        token(TokenKind::Mark(Mark::CloseParenthesis), 67, 68),
        token(TokenKind::Mark(Mark::Semicolon), 68, 69),
    ];
    let tokens = lex(rt.alloc(), text.as_bytes())?;
    assert_eq!(rt; tokens.as_slice(), want.as_slice());
    Ok(())
}

#[test]
fn keywords_are_whole_words(rt: HostRuntime) -> Result<(), Fail> {
    let text =
        "auto break case char const continue default do double else enum extern float for goto if int \
        long register return short signed sizeof static struct switch typedef union unsigned void volatile while";
    let tokens = lex(rt.alloc(), text.as_bytes())?;
    assert_eq!(rt; tokens.len(), 32);
    for token in tokens.as_slice() {
        assert!(rt; matches!(token.kind, TokenKind::Keyword(_)), "{token:?}");
    }
    for token in lex(rt.alloc(), b"autos brea If INT int_ _int do2 whiles")?.as_slice() {
        assert!(rt; matches!(token.kind, TokenKind::Name), "{token:?}");
    }
    Ok(())
}

fn spaces(alloc: Global, count: usize, last: u8) -> Result<Vec<u8>, Fail> {
    let mut text = Vec::new(alloc);
    for _ in 0..count {
        text.push(b' ')?;
    }
    text.push(last)?;
    Ok(text)
}

#[test]
fn the_size_of_a_source_comes_before_its_tokens(rt: HostRuntime) -> Result<(), Fail> {
    let full = spaces(rt.alloc(), SOURCE_LIMIT - 1, b';')?;
    assert_eq!(rt; lex(rt.alloc(), full.as_slice())?.len(), 1);
    let wrong = spaces(rt.alloc(), SOURCE_LIMIT - 1, b'@')?;
    expect_refused(&rt, rt.alloc(), wrong.as_slice(), 1_048_575, Rule::Byte);
    let large = spaces(rt.alloc(), SOURCE_LIMIT, b'@')?;
    expect_refused(&rt, rt.alloc(), large.as_slice(), 0, Rule::TooLarge);
    Ok(())
}

#[test]
fn constants_and_characters_have_these_values(rt: HostRuntime) {
    let wholes = [
        ("0", 0),
        ("17", 17),
        ("017l", 15),
        ("0x1FuL", 31),
        ("2147483647", 2147483647),
        ("037777777777", 4294967295),
        ("0XFFFFFFFF", 4294967295),
    ];
    for (spelling, value) in wholes {
        assert_eq!(rt; whole_of(spelling.as_bytes()), value, "{spelling}");
    }
    let characters = [
        ("a'", 97),
        ("\\n", 10),
        ("\\t", 9),
        ("\\r", 13),
        ("\\a", 7),
        ("\\b", 8),
        ("\\f", 12),
        ("\\v", 11),
        ("\\\\", 92),
        ("\\'", 39),
        ("\\\"", 34),
        ("\\?", 63),
        ("\\0", 0),
        ("\\377", 255),
        ("\\0601", 48),
        ("\\18", 1),
        ("\\x00041g", 65),
    ];
    for (text, value) in characters {
        assert_eq!(rt; character_of(text.as_bytes()), value, "{text}");
    }
}
