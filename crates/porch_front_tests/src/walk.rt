//! Worked texts for the walk: the first wrong token, or none.

use porch_lex::lex;
use porch_walk::{WalkFault, WrongToken, first_wrong};
use std::alloc::Global;
use std::process::Abort;
use std::test::Fail;

/// The rule that a text breaks and the byte where it does; behind its last token, the end of the text.
fn wrong_place(alloc: Global, text: &[u8]) -> Result<Option<(WalkFault, usize)>, Fail> {
    let tokens = lex(alloc, text)?;
    match first_wrong(alloc, text, &tokens)? {
        None => Ok(None),
        Some(WrongToken { token, fault }) => {
            if token < tokens.len() {
                Ok(Some((fault, tokens[token].from as usize)))
            } else {
                Ok(Some((fault, text.len())))
            }
        }
    }
}

fn expect_rows(
    rt: &impl Abort,
    alloc: Global,
    fault: WalkFault,
    rows: &[(&str, usize)],
) -> Result<(), Fail> {
    for (text, at) in rows {
        let found = wrong_place(alloc, text.as_bytes())?;
        assert_eq!(rt; found, Some((fault, *at)), "{text}");
    }
    Ok(())
}

#[test]
fn units_have_no_wrong_token(rt: HostRuntime) -> Result<(), Fail> {
    let rows = [
        "",
        "int x;",
        "typedef int T; typedef T T2; T a; T2 b = 1;",
        "struct s {int x, *p; struct s *next;} v = {1, 0,}; enum e {A, B = 2} w;",
        "int f(void), *g(int, char *s, int (*h)(int)), a[2][3];",
        "typedef int T; int f(T T) {; T = T + 1; return (T) * T;}",
        "typedef int T; int f(T a) {T b; T *c; b = (T)a; c = &b; return sizeof(T) + *c;}",
        "int main(void){int i; for(i = 0; i < 3; i++) if (i) ; else {break;} return i ? i : -1;}",
        "int f(int x){switch(x){case 1: case 2: x = 3; break; default: ;} do x--; while(x); return x;}",
        "static int s; int main(void){const int a = 1, b; struct s *p; p->x[1].y(2, a)++; return 0;}",
    ];
    for text in rows {
        let found = wrong_place(rt.alloc(), text.as_bytes())?;
        assert_eq!(rt; found, None, "{text}");
    }
    Ok(())
}

#[test]
fn a_token_that_goes_on_no_declaration_is_named(rt: HostRuntime) -> Result<(), Fail> {
    let rows = [
        ("int x = static;", 8),
        ("int", 3),
        ("int x y;", 6),
        ("x;", 0),
        ("typedef int T,U;", 13),
        ("struct s {};", 10),
        ("struct s {int x:3;};", 15),
        ("enum {A=};", 8),
        ("enum {1", 6),
        ("int f(int x;", 11),
        ("int f(int x,);", 12),
        ("int a = {};", 9),
        ("int a = {1,,", 11),
        ("short char x;", 6),
        ("int int x;", 4),
        ("unsigned signed x;", 9),
        ("void int x;", 5),
        ("struct s int x;", 9),
        ("int x = 1 {}", 10),
        ("typedef int T; T unsigned x;", 17),
        ("// one line\nint main(void){return 0;}", 0),
        ("int static x; int main(void){return 0;}", 4),
        ("struct const s {int x;} v; int main(void){return 0;}", 7),
        ("typedef static int T; int main(void){return 0;}", 8),
        ("int f(x) int x; {return x;} int main(void){return 0;}", 6),
        ("int g(static int x); int main(void){return 0;}", 6),
        ("typedef int T[2] = {1,2}; int main(void){return 0;}", 17),
        ("long int long x; int main(void){return 0;}", 9),
        ("int f(int x, ...); int main(void){return 0;}", 13),
        ("int x, [2]; int main(void){return 0;}", 7),
        ("enum {A, B,}; int main(void){return 0;}", 11),
        ("struct none {}; int main(void){return 0;}", 13),
    ];
    expect_rows(&rt, rt.alloc(), WalkFault::Syntax, &rows)
}

#[test]
fn a_token_that_goes_on_no_statement_is_named(rt: HostRuntime) -> Result<(), Fail> {
    let rows = [
        ("int main(void){return 0", 23),
        ("int main(void){int a; a..b;}", 24),
        ("int main(void){{1;", 18),
        ("int main(void){int x; ; int y;}", 24),
        ("int main(void){if(1) int y;}", 21),
        ("int main(void){for(int i=0;;);}", 19),
        ("int main(void){while();}", 21),
        ("int main(void){do ; while(1) x;}", 29),
        ("int main(void){if(1);else else;}", 26),
        ("int main(void){switch(1) {default 1:}}", 34),
        ("int main(void){default: ;}", 15),
        ("int main(void){return 1 2;}", 24),
        ("int main(void){1+1 = 2;}", 19),
        ("int main(void){(int)x = 1;}", 22),
        ("int main(void){1?2;}", 18),
        ("int main(void){f(1,);}", 19),
        ("int main(void){a[1;}", 18),
        ("int main(void){sizeof ;}", 22),
        ("int main(void){sizeof(int)x;}", 26),
        ("int main(void){sizeof(int(*)[3]);}", 25),
        ("int main(void){();}", 16),
        ("int main(void){!;}", 16),
        ("int main(void){\"a\" 1;}", 19),
        ("int main(void){x=1,;}", 19),
        ("int main(void){struct s *p; p=(struct 5}", 38),
        ("typedef int T; int main(void){T = 1;}", 32),
        ("int main(void){return y; else}", 25),
        ("int main(void){switch(2){case 2: int x;} return 0;}", 33),
        (
            "int main(void){switch(2){while(0) {case 2: ;}} return 0;}",
            35,
        ),
        ("int main(void){again: return 1; return 0;}", 20),
        ("int main(void){return (int){1}; return 0;}", 27),
        (
            "typedef long T; int main(void){int x; x=2; {;} T y; return x;}",
            49,
        ),
        ("int main(void){puts(\"a\" b); return 0;}", 24),
        ("int main(void){int x; x+1 += 2; return 0;}", 26),
        ("int main(void){malloc(sizeof(int (*))); return 0;}", 33),
        ("int main(void){do ; return 1; return 0;}", 20),
        ("int main(void){while(1){", 24),
    ];
    expect_rows(&rt, rt.alloc(), WalkFault::Syntax, &rows)
}

#[test]
fn a_typedef_name_counts_from_behind_its_semicolon(rt: HostRuntime) -> Result<(), Fail> {
    let rows = [
        // in front of it, and in its own typedef
        ("T x; typedef int T;", 0),
        ("typedef T T;", 8),
        // another name, one that begins alike, and one that is longer
        ("typedef int T; U x;", 15),
        ("typedef int Tab; Ta x;", 17),
        ("typedef int T; TT x;", 15),
        // the same name twice is still one
        ("typedef int T; typedef int T; T x; T = 1;", 37),
        // a member and a variable of a typedef are none
        ("typedef struct {int m;} T; m x;", 27),
    ];
    expect_rows(&rt, rt.alloc(), WalkFault::Syntax, &rows)
}

#[test]
fn a_word_outside_the_language_is_named(rt: HostRuntime) -> Result<(), Fail> {
    let rows = [
        ("goto x; int main(void){return 0;}", 0),
        ("register x; int main(void){return 0;}", 0),
        ("volatile x; int main(void){return 0;}", 0),
        ("int main(void){int x; x=1; float y;}", 27),
        ("int main(void){int x; x=1; register y;}", 27),
        ("int main(void){int x; x=1; extern y;}", 27),
        ("int main(void){3 + double}", 19),
        ("int main(void){3 + union}", 19),
        ("int main(void){3 + volatile}", 19),
        ("int main(void){static int x;}", 15),
        ("int main(void){enum {A} y;}", 15),
        ("int main(void){typedef}", 15),
        ("int main(void){1;static int x;}", 17),
        ("int main(void){1;enum {A} y;}", 17),
        ("int main(void){1+struct {int x;} y;}", 17),
        ("int main(void){1+enum e {A};}", 17),
        ("int main(void){1+typedef}", 17),
        ("int main(void){int x; x=(struct s {int y;})1;}", 25),
        ("int x = float; int main(void){return 0;}", 8),
        ("int main(void){malloc(sizeof(double)); return 0;}", 29),
        (
            "int main(void){const struct q {int x;} y; y.x=1; return 0;}",
            21,
        ),
        ("int main(void){malloc(sizeof(enum {A})); return 0;}", 29),
        ("int main(void){int x; x=3; if(x) goto end; return 0;}", 33),
        (
            "int main(void){{int x; x=1;} {auto int y; y=1;} return 0;}",
            30,
        ),
        ("int f(register int x); int main(void){return 0;}", 6),
    ];
    expect_rows(&rt, rt.alloc(), WalkFault::Outside, &rows)
}

#[test]
fn a_tag_is_outside_only_in_front_of_a_brace(rt: HostRuntime) -> Result<(), Fail> {
    // the last words of a text, where one or two words ahead lack
    let syntax = [
        ("int main(void){struct", 21),
        ("int main(void){struct s", 23),
        ("int main(void){struct 1", 22),
        ("int main(void){struct s 1 {", 24),
    ];
    expect_rows(&rt, rt.alloc(), WalkFault::Syntax, &syntax)?;
    let outside = [
        ("int main(void){struct {", 15),
        ("int main(void){struct s {", 15),
        // behind a block the same tag is inside again
        (
            "int f(void){return 0;} struct s {int x;}; int g(void){struct t {",
            54,
        ),
    ];
    expect_rows(&rt, rt.alloc(), WalkFault::Outside, &outside)
}

/// A text of so many pieces between a beginning and an end.
fn repeated(
    alloc: Global,
    first: &[u8],
    piece: &[u8],
    count: usize,
    last: &[u8],
) -> Result<Vec<u8>, Fail> {
    let mut text = Vec::new(alloc);
    text.extend_from_slice(first)?;
    for _ in 0..count {
        text.extend_from_slice(piece)?;
    }
    text.extend_from_slice(last)?;
    Ok(text)
}

#[test]
fn depth_needs_no_stack(rt: HostRuntime) -> Result<(), Fail> {
    let begun = b"int main(void){";
    for (last, fault) in [
        (&b")"[..], WalkFault::Syntax),
        (&b"goto"[..], WalkFault::Outside),
    ] {
        for count in [98, 200_000] {
            let text = repeated(rt.alloc(), begun, b"(", count, last)?;
            let found = wrong_place(rt.alloc(), text.as_slice())?;
            assert_eq!(rt; found, Some((fault, begun.len() + count)));
        }
    }
    Ok(())
}

#[test]
fn a_megabyte_of_statements_is_walked(rt: HostRuntime) -> Result<(), Fail> {
    let statement = b"value[i]=other+2*(j-1);\n";
    let text = repeated(
        rt.alloc(),
        b"int main(void){",
        statement,
        43_689,
        b"return 0;}",
    )?;
    assert!(rt; 1_048_000 < text.len(), "a megabyte");
    let found = wrong_place(rt.alloc(), text.as_slice())?;
    assert_eq!(rt; found, None);
    Ok(())
}
