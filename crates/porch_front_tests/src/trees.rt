//! Worked texts for the call that reads a whole text: how many items its tree has, how statements lie in one
//! another, and what a text is refused with.

use crate::depth::{ROWS, text_of};
use porch_lex::{Refusal, Rule, SourceFault, lex};
use porch_reader::parse;
use porch_tree::{Bracket, Core, Declaration, Definition, Initial, Item, Stmt, SwitchEntry, Tree};
use std::alloc::Global;
use std::process::Abort;
use std::test::Fail;

fn tree_of(alloc: Global, text: &[u8]) -> Result<Tree, SourceFault> {
    let tokens = lex(alloc, text)?;
    parse(alloc, text, tokens.as_slice())
}

/// Texts, and how many items each has.
static UNITS: [(&str, usize); 22] = [
    ("", 0),
    ("int;", 1),
    ("struct s;", 1),
    ("static int x;", 1),
    ("int a, *b, c[3], (*d)(void), e = 1;", 1),
    ("int m[2][2] = {{1, 2}, {3, 4,},};", 1),
    ("char t[] = \"a\" \"b\", *p = 0;", 1),
    (
        "enum e { A, B = 1 << 2, C } x; struct s { int a, b; struct s *next; } y, *z;",
        2,
    ),
    (
        "int f(void); int g(int, char *p, int (*h)(int)); int (*k(void))(int);",
        3,
    ),
    ("int main(void){return 0;}", 1),
    ("static int main(){}", 1),
    // a typedef name is one from the `;` on, and a plain name where a declarator has its name
    (
        "typedef int T; T x; int f(T T){return T;} T g(void){T y; y = (T)1; return y;}",
        4,
    ),
    (
        "typedef int T; int f(void){int T; ; T = 1; return (T) + 1;}",
        2,
    ),
    ("typedef struct s *P; typedef P Q[2]; Q *r;", 3),
    // `const` in each place
    (
        "const int const x; int const *const *const y; struct s {int a;} const z;",
        3,
    ),
    // declarations come before statements, static ones too outside functions
    (
        "int f(void){int a; const int b = 2, c; {int d; d = b;} a = c; return a;}",
        1,
    ),
    // `else` belongs to the nearest `if`
    ("int f(int a){if(a) if(a) ; else ; else ; return 0;}", 1),
    (
        "int f(int a){for(;;) for(a = 0; a; a++) while(a) do ; while(a); }",
        1,
    ),
    (
        "int f(int a){switch(a){case 1: case 2 + 3: a = 1; break; default: {} continue; } }",
        1,
    ),
    ("int f(int a){switch(a){}switch(a){default:}return;}", 1),
    (
        "int f(int a){;;{}a, a = 1;a ? a : a;a[1].b->c(a, a = 2)++;return a, a;}",
        1,
    ),
    (
        "#include <stdio.h>\n/* one */int x;/* two */\nint main(void){return x;}",
        2,
    ),
];

#[test]
fn a_unit_has_a_tree(rt: HostRuntime) -> Result<(), Fail> {
    for (text, items) in &UNITS {
        match tree_of(rt.alloc(), text.as_bytes()) {
            Ok(tree) => assert_eq!(rt; tree.items.len(), *items, "{text}"),
            Err(_) => assert!(rt; false, "refused: {text}"),
        }
    }
    Ok(())
}

fn only_function(tree: &Tree) -> Option<&Definition> {
    match tree.items.as_slice() {
        [Item::Function(definition)] => Some(definition),
        _ => None,
    }
}

fn only_declaration(tree: &Tree) -> Option<&Declaration> {
    match tree.items.as_slice() {
        [Item::Declaration(declaration)] => Some(declaration),
        _ => None,
    }
}

fn is_choice(statement: &Stmt, has_else: bool) -> bool {
    match statement {
        Stmt::Choose {
            at: _,
            condition: _,
            chosen: _,
            other,
        } => other.is_some() == has_else,
        _ => false,
    }
}

#[test]
fn an_else_belongs_to_the_nearest_if(rt: HostRuntime) -> Result<(), Fail> {
    let tree = tree_of(rt.alloc(), b"int f(int a){if(a) if(a) ; else ;}")?;
    match only_function(&tree) {
        Some(definition) => match definition.body.as_slice() {
            [
                Stmt::Choose {
                    at,
                    condition: _,
                    chosen,
                    other,
                },
            ] => {
                assert_eq!(rt; *at, 13);
                assert!(rt; other.is_none(), "the outer one");
                assert!(rt; is_choice(chosen.get(), true), "the inner one");
            }
            _ => assert!(rt; false, "no choice"),
        },
        None => assert!(rt; false, "no function"),
    }
    Ok(())
}

#[test]
fn a_function_has_its_declarations_and_statements(rt: HostRuntime) -> Result<(), Fail> {
    let text = b"static int f(int a){int b; int c, d; a = 1; ; return b;}";
    let tree = tree_of(rt.alloc(), text)?;
    match only_function(&tree) {
        Some(definition) => {
            assert_eq!(rt; definition.fixed, Some(0));
            assert_eq!(rt; definition.declarations.len(), 2);
            assert_eq!(rt; definition.body.len(), 3);
            match definition.declarator.brackets.as_slice() {
                [Bracket::ParamList(params)] => assert_eq!(rt; params.len(), 1),
                _ => assert!(rt; false, "no parameters"),
            }
        }
        None => assert!(rt; false, "no function"),
    }
    Ok(())
}

#[test]
fn labels_stand_among_the_entries_of_a_switch(rt: HostRuntime) -> Result<(), Fail> {
    let tree = tree_of(
        rt.alloc(),
        b"int f(int a){switch(a){case 1: a++; default: ;}}",
    )?;
    match only_function(&tree) {
        Some(definition) => match definition.body.as_slice() {
            [
                Stmt::Switch {
                    at: _,
                    value: _,
                    entries,
                },
            ] => match entries.as_slice() {
                [
                    SwitchEntry::Case { at: _, value: _ },
                    SwitchEntry::Stmt(_),
                    SwitchEntry::Default { at },
                    SwitchEntry::Stmt(_),
                ] => assert_eq!(rt; *at, 36),
                _ => assert!(rt; false, "other entries"),
            },
            _ => assert!(rt; false, "no switch"),
        },
        None => assert!(rt; false, "no function"),
    }
    Ok(())
}

#[test]
fn entries_have_their_initialisers(rt: HostRuntime) -> Result<(), Fail> {
    let tree = tree_of(rt.alloc(), b"int a = 1, b[2] = {1, {2},}, *c;")?;
    match only_declaration(&tree) {
        Some(declaration) => match declaration.entries.as_slice() {
            [first, second, third] => {
                assert!(rt; matches!(first.initial, Some(Initial::Value(_))), "a value");
                match &second.initial {
                    Some(Initial::Braced { at, items, comma }) => {
                        assert_eq!(rt; *at, 18);
                        assert_eq!(rt; items.len(), 2);
                        assert!(rt; *comma, "a comma behind the last");
                    }
                    _ => assert!(rt; false, "no braces"),
                }
                assert!(rt; third.initial.is_none(), "none");
                assert!(rt; matches!(third.declarator.core, Core::Named(_)), "a name");
            }
            _ => assert!(rt; false, "not three entries"),
        },
        None => assert!(rt; false, "no declaration"),
    }
    Ok(())
}

/// Texts that break a rule of the grammar, and the byte where they do.
static REFUSED: [(&str, Rule, u32); 14] = [
    ("int main(void){goto a;}", Rule::Outside, 15),
    ("float f;", Rule::Outside, 0),
    ("int main(void){static int x;}", Rule::Outside, 15),
    ("int main(void){struct s {int x;} y;}", Rule::Outside, 15),
    ("int main(void){return 0}", Rule::Syntax, 23),
    ("int main(void){x=1;int x;}", Rule::Syntax, 19),
    ("int f(void){return 1<;}", Rule::Syntax, 21),
    ("int main(void){", Rule::Syntax, 15),
    ("int main(void){else;}", Rule::Syntax, 15),
    ("int main(void){case 1:;}", Rule::Syntax, 15),
    ("typedef int T; int f(void){T = 1;}", Rule::Syntax, 29),
    ("typedef int;", Rule::Syntax, 11),
    ("typedef int T, U;", Rule::Syntax, 13),
    ("int a[2] = {};", Rule::Syntax, 12),
];

#[test]
fn a_text_that_is_no_unit_is_refused_where_it_breaks_a_rule(rt: HostRuntime) {
    for (text, rule, at) in &REFUSED {
        match tree_of(rt.alloc(), text.as_bytes()) {
            Err(SourceFault::Refused(refusal)) => {
                let wanted = Refusal {
                    at: *at,
                    rule: *rule,
                };
                assert_eq!(rt; refusal, wanted, "{text}");
            }
            _ => assert!(rt; false, "no rule is broken in {text}"),
        }
    }
}

#[test]
fn a_tree_is_two_hundred_uses_deep(rt: HostRuntime) -> Result<(), Fail> {
    let alloc = rt.alloc();
    for row in &ROWS {
        let most = text_of(alloc, row, row.most)?;
        let found = tree_of(alloc, most.as_bytes());
        assert!(rt; found.is_ok(), "{} times {}", row.most, row.opening);
        let deeper = text_of(alloc, row, row.most.saturating_add(1))?;
        match tree_of(alloc, deeper.as_bytes()) {
            Err(SourceFault::Refused(refusal)) => {
                assert!(rt; matches!(refusal.rule, Rule::Nesting), "{}", row.opening);
                assert_eq!(rt; refusal.at as usize, row.at, "{}", row.opening);
            }
            _ => assert!(rt; false, "too deep: {}", row.opening),
        }
    }
    Ok(())
}
