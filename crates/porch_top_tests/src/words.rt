//! The words of the command line: worked rows.

use porch_session::Limits;
use porch_words::{Order, Usage, read_words};
use std::alloc::{AllocError, Global};
use std::test::Fail;

/// Words with a space between two, and what they order; `-` where that is nothing.
static ROWS: [(&str, &str); 34] = [
    ("exec", "exec le64 1 1000000000 1048576 8388608"),
    ("exec --turns 3", "exec le64 1 3 1048576 8388608"),
    (
        "exec --turns=3 --layout be32p",
        "exec be32p 1 3 1048576 8388608",
    ),
    (
        "exec --heap 16 --stack=4096",
        "exec le64 1 1000000000 4096 16",
    ),
    (
        "exec --layout=odd_9",
        "exec odd_9 1 1000000000 1048576 8388608",
    ),
    (
        "exec --turns 0000000000000000003",
        "exec le64 1 3 1048576 8388608",
    ),
    (
        "start --every 100 --heap=67108864",
        "start le64 100 1000000000 1048576 67108864",
    ),
    (
        "resume --stack 16777216 --turns 4611686018427387904",
        "resume le64 1 4611686018427387904 16777216 8388608",
    ),
    ("vet", "vet true true 1000000000"),
    ("vet --widths 64 --turns 9", "vet false true 9"),
    ("vet --widths=32", "vet true false 1000000000"),
    ("vet --widths 32,64", "vet true true 1000000000"),
    ("compile", "compile"),
    ("clear", "clear"),
    ("show", "show"),
    ("drill 7", "drill 7"),
    ("drill 999999", "drill 999999"),
    ("", "-"),
    ("exec --every 2", "-"),
    ("start --every 0", "-"),
    ("drill", "-"),
    ("drill 1000000", "-"),
    ("drill --turns 3", "-"),
    ("exec --turns 3 --turns 3", "-"),
    ("exec --turns", "-"),
    ("exec --turns=", "-"),
    ("exec --turn 3", "-"),
    ("exec --turns 00000000000000000003", "-"),
    ("exec --turns +3", "-"),
    ("exec --", "-"),
    ("vet --widths 64,32", "-"),
    ("compile --turns 3", "-"),
    ("exec --layout LE64", "-"),
    ("exec --layout a23456789012345678901234567890123", "-"),
];

fn words_of(alloc: Global, line: &str) -> Result<Vec<String>, AllocError> {
    let mut words = Vec::new(alloc);
    for word in line.split(' ') {
        words.push(String::from_str(alloc, word)?)?;
    }
    Ok(words)
}

fn shown(alloc: Global, order: Result<Order<'_>, Usage>) -> Result<String, AllocError> {
    match order {
        Ok(Order::Exec { layout, limits }) => shown_run(alloc, "exec", layout, limits),
        Ok(Order::Start { layout, limits }) => shown_run(alloc, "start", layout, limits),
        Ok(Order::Resume { layout, limits }) => shown_run(alloc, "resume", layout, limits),
        Ok(Order::Compile) => String::from_str(alloc, "compile"),
        Ok(Order::Clear) => String::from_str(alloc, "clear"),
        Ok(Order::Show) => String::from_str(alloc, "show"),
        Ok(Order::Vet { widths, turns }) => {
            let narrow = widths.narrow;
            let wide = widths.wide;
            format!(in alloc; "vet {narrow} {wide} {turns}")
        }
        Ok(Order::Drill { number }) => format!(in alloc; "drill {number}"),
        Err(Usage) => String::from_str(alloc, "-"),
    }
}

fn shown_run(
    alloc: Global,
    command: &str,
    layout: &str,
    limits: Limits,
) -> Result<String, AllocError> {
    let Limits {
        every,
        turns,
        stack,
        heap,
    } = limits;
    format!(in alloc; "{command} {layout} {every} {turns} {stack} {heap}")
}

fn orders(alloc: Global, row: &(&str, &str)) -> Result<bool, AllocError> {
    let words = words_of(alloc, row.0)?;
    let text = shown(alloc, read_words(words.as_slice()))?;
    Ok(text.as_str() == row.1)
}

#[test]
fn words_order_what_they_spell(rt: HostRuntime) -> Result<(), Fail> {
    for row in &ROWS {
        let same = orders(rt.alloc(), row)?;
        assert!(rt; same, "{}", row.0);
    }
    Ok(())
}
