//! What no clause says: that calls succeed with ample memory, worked programs and printed bytes, and failing calls in
//! mid-stream.

use porch_cli::{Status, close, number_of_status, porch};
use porch_edge::{Failed, FileName, MemDisk, MemSink, MemSource, Sink, Source};
use porch_lex::{Refusal, Rule};
use porch_values::Act;
use std::alloc::{AllocError, Global};
use std::process::Abort;
use std::test::Fail;

/// `int i=0;while(i<3){putchar('0'+i);i=i+1;}return 0;` in `main`.
const COUNTING: &str = "int main(void){int i=0;while(i<3){putchar('0'+i);i=i+1;}return 0;}";

/// What a call of `porch` gave.
#[derive(Drop)]
struct Called {
    status: Status,
    out: MemSink,
    err: MemSink,
}

fn words_of(alloc: Global, words: &[&str]) -> Result<Vec<String>, AllocError> {
    let mut all = Vec::new(alloc);
    for word in words {
        all.push(String::from_str(alloc, word)?)?;
    }
    Ok(all)
}

/// Calls `porch` over memory, with the calls of each object that are to fail.
fn answer(
    alloc: Global,
    words: &[&str],
    text: &[u8],
    reads: &[u64],
    writes: &[u64],
    lines: &[u64],
) -> Result<Called, AllocError> {
    let words = words_of(alloc, words)?;
    let mut source = MemSource::new(
        Vec::from_slice(alloc, text)?,
        Vec::from_slice(alloc, reads)?,
    );
    let mut out = MemSink::new(alloc, Vec::from_slice(alloc, writes)?);
    let mut err = MemSink::new(alloc, Vec::from_slice(alloc, lines)?);
    let mut disk = MemDisk::new(alloc);
    let status = porch(
        alloc,
        words.as_slice(),
        &mut source,
        &mut disk,
        &mut out,
        &mut err,
    );
    Ok(Called { status, out, err })
}

/// The answer of `exec` over memory that fails nowhere.
fn answer_of_exec(alloc: Global, text: &[u8]) -> Result<Called, AllocError> {
    answer(alloc, &["exec"], text, &[], &[], &[])
}

/// What the two sinks got.
fn expect_bytes(rt: &impl Abort, got: &Called, out: &str, err: &str, what: &str) {
    assert_eq!(rt; got.out.held(), out.as_bytes(), "out of {what}");
    assert_eq!(rt; got.err.held(), err.as_bytes(), "err of {what}");
}

/// Words, a program, what it shows, the closing line and the number of the status.
type Row = (
    &'static [&'static str],
    &'static str,
    &'static str,
    &'static str,
    u8,
);

static PROGRAMS: [Row; 17] = [
    (
        &["exec"],
        "int main(void){putchar('A');return 0;}",
        "A",
        "done 0 1\n",
        0,
    ),
    (&["exec"], COUNTING, "012", "done 0 4\n", 0),
    (&["exec", "--turns", "4"], COUNTING, "012", "done 0 4\n", 0),
    (&["exec", "--turns", "3"], COUNTING, "01", "paused 3\n", 5),
    (
        &[
            "exec",
            "--heap=16",
            "--turns=4",
            "--stack",
            "4096",
            "--layout",
            "le64",
        ],
        COUNTING,
        "012",
        "done 0 4\n",
        0,
    ),
    (
        &["exec", "--layout", "be32"],
        COUNTING,
        "",
        "refused Unbuilt 1 1\n",
        2,
    ),
    (
        &["exec", "--turns", "0000000000000000001"],
        COUNTING,
        "",
        "paused 1\n",
        5,
    ),
    (
        &["exec"],
        "int main(void){int i;return i;}",
        "",
        "done 0 1\n",
        0,
    ),
    (
        &["exec"],
        "int main(void){int x=x;return 5;}",
        "",
        "done 5 1\n",
        0,
    ),
    (
        &["exec"],
        "int main(void){int i=2147483647;i=i+1;return i;}",
        "",
        "trap Overflow 1\n",
        3,
    ),
    (
        &["exec"],
        "int main(void){return 0-2147483647-1;}",
        "",
        "done -2147483648 1\n",
        0,
    ),
    (
        &["exec"],
        " int\tmain ( void )\n{ }\r\x0b\x0c",
        "",
        "done 0 1\n",
        0,
    ),
    (
        &["exec"],
        "int main(void){int a=2;int b=3;while(b<a*a){b=b+1;putchar(b*20-7*(a<b)-4);}return b-a*b;}",
        "E",
        "done -4 2\n",
        0,
    ),
    (
        &["exec"],
        "int main(void){int n=0;int m;while(n<2){m=0;while(m<2){putchar('a'+n*2+m);m=m+1;}n=n+1;}return n;}",
        "abcd",
        "done 2 7\n",
        0,
    ),
    (
        &["exec"],
        "#include <stdio.h>\n\t# include \"porch.h\" \n/* Shows\n   A. */\nint main(void)\n{\n    putchar('A'); /* a * and a \" */\n}\n",
        "A",
        "done 0 1\n",
        0,
    ),
    (
        &["exec"],
        "int/**/main(void){int a/*=*/=/***/20;return a/**/-/*1;}*/3;}/* the end */",
        "",
        "done 17 1\n",
        0,
    ),
    (
        &["exec"],
        "int main(void){putchar('/');putchar('*');/* don't */putchar('\"');return 0;}",
        "/*\"",
        "done 0 1\n",
        0,
    ),
];

#[test]
fn programs_run(rt: HostRuntime) -> Result<(), Fail> {
    for (words, text, out, err, number) in &PROGRAMS {
        let got = answer(rt.alloc(), words, text.as_bytes(), &[], &[], &[])?;
        expect_bytes(&rt, &got, out, err, text);
        assert_eq!(rt; number_of_status(got.status), *number, "status of {text}");
    }
    Ok(())
}

/// Texts that break a rule, and the rule with its line and column.
static REFUSED: [(&str, &str); 29] = [
    ("int x;\n  @", "Byte 2 3"),
    ("\0", "Byte 1 1"),
    ("int main(void){return 0;}\0", "Byte 1 26"),
    ("/* why */ #include <stdio.h>\n", "Byte 1 11"),
    ("int main(void){return 1a;}", "Word 1 23"),
    ("int main(void){return 08;}", "Word 1 23"),
    ("int main(void){return ''';}", "Word 1 23"),
    ("int main(void){return 0;} /* ", "Word 1 27"),
    ("int main(void){return 2147483648;}", "WideConstant 1 23"),
    (
        "\n\n \t# include <string.h>\nint main(void){return 0;}",
        "Outside 3 3",
    ),
    (
        "#include <stdio.h> /* why */\nint main(void){return 0;}",
        "Outside 1 1",
    ),
    ("int main(void){goto out;}", "Outside 1 16"),
    ("int main(void){int auto;return 0;}", "Outside 1 20"),
    ("int main(void){static int x;return 0;}", "Outside 1 16"),
    (
        "int main(void){struct s {int x;} y;return 0;}",
        "Outside 1 16",
    ),
    ("int main(void){int while;return 0;}", "Syntax 1 20"),
    ("int main(void){x=1;int x;return 0;}", "Syntax 1 20"),
    ("int main(void)\n{\n    return 0\n}\n", "Syntax 4 1"),
    ("int main(void){return 0;}}", "Syntax 1 26"),
    ("int main(void)\n{\n    return 0;\n", "Syntax 4 1"),
    ("intmain(void){return 0;}", "Syntax 1 1"),
    ("int ma/**/in(void){return 0;}", "Syntax 1 11"),
    ("int main(void){return 1/**/2;}", "Syntax 1 28"),
    ("float $", "Byte 1 7"),
    ("goto 08", "Word 1 6"),
    ("} 2147483648", "WideConstant 1 3"),
    ("}\n#define A", "Outside 2 1"),
    ("} float", "Syntax 1 1"),
    ("float }", "Outside 1 1"),
];

#[test]
fn the_first_broken_rule_is_named(rt: HostRuntime) -> Result<(), Fail> {
    for (text, rule) in &REFUSED {
        let line = format!(in rt.alloc(); "refused {rule}\n")?;
        let got = answer_of_exec(rt.alloc(), text.as_bytes())?;
        expect_bytes(&rt, &got, "", line.as_str(), text);
        assert_eq!(rt; number_of_status(got.status), 2, "{text}");
    }
    Ok(())
}

/// Texts that break no rule that is looked at, and aren't in the part of the language that runs yet.
static UNBUILT: [&str; 13] = [
    "",
    "int main(void){return 01;}",
    "int main(void){return 0x1;}",
    "int main(void){return 1u;}",
    "int main(void){return '\\n';}",
    "int main(void){return x;}",
    "int main(void){int y=x;int x;return 0;}",
    "int main(void){int x;int x;return 0;}",
    "int main(void){int putchar;return 0;}",
    "int main(void){return 1<2<3;}",
    "int main(){return 0;}",
    "int main(void){return 1-/**/-1;}",
    "int main(void){return \"one\"[0];}",
];

#[test]
fn other_texts_are_not_built_yet(rt: HostRuntime) -> Result<(), Fail> {
    for text in &UNBUILT {
        let got = answer_of_exec(rt.alloc(), text.as_bytes())?;
        expect_bytes(&rt, &got, "", "refused Unbuilt 1 1\n", text);
        assert_eq!(rt; got.status, Status::Unbuilt, "{text}");
        assert_eq!(rt; number_of_status(got.status), 2, "{text}");
    }
    Ok(())
}

/// A text with two of its parts repeated as often, and the line that it is answered with.
struct Nested {
    front: &'static str,
    opening: &'static str,
    middle: &'static str,
    closing: &'static str,
    rest: &'static str,
    count: usize,
    line: &'static str,
}

static NESTED: [Nested; 11] = [
    Nested {
        front: "int main(void){return ",
        opening: "(",
        middle: "1",
        closing: ")",
        rest: ";}",
        count: 98,
        line: "done 1 1\n",
    },
    Nested {
        front: "int main(void){return ",
        opening: "(",
        middle: "1",
        closing: ")",
        rest: ";}",
        count: 99,
        line: "refused Nesting 1 122\n",
    },
    // what breaks off behind it is named later
    Nested {
        front: "int main(void){return ",
        opening: "(",
        middle: "1",
        closing: "",
        rest: "",
        count: 20_000,
        line: "refused Nesting 1 122\n",
    },
    // what breaks another rule before it is named
    Nested {
        front: "int main(void){return 1 1;return ",
        opening: "(",
        middle: "1",
        closing: ")",
        rest: ";}",
        count: 99,
        line: "refused Syntax 1 25\n",
    },
    Nested {
        front: "int main(void){int a=0;",
        opening: "(",
        middle: "a",
        closing: ")",
        rest: ";return 0;}",
        count: 98,
        line: "refused Unbuilt 1 1\n",
    },
    Nested {
        front: "int main(void){int a=0;",
        opening: "(",
        middle: "a",
        closing: ")",
        rest: ";return 0;}",
        count: 99,
        line: "refused Nesting 1 123\n",
    },
    // `?` behind the parentheses puts them one use deeper
    Nested {
        front: "int main(void){int a=0;",
        opening: "(",
        middle: "a",
        closing: ")",
        rest: "?1:2;return 0;}",
        count: 99,
        line: "refused Nesting 1 122\n",
    },
    // a loop counts its statement, its body and that body's block, and its condition two more
    Nested {
        front: "int main(void){",
        opening: "while(0){",
        middle: "",
        closing: "}",
        rest: "return 0;}",
        count: 66,
        line: "done 0 1\n",
    },
    Nested {
        front: "int main(void){",
        opening: "while(0){",
        middle: "",
        closing: "}",
        rest: "return 0;}",
        count: 67,
        line: "refused Nesting 1 616\n",
    },
    // an assignment in the innermost block lies four deeper
    Nested {
        front: "int main(void){int a=0;",
        opening: "while(a<1){",
        middle: "",
        closing: "a=a+1;}",
        rest: "return a;}",
        count: 65,
        line: "done 65 66\n",
    },
    Nested {
        front: "int main(void){int a=0;",
        opening: "while(a<1){",
        middle: "",
        closing: "a=a+1;}",
        rest: "return a;}",
        count: 66,
        line: "refused Nesting 1 750\n",
    },
];

/// The text of a row.
fn text_of(alloc: Global, row: &Nested) -> Result<Vec<u8>, AllocError> {
    let mut text = Vec::from_slice(alloc, row.front.as_bytes())?;
    add_times(&mut text, row.opening, row.count)?;
    text.extend_from_slice(row.middle.as_bytes())?;
    add_times(&mut text, row.closing, row.count)?;
    text.extend_from_slice(row.rest.as_bytes())?;
    Ok(text)
}

fn add_times(text: &mut Vec<u8>, part: &str, count: usize) -> Result<(), AllocError> {
    for _ in 0..count {
        text.extend_from_slice(part.as_bytes())?;
    }
    Ok(())
}

/// A program with spaces behind it, of so many bytes.
fn padded(alloc: Global, length: usize) -> Result<Vec<u8>, AllocError> {
    let mut text = Vec::from_slice(alloc, b"int main(void){return 7;}")?;
    for _ in text.len()..length {
        text.push(b' ')?;
    }
    Ok(text)
}

fn expect_line(rt: &impl Abort, alloc: Global, text: &[u8], err: &str) -> Result<(), AllocError> {
    let got = answer_of_exec(alloc, text)?;
    expect_bytes(rt, &got, "", err, "a long text");
    Ok(())
}

fn expect_padded(
    rt: &impl Abort,
    alloc: Global,
    length: usize,
    err: &str,
) -> Result<(), AllocError> {
    let text = padded(alloc, length)?;
    expect_line(rt, alloc, text.as_slice(), err)
}

#[test]
fn too_deep_texts_are_refused(rt: HostRuntime) -> Result<(), Fail> {
    for row in &NESTED {
        let text = text_of(rt.alloc(), row)?;
        expect_line(&rt, rt.alloc(), text.as_slice(), row.line)?;
    }
    Ok(())
}

#[test]
fn limits_hold(rt: HostRuntime) -> Result<(), Fail> {
    let alloc = rt.alloc();
    expect_padded(&rt, alloc, 1_048_576, "done 7 1\n")?;
    expect_padded(&rt, alloc, 1_048_577, "refused TooLarge 1 1\n")?;
    Ok(())
}

static USAGE: [&[&str]; 20] = [
    &[],
    &["run"],
    &["exec", "exec"],
    &["--"],
    &["--help"],
    &["exec", "--"],
    &["exec", "--turns"],
    &["exec", "--turns", ""],
    &["exec", "--turns", "0"],
    &["exec", "--turns", "+1"],
    &["exec", "--turns", "1x"],
    &["exec", "--turns", "4611686018427387905"],
    &["exec", "--turns", "00000000000000000001"],
    &["exec", "--turns="],
    &["exec", "--stack", "4095"],
    &["exec", "--every", "2"],
    &["exec", "--layout", "LE64"],
    &["exec", "--turns", "3", "--turns", "3"],
    &["start"],
    &["EXEC"],
];

const USAGE_LINE: &str = "usage: porch exec, compile, start, resume, clear, vet, show, drill\n";

#[test]
fn other_words_are_usage(rt: HostRuntime) -> Result<(), Fail> {
    for words in &USAGE {
        let got = answer(rt.alloc(), words, COUNTING.as_bytes(), &[1], &[], &[])?;
        assert_eq!(rt; got.status, Status::Usage, "{words:?}");
        expect_bytes(&rt, &got, "", USAGE_LINE, "other words");
    }
    Ok(())
}

#[test]
fn the_greatest_budget(rt: HostRuntime) -> Result<(), Fail> {
    let words = ["exec", "--turns", "4611686018427387904"];
    let got = answer(rt.alloc(), &words, COUNTING.as_bytes(), &[], &[], &[])?;
    assert_eq!(rt; got.status, Status::Done { value: 0, turns: 4 });
    Ok(())
}

/// The layouts of a user.
const LAYOUTS: &str =
    "[mine]\norder = \"little\"\nlong = 8\npointer = 8\nalign_short = 2\nalign_int = 4\nalign_long = 8\nalign_pointer = 8\nleast_struct = 1\n\n[wide]\norder = \"big\"\nlong = 6\npointer = 8\nalign_short = 2\nalign_int = 4\nalign_long = 8\nalign_pointer = 8\nleast_struct = 1\n";

/// The name of a layout, the call of the disk that fails, if any, the closing line and the number of the status.
type Named = (&'static str, Option<u64>, &'static str, u8);

static NAMED: [Named; 6] = [
    // the built-in layout of that name, also where the disk fails
    ("le64", Some(1), "done 0 4\n", 0),
    // one that says the same as le64, and one that breaks a rule
    ("mine", None, "done 0 4\n", 0),
    ("wide", None, "bad layout BadValue long\n", 11),
    ("odd", None, "bad layout NoName name\n", 11),
    ("mine", Some(1), "disk fault\n", 14),
    ("odd", Some(2), "disk fault\n", 14),
];

/// Runs `COUNTING` under a layout over a disk with the layouts of a user.
fn answer_under(alloc: Global, row: &Named) -> Result<Called, AllocError> {
    let (name, failing, _, _) = row;
    let words = words_of(alloc, &["exec", "--layout", *name])?;
    let bytes = Vec::from_slice(alloc, COUNTING.as_bytes())?;
    let mut source = MemSource::new(bytes, Vec::new(alloc));
    let mut disk = MemDisk::new(alloc);
    disk.put(FileName::Layouts, LAYOUTS.as_bytes())?;
    if let Some(call) = failing {
        disk.fail_at(*call);
    }
    let mut out = MemSink::new(alloc, Vec::new(alloc));
    let mut err = MemSink::new(alloc, Vec::new(alloc));
    let status = porch(
        alloc,
        words.as_slice(),
        &mut source,
        &mut disk,
        &mut out,
        &mut err,
    );
    Ok(Called { status, out, err })
}

#[test]
fn layouts_are_found_by_name(rt: HostRuntime) -> Result<(), Fail> {
    for row in &NAMED {
        let got = answer_under(rt.alloc(), row)?;
        let (name, _, line, number) = row;
        assert_eq!(rt; got.err.held(), line.as_bytes(), "{name}");
        assert_eq!(rt; number_of_status(got.status), *number, "{name}");
    }
    Ok(())
}

/// A program of so many variables.
fn with_variables(alloc: Global, count: usize) -> Result<Vec<u8>, AllocError> {
    let mut text = Vec::from_slice(alloc, b"int main(void){")?;
    for number in 0..count {
        text.extend_from_slice(format!(in alloc; "int a{number}=0;")?.as_bytes())?;
    }
    text.extend_from_slice(b"return 0;}")?;
    Ok(text)
}

#[test]
fn a_frame_may_not_fit(rt: HostRuntime) -> Result<(), Fail> {
    let words = ["exec", "--stack", "4096"];
    let fits = with_variables(rt.alloc(), 500)?;
    let got = answer(rt.alloc(), &words, fits.as_slice(), &[], &[], &[])?;
    assert_eq!(rt; got.status, Status::Done { value: 0, turns: 1 });
    let wide = with_variables(rt.alloc(), 513)?;
    let got = answer(rt.alloc(), &words, wide.as_slice(), &[], &[], &[])?;
    expect_bytes(&rt, &got, "", "stack full 4112 4096\n", "513 variables");
    assert_eq!(rt; number_of_status(got.status), 4);
    Ok(())
}

/// The calls of the source, of `out` and of `err` that fail, what these two get, and the answer.
type Failing = (
    &'static [u64],
    &'static [u64],
    &'static [u64],
    &'static str,
    &'static str,
    Status,
);

static FAILING: [Failing; 8] = [
    (&[1], &[], &[], "", "read fault\n", Status::ReadFault),
    (&[2], &[], &[], "", "read fault\n", Status::ReadFault),
    (
        &[3],
        &[],
        &[],
        "012",
        "done 0 4\n",
        Status::Done { value: 0, turns: 4 },
    ),
    (&[], &[1], &[], "", "write fault\n", Status::WriteFault),
    (&[], &[2], &[], "0", "write fault\n", Status::WriteFault),
    (&[], &[3], &[], "01", "write fault\n", Status::WriteFault),
    (&[], &[], &[1], "012", "", Status::WriteFault),
    (&[1], &[], &[1], "", "", Status::WriteFault),
];

#[test]
fn failing_calls_end_the_work(rt: HostRuntime) -> Result<(), Fail> {
    let text = COUNTING.as_bytes();
    for (reads, writes, lines, out, err, status) in &FAILING {
        let got = answer(rt.alloc(), &["exec"], text, reads, writes, lines)?;
        assert_eq!(rt; got.status, *status, "at {reads:?} {writes:?} {lines:?}");
        expect_bytes(&rt, &got, out, err, "failing calls");
    }
    Ok(())
}

/// A source that gives one byte a call.
#[derive(Drop)]
struct Drops {
    bytes: Vec<u8>,
    taken: usize,
}

impl Source for Drops {
    ghost use Rattle.std.specs.Prelude.{None};

    ghost left = { λ _. None };

    ghost faults = { λ _. 0 };

    fn read(&mut self, buf: &mut [u8]) -> Result<usize, Failed> {
        if self.taken < self.bytes.len() && !buf.is_empty() {
            buf[0] = self.bytes[self.taken];
            self.taken += 1;
            Ok(1)
        } else {
            Ok(0)
        }
    }
}

/// A sink that takes one byte a call, and counts them.
#[derive(Drop)]
struct Sips {
    bytes: Vec<u8>,
    faults: u64,
}

impl Sink for Sips {
    ghost use Rattle.std.specs.Prelude.{None};

    ghost held = { λ _. None };

    ghost faults = { λ s. s.faults };

    fn write(&mut self, bytes: &[u8]) -> Result<usize, Failed> {
        if bytes.is_empty() {
            return Ok(0);
        }
        if self.bytes.push(bytes[0]).is_err() {
            self.faults = self.faults.saturating_add(1);
            return Err(Failed);
        }
        Ok(1)
    }
}

fn empty_sips(alloc: Global) -> Sips {
    Sips {
        bytes: Vec::new(alloc),
        faults: 0,
    }
}

fn answer_in_pieces(alloc: Global, out: &mut Sips, err: &mut Sips) -> Result<Status, AllocError> {
    let bytes = Vec::from_slice(alloc, COUNTING.as_bytes())?;
    let words = words_of(alloc, &["exec"])?;
    let mut source = Drops { bytes, taken: 0 };
    let mut disk = MemDisk::new(alloc);
    Ok(porch(alloc, words.as_slice(), &mut source, &mut disk, out, err))
}

#[test]
fn pieces_may_be_short(rt: HostRuntime) -> Result<(), Fail> {
    let mut out = empty_sips(rt.alloc());
    let mut err = empty_sips(rt.alloc());
    let status = answer_in_pieces(rt.alloc(), &mut out, &mut err)?;
    assert_eq!(rt; status, Status::Done { value: 0, turns: 4 });
    assert_eq!(rt; out.bytes.as_slice(), b"012".as_slice());
    assert_eq!(rt; err.bytes.as_slice(), b"done 0 4\n".as_slice());
    Ok(())
}

#[test]
fn each_act_and_rule_has_its_name(rt: HostRuntime) -> Result<(), Fail> {
    let mut err = MemSink::new(rt.alloc(), Vec::new(rt.alloc()));
    let trap = Status::Trap {
        act: Act::Relation,
        turns: 18_446_744_073_709_551_615,
    };
    close(b"", trap, &mut err);
    let refused = Status::Refused(Refusal {
        at: 6,
        rule: Rule::WideConstant,
    });
    close(b"ab\ncd\nef", refused, &mut err);
    let full = Status::StackFull {
        asked: 4112,
        left: 4096,
    };
    close(b"", full, &mut err);
    assert_eq!(rt;
        err.held(),
        b"trap Relation 18446744073709551615\nrefused WideConstant 3 1\nstack full 4112 4096\n".as_slice()
    );
    assert_eq!(rt; number_of_status(full), 4);
    Ok(())
}
