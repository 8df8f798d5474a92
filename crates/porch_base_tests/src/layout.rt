//! What no clause says of layouts: the built-in ones in numbers, and files of layouts with one line changed.

use porch_layout::{Layout, LayoutFault, LayoutKey, LayoutRule, built_in, layout_from};
use std::alloc::{AllocError, Global};
use std::process::Abort;
use std::test::Fail;

const ODD: &str =
    "[odd]\norder = \"big\"\nlong = 4\npointer = 8\nalign_short = 1\nalign_int = 4\nalign_long = 2\nalign_pointer = 8\nleast_struct = 4\n";

fn refusal(key: LayoutKey, rule: LayoutRule) -> Result<Layout, LayoutFault> {
    Err(LayoutFault::BadLayout { key, rule })
}

/// A name, whether the order is big, and the numbers in the order of the keys.
type Row = (&'static str, bool, [u8; 7]);

static BUILT_IN: [Row; 6] = [
    ("le32", false, [4, 4, 2, 4, 4, 4, 1]),
    ("be32", true, [4, 4, 2, 4, 4, 4, 1]),
    ("le64", false, [8, 8, 2, 4, 8, 8, 1]),
    ("be64", true, [8, 8, 2, 4, 8, 8, 1]),
    ("be32p", true, [4, 4, 2, 2, 2, 2, 1]),
    ("le32l", false, [4, 4, 1, 1, 1, 1, 1]),
];

fn layout_with(big: bool, numbers: [u8; 7]) -> Layout {
    let [
        long,
        pointer,
        align_short,
        align_int,
        align_long,
        align_pointer,
        least_struct,
    ] = numbers;
    Layout {
        big,
        long,
        pointer,
        align_short,
        align_int,
        align_long,
        align_pointer,
        least_struct,
    }
}

#[test]
fn built_in_layouts(rt: HostRuntime) {
    for (name, big, numbers) in &BUILT_IN {
        let want = Some(layout_with(*big, *numbers));
        assert_eq!(rt; built_in(name), want, "{name}");
    }
}

#[test]
fn other_names(rt: HostRuntime) {
    for name in ["", "odd", "le3", "le320", "LE32"] {
        assert_eq!(rt; built_in(name), None, "{name}");
    }
}

#[test]
fn a_file_with_a_layout(rt: HostRuntime) {
    let odd = layout_with(true, [4, 8, 1, 4, 2, 8, 4]);
    assert_eq!(rt; layout_from(rt.alloc(), ODD.as_bytes(), "odd"), Ok(odd));
}

/// Lines of the file, what stands in their place, and the refusal.
type Change = (&'static str, &'static str, LayoutKey, LayoutRule);

static CHANGES: [Change; 20] = [
    (
        "long = 4",
        "long = 6",
        LayoutKey::Long,
        LayoutRule::BadValue,
    ),
    (
        "align_short = 1",
        "align_short = 4",
        LayoutKey::AlignShort,
        LayoutRule::BadValue,
    ),
    (
        "\"big\"",
        "\"middle\"",
        LayoutKey::Order,
        LayoutRule::BadValue,
    ),
    ("\"big\"", "1", LayoutKey::Order, LayoutRule::BadValue),
    (
        "pointer = 8\na",
        "pointer = 4\na",
        LayoutKey::AlignPointer,
        LayoutRule::BadValue,
    ),
    (
        "long = 4\np",
        "long = 4.0\np",
        LayoutKey::Long,
        LayoutRule::BadValue,
    ),
    (
        "align_int = 4",
        "align_int = true",
        LayoutKey::AlignInt,
        LayoutRule::BadValue,
    ),
    (
        "align_long = 2",
        "align_long = \"2\"",
        LayoutKey::AlignLong,
        LayoutRule::BadValue,
    ),
    (
        "least_struct = 4",
        "least_struct = 16",
        LayoutKey::LeastStruct,
        LayoutRule::BadValue,
    ),
    (
        "least_struct = 4",
        "",
        LayoutKey::LeastStruct,
        LayoutRule::MissingKey,
    ),
    (
        "order = \"big\"",
        "",
        LayoutKey::Order,
        LayoutRule::MissingKey,
    ),
    (
        "pointer = 8\nalign_short = 1",
        "align_short = 4",
        LayoutKey::Pointer,
        LayoutRule::MissingKey,
    ),
    (
        "long = 4\npointer = 8",
        "long = 5",
        LayoutKey::Long,
        LayoutRule::BadValue,
    ),
    (
        "least_struct = 4",
        "least_struct = 4\nbits = 1",
        LayoutKey::Other,
        LayoutRule::UnknownKey,
    ),
    (
        "order = \"big\"",
        "orders = \"big\"",
        LayoutKey::Other,
        LayoutRule::UnknownKey,
    ),
    ("[odd]", "[[odd]]", LayoutKey::Name, LayoutRule::NotTable),
    (
        "[odd]",
        "odd = 1\n[even]",
        LayoutKey::Name,
        LayoutRule::NotTable,
    ),
    ("[odd]", "[even]", LayoutKey::Name, LayoutRule::NoName),
    ("[odd]", "[odd", LayoutKey::File, LayoutRule::NotToml),
    (
        "[odd]",
        "[odd]\n[odd]",
        LayoutKey::File,
        LayoutRule::NotToml,
    ),
];

fn read_changed(
    alloc: Global,
    line: &str,
    instead: &str,
) -> Result<Result<Layout, LayoutFault>, AllocError> {
    let text = ODD.replacen(alloc, line, instead, 1)?;
    Ok(layout_from(alloc, text.as_str().as_bytes(), "odd"))
}

#[test]
fn files_with_one_line_changed(rt: HostRuntime) -> Result<(), Fail> {
    for (line, instead, key, rule) in &CHANGES {
        let found = read_changed(rt.alloc(), line, instead)?;
        assert_eq!(rt; found, refusal(*key, *rule), "{instead}");
    }
    Ok(())
}

fn expect_refusal(rt: &impl Abort, alloc: Global, text: &[u8], key: LayoutKey, rule: LayoutRule) {
    let found = layout_from(alloc, text, "odd");
    assert_eq!(rt; found, refusal(key, rule));
}

#[test]
fn files_that_are_no_text(rt: HostRuntime) {
    let alloc = rt.alloc();
    expect_refusal(&rt, alloc, b"", LayoutKey::Name, LayoutRule::NoName);
    expect_refusal(&rt, alloc, b" \n", LayoutKey::Name, LayoutRule::NoName);
    expect_refusal(&rt, alloc, &[255], LayoutKey::File, LayoutRule::NotToml);
}

#[test]
fn the_longest_file(rt: HostRuntime) -> Result<(), Fail> {
    let most = vec![in rt.alloc(); b'\n'; 65536]?;
    expect_refusal(
        &rt,
        rt.alloc(),
        most.as_slice(),
        LayoutKey::Name,
        LayoutRule::NoName,
    );
    Ok(())
}

#[test]
fn a_longer_file(rt: HostRuntime) -> Result<(), Fail> {
    let more = vec![in rt.alloc(); b'\n'; 65537]?;
    expect_refusal(
        &rt,
        rt.alloc(),
        more.as_slice(),
        LayoutKey::File,
        LayoutRule::TooLong,
    );
    Ok(())
}

#[test]
fn printed_words(rt: HostRuntime) -> Result<(), Fail> {
    let fault = LayoutFault::BadLayout {
        key: LayoutKey::AlignShort,
        rule: LayoutRule::BadValue,
    };
    let text = format!(in rt.alloc(); "{fault}")?;
    assert_eq!(rt; text.as_str(), "bad layout BadValue align_short");
    assert_eq!(rt; LayoutRule::NoName.name(), "NoName");
    Ok(())
}
