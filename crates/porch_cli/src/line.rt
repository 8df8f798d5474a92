//! The closing line.

ghost use Rattle.std.specs.Prelude.{◌≡◌, ◌≤◌, ◌<◌, ◌+◌, ◌^◌, ◌++◌, length, codes, take, []};
ghost use Rattle.std.specs.Fmt.{decimal, signed_decimal};
ghost use Rattle.arrayvec.specs.ArrayString.{array_string_len};
ghost use Rattle.porch_layout.specs.Words.{rule_name as layout_rule_name, key_name};
ghost use Rattle.porch_cli.specs.Lines.{rule_name, act_name, line_at, column_at, said_of, line_of};

use crate::status::Status;
use arrayvec::ArrayString;
use itoa::Buffer;
use porch_layout::{LayoutKey, LayoutRule};
use porch_lex::{Refusal, Rule};
use porch_values::Act;

/// A line that is put together without memory. The longest has 67 bytes.
type Line = ArrayString<128>;

/// The name of a rule.
fn name_of_rule(rule: Rule) -> &'static str
    ensures name { result.now ≡ rule_name rule }
    ensures short { length result.now ≤ 20 }
{
    match rule {
        Rule::Byte => "Byte",
        Rule::Word => "Word",
        Rule::WideConstant => "WideConstant",
        Rule::Syntax => "Syntax",
        Rule::Nesting => "Nesting",
        Rule::Outside => "Outside",
        Rule::Unknown => "Unknown",
        Rule::Twice => "Twice",
        Rule::Mismatch => "Mismatch",
        Rule::NotPlace => "NotPlace",
        Rule::PointerCast => "PointerCast",
        Rule::MixedLong => "MixedLong",
        Rule::SizeofPlace => "SizeofPlace",
        Rule::StringValue => "StringValue",
        Rule::Format => "Format",
        Rule::StructValue => "StructValue",
        Rule::NoMain => "NoMain",
        Rule::TooLarge => "TooLarge",
    }
}

/// The name of an act.
fn name_of_act(act: Act) -> &'static str
    ensures name { result.now ≡ act_name act }
    ensures short { length result.now ≤ 20 }
{
    match act {
        Act::Overflow => "Overflow",
        Act::Narrow => "Narrow",
        Act::Divide => "Divide",
        Act::Shift => "Shift",
        Act::Indeterminate => "Indeterminate",
        Act::Access => "Access",
        Act::Row => "Row",
        Act::Relation => "Relation",
        Act::Compare => "Compare",
        Act::Free => "Free",
        Act::Count => "Count",
        Act::Address => "Address",
    }
}

/// The name of a rule of layouts files.
fn name_of_layout_rule(rule: LayoutRule) -> &'static str
    ensures name { result.now ≡ layout_rule_name rule }
    ensures short { length result.now ≤ 20 }
{
    rule.name()
}

/// The name of a key of a layout.
fn name_of_key(key: LayoutKey) -> &'static str
    ensures name { result.now ≡ key_name key }
    ensures short { length result.now ≤ 20 }
{
    key.name()
}

/// Adds a space and a number.
fn add_number(line: &mut Line, number: u64)
    requires { array_string_len line.old ≤ 107 }
    ensures bytes { line.new.bytes ≡ line.old.bytes ++ (codes " " ++ decimal number) }
    ensures longer { array_string_len line.new ≤ array_string_len line.old + 21 }
{
    let mut digits = Buffer::new();
    line.push_str(" ");
    line.push_str(digits.format(number));
}

/// Adds a space and a signed number.
fn add_value(line: &mut Line, value: i32)
    requires { array_string_len line.old ≤ 107 }
    ensures bytes { line.new.bytes ≡ line.old.bytes ++ (codes " " ++ signed_decimal value) }
    ensures longer { array_string_len line.new ≤ array_string_len line.old + 12 }
{
    let mut digits = Buffer::new();
    line.push_str(" ");
    line.push_str(digits.format(value));
}

/// A line that begins with a word.
fn line_with(word: &str) -> Line
    requires { length word.now ≤ 80 }
    ensures bytes { result.bytes ≡ word.now }
    ensures len { array_string_len result ≡ length word.now }
{
    let mut line = Line::new();
    line.push_str(word);
    line
}

/// Where a byte stands: its line and its column, both from 1.
#[derive(Clone, Copy)]
struct Place {
    line: u64,
    column: u64,
}

/// Where a byte of a text stands.
fn place_of(text: &[u8], at: usize) -> Place
    requires { length text.now < 2 ^ 32 }
    ensures line { result.line ≡ line_at text.now at }
    ensures column { result.column ≡ column_at text.now at }
{
    let mut line = 1;
    let mut column = 1;
    for byte in &text[..at.min(text.len())] {
        if *byte == b'\n' {
            line += 1;
            column = 1;
        } else {
            column += 1;
        }
    }
    Place { line, column }
}

/// The line of a refusal, for the text that was read.
fn line_of_refusal(text: &[u8], refusal: Refusal) -> Line
    requires { length text.now < 2 ^ 32 }
    ensures bytes { result.bytes ≡ said_of text.now (Status.Refused refusal) }
    ensures room { array_string_len result ≤ 127 }
{
    let place = place_of(text, refusal.at as usize);
    let mut line = line_with("refused ");
    line.push_str(name_of_rule(refusal.rule));
    add_number(&mut line, place.line);
    add_number(&mut line, place.column);
    line
}

/// The line of a name that stands for no layout.
fn line_of_layout(key: LayoutKey, rule: LayoutRule) -> Line
    ensures bytes { result.bytes ≡ said_of [] (Status.BadLayout key rule) }
    ensures room { array_string_len result ≤ 127 }
{
    let mut line = line_with("bad layout ");
    line.push_str(name_of_layout_rule(rule));
    line.push_str(" ");
    line.push_str(name_of_key(key));
    line
}

/// The line of a trap.
fn line_of_trap(act: Act, turns: u64) -> Line
    ensures bytes { result.bytes ≡ said_of [] (Status.Trap act turns) }
    ensures room { array_string_len result ≤ 127 }
{
    let mut line = line_with("trap ");
    line.push_str(name_of_act(act));
    add_number(&mut line, turns);
    line
}

/// The line of a program's end.
fn line_of_end(value: i32, turns: u64) -> Line
    ensures bytes { result.bytes ≡ said_of [] (Status.Done value turns) }
    ensures room { array_string_len result ≤ 127 }
{
    let mut line = line_with("done");
    add_value(&mut line, value);
    add_number(&mut line, turns);
    line
}

/// The line of a frame that doesn't fit.
fn line_of_full_stack(asked: u64, left: u64) -> Line
    ensures bytes { result.bytes ≡ said_of [] (Status.StackFull asked left) }
    ensures room { array_string_len result ≤ 127 }
{
    let mut line = line_with("stack full");
    add_number(&mut line, asked);
    add_number(&mut line, left);
    line
}

/// The line of a used budget.
fn line_of_pause(turns: u64) -> Line
    ensures bytes { result.bytes ≡ said_of [] (Status.Paused turns) }
    ensures room { array_string_len result ≤ 127 }
{
    let mut line = line_with("paused");
    add_number(&mut line, turns);
    line
}

/// The closing line of a status, for the text that was read.
pub fn line_of_status(text: &[u8], status: Status) -> Line
    requires { length text.now < 2 ^ 32 }
    ensures { result.bytes ≡ line_of text.now status }
{
    let mut line = match status {
        Status::Done { value, turns } => line_of_end(value, turns),
        Status::Usage => {
            line_with("usage: porch exec, compile, start, resume, clear, vet, show, drill")
        }
        Status::BadLayout { key, rule } => line_of_layout(key, rule),
        Status::Refused(refusal) => line_of_refusal(text, refusal),
        Status::Unbuilt => line_with("refused Unbuilt 1 1"),
        Status::Trap { act, turns } => line_of_trap(act, turns),
        Status::StackFull { asked, left } => line_of_full_stack(asked, left),
        Status::Paused { turns } => line_of_pause(turns),
        Status::ReadFault => line_with("read fault"),
        Status::WriteFault => line_with("write fault"),
        Status::DiskFault => line_with("disk fault"),
        Status::NoMemory => line_with("no memory"),
    };
    line.push_str("\n");
    line
}
