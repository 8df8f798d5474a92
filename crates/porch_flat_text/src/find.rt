//! The word that a line begins with.

ghost use Rattle.std.specs.Prelude.{◌≡◌, length};
ghost use Rattle.std.specs.Str.{bytes_eq};
ghost use Rattle.porch_flat_text.specs.inside.FoundWords.{word_from, word_of_two, word_of_three, word_of_four, word_of_five, word_of_six, word_of_seven, word_of_eight, word_of_ten};

use porch_flat_line::Word;

/// The word that is written so.
pub(crate) fn word_of(name: &[u8]) -> Option<Word>
    ensures { result ≡ word_from name.now }
{
    match name.len() {
        2 => word_of_two(name),
        3 => word_of_three(name),
        4 => word_of_four(name),
        5 => word_of_five(name),
        6 => word_of_six(name),
        7 => word_of_seven(name),
        8 => word_of_eight(name),
        10 => word_of_ten(name),
        _ => None,
    }
}

fn is(name: &[u8], word: &str) -> bool
    ensures { result ≡ bytes_eq name.now word.now }
{
    name == word.as_bytes()
}

fn word_of_two(name: &[u8]) -> Option<Word>
    ensures { result ≡ word_of_two name.now }
{
    if is(name, "OR") {
        Some(Word::Or)
    } else if is(name, "LT") {
        Some(Word::Lt)
    } else if is(name, "LE") {
        Some(Word::Le)
    } else if is(name, "EQ") {
        Some(Word::Eq)
    } else if is(name, "NE") {
        Some(Word::Ne)
    } else if is(name, "IF") {
        Some(Word::If)
    } else {
        None
    }
}

fn word_of_three(name: &[u8]) -> Option<Word>
    ensures { result ≡ word_of_three name.now }
{
    if is(name, "ADD") {
        Some(Word::Add)
    } else if is(name, "SUB") {
        Some(Word::Sub)
    } else if is(name, "MUL") {
        Some(Word::Mul)
    } else if is(name, "DIV") {
        Some(Word::Div)
    } else if is(name, "REM") {
        Some(Word::Rem)
    } else if is(name, "AND") {
        Some(Word::And)
    } else if is(name, "XOR") {
        Some(Word::Xor)
    } else if is(name, "SHL") {
        Some(Word::Shl)
    } else if is(name, "SHR") {
        Some(Word::Shr)
    } else if is(name, "NOT") {
        Some(Word::Not)
    } else if is(name, "DEC") {
        Some(Word::Dec)
    } else if is(name, "HEX") {
        Some(Word::Hex)
    } else if is(name, "VAR") {
        Some(Word::Var)
    } else if is(name, "END") {
        Some(Word::End)
    } else {
        None
    }
}

fn word_of_four(name: &[u8]) -> Option<Word>
    ensures { result ≡ word_of_four name.now }
{
    if is(name, "MOVE") {
        Some(Word::Move)
    } else if is(name, "CAST") {
        Some(Word::Cast)
    } else if is(name, "STEP") {
        Some(Word::Step)
    } else if is(name, "BACK") {
        Some(Word::Back)
    } else if is(name, "DIFF") {
        Some(Word::Diff)
    } else if is(name, "LOAD") {
        Some(Word::Load)
    } else if is(name, "COPY") {
        Some(Word::Copy)
    } else if is(name, "KILL") {
        Some(Word::Kill)
    } else if is(name, "FREE") {
        Some(Word::Free)
    } else if is(name, "CHAR") {
        Some(Word::Char)
    } else if is(name, "TEXT") {
        Some(Word::Text)
    } else if is(name, "JUMP") {
        Some(Word::Jump)
    } else if is(name, "TURN") {
        Some(Word::Turn)
    } else if is(name, "CALL") {
        Some(Word::Call)
    } else if is(name, "PUSH") {
        Some(Word::Push)
    } else if is(name, "INIT") {
        Some(Word::Init)
    } else {
        None
    }
}

fn word_of_five(name: &[u8]) -> Option<Word>
    ensures { result ≡ word_of_five name.now }
{
    if is(name, "LOCAL") {
        Some(Word::Local)
    } else if is(name, "STORE") {
        Some(Word::Store)
    } else if is(name, "ALLOC") {
        Some(Word::Alloc)
    } else if is(name, "LABEL") {
        Some(Word::Label)
    } else if is(name, "TABLE") {
        Some(Word::Table)
    } else if is(name, "SAVED") {
        Some(Word::Saved)
    } else if is(name, "ARRAY") {
        Some(Word::Array)
    } else if is(name, "BEGIN") {
        Some(Word::Begin)
    } else if is(name, "INITA") {
        Some(Word::InitA)
    } else {
        None
    }
}

fn word_of_six(name: &[u8]) -> Option<Word>
    ensures { result ≡ word_of_six name.now }
{
    if is(name, "MEMBER") {
        Some(Word::Member)
    } else if is(name, "CALLOC") {
        Some(Word::Calloc)
    } else if is(name, "RETURN") {
        Some(Word::Return)
    } else if is(name, "STRUCT") {
        Some(Word::Struct)
    } else if is(name, "GLOBAL") {
        Some(Word::Global)
    } else {
        None
    }
}

fn word_of_seven(name: &[u8]) -> Option<Word>
    ensures { result ≡ word_of_seven name.now }
{
    if is(name, "GLOBALA") {
        Some(Word::GlobalA)
    } else if is(name, "RESTORE") {
        Some(Word::Restore)
    } else if is(name, "POINTER") {
        Some(Word::Pointer)
    } else {
        None
    }
}

fn word_of_eight(name: &[u8]) -> Option<Word>
    ensures { result ≡ word_of_eight name.now }
{
    if is(name, "FUNCTION") {
        Some(Word::Function)
    } else {
        None
    }
}

fn word_of_ten(name: &[u8]) -> Option<Word>
    ensures { result ≡ word_of_ten name.now }
{
    if is(name, "CHECKPOINT") {
        Some(Word::Checkpoint)
    } else {
        None
    }
}
