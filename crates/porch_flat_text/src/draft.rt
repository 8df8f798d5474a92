//! A program as far as its text was read, and what a further line makes of it.

ghost use Rattle.std.specs.Prelude.{◌≡◌, ◌<◌, ◌≤◌, ◌^◌, ◌++◌, ◌∷◌, ◌&&◌, ◌||◌, [], length, OnOk, IfOk, IsTrue};
ghost use Rattle.std.specs.List.{list_all, list_any};
ghost use Rattle.std.specs.Str.{bytes_eq};
ghost use Rattle.porch_types.specs.Leaves.{IsTypes};
ghost use Rattle.porch_flat.specs.whole.Flats.{is_letter, is_digit, is_name, is_keyword, is_function_name, is_said};
ghost use Rattle.porch_flat.specs.whole.Lines.{function_line};
ghost use Rattle.porch_flat_line.specs.Text.{row, row_text, type_row, init_row, line_text, number};
ghost use Rattle.porch_flat_text.specs.inside.Drafts.{empty_draft, empty_global, empty_function, globals_of, Added, Taken, type_from, init_from, function_from, with_type, with_global, with_init, with_function, with_variable, with_begin, with_some_command, with_command, with_end, is_type_word, is_init_word, is_word, next_in, next_form, next_at, next, is_whole, flat_of};
ghost use Rattle.porch_flat_text.specs.inside.Cuts.{each_in};
ghost use Rattle.porch_flat_text.specs.inside.Numbers.{number_in};
ghost use Rattle.porch_types.specs.Adding.{add_fault};

use crate::command::command_in;
use crate::cut::{lines_to_end, next_argument, parts_of};
use crate::find::word_of;
use crate::number::{constant_in, number_in, result_type_in};
use porch_flat::whole::{Command, Flat, Function};
use porch_flat::{GlobalObject, Init};
use porch_flat_line::{
    Argument, Word, number, put_command, put_head, put_init, put_none, put_two, put_type,
};
use porch_types::{Members, Ty, TypeFault, Types};
use sqlite_items::Items;
use std::alloc::{AllocError, Global};
use std::mem::replace;

/// Which lines may come next.
#[derive(Clone, Copy, Debug, PartialEq, Eq)]
pub(crate) enum Phase {
    /// The first head line.
    Start,
    /// The second head line.
    Second,
    Types,
    /// A global was begun.
    Globals,
    /// A function was ended.
    Functions,
    /// A function was begun.
    Variables,
    Commands,
}

/// The parts of a program that were read: those that are whole, and the global or the function that goes on.
#[derive(Drop)]
pub(crate) struct Draft {
    phase: Phase,
    types: Types,
    globals: Items<GlobalObject>,
    global: GlobalObject,
    functions: Items<Function>,
    function: Function,
}

/// The two lines that every text begins with.
pub(crate) const FIRST_HEAD: &str = "/* porch flat text, version 1 */\n";

pub(crate) const SECOND_HEAD: &str = "#include \"porch.h\"\n";

/// The most types of a program.
const MOST_TYPES: usize = 2_147_483_648;

/// One more than the largest number of 32 bits: the most globals, functions, and variables of a function.
const MOST_PARTS: usize = 4_294_967_296;

/// The keywords of C90.
const KEYWORDS: [&str; 32] = [
    "auto", "break", "case", "char", "const", "continue", "default", "do", "double", "else",
    "enum", "extern", "float", "for", "goto", "if", "int", "long", "register", "return", "short",
    "signed", "sizeof", "static", "struct", "switch", "typedef", "union", "unsigned", "void",
    "volatile", "while",
];

fn is_letter(c: u8) -> bool
    ensures { result ≡ is_letter c }
{
    (65 <= c && c <= 90) || (97 <= c && c <= 122) || c == 95
}

fn is_name_byte(c: u8) -> bool
    ensures { result ≡ (is_letter c || is_digit c) }
{
    is_letter(c) || (48 <= c && c <= 57)
}

fn are_name_bytes(text: &[u8]) -> bool
    ensures { result ≡ list_all (λ d. is_letter d || is_digit d) text.now }
{
    text.iter().all(|c| is_name_byte(*c))
}

fn is_name(name: &[u8]) -> bool
    ensures { result ≡ is_name name.now }
{
    match name {
        [] => false,
        [first, rest @ ..] => is_letter(*first) && are_name_bytes(rest),
    }
}

fn is_written(word: &str, name: &[u8]) -> bool
    ensures { result ≡ bytes_eq word.now name.now }
{
    word.as_bytes() == name
}

fn is_one_of(words: &[&str], name: &[u8]) -> bool
    ensures { result ≡ list_any (λ word. bytes_eq word.now name.now) words.now }
{
    words.iter().any(|word| is_written(word, name))
}

fn is_keyword(name: &[u8]) -> bool
    ensures { result ≡ is_keyword name.now }
{
    is_one_of(&KEYWORDS, name)
}

fn is_function_name(name: &[u8]) -> bool
    ensures { result ≡ is_function_name name.now }
{
    is_name(name) && !is_keyword(name)
}

fn numbers_in(alloc: Global, inner: &[u8]) -> Result<Vec<u32>, AllocError>
    ensures { IfOk result
        (λ numbers. numbers.items ≡ each_in number_in (length inner.now) inner.now) }
{
    let mut numbers = Vec::new(alloc);
    let mut rest = inner;
    for _ in 0..inner.len() {
        if rest.is_empty() {
            break;
        }
        let (argument, behind) = next_argument(rest);
        numbers.push(number_in(argument))?;
        rest = behind;
    }
    Ok(numbers)
}

fn struct_in(alloc: Global, inner: &[u8]) -> Result<Ty, AllocError>
    ensures { IfOk result (λ ty. ty ≡ Ty.Struct (each_in number_in (length inner.now) inner.now)) }
{
    Ok(Ty::Struct {
        members: Members::from_vec(numbers_in(alloc, inner)?),
    })
}

fn type_in(alloc: Global, word: Word, inner: &[u8]) -> Result<Ty, AllocError>
    ensures { IfOk result (λ ty. ty ≡ type_from word inner.now) }
{
    let (_, rest) = next_argument(inner);
    let (a, behind) = next_argument(rest);
    let (b, _) = next_argument(behind);
    if matches!(word, Word::Struct) {
        return struct_in(alloc, rest);
    }
    if matches!(word, Word::Array) {
        return Ok(Ty::Array {
            of: number_in(a),
            count: number_in(b),
        });
    }
    Ok(Ty::Pointer { to: number_in(a) })
}

fn add_type(types: &mut Types, ty: Ty) -> Result<bool, AllocError>
    requires { length types.old < 2 ^ 31 }
    ensures { IfOk result
        (λ added. Added (add_fault types.old ty) added (types.old ++ ty ∷ []) types.new) }
{
    match types.add(ty) {
        Ok(_) => Ok(true),
        Err(TypeFault::NoMemory) => Err(AllocError),
        Err(TypeFault::Later { number: _ }) => Ok(false),
        Err(TypeFault::Empty) => Ok(false),
        Err(TypeFault::TooLarge { leaves: _ }) => Ok(false),
    }
}

fn is_type_line(scratch: &mut Vec<u8>, n: usize, ty: &Ty, line: &[u8]) -> Result<bool, AllocError>
    ensures { IfOk result (λ written. written ≡ bytes_eq (row_text (type_row n ty.now)) line.now) }
{
    scratch.clear();
    put_type(scratch, n as u64, ty)?;
    Ok(scratch.as_slice() == line)
}

fn take_type(
    alloc: Global,
    draft: &mut Draft,
    scratch: &mut Vec<u8>,
    word: Word,
    inner: &[u8],
    line: &[u8],
) -> Result<bool, AllocError>
    ensures { IfOk result
        (λ taken. Taken (with_type draft.old word inner.now line.now) taken draft.new) }
{
    let ty = type_in(alloc, word, inner)?;
    let n = draft.types.len();
    let written = is_type_line(scratch, n, &ty, line)?;
    if n < MOST_TYPES && written {
        add_type(&mut draft.types, ty)
    } else {
        Ok(false)
    }
}

fn empty_global(alloc: Global) -> GlobalObject
    ensures { result ≡ empty_global }
{
    GlobalObject {
        ty: 0,
        inits: Items::new(alloc),
    }
}

fn empty_function(alloc: Global) -> Function
    ensures { result ≡ empty_function }
{
    Function {
        name: Items::new(alloc),
        result: None,
        params: 0,
        vars: Items::new(alloc),
        commands: Items::new(alloc),
    }
}

fn close_global(alloc: Global, draft: &mut Draft) -> Result<(), AllocError>
    ensures { OnOk result (draft.new ≡ record draft.old {
      globals = globals_of draft.old.phase draft.old.globals draft.old.global;
      global = empty_global;
    }) }
{
    let global = replace(&mut draft.global, empty_global(alloc));
    match draft.phase {
        Phase::Globals => draft.globals.push(global),
        Phase::Start
        | Phase::Second
        | Phase::Types
        | Phase::Functions
        | Phase::Variables
        | Phase::Commands => Ok(()),
    }
}

#[tactic(auto, using(crate::proofs::Steps::taken_when))]
fn take_global(
    alloc: Global,
    draft: &mut Draft,
    scratch: &mut Vec<u8>,
    inner: &[u8],
    line: &[u8],
) -> Result<bool, AllocError>
    ensures { IfOk result
        (λ taken. Taken (with_global draft.old inner.now line.now) taken draft.new) }
{
    close_global(alloc, draft)?;
    let (_, rest) = next_argument(inner);
    let (ty, _) = next_argument(rest);
    let ty = number_in(ty);
    let n = draft.globals.len();
    scratch.clear();
    put_two(
        scratch,
        Word::Global,
        Argument::Number(n as u64),
        number(ty),
    )?;
    draft.phase = Phase::Globals;
    draft.global.ty = ty;
    Ok(n < MOST_PARTS && scratch.as_slice() == line)
}

fn init_in(word: Word, inner: &[u8]) -> Init
    ensures { result ≡ init_from word inner.now }
{
    let (_, rest) = next_argument(inner);
    let (a, rest) = next_argument(rest);
    let (b, rest) = next_argument(rest);
    let (c, _) = next_argument(rest);
    if matches!(word, Word::Init) {
        Init::Value(number_in(a), constant_in(b))
    } else {
        Init::Address(number_in(a), number_in(b), number_in(c))
    }
}

fn is_said(init: Init) -> bool
    ensures { result ≡ is_said init }
{
    match init {
        Init::Value(_, value) => value != 0,
        Init::Address(_, _, _) => true,
    }
}

#[tactic(auto, using(crate::proofs::Steps::taken_when))]
fn take_init(
    draft: &mut Draft,
    scratch: &mut Vec<u8>,
    word: Word,
    inner: &[u8],
    line: &[u8],
) -> Result<bool, AllocError>
    ensures { IfOk result
        (λ taken. Taken (with_init draft.old word inner.now line.now) taken draft.new) }
{
    let init = init_in(word, inner);
    scratch.clear();
    put_init(scratch, draft.globals.len() as u64, init)?;
    draft.global.inits.push(init)?;
    Ok(is_said(init) && scratch.as_slice() == line)
}

fn function_in(alloc: Global, inner: &[u8]) -> Result<Function, AllocError>
    ensures { IfOk result (λ function. function ≡ function_from inner.now) }
{
    let (_, rest) = next_argument(inner);
    let (name, rest) = next_argument(rest);
    let (ty, rest) = next_argument(rest);
    let (params, _) = next_argument(rest);
    let name = Items::from_slice(alloc, name)?;
    Ok(Function {
        name,
        result: result_type_in(ty),
        params: number_in(params),
        vars: Items::new(alloc),
        commands: Items::new(alloc),
    })
}

#[tactic(auto, using(crate::proofs::Steps::taken_when))]
fn take_function(
    alloc: Global,
    draft: &mut Draft,
    scratch: &mut Vec<u8>,
    inner: &[u8],
    line: &[u8],
) -> Result<bool, AllocError>
    ensures { IfOk result
        (λ taken. Taken (with_function draft.old inner.now line.now) taken draft.new) }
{
    close_global(alloc, draft)?;
    draft.function = function_in(alloc, inner)?;
    draft.phase = Phase::Variables;
    let n = draft.functions.len();
    scratch.clear();
    put_head(scratch, n as u64, &draft.function)?;
    Ok(
        n < MOST_PARTS
            && is_function_name(draft.function.name.as_slice())
            && scratch.as_slice() == line,
    )
}

#[tactic(auto, using(crate::proofs::Steps::taken_when))]
fn take_variable(
    draft: &mut Draft,
    scratch: &mut Vec<u8>,
    inner: &[u8],
    line: &[u8],
) -> Result<bool, AllocError>
    ensures { IfOk result
        (λ taken. Taken (with_variable draft.old inner.now line.now) taken draft.new) }
{
    let (_, rest) = next_argument(inner);
    let (ty, _) = next_argument(rest);
    let ty = number_in(ty);
    let n = draft.function.vars.len();
    scratch.clear();
    put_two(scratch, Word::Var, Argument::Number(n as u64), number(ty))?;
    draft.function.vars.push(ty)?;
    Ok(n < MOST_PARTS && scratch.as_slice() == line)
}

#[tactic(auto, using(crate::proofs::Steps::taken_when))]
fn take_begin(
    alloc: Global,
    draft: &mut Draft,
    scratch: &mut Vec<u8>,
    line: &[u8],
    behind: &[u8],
) -> Result<bool, AllocError>
    ensures { IfOk result (λ taken. Taken (with_begin draft.old line.now) taken draft.new) }
{
    scratch.clear();
    put_none(scratch, Word::Begin)?;
    draft.function.commands = Items::from_vec(Vec::with_capacity(alloc, lines_to_end(behind))?);
    draft.phase = Phase::Commands;
    Ok(scratch.as_slice() == line)
}

#[tactic(auto, using(crate::proofs::Steps::taken_when))]
fn add_command(
    draft: &mut Draft,
    scratch: &mut Vec<u8>,
    command: Command,
    line: &[u8],
) -> Result<bool, AllocError>
    ensures { IfOk result
        (λ taken. Taken (with_some_command draft.old (Some command) line.now) taken draft.new) }
{
    scratch.clear();
    put_command(scratch, &command)?;
    draft.function.commands.push(command)?;
    Ok(scratch.as_slice() == line)
}

fn take_command(
    alloc: Global,
    draft: &mut Draft,
    scratch: &mut Vec<u8>,
    word: Word,
    inner: &[u8],
    line: &[u8],
) -> Result<bool, AllocError>
    ensures { IfOk result
        (λ taken. Taken (with_command draft.old word inner.now line.now) taken draft.new) }
{
    match command_in(alloc, word, inner)? {
        None => Ok(false),
        Some(command) => add_command(draft, scratch, command, line),
    }
}

#[tactic(auto, using(crate::proofs::Steps::taken_when))]
fn take_end(
    alloc: Global,
    draft: &mut Draft,
    scratch: &mut Vec<u8>,
    line: &[u8],
) -> Result<bool, AllocError>
    ensures { IfOk result (λ taken. Taken (with_end draft.old line.now) taken draft.new) }
{
    scratch.clear();
    put_none(scratch, Word::End)?;
    let function = replace(&mut draft.function, empty_function(alloc));
    draft.functions.push(function)?;
    draft.phase = Phase::Functions;
    Ok(scratch.as_slice() == line)
}

fn is_type_word(word: Word) -> bool
    ensures { result ≡ is_type_word word }
{
    matches!(word, Word::Pointer | Word::Array | Word::Struct)
}

fn is_init_word(word: Word) -> bool
    ensures { result ≡ is_init_word word }
{
    matches!(word, Word::Init | Word::InitA)
}

fn is_global_word(word: Word) -> bool
    ensures { result ≡ is_word word Word.Global }
{
    matches!(word, Word::Global)
}

fn is_function_word(word: Word) -> bool
    ensures { result ≡ is_word word Word.Function }
{
    matches!(word, Word::Function)
}

fn is_variable_word(word: Word) -> bool
    ensures { result ≡ is_word word Word.Var }
{
    matches!(word, Word::Var)
}

fn is_begin_word(word: Word) -> bool
    ensures { result ≡ is_word word Word.Begin }
{
    matches!(word, Word::Begin)
}

fn is_end_word(word: Word) -> bool
    ensures { result ≡ is_word word Word.End }
{
    matches!(word, Word::End)
}

fn take_in_types(
    alloc: Global,
    draft: &mut Draft,
    scratch: &mut Vec<u8>,
    word: Word,
    inner: &[u8],
    line: &[u8],
) -> Result<bool, AllocError>
    ensures { IfOk result
        (λ taken. Taken (next_in draft.old Phase.Types word inner.now line.now) taken draft.new) }
{
    if is_type_word(word) {
        take_type(alloc, draft, scratch, word, inner, line)
    } else if is_global_word(word) {
        take_global(alloc, draft, scratch, inner, line)
    } else if is_function_word(word) {
        take_function(alloc, draft, scratch, inner, line)
    } else {
        Ok(false)
    }
}

fn take_in_globals(
    alloc: Global,
    draft: &mut Draft,
    scratch: &mut Vec<u8>,
    word: Word,
    inner: &[u8],
    line: &[u8],
) -> Result<bool, AllocError>
    ensures { IfOk result
        (λ taken. Taken (next_in draft.old Phase.Globals word inner.now line.now) taken draft.new) }
{
    if is_init_word(word) {
        take_init(draft, scratch, word, inner, line)
    } else if is_global_word(word) {
        take_global(alloc, draft, scratch, inner, line)
    } else if is_function_word(word) {
        take_function(alloc, draft, scratch, inner, line)
    } else {
        Ok(false)
    }
}

fn take_in_functions(
    alloc: Global,
    draft: &mut Draft,
    scratch: &mut Vec<u8>,
    word: Word,
    inner: &[u8],
    line: &[u8],
) -> Result<bool, AllocError>
    ensures { IfOk result (λ taken.
        Taken (next_in draft.old Phase.Functions word inner.now line.now) taken draft.new) }
{
    if is_function_word(word) {
        take_function(alloc, draft, scratch, inner, line)
    } else {
        Ok(false)
    }
}

fn take_in_variables(
    alloc: Global,
    draft: &mut Draft,
    scratch: &mut Vec<u8>,
    word: Word,
    inner: &[u8],
    line: &[u8],
    behind: &[u8],
) -> Result<bool, AllocError>
    ensures { IfOk result (λ taken.
        Taken (next_in draft.old Phase.Variables word inner.now line.now) taken draft.new) }
{
    if is_variable_word(word) {
        take_variable(draft, scratch, inner, line)
    } else if is_begin_word(word) {
        take_begin(alloc, draft, scratch, line, behind)
    } else {
        Ok(false)
    }
}

fn take_in_commands(
    alloc: Global,
    draft: &mut Draft,
    scratch: &mut Vec<u8>,
    word: Word,
    inner: &[u8],
    line: &[u8],
) -> Result<bool, AllocError>
    ensures { IfOk result (λ taken.
        Taken (next_in draft.old Phase.Commands word inner.now line.now) taken draft.new) }
{
    if is_end_word(word) {
        take_end(alloc, draft, scratch, line)
    } else {
        take_command(alloc, draft, scratch, word, inner, line)
    }
}

fn take_form(
    alloc: Global,
    draft: &mut Draft,
    scratch: &mut Vec<u8>,
    word: Word,
    inner: &[u8],
    line: &[u8],
    behind: &[u8],
) -> Result<bool, AllocError>
    ensures { IfOk result (λ taken.
        Taken (next_in draft.old draft.old.phase word inner.now line.now) taken draft.new) }
{
    match draft.phase {
        Phase::Start => Ok(false),
        Phase::Second => Ok(false),
        Phase::Types => take_in_types(alloc, draft, scratch, word, inner, line),
        Phase::Globals => take_in_globals(alloc, draft, scratch, word, inner, line),
        Phase::Functions => take_in_functions(alloc, draft, scratch, word, inner, line),
        Phase::Variables => { take_in_variables(alloc, draft, scratch, word, inner, line, behind) }
        Phase::Commands => take_in_commands(alloc, draft, scratch, word, inner, line),
    }
}

fn take_line_of_form(
    alloc: Global,
    draft: &mut Draft,
    scratch: &mut Vec<u8>,
    line: &[u8],
    behind: &[u8],
) -> Result<bool, AllocError>
    ensures { IfOk result (λ taken. Taken (next_form draft.old line.now) taken draft.new) }
{
    let (word, inner) = parts_of(line);
    match word_of(word) {
        None => Ok(false),
        Some(word) => take_form(alloc, draft, scratch, word, inner, line, behind),
    }
}

#[tactic(auto, using(crate::proofs::Steps::taken_when))]
fn take_first_head(draft: &mut Draft, line: &[u8]) -> bool
    ensures { Taken (next_at Phase.Start draft.old line.now) result draft.new }
{
    draft.phase = Phase::Second;
    FIRST_HEAD.as_bytes() == line
}

#[tactic(auto, using(crate::proofs::Steps::taken_when))]
fn take_second_head(draft: &mut Draft, line: &[u8]) -> bool
    ensures { Taken (next_at Phase.Second draft.old line.now) result draft.new }
{
    draft.phase = Phase::Types;
    SECOND_HEAD.as_bytes() == line
}

/// Takes the next line, newline included, where a program's text may go on so.
pub(crate) fn take_line(
    alloc: Global,
    draft: &mut Draft,
    scratch: &mut Vec<u8>,
    line: &[u8],
    behind: &[u8],
) -> Result<bool, AllocError>
    ensures { IfOk result (λ taken. Taken (next draft.old line.now) taken draft.new) }
{
    match draft.phase {
        Phase::Start => Ok(take_first_head(draft, line)),
        Phase::Second => Ok(take_second_head(draft, line)),
        Phase::Types | Phase::Globals | Phase::Functions | Phase::Variables | Phase::Commands =>
            take_line_of_form(alloc, draft, scratch, line, behind),
    }
}

/// A program before its first line.
pub(crate) fn start(alloc: Global) -> Result<Draft, AllocError>
    ensures { IfOk result (λ draft. draft ≡ empty_draft) }
{
    let types = Types::new(alloc)?;
    Ok(Draft {
        phase: Phase::Start,
        types,
        globals: Items::new(alloc),
        global: empty_global(alloc),
        functions: Items::new(alloc),
        function: empty_function(alloc),
    })
}

/// The number of types. That it can be told shows that they are a list of types.
pub(crate) fn type_count(draft: &Draft) -> usize
    ensures { IsTypes draft.now.types }
{
    draft.types.len()
}

/// Whether a program's text may end here.
pub(crate) fn is_whole(draft: &Draft) -> bool
    ensures { result ≡ is_whole draft.now.phase }
{
    matches!(
        draft.phase,
        Phase::Types | Phase::Globals | Phase::Functions
    )
}

/// The program that was read.
pub(crate) fn into_flat(alloc: Global, mut draft: Draft) -> Result<Flat, AllocError>
    requires { IsTrue (is_whole draft.phase) }
    ensures { IfOk result (λ flat. flat ≡ flat_of draft) }
{
    close_global(alloc, &mut draft)?;
    let Draft {
        phase: _,
        types,
        globals,
        global: _,
        functions,
        function: _,
    } = draft;
    Ok(Flat {
        types,
        globals,
        functions,
    })
}
