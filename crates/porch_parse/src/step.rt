//! What the builder does at each token of an expression.

ghost use Rattle.std.specs.Prelude.{ℕ, ◌≡◌, List, map, IfOk};
ghost use Rattle.porch_tree.specs.Views.{expr_of, suffix_of, name_of, type_name_of};
ghost use Rattle.porch_lex.specs.Words.{kind_word, spelled_token};
ghost use Rattle.porch_parse.specs.Building.{operated, ending, assigned, asked, behind_the_comma, behind_the_colon, behind_parenthesis, behind_bracket, behind_text, behind_all, start_step, part_step, member_step, opened_step, step, named, is_close, spelt_name, ends_number, comma_number, assigning_number, level_number};
ghost use Rattle.porch_tree.specs.Mirror.{texts};
ghost use Rattle.porch_parse.specs.declared.frame.Frame.{Frame};
ghost use Rattle.porch_parse.specs.Building as building;
ghost use Rattle.porch_parse.specs.Shown.{operand_of, frames_of, state_of};

use crate::frame::{ASSIGNING, COMMA, ENDS, Frame, Operand, number_of};
use crate::part::{Part, Start, part_at, start_at};
use crate::phase::{
    Phase, ask, assign, end, end_all, end_bracket, end_chosen, end_nothing, end_parenthesis,
    end_type, open, open_parenthesis, open_type, operate, read, separate, suffix,
};
use porch_lex::{Token, word_at};
use porch_tree::{Assigning, Expr, Infix, Mark, Name, Suffix, TypeName, Word};
use sqlite_items::{Boxed, Items};
use std::alloc::{AllocError, Global};

/// What stands behind one more token. `begins` says whether a type can begin with it.
pub fn next(
    alloc: Global,
    frames: &mut Items<Frame>,
    phase: Phase,
    begins: bool,
    token: Token,
) -> Result<Phase, AllocError>
    ensures step { IfOk result (λ p. (text : List ℕ) →
        state_of text frames.new p ≡ step begins (state_of text frames.old phase)
        (kind_word token.kind) (spelled_token text token)) }
{
    match phase {
        Phase::Awaits => begin(alloc, frames, start_at(word_at(token)), token),
        Phase::Behind(operand) => go_on(alloc, frames, operand, part_at(word_at(token)), token),
        Phase::Member(far, operand) => name_member(far, operand, word_at(token), token),
        Phase::Opened { at } => open_next(alloc, frames, at, begins, token),
        Phase::AtType | Phase::Broken => Ok(Phase::Broken),
        Phase::Over(_) => Ok(Phase::Broken),
    }
}

/// What stands behind a type that ended in front of a word, which has to be `)`.
pub fn name_type(
    alloc: Global,
    frames: &mut Items<Frame>,
    name: Boxed<TypeName>,
    word: Word,
) -> Result<Phase, AllocError>
    ensures named { IfOk result (λ p. (text : List ℕ) →
        state_of text frames.new p
        ≡ named (frames_of text frames.old) (type_name_of text name) word) }
{
    if is_close(word) {
        end_type(alloc, frames, name)
    } else {
        Ok(Phase::Broken)
    }
}

fn is_close(word: Word) -> bool
    ensures { result ≡ is_close word }
{
    matches!(word, Word::Mark(Mark::CloseParenthesis))
}

fn open_next(
    alloc: Global,
    frames: &mut Items<Frame>,
    at: u32,
    begins: bool,
    token: Token,
) -> Result<Phase, AllocError>
    ensures { IfOk result (λ p. (text : List ℕ) →
        state_of text frames.new p ≡ opened_step begins (frames_of text frames.old) at
        (kind_word token.kind) (spelled_token text token)) }
{
    if begins {
        return open_type(frames, at);
    }
    frames.push(Frame::Parentheses { at })?;
    begin(alloc, frames, start_at(word_at(token)), token)
}

fn name_at(token: Token) -> Name
    ensures { (text : List ℕ) → name_of text result ≡ spelt_name (spelled_token text token) }
{
    Name {
        at: token.from,
        to: token.to,
    }
}

fn begin(
    alloc: Global,
    frames: &mut Items<Frame>,
    start: Start,
    token: Token,
) -> Result<Phase, AllocError>
    ensures { IfOk result (λ p. (text : List ℕ) →
        state_of text frames.new p
        ≡ start_step (frames_of text frames.old) start (spelled_token text token)) }
{
    match start {
        Start::Name => Ok(read(alloc, Expr::Name(name_at(token)))),
        Start::Whole => Ok(read(alloc, Expr::Whole(name_at(token)))),
        Start::Character => Ok(read(alloc, Expr::Character(name_at(token)))),
        Start::Text => Ok(read(
            alloc,
            Expr::Texts {
                first: name_at(token),
                more: Items::new(alloc),
            },
        )),
        Start::Prefix(prefix) => open(
            frames,
            Frame::Prefix {
                at: token.from,
                prefix,
            },
        ),
        Start::Open => open_parenthesis(frames, token.from),
        Start::Close => end_nothing(frames),
        Start::Other => Ok(Phase::Broken),
    }
}

fn go_on(
    alloc: Global,
    frames: &mut Items<Frame>,
    operand: Operand,
    part: Part,
    token: Token,
) -> Result<Phase, AllocError>
    ensures { IfOk result (λ p. (text : List ℕ) →
        state_of text frames.new p
        ≡ part_step (frames_of text frames.old) (operand_of text operand) part
        (spelled_token text token)) }
{
    match part {
        Part::Infix(operator) => operate_next(alloc, frames, operand, operator),
        Part::Assigning(assigning) => assign_next(alloc, frames, operand, assigning),
        Part::Question => ask_next(alloc, frames, operand),
        Part::Colon => choose_next(alloc, frames, operand),
        Part::Comma => separate_next(alloc, frames, operand),
        Part::Close => close_next(alloc, frames, operand),
        Part::CloseBracket => close_bracket_next(alloc, frames, operand),
        Part::Open => open(
            frames,
            Frame::Arguments {
                operand,
                more: Items::new(alloc),
            },
        ),
        Part::OpenBracket => open(frames, Frame::Brackets(operand)),
        Part::Dot => Ok(Phase::Member(false, operand)),
        Part::Arrow => Ok(Phase::Member(true, operand)),
        Part::Increase => suffix(operand, Suffix::Increased),
        Part::Decrease => suffix(operand, Suffix::Decreased),
        Part::End => end_next(alloc, frames, operand),
        Part::Text => join(alloc, operand, name_at(token)),
        Part::Other => Ok(Phase::Broken),
    }
}

fn name_member(far: bool, operand: Operand, word: Word, token: Token) -> Result<Phase, AllocError>
    ensures { IfOk result (λ p. (text : List ℕ) (frames : List Frame) → state_of text frames p
        ≡ member_step far (frames_of text frames) (operand_of text operand) word
        (spelled_token text token)) }
{
    match word {
        Word::Name => suffix(operand, member_of(far, name_at(token))),
        Word::Whole | Word::Character | Word::Text | Word::Key(_) | Word::Mark(_) => {
            Ok(Phase::Broken)
        }
    }
}

fn member_of(far: bool, name: Name) -> Suffix
    ensures { (text : List ℕ) → suffix_of text result ≡ building.member_of far (name_of text name) }
{
    if far {
        Suffix::Arrow(name)
    } else {
        Suffix::Member(name)
    }
}

fn join(alloc: Global, operand: Operand, name: Name) -> Result<Phase, AllocError>
    ensures { IfOk result (λ p. (text : List ℕ) (frames : List Frame) →
        state_of text frames p ≡ behind_text (frames_of text frames) (expr_of text operand.core)
        (map (suffix_of text) operand.suffixes) (name_of text name)) }
{
    let Operand { core, suffixes } = operand;
    match core {
        Expr::Texts { first, more } => join_text(alloc, first, more, suffixes, name),
        Expr::Name(_)
        | Expr::Whole(_)
        | Expr::Character(_)
        | Expr::Nested { at: _, expr: _ }
        | Expr::Suffixed {
            operand: _,
            suffixes: _,
        }
        | Expr::Prefixed {
            at: _,
            prefix: _,
            operand: _,
        }
        | Expr::SizeOf { at: _, name: _ }
        | Expr::Cast {
            at: _,
            name: _,
            operand: _,
        }
        | Expr::Row {
            level: _,
            first: _,
            more: _,
        }
        | Expr::Conditional {
            condition: _,
            chosen: _,
            other: _,
        }
        | Expr::Assign {
            assigning: _,
            place: _,
            value: _,
        }
        | Expr::Sequence { first: _, more: _ } => Ok(Phase::Broken),
    }
}

fn join_text(
    alloc: Global,
    first: Name,
    mut more: Items<Name>,
    suffixes: Items<Suffix>,
    name: Name,
) -> Result<Phase, AllocError>
    ensures { IfOk result (λ p. (text : List ℕ) (frames : List Frame) →
        state_of text frames p ≡ behind_text (frames_of text frames)
        (texts (name_of text first) (map (name_of text) more)) (map (suffix_of text) suffixes)
        (name_of text name)) }
{
    if !suffixes.is_empty() {
        return Ok(Phase::Broken);
    }
    more.push(name)?;
    Ok(read(alloc, Expr::Texts { first, more }))
}

fn operate_next(
    alloc: Global,
    frames: &mut Items<Frame>,
    operand: Operand,
    operator: Infix,
) -> Result<Phase, AllocError>
    ensures { IfOk result (λ p. (text : List ℕ) →
        state_of text frames.new p
        ≡ ending (frames_of text frames.old) (operand_of text operand) (level_number operator)
        (operated operator)) }
{
    let value = end(alloc, frames, number_of(operator), operand)?;
    operate(alloc, frames, operator, value)
}

fn assign_next(
    alloc: Global,
    frames: &mut Items<Frame>,
    operand: Operand,
    assigning: Assigning,
) -> Result<Phase, AllocError>
    ensures { IfOk result (λ p. (text : List ℕ) →
        state_of text frames.new p
        ≡ ending (frames_of text frames.old) (operand_of text operand) assigning_number
        (assigned assigning)) }
{
    let value = end(alloc, frames, ASSIGNING, operand)?;
    assign(alloc, frames, assigning, value)
}

fn ask_next(alloc: Global, frames: &mut Items<Frame>, operand: Operand) -> Result<Phase, AllocError>
    ensures { IfOk result (λ p. (text : List ℕ) →
        state_of text frames.new p
        ≡ ending (frames_of text frames.old) (operand_of text operand) assigning_number
        asked) }
{
    let value = end(alloc, frames, ASSIGNING, operand)?;
    ask(alloc, frames, value)
}

fn choose_next(
    alloc: Global,
    frames: &mut Items<Frame>,
    operand: Operand,
) -> Result<Phase, AllocError>
    ensures { IfOk result (λ p. (text : List ℕ) →
        state_of text frames.new p
        ≡ ending (frames_of text frames.old) (operand_of text operand) ends_number
        behind_the_colon) }
{
    let value = end(alloc, frames, ENDS, operand)?;
    end_chosen(alloc, frames, value)
}

fn separate_next(
    alloc: Global,
    frames: &mut Items<Frame>,
    operand: Operand,
) -> Result<Phase, AllocError>
    ensures { IfOk result (λ p. (text : List ℕ) →
        state_of text frames.new p
        ≡ ending (frames_of text frames.old) (operand_of text operand) comma_number
        behind_the_comma) }
{
    let value = end(alloc, frames, COMMA, operand)?;
    separate(alloc, frames, value)
}

fn close_next(
    alloc: Global,
    frames: &mut Items<Frame>,
    operand: Operand,
) -> Result<Phase, AllocError>
    ensures { IfOk result (λ p. (text : List ℕ) →
        state_of text frames.new p
        ≡ ending (frames_of text frames.old) (operand_of text operand) ends_number
        behind_parenthesis) }
{
    let value = end(alloc, frames, ENDS, operand)?;
    end_parenthesis(alloc, frames, value)
}

fn close_bracket_next(
    alloc: Global,
    frames: &mut Items<Frame>,
    operand: Operand,
) -> Result<Phase, AllocError>
    ensures { IfOk result (λ p. (text : List ℕ) →
        state_of text frames.new p
        ≡ ending (frames_of text frames.old) (operand_of text operand) ends_number
        behind_bracket) }
{
    let value = end(alloc, frames, ENDS, operand)?;
    end_bracket(frames, value)
}

fn end_next(alloc: Global, frames: &mut Items<Frame>, operand: Operand) -> Result<Phase, AllocError>
    ensures { IfOk result (λ p. (text : List ℕ) →
        state_of text frames.new p
        ≡ ending (frames_of text frames.old) (operand_of text operand) ends_number
        behind_all) }
{
    let value = end(alloc, frames, ENDS, operand)?;
    end_all(frames, value)
}
