//! Reading a program token by token. A block is kept for each open brace, and so nothing here recurses.

ghost use Rattle.std.specs.Prelude.{◌≡◌, IfOk, length};
ghost use Rattle.std.specs.Option.{option_map};
ghost use Rattle.porch_syntax.specs.Tree.{node_of, action_of};
ghost use Rattle.porch_syntax.specs.inside.Reading.{reading_of, outcome_of};
ghost use Rattle.porch_syntax.specs.inside.Program.{written_of, phase_of, after, known, with_variable, with_action, begun, named, named_new, entered, left, statement_step, declaration_step, declaring_step, declared_step, assigning_step, looping_step, entering_step, printing_step, printed_step, semicolon_step, parenthesis_step, end_step, outcome_step, reading_step, step};

use crate::expression::{Outcome, Reading, beginning, part_at, read};
use crate::token::Token;
use crate::tree::{Expr, Stmt, Tree};
use sqlite_items::Items;
use std::alloc::{AllocError, Global};
use std::mem;

/// The most uses of statements and expressions that may lie within one another.
const MOST_NESTED: usize = 200;

/// What an expression is read for.
#[derive(Clone, Copy)]
pub enum Purpose {
    /// The value of the variable that is being declared.
    Initial,
    Assigned(u32),
    Condition,
    Shown,
    Given,
}

/// A loop whose body isn't over.
#[derive(Drop)]
pub struct Block {
    pub condition: Expr,
    /// The statements in front of the loop.
    pub before: Items<Stmt>,
}

/// What was read whole.
#[derive(Drop)]
pub struct Written {
    pub variables: Items<Option<Expr>>,
    /// The open blocks, innermost last.
    pub blocks: Items<Block>,
    /// The statements of the innermost block.
    pub statements: Items<Stmt>,
}

/// What was read behind the last whole declaration or statement.
#[derive(Drop)]
pub enum Phase {
    /// Nothing, and only declarations in front of that.
    Declarations,
    /// Nothing.
    Statements,
    /// `int`
    Declaring,
    /// `int name`
    Declared,
    /// `name`
    Assigning(u32),
    /// `while`
    Looping,
    /// `while (condition)`
    Entering(Expr),
    /// `putchar`
    Printing,
    /// `putchar(value)`
    Printed(Expr),
    /// The first tokens of an expression, behind what leads up to it.
    Reading(Purpose, Reading),
    /// The last brace.
    Over,
}

fn variable_count(written: &Written, purpose: Purpose) -> usize
    ensures { result ≡ known purpose (length written.now.variables) }
{
    let count = written.variables.as_slice().len();
    match purpose {
        Purpose::Initial => count + 1,
        Purpose::Assigned(_) => count,
        Purpose::Condition => count,
        Purpose::Shown => count,
        Purpose::Given => count,
    }
}

fn add_variable(written: &mut Written, value: Option<Expr>) -> Result<Option<Phase>, AllocError>
    ensures { IfOk result (λ next. after written.new next ≡ with_variable (written_of written.old)
        (option_map node_of value)) }
{
    written.variables.push(value)?;
    Ok(Some(Phase::Declarations))
}

fn add_statement(written: &mut Written, statement: Stmt) -> Result<Option<Phase>, AllocError>
    ensures { IfOk result (λ next. after written.new next ≡ with_action (written_of written.old)
        (action_of statement)) }
{
    written.statements.push(statement)?;
    Ok(Some(Phase::Statements))
}

/// Each open block and the statement are uses around its expression.
#[tactic(auto, using(crate::proofs::Blocks::blocks_length))]
fn begin(alloc: Global, written: &Written, purpose: Purpose) -> Option<Phase>
    ensures { after written.now result ≡ begun (written_of written.now) purpose }
{
    let depth = written.blocks.len();
    if depth < MOST_NESTED - 1 {
        Some(Phase::Reading(
            purpose,
            Reading::Atom(Items::new(alloc), beginning(MOST_NESTED - 1 - depth)),
        ))
    } else {
        None
    }
}

fn name(written: &Written, x: u32) -> Option<Phase>
    ensures { after written.now result ≡ named (written_of written.now) x }
{
    if (x as usize) < written.variables.len() {
        Some(Phase::Assigning(x))
    } else {
        None
    }
}

fn name_new(written: &Written, x: u32) -> Option<Phase>
    ensures { after written.now result ≡ named_new (written_of written.now) x }
{
    if x as usize == written.variables.len() {
        Some(Phase::Declared)
    } else {
        None
    }
}

fn enter(alloc: Global, written: &mut Written, condition: Expr) -> Result<Option<Phase>, AllocError>
    ensures { IfOk result (λ next. after written.new next ≡ entered (written_of written.old)
        (node_of condition)) }
{
    let before = mem::replace(&mut written.statements, Items::new(alloc));
    written.blocks.push(Block { condition, before })?;
    Ok(Some(Phase::Statements))
}

fn leave(alloc: Global, written: &mut Written) -> Result<Option<Phase>, AllocError>
    ensures { IfOk result (λ next. after written.new next ≡ left (written_of written.old)) }
{
    match written.blocks.pop() {
        None => Ok(Some(Phase::Over)),
        Some(
            Block {
                condition,
                mut before,
            },
        ) => {
            let body = mem::replace(&mut written.statements, Items::new(alloc));
            before.push(Stmt::While { condition, body })?;
            written.statements = before;
            Ok(Some(Phase::Statements))
        }
    }
}

fn in_statements(
    alloc: Global,
    written: &mut Written,
    token: Token,
) -> Result<Option<Phase>, AllocError>
    ensures { IfOk result (λ next. after written.new next ≡ statement_step (written_of written.old)
        token) }
{
    match token {
        Token::Name(x) => Ok(name(written, x)),
        Token::While => Ok(Some(Phase::Looping)),
        Token::Putchar => Ok(Some(Phase::Printing)),
        Token::Return => Ok(begin(alloc, written, Purpose::Given)),
        Token::CloseBrace => leave(alloc, written),
        Token::Int
        | Token::Main
        | Token::Void
        | Token::Whole(_)
        | Token::Character(_)
        | Token::OpenParenthesis
        | Token::CloseParenthesis
        | Token::OpenBrace
        | Token::Semicolon
        | Token::Assign
        | Token::Less
        | Token::Plus
        | Token::Minus
        | Token::Star => Ok(None),
    }
}

fn in_declarations(
    alloc: Global,
    written: &mut Written,
    token: Token,
) -> Result<Option<Phase>, AllocError>
    ensures { IfOk result
        (λ next. after written.new next ≡ declaration_step (written_of written.old) token) }
{
    match token {
        Token::Int => Ok(Some(Phase::Declaring)),
        Token::Name(_)
        | Token::While
        | Token::Putchar
        | Token::Return
        | Token::CloseBrace
        | Token::Main
        | Token::Void
        | Token::Whole(_)
        | Token::Character(_)
        | Token::OpenParenthesis
        | Token::CloseParenthesis
        | Token::OpenBrace
        | Token::Semicolon
        | Token::Assign
        | Token::Less
        | Token::Plus
        | Token::Minus
        | Token::Star => in_statements(alloc, written, token),
    }
}

fn in_declaring(written: &Written, token: Token) -> Option<Phase>
    ensures { after written.now result ≡ declaring_step (written_of written.now) token }
{
    match token {
        Token::Name(x) => name_new(written, x),
        Token::Int
        | Token::Main
        | Token::Void
        | Token::While
        | Token::Return
        | Token::Putchar
        | Token::Whole(_)
        | Token::Character(_)
        | Token::OpenParenthesis
        | Token::CloseParenthesis
        | Token::OpenBrace
        | Token::CloseBrace
        | Token::Semicolon
        | Token::Assign
        | Token::Less
        | Token::Plus
        | Token::Minus
        | Token::Star => None,
    }
}

fn in_declared(
    alloc: Global,
    written: &mut Written,
    token: Token,
) -> Result<Option<Phase>, AllocError>
    ensures { IfOk result (λ next. after written.new next ≡ declared_step (written_of written.old)
        token) }
{
    match token {
        Token::Semicolon => add_variable(written, None),
        Token::Assign => Ok(Some(Phase::Reading(
            Purpose::Initial,
            Reading::Atom(Items::new(alloc), beginning(MOST_NESTED)),
        ))),
        Token::Int
        | Token::Main
        | Token::Void
        | Token::While
        | Token::Return
        | Token::Putchar
        | Token::Name(_)
        | Token::Whole(_)
        | Token::Character(_)
        | Token::OpenParenthesis
        | Token::CloseParenthesis
        | Token::OpenBrace
        | Token::CloseBrace
        | Token::Less
        | Token::Plus
        | Token::Minus
        | Token::Star => Ok(None),
    }
}

fn in_assigning(alloc: Global, written: &Written, x: u32, token: Token) -> Option<Phase>
    ensures { after written.now result ≡ assigning_step (written_of written.now) x token }
{
    match token {
        Token::Assign => begin(alloc, written, Purpose::Assigned(x)),
        Token::Int
        | Token::Main
        | Token::Void
        | Token::While
        | Token::Return
        | Token::Putchar
        | Token::Name(_)
        | Token::Whole(_)
        | Token::Character(_)
        | Token::OpenParenthesis
        | Token::CloseParenthesis
        | Token::OpenBrace
        | Token::CloseBrace
        | Token::Semicolon
        | Token::Less
        | Token::Plus
        | Token::Minus
        | Token::Star => None,
    }
}

fn in_looping(alloc: Global, written: &Written, token: Token) -> Option<Phase>
    ensures { after written.now result ≡ looping_step (written_of written.now) token }
{
    match token {
        Token::OpenParenthesis => begin(alloc, written, Purpose::Condition),
        Token::Int
        | Token::Main
        | Token::Void
        | Token::While
        | Token::Return
        | Token::Putchar
        | Token::Name(_)
        | Token::Whole(_)
        | Token::Character(_)
        | Token::CloseParenthesis
        | Token::OpenBrace
        | Token::CloseBrace
        | Token::Semicolon
        | Token::Assign
        | Token::Less
        | Token::Plus
        | Token::Minus
        | Token::Star => None,
    }
}

fn in_printing(alloc: Global, written: &Written, token: Token) -> Option<Phase>
    ensures { after written.now result ≡ printing_step (written_of written.now) token }
{
    match token {
        Token::OpenParenthesis => begin(alloc, written, Purpose::Shown),
        Token::Int
        | Token::Main
        | Token::Void
        | Token::While
        | Token::Return
        | Token::Putchar
        | Token::Name(_)
        | Token::Whole(_)
        | Token::Character(_)
        | Token::CloseParenthesis
        | Token::OpenBrace
        | Token::CloseBrace
        | Token::Semicolon
        | Token::Assign
        | Token::Less
        | Token::Plus
        | Token::Minus
        | Token::Star => None,
    }
}

fn in_entering(
    alloc: Global,
    written: &mut Written,
    condition: Expr,
    token: Token,
) -> Result<Option<Phase>, AllocError>
    ensures { IfOk result (λ next. after written.new next ≡ entering_step (written_of written.old)
        (node_of condition) token) }
{
    match token {
        Token::OpenBrace => enter(alloc, written, condition),
        Token::Int
        | Token::Main
        | Token::Void
        | Token::While
        | Token::Return
        | Token::Putchar
        | Token::Name(_)
        | Token::Whole(_)
        | Token::Character(_)
        | Token::OpenParenthesis
        | Token::CloseParenthesis
        | Token::CloseBrace
        | Token::Semicolon
        | Token::Assign
        | Token::Less
        | Token::Plus
        | Token::Minus
        | Token::Star => Ok(None),
    }
}

fn in_printed(written: &mut Written, value: Expr, token: Token) -> Result<Option<Phase>, AllocError>
    ensures { IfOk result (λ next. after written.new next ≡ printed_step (written_of written.old)
        (node_of value) token) }
{
    match token {
        Token::Semicolon => add_statement(written, Stmt::Putchar(value)),
        Token::Int
        | Token::Main
        | Token::Void
        | Token::While
        | Token::Return
        | Token::Putchar
        | Token::Name(_)
        | Token::Whole(_)
        | Token::Character(_)
        | Token::OpenParenthesis
        | Token::CloseParenthesis
        | Token::OpenBrace
        | Token::CloseBrace
        | Token::Assign
        | Token::Less
        | Token::Plus
        | Token::Minus
        | Token::Star => Ok(None),
    }
}

/// A `;` behind an expression.
fn at_semicolon(
    written: &mut Written,
    purpose: Purpose,
    value: Expr,
) -> Result<Option<Phase>, AllocError>
    ensures { IfOk result (λ next. after written.new next ≡ semicolon_step (written_of written.old)
        purpose (node_of value)) }
{
    match purpose {
        Purpose::Initial => add_variable(written, Some(value)),
        Purpose::Assigned(variable) => add_statement(written, Stmt::Assign { variable, value }),
        Purpose::Condition => Ok(None),
        Purpose::Shown => Ok(None),
        Purpose::Given => add_statement(written, Stmt::Return(value)),
    }
}

/// A `)` behind an expression.
fn at_parenthesis(written: &Written, purpose: Purpose, value: Expr) -> Option<Phase>
    ensures { after written.now result ≡ parenthesis_step (written_of written.now) purpose
        (node_of value) }
{
    match purpose {
        Purpose::Initial => None,
        Purpose::Assigned(_) => None,
        Purpose::Condition => Some(Phase::Entering(value)),
        Purpose::Shown => Some(Phase::Printed(value)),
        Purpose::Given => None,
    }
}

fn at_end(
    written: &mut Written,
    purpose: Purpose,
    value: Expr,
    token: Token,
) -> Result<Option<Phase>, AllocError>
    ensures { IfOk result (λ next. after written.new next ≡ end_step (written_of written.old)
        purpose (node_of value) token) }
{
    match token {
        Token::Semicolon => at_semicolon(written, purpose, value),
        Token::CloseParenthesis => Ok(at_parenthesis(written, purpose, value)),
        Token::Int
        | Token::Main
        | Token::Void
        | Token::While
        | Token::Return
        | Token::Putchar
        | Token::Name(_)
        | Token::Whole(_)
        | Token::Character(_)
        | Token::OpenParenthesis
        | Token::OpenBrace
        | Token::CloseBrace
        | Token::Assign
        | Token::Less
        | Token::Plus
        | Token::Minus
        | Token::Star => Ok(None),
    }
}

fn finish(
    written: &mut Written,
    purpose: Purpose,
    outcome: Outcome,
    token: Token,
) -> Result<Option<Phase>, AllocError>
    ensures { IfOk result (λ next. after written.new next ≡ outcome_step (written_of written.old)
        purpose token (outcome_of outcome)) }
{
    match outcome {
        Outcome::Goes(reading) => Ok(Some(Phase::Reading(purpose, reading))),
        Outcome::Ends(value) => at_end(written, purpose, value, token),
        Outcome::Wrong => Ok(None),
    }
}

#[tactic(auto, using(crate::proofs::Blocks::variables_length))]
fn in_reading(
    alloc: Global,
    written: &mut Written,
    purpose: Purpose,
    reading: Reading,
    token: Token,
) -> Result<Option<Phase>, AllocError>
    ensures { IfOk result (λ next. after written.new next ≡ reading_step (written_of written.old)
        purpose (reading_of reading) token) }
{
    let count = variable_count(written, purpose);
    let outcome = read(alloc, reading, part_at(token, count))?;
    finish(written, purpose, outcome, token)
}

/// What the next token makes of what was read, or `None` where it can't come.
pub fn advance(
    alloc: Global,
    written: &mut Written,
    phase: Phase,
    token: Token,
) -> Result<Option<Phase>, AllocError>
    ensures { IfOk result
        (λ next. after written.new next ≡ step (written_of written.old) (phase_of phase) token) }
{
    match phase {
        Phase::Declarations => in_declarations(alloc, written, token),
        Phase::Statements => in_statements(alloc, written, token),
        Phase::Declaring => Ok(in_declaring(written, token)),
        Phase::Declared => in_declared(alloc, written, token),
        Phase::Assigning(x) => Ok(in_assigning(alloc, written, x, token)),
        Phase::Looping => Ok(in_looping(alloc, written, token)),
        Phase::Entering(condition) => in_entering(alloc, written, condition, token),
        Phase::Printing => Ok(in_printing(alloc, written, token)),
        Phase::Printed(value) => in_printed(written, value, token),
        Phase::Reading(purpose, reading) => in_reading(alloc, written, purpose, reading, token),
        Phase::Over => Ok(None),
    }
}
