//! Reading an expression token by token. A frame is kept for each open parenthesis, and so nothing here recurses.

ghost use Rattle.std.specs.Prelude.{◌≡◌, IfOk};
ghost use Rattle.std.specs.Option.{option_map};
ghost use Rattle.porch_syntax.specs.Tree.{node_of};
ghost use Rattle.porch_syntax.specs.inside.Reading.{part_of, atom_node, factors_of, front_of, frame_of, frames_of, terms_view, reading_of, outcome_of, with_factor, product_of, with_term, sum_of, compared, value_of, opened, closed, ended, measured, at_step, behind_step, read_step, fresh};

use crate::token::Token;
use crate::tree::{Expr, Sign};
use sqlite_items::{Boxed, Items};
use std::alloc::{AllocError, Global};

/// An expression that is one token.
#[derive(Clone, Copy)]
pub enum Atom {
    Variable(u32),
    Whole(i32),
    Character(u8),
}

/// What a token is in an expression.
#[derive(Clone, Copy)]
pub enum Part {
    Atom(Atom),
    Open,
    Close,
    Times,
    Add(Sign),
    Less,
    Other,
}

/// The factors of a product so far.
#[derive(Drop)]
pub struct Factors {
    pub first: Expr,
    pub more: Items<Expr>,
}

/// The terms of a sum so far, and the sign behind them.
#[derive(Drop)]
pub struct Terms {
    pub first: Expr,
    pub more: Items<(Sign, Expr)>,
    pub sign: Sign,
}

/// What stands in front of a product.
#[derive(Drop)]
pub struct Front {
    /// How many expressions may lie within one another from here on, this one among them.
    pub room: usize,
    /// The left side of `<`, where that was read.
    pub left: Option<Expr>,
    pub terms: Option<Terms>,
}

/// What stands in front of an atom.
#[derive(Drop)]
pub struct Frame {
    pub front: Front,
    pub factors: Option<Factors>,
}

/// How far an expression is read. The frames are those of the open parentheses, innermost last.
#[derive(Drop)]
pub enum Reading {
    /// An atom comes next.
    Atom(Items<Frame>, Frame),
    /// An atom was read.
    Operator(Items<Frame>, Front, Factors),
}

/// What a token does to an expression.
#[derive(Drop)]
pub enum Outcome {
    /// It belongs to the expression.
    Goes(Reading),
    /// It is the first one behind the expression.
    Ends(Expr),
    Wrong,
}

/// What a token is in an expression under these many variables.
pub fn part_at(token: Token, known: usize) -> Part
    ensures { result ≡ part_of known token }
{
    match token {
        Token::Name(x) => {
            if (x as usize) < known {
                Part::Atom(Atom::Variable(x))
            } else {
                Part::Other
            }
        }
        Token::Whole(z) => Part::Atom(Atom::Whole(z)),
        Token::Character(c) => Part::Atom(Atom::Character(c)),
        Token::OpenParenthesis => Part::Open,
        Token::CloseParenthesis => Part::Close,
        Token::Star => Part::Times,
        Token::Plus => Part::Add(Sign::Plus),
        Token::Minus => Part::Add(Sign::Minus),
        Token::Less => Part::Less,
        Token::Int
        | Token::Main
        | Token::Void
        | Token::While
        | Token::Return
        | Token::Putchar
        | Token::OpenBrace
        | Token::CloseBrace
        | Token::Semicolon
        | Token::Assign => Part::Other,
    }
}

fn expression_of(atom: Atom) -> Expr
    ensures { node_of result ≡ atom_node atom }
{
    match atom {
        Atom::Variable(x) => Expr::Variable(x),
        Atom::Whole(z) => Expr::Whole(z),
        Atom::Character(c) => Expr::Character(c),
    }
}

fn multiply(alloc: Global, factors: Option<Factors>, factor: Expr) -> Result<Factors, AllocError>
    ensures { IfOk result
        (λ f. factors_of f ≡ with_factor (option_map factors_of factors) (node_of factor)) }
{
    match factors {
        None => Ok(Factors {
            first: factor,
            more: Items::new(alloc),
        }),
        Some(Factors { first, mut more }) => {
            more.push(factor)?;
            Ok(Factors { first, more })
        }
    }
}

fn product(alloc: Global, factors: Factors) -> Result<Expr, AllocError>
    ensures { IfOk result (λ e. node_of e ≡ product_of (factors_of factors)) }
{
    let Factors { first, more } = factors;
    if more.is_empty() {
        return Ok(first);
    }
    Ok(Expr::Product {
        first: Boxed::new(alloc, first)?,
        more,
    })
}

fn add(alloc: Global, terms: Option<Terms>, term: Expr, sign: Sign) -> Result<Terms, AllocError>
    ensures { IfOk result
        (λ t. terms_view t ≡ with_term (option_map terms_view terms) (node_of term) sign) }
{
    match terms {
        None => Ok(Terms {
            first: term,
            more: Items::new(alloc),
            sign,
        }),
        Some(
            Terms {
                first,
                mut more,
                sign: before,
            },
        ) => {
            more.push((before, term))?;
            Ok(Terms { first, more, sign })
        }
    }
}

fn sum(alloc: Global, terms: Option<Terms>, last: Expr) -> Result<Expr, AllocError>
    ensures { IfOk result (λ e. node_of e ≡ sum_of (option_map terms_view terms) (node_of last)) }
{
    match terms {
        None => Ok(last),
        Some(
            Terms {
                first,
                mut more,
                sign,
            },
        ) => {
            more.push((sign, last))?;
            Ok(Expr::Sum {
                first: Boxed::new(alloc, first)?,
                more,
            })
        }
    }
}

fn comparison(alloc: Global, left: Option<Expr>, right: Expr) -> Result<Expr, AllocError>
    ensures { IfOk result (λ e. node_of e ≡ compared (option_map node_of left) (node_of right)) }
{
    match left {
        None => Ok(right),
        Some(left) => Ok(Expr::Less {
            left: Boxed::new(alloc, left)?,
            right: Boxed::new(alloc, right)?,
        }),
    }
}

fn value(alloc: Global, front: Front, factors: Factors) -> Result<Expr, AllocError>
    ensures { IfOk result (λ e. node_of e ≡ value_of (front_of front) (factors_of factors)) }
{
    let Front {
        room: _,
        left,
        terms,
    } = front;
    let last = product(alloc, factors)?;
    let right = sum(alloc, terms, last)?;
    comparison(alloc, left, right)
}

/// The beginning of an expression.
pub fn beginning(room: usize) -> Frame
    ensures { frame_of result ≡ fresh room }
{
    Frame {
        front: Front {
            room,
            left: None,
            terms: None,
        },
        factors: None,
    }
}

fn open(mut frames: Items<Frame>, frame: Frame) -> Result<Outcome, AllocError>
    ensures { IfOk result (λ o. outcome_of o ≡ opened (frames_of frames) (frame_of frame)) }
{
    let room = frame.front.room;
    if room <= 1 {
        return Ok(Outcome::Wrong);
    }
    frames.push(frame)?;
    Ok(Outcome::Goes(Reading::Atom(frames, beginning(room - 1))))
}

fn close(alloc: Global, mut frames: Items<Frame>, value: Expr) -> Result<Outcome, AllocError>
    ensures { IfOk result (λ o. outcome_of o ≡ closed (frames_of frames) (node_of value)) }
{
    match frames.pop() {
        None => Ok(Outcome::Ends(value)),
        Some(Frame { front, factors }) => {
            let nested = Expr::Nested(Boxed::new(alloc, value)?);
            let factors = multiply(alloc, factors, nested)?;
            Ok(Outcome::Goes(Reading::Operator(frames, front, factors)))
        }
    }
}

fn end(mut frames: Items<Frame>, value: Expr) -> Outcome
    ensures { outcome_of result ≡ ended (frames_of frames) (node_of value) }
{
    match frames.pop() {
        None => Outcome::Ends(value),
        Some(_) => Outcome::Wrong,
    }
}

fn measure(frames: Items<Frame>, room: usize, left: Option<Expr>, sum: Expr) -> Outcome
    ensures { outcome_of result ≡ measured (frames_of frames) room (option_map node_of left)
        (node_of sum) }
{
    match left {
        None => {
            let front = Front {
                room,
                left: Some(sum),
                terms: None,
            };
            Outcome::Goes(Reading::Atom(
                frames,
                Frame {
                    front,
                    factors: None,
                },
            ))
        }
        Some(_) => Outcome::Wrong,
    }
}

fn at_atom(
    alloc: Global,
    frames: Items<Frame>,
    frame: Frame,
    part: Part,
) -> Result<Outcome, AllocError>
    ensures { IfOk result (λ o. outcome_of o ≡ at_step (frames_of frames) (frame_of frame) part) }
{
    match part {
        Part::Atom(read) => {
            let Frame { front, factors } = frame;
            let factors = multiply(alloc, factors, expression_of(read))?;
            Ok(Outcome::Goes(Reading::Operator(frames, front, factors)))
        }
        Part::Open => open(frames, frame),
        Part::Close => Ok(Outcome::Wrong),
        Part::Times => Ok(Outcome::Wrong),
        Part::Add(_) => Ok(Outcome::Wrong),
        Part::Less => Ok(Outcome::Wrong),
        Part::Other => Ok(Outcome::Wrong),
    }
}

fn add_next(
    alloc: Global,
    frames: Items<Frame>,
    front: Front,
    factors: Factors,
    sign: Sign,
) -> Result<Outcome, AllocError>
    ensures { IfOk result (λ o. outcome_of o ≡ behind_step (frames_of frames) (front_of front)
        (factors_of factors) (Part.Add sign)) }
{
    let Front { room, left, terms } = front;
    let term = product(alloc, factors)?;
    let terms = Some(add(alloc, terms, term, sign)?);
    let front = Front { room, left, terms };
    Ok(Outcome::Goes(Reading::Atom(
        frames,
        Frame {
            front,
            factors: None,
        },
    )))
}

fn measure_next(
    alloc: Global,
    frames: Items<Frame>,
    front: Front,
    factors: Factors,
) -> Result<Outcome, AllocError>
    ensures { IfOk result (λ o. outcome_of o ≡ behind_step (frames_of frames) (front_of front)
        (factors_of factors) Part.Less) }
{
    let Front { room, left, terms } = front;
    let last = product(alloc, factors)?;
    let sum = sum(alloc, terms, last)?;
    Ok(measure(frames, room, left, sum))
}

fn behind_atom(
    alloc: Global,
    frames: Items<Frame>,
    front: Front,
    factors: Factors,
    part: Part,
) -> Result<Outcome, AllocError>
    ensures { IfOk result (λ o. outcome_of o ≡ behind_step (frames_of frames) (front_of front)
        (factors_of factors) part) }
{
    match part {
        Part::Times => Ok(Outcome::Goes(Reading::Atom(
            frames,
            Frame {
                front,
                factors: Some(factors),
            },
        ))),
        Part::Add(sign) => add_next(alloc, frames, front, factors, sign),
        Part::Less => measure_next(alloc, frames, front, factors),
        Part::Close => close(alloc, frames, value(alloc, front, factors)?),
        Part::Atom(_) => Ok(end(frames, value(alloc, front, factors)?)),
        Part::Open => Ok(end(frames, value(alloc, front, factors)?)),
        Part::Other => Ok(end(frames, value(alloc, front, factors)?)),
    }
}

/// What the next token does to the expression.
pub fn read(alloc: Global, reading: Reading, part: Part) -> Result<Outcome, AllocError>
    ensures { IfOk result (λ o. outcome_of o ≡ read_step (reading_of reading) part) }
{
    match reading {
        Reading::Atom(frames, frame) => at_atom(alloc, frames, frame, part),
        Reading::Operator(frames, front, factors) => {
            behind_atom(alloc, frames, front, factors, part)
        }
    }
}
