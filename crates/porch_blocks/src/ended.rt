//! Which frames end with the statement in them.

ghost use Rattle.std.specs.Prelude.{ℕ, ◌≡◌, ◌<◌, List, IsTrue, length, IfOk};
ghost use Rattle.porch_tree.specs.Views.{stmt_of};
ghost use Rattle.porch_unit.specs.Units as units;
ghost use Rattle.porch_unit.specs.Units.{ended_all};
ghost use Rattle.porch_statements.specs.Shown.{frame_of, frames_of};
ghost use Rattle.porch_blocks.specs.inside.Ended.{ends, ended_one};

use crate::build::build;
use porch_statements::Frame;
use porch_tree::Stmt;
use sqlite_items::Items;
use std::alloc::{AllocError, Global};

/// The statement that stands when all frames have ended that end with it.
pub(crate) fn end_frames(
    alloc: Global,
    frames: &mut Items<Frame>,
    is_else: bool,
    statement: Stmt,
) -> Result<Stmt, AllocError>
    ensures { IfOk result (λ s. (text : List ℕ) →
        ended_all is_else (frames_of text frames.old) (stmt_of text statement)
        ≡ record { frames = frames_of text frames.new; value = stmt_of text s }) }
{
    let mut statement = statement;
    'frames: while ends_innermost(frames, is_else) {
        statement = end_innermost(alloc, frames, statement)?;
    }
    Ok(statement)
}

// Whether a frame ends with the statement in it.
fn is_ended(frame: &Frame, is_else: bool) -> bool
    ensures { (text : List ℕ) → result ≡ units.is_ended is_else (frame_of text frame.now) }
{
    match frame {
        Frame::If {
            at: _,
            condition: _,
        } => !is_else,
        Frame::Else {
            at: _,
            condition: _,
            chosen: _,
        } => true,
        Frame::While {
            at: _,
            condition: _,
        } => true,
        Frame::For {
            at: _,
            start: _,
            condition: _,
            next: _,
        } => true,
        Frame::Do { at: _ } => false,
        Frame::Body {
            declaration: _,
            declarator: _,
            declarations: _,
            body: _,
        } => false,
        Frame::Block {
            at: _,
            declarations: _,
            body: _,
        } => false,
        Frame::Switch {
            at: _,
            value: _,
            entries: _,
        } => false,
    }
}

fn ends_innermost(frames: &Items<Frame>, is_else: bool) -> bool
    ensures ends { (text : List ℕ) → result ≡ ends is_else (frames_of text frames.now) }
    ensures some { IsTrue result → 0 < length frames.now }
{
    match frames.as_slice() {
        [] => false,
        [.., frame] => is_ended(frame, is_else),
    }
}

// The innermost frame ends, if there is one.
fn end_innermost(
    alloc: Global,
    frames: &mut Items<Frame>,
    statement: Stmt,
) -> Result<Stmt, AllocError>
    ensures ended { IfOk result (λ s. (text : List ℕ) →
        ended_one (frames_of text frames.old) (stmt_of text statement)
        ≡ record { frames = frames_of text frames.new; value = stmt_of text s }) }
    ensures fewer { 0 < length frames.old → length frames.new < length frames.old }
{
    match frames.pop() {
        None => Ok(statement),
        Some(frame) => build(alloc, frame, statement),
    }
}
