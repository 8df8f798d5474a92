//! The stack of frames. The innermost frame is the last one.

ghost use Rattle.std.specs.Prelude.{ℕ, ◌≡◌, List, ◌∷◌, IfOk, IsOk};
ghost use Rattle.porch_unit.specs.Units.{state, at_statement};
ghost use Rattle.porch_statements.specs.Shown.{frame_of, frames_of, items_of, put_back, state_of};

use crate::frame::{Builder, Frame, Point};
use sqlite_items::Items;
use std::alloc::AllocError;

/// One more frame, which is the innermost.
#[tactic(auto, using(crate::proofs::Stacks::on_top))]
pub fn push_frame(frames: &mut Items<Frame>, frame: Frame) -> Result<(), AllocError>
    ensures pushed { IfOk result (λ _. (text : List ℕ) →
        frames_of text frames.new ≡ frame_of text frame ∷ frames_of text frames.old) }
{
    frames.push(frame)
}

/// One more frame, if what goes into it could be put there.
pub fn push_filled(
    frames: &mut Items<Frame>,
    frame: Frame,
    filled: Result<(), AllocError>,
) -> Result<(), AllocError>
    ensures filled { IfOk result (λ _. IsOk filled) }
    ensures pushed { IfOk result (λ _. (text : List ℕ) →
        frames_of text frames.new ≡ frame_of text frame ∷ frames_of text frames.old) }
{
    match filled {
        Ok(()) => push_frame(frames, frame),
        Err(error) => {
            let_go(frame);
            Err(error)
        }
    }
}

/// The innermost frame, taken off, if there is one.
pub fn pop_frame(frames: &mut Items<Frame>) -> Option<Frame>
    ensures popped { (text : List ℕ) →
        frames_of text frames.old ≡ put_back text result (frames_of text frames.new) }
{
    frames.pop()
}

/// In front of a statement in one more frame.
pub fn nest(builder: &mut Builder, frame: Frame) -> Result<Point, AllocError>
    ensures nested { IfOk result (λ x. (text : List ℕ) → state_of text builder.new x
        ≡ state (items_of text builder.old.items)
        (frame_of text frame ∷ frames_of text builder.old.frames) at_statement) }
{
    push_frame(&mut builder.frames, frame)?;
    Ok(Point::AtStatement)
}

/// Lets go of a frame.
pub fn drop_frame(frame: Frame) {
    let_go(frame);
}

/// Lets go of a value. A function that owns a tree at several exits would take it apart at each of them.
pub fn let_go<T: Drop>(_value: T) {}
