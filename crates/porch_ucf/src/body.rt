//! The body of a checkpoint file: its rows, and where its objects stand in its data.

ghost use Rattle.std.specs.Prelude.{◌≡◌, ◌≤◌, ◌<◌, ◌^◌, length, All, IfOk, IfErr, OnOk, None};
ghost use Rattle.porch_flat.specs.declared.whole.Sort.TheVariants as sort;
ghost use Rattle.porch_flat.specs.whole.Rules.{IsValid};
ghost use Rattle.porch_ucf.specs.HeaderFlaws.{IsRefusal};
ghost use Rattle.porch_ucf.specs.Objects.{objects_of, placed, size_flaw};

use crate::fault::{ImageFault, Reason};
use crate::header::{BODY_AT, damaged};
use crate::image::{BlockRow, FrameRow};
use crate::placing::Placing;
use porch_find::Root;
use porch_flat::whole::Flat;
use porch_metrics::Metrics;
use std::alloc::Global;

/// Where the objects of a checkpoint stand in its data, where they have the data's length.
pub(crate) fn place_objects(
    alloc: Global,
    program: &Flat,
    metrics: &Metrics,
    frames: &[FrameRow],
    blocks: &[BlockRow],
    bytes: &[u8],
) -> Result<Vec<Root>, ImageFault>
    requires valid { IsValid sort.Rewritten program.now }
    requires types { metrics.now.types ≡ program.now.types }
    requires blocks { All (λ block. block.ty < length program.now.types) blocks.now }
    ensures roots { IfOk result (λ roots. roots.items
        ≡ (placed program.now.types (objects_of program.now frames.now blocks.now)).roots) }
    ensures sound { OnOk result (size_flaw program.now.types
        (objects_of program.now frames.now blocks.now) bytes.now ≡ None) }
    ensures flaw { IfErr result (IsRefusal (size_flaw program.now.types
        (objects_of program.now frames.now blocks.now) bytes.now)) }
{
    let most = bytes.len() as u64;
    let mut placing = Placing::new(alloc);
    placing.put_all(metrics, most, program, frames, blocks)?;
    if placing.end() < most {
        return Err(damaged(BODY_AT, Reason::Size));
    }
    Ok(placing.into_roots())
}
