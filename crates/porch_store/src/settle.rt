//! The sync of both checkpoint files.
ghost use Rattle.std.specs.Prelude.{OnOk};
ghost use Rattle.porch_edge.specs.declared.disk.FileName.TheVariants.{CkA, CkB};
ghost use Rattle.porch_edge.specs.Causes.{HasCause};
ghost use Rattle.porch_edge.specs.Disk.{IsSettled, OnlyLooks};

use porch_edge::{Disk, Failed, FileName};

/// Syncs both checkpoint files, so that nothing is pending in them.
pub(crate) fn settle<D: Disk>(disk: &mut D) -> Result<(), Failed>
    ensures settled_a { OnOk result (IsSettled (D.state disk.new) CkA) }
    ensures settled_b { OnOk result (IsSettled (D.state disk.new) CkB) }
    ensures looks { OnlyLooks (D.state disk.old) (D.state disk.new) }
    ensures cause { HasCause (D.faults disk.old) (D.faults disk.new) result }
{
    disk.sync(FileName::CkA)?;
    disk.sync(FileName::CkB)
}
