//! The layout that a name stands for.

ghost use Rattle.std.specs.Prelude.{◌≡◌, ◌≤◌, length, IfOk, IsErrOf};
ghost use Rattle.porch_edge.specs.Causes.{Rose};
ghost use Rattle.porch_edge.specs.Disk.{OnlyLooks};
ghost use Rattle.porch_layout.specs.Layouts.{IsLayout};
ghost use Rattle.porch_cli.specs.inside.Naming.{IsNamed, IsInFile, IsInText};

use porch_edge::{Disk, FileName};
use porch_layout::{Layout, LayoutFault, LayoutKey, LayoutRule, built_in, layout_from};
use porch_store::{LoadFault, load_front};
use std::alloc::Global;

/// The bytes of the layouts file that are read: one more than it may have.
const MOST_READ: u64 = 65_537;

/// Why a name has no layout.
#[derive(Clone, Copy, Debug, PartialEq, Eq)]
pub enum NamingStop {
    BadLayout { key: LayoutKey, rule: LayoutRule },
    DiskFault,
    NoMemory,
}

/// The layout of a name: the built-in one, or that of the layouts file, which is read only where there is none.
pub fn layout_of_name<D: Disk>(
    alloc: Global,
    disk: &mut D,
    name: &str,
) -> Result<Layout, NamingStop>
    ensures named { IsNamed (D.state disk.old).files name.now result }
    ensures allowed { IfOk result IsLayout }
    ensures failed { IsErrOf result NamingStop.DiskFault
        → Rose (D.faults disk.old) (D.faults disk.new) }
    ensures looks { OnlyLooks (D.state disk.old) (D.state disk.new) }
{
    match built_in(name) {
        Some(layout) => Ok(layout),
        None => layout_in_file(alloc, disk, name),
    }
}

/// The layout of a name in the layouts file.
fn layout_in_file<D: Disk>(alloc: Global, disk: &mut D, name: &str) -> Result<Layout, NamingStop>
    ensures named { IsInFile (D.state disk.old).files name.now result }
    ensures allowed { IfOk result IsLayout }
    ensures failed { IsErrOf result NamingStop.DiskFault
        → Rose (D.faults disk.old) (D.faults disk.new) }
    ensures looks { OnlyLooks (D.state disk.old) (D.state disk.new) }
{
    match load_front(alloc, disk, FileName::Layouts, MOST_READ) {
        Ok(text) => layout_in_text(alloc, text.as_slice(), name),
        Err(LoadFault::Failed) => Err(NamingStop::DiskFault),
        Err(LoadFault::NoMemory) => Err(NamingStop::NoMemory),
    }
}

/// The layout of a name in the text of a layouts file.
fn layout_in_text(alloc: Global, text: &[u8], name: &str) -> Result<Layout, NamingStop>
    ensures named { IsInText text.now name.now result }
    ensures allowed { IfOk result IsLayout }
    ensures memory { IsErrOf result NamingStop.DiskFault → ⊥ }
{
    match layout_from(alloc, text, name) {
        Ok(layout) => Ok(layout),
        Err(LayoutFault::BadLayout { key, rule }) => Err(NamingStop::BadLayout { key, rule }),
        Err(LayoutFault::NoMemory) => Err(NamingStop::NoMemory),
    }
}
