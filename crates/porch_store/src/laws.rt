//! What stays of a store over calls on other files. The function does nothing: it says laws.
ghost use Rattle.porch_edge.specs.declared.disk.FileName.TheVariants.{CkA, CkB};
ghost use Rattle.porch_edge.specs.Disk.{SparesOne};
ghost use Rattle.porch_store.specs.Stores.{IsReady, MayFill};

use crate::Store;
use porch_edge::Disk;

/// Over calls by which both checkpoint files are spared, as those on other files are, a store stays ready, and goes on
/// filling a file.
pub fn store_stays<D: Disk>()
    ensures ready { (store : Store) (s t : D) → IsReady store (D.state s)
        → SparesOne (D.state s) (D.state t) CkA → SparesOne (D.state s) (D.state t) CkB
        → IsReady store (D.state t) }
    ensures filling { (store : Store) (s t : D) → MayFill store (D.state s)
        → SparesOne (D.state s) (D.state t) CkA → SparesOne (D.state s) (D.state t) CkB
        → MayFill store (D.state t) }
{}
