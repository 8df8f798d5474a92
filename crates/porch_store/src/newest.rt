//! Which checkpoint file is the newest, and which one a commit takes.
ghost use Rattle.std.specs.Prelude.{◌≡◌};
ghost use Rattle.porch_edge.specs.Files.{Files};
ghost use Rattle.porch_store.specs.Checkpoints.{IsNewest, newest_number};
ghost use Rattle.porch_store.specs.Taken.{older_of};
ghost use Rattle.porch_store.specs.inside.Numbers.{HasNumber};

use porch_edge::FileName;

/// Which checkpoint file is the newest: the open one with the greater number.
#[derive(Clone, Copy, Debug, PartialEq, Eq)]
pub enum Newest {
    /// None is open.
    Neither,
    /// This one.
    One { file: FileName },
    /// Both are open and have one number.
    Tie,
}

/// The file that a commit takes.
pub(crate) fn older(newest: Newest) -> FileName
    ensures { result ≡ older_of newest }
{
    match newest {
        Newest::One {
            file: FileName::CkA,
        } => FileName::CkB,
        _ => FileName::CkA,
    }
}

/// The newest and its number, by the number of each file where it is open.
pub(crate) fn rank(first: Option<u64>, second: Option<u64>) -> (Newest, Option<u64>)
    ensures newest { (fs : Files) → HasNumber fs.ck_a first → HasNumber fs.ck_b second
        → IsNewest result.0 fs }
    ensures number { (fs : Files) → HasNumber fs.ck_a first → HasNumber fs.ck_b second
        → result.1 ≡ newest_number result.0 fs }
{
    match (first, second) {
        (None, None) => (Newest::Neither, None),
        (Some(one), None) => (
            Newest::One {
                file: FileName::CkA,
            },
            Some(one),
        ),
        (None, Some(other)) => (
            Newest::One {
                file: FileName::CkB,
            },
            Some(other),
        ),
        (Some(one), Some(other)) if one > other => (
            Newest::One {
                file: FileName::CkA,
            },
            Some(one),
        ),
        (Some(one), Some(other)) if one < other => (
            Newest::One {
                file: FileName::CkB,
            },
            Some(other),
        ),
        (Some(one), Some(_)) => (Newest::Tie, Some(one)),
    }
}
