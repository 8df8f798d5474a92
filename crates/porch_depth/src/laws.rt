//! What holds of the uses that are shown, over all lists of tokens. The functions are laws, and have nothing to
//! run.

ghost use Rattle.std.specs.Prelude.{List, ◌++◌};
ghost use Rattle.porch_tree.specs.Pieces.{Spelled};
ghost use Rattle.porch_walk.specs.Levels.{uses_shown};
ghost use Rattle.porch_depth.specs.Levels.{AreAtLeast};

/// What tokens show of the uses of each only rises with more tokens behind them.
pub fn what_is_shown_only_rises()
    ensures { (ts rest : List Spelled) → AreAtLeast (uses_shown (ts ++ rest)) (uses_shown ts) }
{}
