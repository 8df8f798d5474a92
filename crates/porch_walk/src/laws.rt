//! What holds of the walk over all lists of tokens. The functions are laws, and have nothing to run.

ghost use Rattle.std.specs.Prelude.{◌≡◌, List, None, length, map, take};
ghost use Rattle.porch_tree.specs.Pieces.{Piece, Spelled, unit_pieces};
ghost use Rattle.porch_tree.specs.Mirror.{TranslationUnit};
ghost use Rattle.porch_tree.specs.Grammar.{IsDeepUnit, IsReach};
ghost use Rattle.porch_walk.specs.Walk.{start, wrong, Told, IsTaken};
ghost use Rattle.porch_walk.specs.Levels.{uses_shown};
ghost use Rattle.porch_walk.specs.Had.{IsHad};
ghost use Rattle.porch_walk.specs.Reach.{IsReachOf, reach_of};

/// Where the walk finds nothing wrong, a unit has these tokens. A token that it names for `Syntax` is
/// the first with which no unit goes on, or the end of what only begins one. One that it names for
/// `Outside` is outside the language behind the beginning of a unit.
pub fn what_is_wrong_is_told()
    ensures { (ts : List Spelled) → Told ts (wrong 0 start ts) }
{}

/// The walk takes the tokens of each unit to their end.
pub fn each_unit_is_taken()
    ensures { (ts : List Spelled) (u : TranslationUnit) → IsDeepUnit ts u → IsTaken ts }
{}

/// What the walk names is the first fault of `Syntax` and `Outside`: some unit goes on with each token
/// before it, and none of these is outside the language behind the beginning of any unit. A token that
/// it names for `Syntax` isn't outside the language either. Where it names none, a unit has the tokens,
/// and the same holds of all of them. Nesting isn't looked at.
pub fn the_first_fault_is_told()
    ensures { (ts : List Spelled) → IsReachOf ts (wrong 0 start ts) }
{}

/// The tokens of a unit are read to their end: none of them is outside the language behind the beginning of
/// any unit, and some unit goes on with each.
pub fn each_unit_is_read_whole()
    ensures { (ts : List Spelled) (u : TranslationUnit) → IsDeepUnit ts u
        → IsReach ts (length ts) None }
{}

/// Over the tokens of a unit the walk shows of each just the counted uses that its piece lies in, however
/// deep these are.
pub fn each_unit_shows_its_uses()
    ensures { (ts : List Spelled) (u : TranslationUnit) → IsDeepUnit ts u
        → uses_shown ts ≡ map (λ (p : Piece). p.uses) (unit_pieces u) }
{}

/// Of the tokens up to the first of `Syntax` or `Outside`, or of all where there is none, one of the units
/// that begin with them has just the uses that the walk shows.
pub fn what_is_shown_is_had()
    ensures { (ts : List Spelled) → IsHad (take (reach_of ts (wrong 0 start ts)) ts) }
{}
