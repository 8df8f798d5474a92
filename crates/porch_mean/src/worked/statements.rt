//! Loops, switches, and declarations that are reached again.

ghost use Rattle.porch_mean.specs.worked.Statements.{While, Do, DoLeaves, For, ForEver, NoRound, Else, ReturnLeavesAll, FallsThrough, BeginsAtTheLabel, ContinueBelongsToTheLoop, DeclarationsTakeTheValueAway};

/// Loops go round and are left.
#[tactic(auto, unfolding(crate::proofs::Runs::runs_compute))]
pub fn loops_go_round()
    ensures while_loop { While }
    ensures do_loop { Do }
    ensures do_leaves { DoLeaves }
    ensures for_loop { For }
    ensures for_ever { ForEver }
    ensures no_round { NoRound }
{}

/// Statements that choose what is done.
#[tactic(auto, unfolding(crate::proofs::Runs::runs_compute))]
pub fn statements_choose()
    ensures other { Else }
    ensures return_leaves { ReturnLeavesAll }
    ensures falls_through { FallsThrough }
    ensures begins { BeginsAtTheLabel }
    ensures continues { ContinueBelongsToTheLoop }
    ensures declares { DeclarationsTakeTheValueAway }
{}
