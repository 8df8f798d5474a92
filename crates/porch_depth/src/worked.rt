//! What some texts are shown to be. The functions are laws, and have nothing to run.

ghost use Rattle.std.specs.Prelude.{◌≡◌, [], Some, None};
ghost use Rattle.porch_tree.specs.Grammar.{nesting};
ghost use Rattle.porch_walk.specs.Walk.{wrong_at};
ghost use Rattle.porch_depth.specs.Levels.{first_fault};
ghost use Rattle.porch_depth.specs.Worked.{parentheses, chosen, assigned, ShowsItsUses, types_unit, statements_unit, expressions_unit};

/// Ninety-nine parentheses are one too many. What comes behind them may put each of them one use deeper.
pub fn parentheses_nest()
    ensures most { first_fault (parentheses 98 []) ≡ None }
    ensures too_many { first_fault (parentheses 99 []) ≡ wrong_at 110 nesting }
    ensures chosen { first_fault (parentheses 98 chosen) ≡ wrong_at 109 nesting }
    ensures too_many_chosen { first_fault (parentheses 99 chosen) ≡ wrong_at 109 nesting }
    ensures too_many_assigned { first_fault (parentheses 99 assigned) ≡ wrong_at 109 nesting }
{}

/// Over the tokens of these units, which have each form of the grammar, the uses of each token are shown.
pub fn units_show_their_uses()
    ensures types { ShowsItsUses types_unit }
    ensures statements { ShowsItsUses statements_unit }
    ensures expressions { ShowsItsUses expressions_unit }
{}
