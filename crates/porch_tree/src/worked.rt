//! What the definitions say of some small units. The functions are laws, and have nothing to run.

ghost use Rattle.std.specs.Prelude.{◌≡◌, ◌∷◌, [], map, slice_get, Some, true, false, codes};
ghost use Rattle.porch_tree.specs.declared.word.Keyword.TheVariants.{Char, Const, Int, Long, Short, Unsigned};
ghost use Rattle.porch_tree.specs.Pieces.{unit_pieces, expr_pieces};
ghost use Rattle.porch_tree.specs.Formed.{is_kind};
ghost use Rattle.porch_tree.specs.Names.{ReadsExpr};
ghost use Rattle.porch_tree.specs.Grammar.{IsOutside, IsUnit};
ghost use Rattle.porch_tree.specs.Worked.{small_unit, small_tokens, float_tokens, uses_of, in_parentheses, x, t, difference, increased_t};
ghost use Rattle.porch_tree.specs.Mirror.{conditional};

/// The words of `int main(void){return 0;}`, and in how many counted uses each lies.
pub fn a_small_unit_has_these_pieces()
    ensures words { map (λ p. p.word) (unit_pieces small_unit) ≡ map (λ s. s.word) small_tokens }
    ensures uses { uses_of (unit_pieces small_unit) ≡ 0 ∷ 1 ∷ 1 ∷ 1 ∷ 1 ∷ 1 ∷ 2 ∷ 4 ∷ 2 ∷ 1 ∷ [] }
{}

/// `int main(void){return 0;}` is that unit, and in `int main(void){float` the last word is outside.
pub fn a_small_unit_is_one()
    ensures unit { IsUnit small_tokens small_unit }
    ensures outside { IsOutside float_tokens 6 }
{}

/// In the block of a function each parenthesis adds two uses, and a conditional one more.
pub fn parentheses_lie_deep()
    ensures bare { uses_of (expr_pieces true (in_parentheses 2 x) 3 []) ≡ 4 ∷ 6 ∷ 8 ∷ 6 ∷ 4 ∷ [] }
    ensures ninety_nine { slice_get (uses_of (expr_pieces true (in_parentheses 99 x) 3 [])) 99
        ≡ Some 202 }
    ensures chosen { uses_of (expr_pieces true (conditional (in_parentheses 1 x) x x) 3 [])
        ≡ 5 ∷ 7 ∷ 5 ∷ 4 ∷ 6 ∷ 4 ∷ 5 ∷ [] }
{}

/// Where `T` is a typedef name, `(T)-x` is no difference, and `++(T)` increases a plain name.
pub fn a_typedef_name_is_a_type_in_parentheses()
    ensures cast { ReadsExpr (codes "T" ∷ []) difference true → ⊥ }
    ensures plain { ReadsExpr [] difference true }
    ensures increased { ReadsExpr (codes "T" ∷ []) increased_t true }
{}

/// The words of a kind stand in any order.
pub fn kinds_have_these_words()
    ensures one { is_kind (Long ∷ Const ∷ Unsigned ∷ Int ∷ []) ≡ true }
    ensures two_lengths { is_kind (Long ∷ Short ∷ []) ≡ false }
    ensures none { is_kind (Const ∷ []) ≡ false }
    ensures two_kinds { is_kind (Char ∷ Int ∷ []) ≡ false }
{}
