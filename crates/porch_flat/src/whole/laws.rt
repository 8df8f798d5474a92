//! What the search for the first broken rule finds, and that there is one answer. The functions are
//! laws, and have nothing to run.

ghost use Rattle.std.specs.Prelude.{◌≡◌, ℕ, Some, None};
ghost use Rattle.porch_flat.specs.declared.whole.Flat.{Flat};
ghost use Rattle.porch_flat.specs.declared.whole.FlatRule.{FlatRule};
ghost use Rattle.porch_flat.specs.declared.whole.Sort.{Sort};
ghost use Rattle.porch_flat.specs.whole.Rules.{IsFirstBroken, IsValid};
ghost use Rattle.porch_flat.specs.whole.Search.{first_fault};

/// The search finds nothing in a valid program alone, and else the first rule that is broken.
pub fn the_search_finds_the_first()
    ensures valid { (s : Sort) (flat : Flat) → first_fault s flat ≡ None → IsValid s flat }
    ensures broken { (s : Sort) (flat : Flat) (line : ℕ) (r : FlatRule)
        → first_fault s flat ≡ Some (line, r) → IsFirstBroken s flat line r }
{}

/// A program has one first broken rule at most, and a valid program has none.
pub fn the_first_broken_rule_is_one()
    ensures lines { (s : Sort) (flat : Flat) (line other : ℕ) (r q : FlatRule)
        → IsFirstBroken s flat line r → IsFirstBroken s flat other q → line ≡ other }
    ensures rules { (s : Sort) (flat : Flat) (line other : ℕ) (r q : FlatRule)
        → IsFirstBroken s flat line r → IsFirstBroken s flat other q → r ≡ q }
    ensures none { (s : Sort) (flat : Flat) (line : ℕ) (r : FlatRule)
        → IsValid s flat → ¬ IsFirstBroken s flat line r }
{}
