//! What the builder makes of some small expressions. The functions are laws, and have nothing to run.

ghost use Rattle.std.specs.Prelude.{◌≡◌, Some, [], ◌∷◌, codes};
ghost use Rattle.porch_parts.specs.Parts.{expression_of};
ghost use Rattle.porch_parts.specs.inside.Worked.{sums, sums_tokens, assignments, assignments_tokens, suffixes, suffixes_tokens, levels, levels_tokens, falling, falling_tokens, literals, literals_tokens, types, types_tokens, braces, braces_tokens};

/// Some small expressions.
pub(crate) fn small_expressions()
    ensures sums { expression_of [] sums_tokens ≡ Some sums }
    ensures assignments { expression_of [] assignments_tokens ≡ Some assignments }
    ensures suffixes { expression_of [] suffixes_tokens ≡ Some suffixes }
    ensures levels { expression_of [] levels_tokens ≡ Some levels }
    ensures falling { expression_of [] falling_tokens ≡ Some falling }
    ensures literals { expression_of [] literals_tokens ≡ Some literals }
    ensures types { expression_of (codes "T" ∷ []) types_tokens ≡ Some types }
    ensures braces { expression_of [] braces_tokens ≡ Some braces }
{}
