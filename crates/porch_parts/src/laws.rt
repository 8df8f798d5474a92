//! What holds of the reader. The functions are laws, and have nothing to run.

ghost use Rattle.std.specs.Prelude.{ℕ, ◌≡◌, Bool, true, List, [], Some};
ghost use Rattle.porch_tree.specs.Mirror.{Expr};
ghost use Rattle.porch_tree.specs.Pieces.{Spelled, expr_pieces};
ghost use Rattle.porch_tree.specs.Formed.{IsExpr};
ghost use Rattle.porch_tree.specs.Names.{ReadsExpr};
ghost use Rattle.porch_tree.specs.Grammar.{AreMatched};
ghost use Rattle.porch_parts.specs.Parts.{expression_of};
ghost use Rattle.porch_parts.specs.Starts.{BasesStart, PlainsStart};
ghost use Rattle.porch_parts.specs.Ends.{WholesEnd, SinglesEnd, TypedEnd, BasesEnd, DeclaredEnd};

/// Of the tokens of an expression comes this expression, the types in it and all that lies in them
/// included.
#[tactic(auto, using(crate::proofs::Built::is_built))]
pub fn expressions_are_built()
    ensures built { (types : List (List ℕ)) (inside : Bool) (e : Expr) → IsExpr e →
        ReadsExpr types e true → (uses : ℕ) (ts : List Spelled) →
        AreMatched ts (expr_pieces inside e uses []) → expression_of types ts ≡ Some e }
{}

/// The reader ends in front of a `)` or `;` behind an expression, and not before.
#[tactic(auto, using(crate::proofs::Ends::whole_ends))]
pub fn whole_expressions_end()
    ensures ends { WholesEnd }
{}

/// The reader ends in front of a `,`, `:`, `;` or `}` behind an expression without commas of its own, and not
/// before.
#[tactic(auto, using(crate::proofs::Ends::single_ends))]
pub fn single_expressions_end()
    ensures ends { SinglesEnd }
{}

/// The reader ends in front of what may stand behind a declared name, and not before: from the base on.
#[tactic(auto, using(crate::proofs::Ends::typed_ends))]
pub fn typed_declarators_end()
    ensures ends { TypedEnd }
{}

/// The reader ends in front of a `;` behind a base, and not before.
#[tactic(auto, using(crate::proofs::Ends::base_ends))]
pub fn bases_end()
    ensures ends { BasesEnd }
{}

/// The reader ends in front of what may stand behind a declared name, and not before: from the declarator on.
#[tactic(auto, using(crate::proofs::Ends::declared_ends))]
pub fn declarators_end()
    ensures ends { DeclaredEnd }
{}

/// A type can begin with the first token of each base.
#[tactic(auto, using(crate::proofs::Starts::bases_start))]
pub fn bases_start()
    ensures start { BasesStart }
{}

/// No type can begin with the first token of an expression that begins with no typedef name.
#[tactic(auto, using(crate::proofs::Starts::plains_start))]
pub fn plains_start()
    ensures start { PlainsStart }
{}
