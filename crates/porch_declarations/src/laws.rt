//! What holds of the builder over all lists of tokens. The functions are laws, and have nothing to run.

ghost use Rattle.std.specs.Prelude.{ℕ, ◌≡◌, Bool, List, [], Some};
ghost use Rattle.porch_tree.specs.Mirror.{Declaration};
ghost use Rattle.porch_tree.specs.Pieces.{Spelled, declaration_pieces};
ghost use Rattle.porch_tree.specs.Formed.{IsDeclaration};
ghost use Rattle.porch_tree.specs.Names.{ReadsDeclaration};
ghost use Rattle.porch_tree.specs.Grammar.{AreMatched};
ghost use Rattle.porch_declarations.specs.Declarations.{declaration_of, DeclarationsPass, HeadsPass};

use porch_parts::{bases_end, declarators_end, single_expressions_end, typed_declarators_end};

/// Of the tokens of a declaration comes this declaration, with its initialisers and all that lies in it.
pub fn declarations_are_built()
    ensures built { (types : List (List ℕ)) (inside : Bool) (d : Declaration) → IsDeclaration d →
        ReadsDeclaration types d → (uses : ℕ) (ts : List Spelled) →
        AreMatched ts (declaration_pieces inside d uses []) → declaration_of types ts ≡ Some d }
{
    single_expressions_end();
    typed_declarators_end();
    bases_end();
    declarators_end();
}

/// Behind the tokens of a declaration the builder comes to it, and is over behind none before.
pub fn declarations_pass()
    ensures pass { DeclarationsPass }
{
    single_expressions_end();
    typed_declarators_end();
    bases_end();
    declarators_end();
}

/// Behind a base and a declarator with `{` behind them the builder comes to the head of a function, and
/// is over behind none before.
pub fn heads_pass()
    ensures pass { HeadsPass }
{
    single_expressions_end();
    typed_declarators_end();
    bases_end();
    declarators_end();
}
