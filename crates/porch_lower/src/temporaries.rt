//! How many temporaries a tree's commands take, where a number of 32 bits holds it.

ghost use Rattle.std.specs.Prelude.{◌≡◌, ◌-◌, ◌^◌, min, [], ◌∷◌, map};
ghost use Rattle.std.specs.Option.{option_map};
ghost use Rattle.porch_syntax.specs.Tree.{node_of, nodes_of, terms_of, action_of, actions_of};
ghost use Rattle.porch_lower.specs.Code.{temps_of, factors_temps as temps_of_factors, terms_temps as temps_of_terms, action_temps, actions_temps as temps_of_actions, declarations_temps as temps_of_declarations};

use porch_syntax::{Expr, Sign, Stmt};

/// Those of factors.
#[cycle(temporaries)]
fn factors_temps(factors: &[Expr]) -> u32
    ensures { result ≡ min (temps_of_factors (nodes_of (map node_of factors.now))) (2 ^ 32 - 1) }
{
    let mut most = 0;
    for factor in factors {
        most = most.max(temps(factor));
    }
    most
}

/// Those of terms.
#[cycle(temporaries)]
fn terms_temps(terms: &[(Sign, Expr)]) -> u32
    ensures { result ≡ min (temps_of_terms (terms_of (map (λ t. (t.0, node_of t.1)) terms.now)))
        (2 ^ 32 - 1) }
{
    let mut most = 0;
    for (_, term) in terms {
        most = most.max(temps(term));
    }
    most
}

/// Those of an expression.
#[cycle(temporaries)]
pub(crate) fn temps(expr: &Expr) -> u32
    ensures { result ≡ min (temps_of (node_of expr.now)) (2 ^ 32 - 1) }
{
    match expr {
        Expr::Variable(_) => 0,
        Expr::Whole(_) => 0,
        Expr::Character(_) => 0,
        Expr::Nested(inner) => temps(inner.get()),
        Expr::Product { first, more } => match more.as_slice() {
            [] => temps(first.get()),
            [_, ..] => temps(first.get())
                .max(factors_temps(more.as_slice()))
                .saturating_add(2),
        },
        Expr::Sum { first, more } => match more.as_slice() {
            [] => temps(first.get()),
            [_, ..] => temps(first.get())
                .max(terms_temps(more.as_slice()))
                .saturating_add(2),
        },
        Expr::Less { left, right } => temps(left.get()).max(temps(right.get())).saturating_add(2),
    }
}

/// Those of a statement.
#[cycle(statement_temporaries)]
fn statement_temps(statement: &Stmt) -> u32
    ensures { result ≡ min (action_temps (action_of statement.now)) (2 ^ 32 - 1) }
{
    match statement {
        Stmt::Assign { value, .. } => temps(value),
        Stmt::While { condition, body } => {
            temps(condition)
                .saturating_add(1)
                .max(statements_temps(body.as_slice()))
        }
        Stmt::Putchar(expr) => temps(expr).saturating_add(1),
        Stmt::Return(expr) => temps(expr).saturating_add(1),
    }
}

/// Those of statements.
#[cycle(statement_temporaries)]
pub(crate) fn statements_temps(statements: &[Stmt]) -> u32
    ensures { result ≡ min (temps_of_actions (actions_of (map action_of statements.now)))
        (2 ^ 32 - 1) }
{
    let mut most = 0;
    for statement in statements {
        most = most.max(statement_temps(statement));
    }
    most
}

/// Those of a declaration.
fn declaration_temps(initialiser: &Option<Expr>) -> u32
    ensures { result ≡ min (temps_of_declarations (option_map node_of initialiser.now ∷ []))
        (2 ^ 32 - 1) }
{
    match initialiser {
        None => 0,
        Some(expr) => temps(expr),
    }
}

/// Those of declarations.
pub(crate) fn declarations_temps(declarations: &[Option<Expr>]) -> u32
    ensures { result ≡ min (temps_of_declarations (map (option_map node_of) declarations.now))
        (2 ^ 32 - 1) }
{
    let mut most = 0;
    for initialiser in declarations {
        most = most.max(declaration_temps(initialiser));
    }
    most
}
