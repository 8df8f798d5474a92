//! Where sizes may stand: `sizeof` of a type or of what a pointer leads to, in the arguments of allocations.

ghost use Rattle.std.specs.Prelude.{◌≡◌, ◌&&◌, if◌then◌else◌, map, not};
ghost use Rattle.porch_tree.specs.Views.{expr_of, operands_of};
ghost use Rattle.porch_check.specs.Calls.{first_context, is_allocation, is_pointee, is_product, is_size as is_size_expr, is_size_of, last_context};
ghost use Rattle.porch_check.specs.Operands.{as_size, plain};
ghost use Rattle.porch_leaves.specs.Contexts.{as_context};
ghost use Rattle.porch_calls.specs.Operands.{Operand};

use porch_leaves::context::Context;
use porch_tree::tree::{Expr, Infix, Prefix};

/// Whether an expression is a size.
pub fn is_size(text: &[u8], e: &Expr) -> bool
    ensures { result ≡ is_size_expr (expr_of text.now e.now) }
{
    match e {
        Expr::SizeOf { at: _, name: _ } => true,
        Expr::Prefixed {
            at: _,
            prefix,
            operand,
        } => matches!(*prefix, Prefix::Sizeof) && is_size_of(text, operand.get()),
        _ => false,
    }
}

/// Whether `sizeof` in front of an expression is a size: of what a pointer leads to, also in parentheses.
pub fn is_size_of(text: &[u8], e: &Expr) -> bool
    ensures { result ≡ is_size_of (expr_of text.now e.now) }
{
    match e {
        Expr::Nested { at: _, expr } => is_pointee(text, expr.get()),
        _ => is_pointee(text, e),
    }
}

fn is_pointee(text: &[u8], e: &Expr) -> bool
    ensures { result ≡ is_pointee (expr_of text.now e.now) }
{
    match e {
        Expr::Prefixed {
            at: _,
            prefix,
            operand: _,
        } => matches!(*prefix, Prefix::Pointee),
        _ => false,
    }
}

/// Where an operand stands, by the operator in front of it and the operands behind it.
pub fn last_context(
    text: &[u8],
    context: Context,
    operator: Infix,
    e: &Expr,
    more: &[(Infix, Expr)],
) -> Context
    ensures { as_context result ≡ last_context (as_context context) operator
        (expr_of text.now e.now)
        (operands_of (map (λ (o : Operand). (o.0, expr_of text.now o.1)) more.now)) }
{
    match more {
        [] => size_where(is_last_size(text, context, operator, e)),
        [_, ..] => Context::Plain,
    }
}

/// Where the first operand stands, by the operands behind it.
pub fn first_context(text: &[u8], context: Context, e: &Expr, more: &[(Infix, Expr)]) -> Context
    ensures { as_context result ≡ first_context (as_context context) (expr_of text.now e.now)
        (operands_of (map (λ (o : Operand). (o.0, expr_of text.now o.1)) more.now)) }
{
    match more {
        [other] => size_where(is_first_size(text, context, e, other)),
        [] => Context::Plain,
        [_, _, ..] => Context::Plain,
    }
}

fn size_where(allowed: bool) -> Context
    ensures { as_context result ≡ (if allowed then as_size else plain) }
{
    if allowed {
        Context::AsSize
    } else {
        Context::Plain
    }
}

// Whether an operand behind all others is the size of an allocation.
fn is_last_size(text: &[u8], context: Context, operator: Infix, e: &Expr) -> bool
    ensures { result ≡ (is_allocation (as_context context) && is_product operator
        && is_size_expr (expr_of text.now e.now)) }
{
    is_allocation(context) && is_product(operator) && is_size(text, e)
}

// Whether the first of two operands is the size of an allocation.
fn is_first_size(text: &[u8], context: Context, e: &Expr, other: &(Infix, Expr)) -> bool
    ensures { result ≡ (is_allocation (as_context context) && is_product other.now.0
        && is_size_expr (expr_of text.now e.now)
        && not (is_size_expr (expr_of text.now other.now.1))) }
{
    is_allocation(context) && is_product(other.0) && is_size(text, e) && !is_size(text, &other.1)
}

fn is_product(operator: Infix) -> bool
    ensures { result ≡ is_product operator }
{
    matches!(operator, Infix::Mul)
}

fn is_allocation(context: Context) -> bool
    ensures { result ≡ is_allocation (as_context context) }
{
    match context {
        Context::AsAllocation => true,
        Context::Plain | Context::Called | Context::Shown | Context::AsSize => false,
    }
}
