//! The tags of structs that the braces of expressions, bases and declarators complete.

ghost use Rattle.std.specs.Prelude.{◌≡◌, ◌++◌, map, IfOk, OnOk};
ghost use Rattle.std.specs.Option.{option_map};
ghost use Rattle.porch_tree.specs.Views.{name_of, expr_of, exprs_of, operands_of, suffix_of, suffixes_of, base_of, field_of, fields_of, constant_of, constants_of, declarator_of, declarators_of, core_of, bracket_of, brackets_of, type_name_of, param_of, params_of, perhaps};
ghost use Rattle.porch_check.specs.Braces.{tag_name, params_braces};
ghost use Rattle.porch_braces.specs.inside.Operand.{Operand};
ghost use Rattle.porch_braces.specs.inside.Puts as behind;

use porch_names::name_in;
use porch_scopes::Completes;
use porch_tree::tree::{
    Base, Bracket, Constant, Core, Declarator, Expr, Field, Infix, Name, Param, Suffix, TypeName,
};
use std::alloc::{AllocError, Global};

/// The tags that a parameter list completes in its scope.
#[tactic(auto, using(crate::proofs::Behind::params_tags))]
pub fn parameter_tags<'t>(
    alloc: Global,
    text: &'t [u8],
    params: &[Param],
) -> Result<Completes<'t>, AllocError>
    ensures { IfOk result (λ tags. tags
        ≡ params_braces (params_of (map (param_of text.now) params.now))) }
{
    let mut tags = Completes::new(alloc);
    put_params(text, params, &mut tags)?;
    Ok(tags)
}

fn put_params<'t>(
    text: &'t [u8],
    params: &[Param],
    tags: &mut Completes<'t>,
) -> Result<(), AllocError>
    ensures { OnOk result (tags.new
        ≡ behind.put_params (params_of (map (param_of text.now) params.now)) tags.old) }
{
    for p in params {
        put_param(text, p, tags)?;
    }
    Ok(())
}

fn put_param<'t>(text: &'t [u8], p: &Param, tags: &mut Completes<'t>) -> Result<(), AllocError>
    ensures { OnOk result (tags.new ≡ behind.put_param (param_of text.now p.now) tags.old) }
{
    put_base(text, &p.base, tags)?;
    put_declarator(text, &p.declarator, tags)
}

fn put_tag<'t>(
    text: &'t [u8],
    tag: Option<Name>,
    tags: &mut Completes<'t>,
) -> Result<(), AllocError>
    ensures { OnOk result (tags.new ≡ tags.old ++ tag_name (option_map (name_of text.now) tag)) }
{
    match tag {
        None => Ok(()),
        Some(tag) => tags.push(name_in(text, tag).bytes),
    }
}

#[cycle(put)]
pub(crate) fn put_expr<'t>(
    text: &'t [u8],
    e: &Expr,
    tags: &mut Completes<'t>,
) -> Result<(), AllocError>
    ensures { OnOk result (tags.new ≡ behind.put_expr (expr_of text.now e.now) tags.old) }
{
    match e {
        Expr::Name(_) | Expr::Whole(_) | Expr::Character(_) => Ok(()),
        Expr::Texts { first: _, more: _ } => Ok(()),
        Expr::Nested { at: _, expr } => put_expr(text, expr.get(), tags),
        Expr::Suffixed { operand, suffixes } => {
            put_expr(text, operand.get(), tags)?;
            put_suffixes(text, suffixes.as_slice(), tags)
        }
        Expr::Prefixed {
            at: _,
            prefix: _,
            operand,
        } => put_expr(text, operand.get(), tags),
        Expr::SizeOf { at: _, name } => put_type_name(text, name.get(), tags),
        Expr::Cast {
            at: _,
            name,
            operand,
        } => {
            put_type_name(text, name.get(), tags)?;
            put_expr(text, operand.get(), tags)
        }
        Expr::Row {
            level: _,
            first,
            more,
        } => {
            put_expr(text, first.get(), tags)?;
            put_operands(text, more.as_slice(), tags)
        }
        Expr::Conditional {
            condition,
            chosen,
            other,
        } => {
            put_expr(text, condition.get(), tags)?;
            put_expr(text, chosen.get(), tags)?;
            put_expr(text, other.get(), tags)
        }
        Expr::Assign {
            assigning: _,
            place,
            value,
        } => {
            put_expr(text, place.get(), tags)?;
            put_expr(text, value.get(), tags)
        }
        Expr::Sequence { first, more } => {
            put_expr(text, first.get(), tags)?;
            put_exprs(text, more.as_slice(), tags)
        }
    }
}

#[cycle(put)]
fn put_exprs<'t>(text: &'t [u8], es: &[Expr], tags: &mut Completes<'t>) -> Result<(), AllocError>
    ensures { OnOk result (tags.new
        ≡ behind.put_exprs (exprs_of (map (expr_of text.now) es.now)) tags.old) }
{
    for e in es {
        put_expr(text, e, tags)?;
    }
    Ok(())
}

#[cycle(put)]
fn put_operands<'t>(
    text: &'t [u8],
    operands: &[(Infix, Expr)],
    tags: &mut Completes<'t>,
) -> Result<(), AllocError>
    ensures { OnOk result (tags.new ≡ behind.put_operands
        (operands_of (map (λ (o : Operand). (o.0, expr_of text.now o.1)) operands.now)) tags.old) }
{
    for o in operands {
        put_expr(text, &o.1, tags)?;
    }
    Ok(())
}

#[cycle(put)]
fn put_perhaps<'t>(
    text: &'t [u8],
    e: &Option<Expr>,
    tags: &mut Completes<'t>,
) -> Result<(), AllocError>
    ensures { OnOk result (tags.new
        ≡ behind.put_perhaps (perhaps (option_map (expr_of text.now) e.now)) tags.old) }
{
    match e {
        None => Ok(()),
        Some(e) => put_expr(text, e, tags),
    }
}

#[cycle(put)]
fn put_suffixes<'t>(
    text: &'t [u8],
    suffixes: &[Suffix],
    tags: &mut Completes<'t>,
) -> Result<(), AllocError>
    ensures { OnOk result (tags.new
        ≡ behind.put_suffixes (suffixes_of (map (suffix_of text.now) suffixes.now)) tags.old) }
{
    for s in suffixes {
        put_suffix(text, s, tags)?;
    }
    Ok(())
}

#[cycle(put)]
fn put_suffix<'t>(
    text: &'t [u8],
    suffix: &Suffix,
    tags: &mut Completes<'t>,
) -> Result<(), AllocError>
    ensures { OnOk result (tags.new ≡ behind.put_suffix (suffix_of text.now suffix.now) tags.old) }
{
    match suffix {
        Suffix::Index(e) => put_expr(text, e, tags),
        Suffix::Call(es) => put_exprs(text, es.as_slice(), tags),
        Suffix::Member(_) | Suffix::Arrow(_) => Ok(()),
        Suffix::Increased | Suffix::Decreased => Ok(()),
    }
}

#[cycle(put)]
pub(crate) fn put_base<'t>(
    text: &'t [u8],
    base: &Base,
    tags: &mut Completes<'t>,
) -> Result<(), AllocError>
    ensures { OnOk result (tags.new ≡ behind.put_base (base_of text.now base.now) tags.old) }
{
    match base {
        Base::Kind { at: _, words: _ } | Base::Void { at: _, consts: _ } => Ok(()),
        Base::TypedefName {
            at: _,
            name: _,
            consts: _,
        } => Ok(()),
        Base::Tag {
            at: _,
            sort: _,
            tag: _,
            consts: _,
        } => Ok(()),
        Base::Struct {
            at: _,
            tag,
            fields,
            consts: _,
        } => {
            put_tag(text, *tag, tags)?;
            put_fields(text, fields.as_slice(), tags)
        }
        Base::Enum {
            at: _,
            tag: _,
            constants,
            consts: _,
        } => put_constants(text, constants.as_slice(), tags),
    }
}

#[cycle(put)]
fn put_fields<'t>(
    text: &'t [u8],
    fields: &[Field],
    tags: &mut Completes<'t>,
) -> Result<(), AllocError>
    ensures { OnOk result (tags.new
        ≡ behind.put_fields (fields_of (map (field_of text.now) fields.now)) tags.old) }
{
    for field in fields {
        put_field(text, field, tags)?;
    }
    Ok(())
}

#[cycle(put)]
fn put_field<'t>(text: &'t [u8], field: &Field, tags: &mut Completes<'t>) -> Result<(), AllocError>
    ensures { OnOk result (tags.new ≡ behind.put_field (field_of text.now field.now) tags.old) }
{
    put_base(text, &field.base, tags)?;
    put_declarators(text, field.declarators.as_slice(), tags)
}

#[cycle(put)]
fn put_constants<'t>(
    text: &'t [u8],
    constants: &[Constant],
    tags: &mut Completes<'t>,
) -> Result<(), AllocError>
    ensures { OnOk result (tags.new
        ≡ behind.put_constants (constants_of (map (constant_of text.now) constants.now)) tags.old) }
{
    for constant in constants {
        put_constant(text, constant, tags)?;
    }
    Ok(())
}

#[cycle(put)]
fn put_constant<'t>(
    text: &'t [u8],
    constant: &Constant,
    tags: &mut Completes<'t>,
) -> Result<(), AllocError>
    ensures { OnOk result (tags.new
        ≡ behind.put_constant (constant_of text.now constant.now) tags.old) }
{
    put_perhaps(text, &constant.value, tags)
}

#[cycle(put)]
fn put_declarators<'t>(
    text: &'t [u8],
    declarators: &[Declarator],
    tags: &mut Completes<'t>,
) -> Result<(), AllocError>
    ensures { OnOk result (tags.new ≡ behind.put_declarators
        (declarators_of (map (declarator_of text.now) declarators.now)) tags.old) }
{
    for declarator in declarators {
        put_declarator(text, declarator, tags)?;
    }
    Ok(())
}

#[cycle(put)]
pub(crate) fn put_declarator<'t>(
    text: &'t [u8],
    declarator: &Declarator,
    tags: &mut Completes<'t>,
) -> Result<(), AllocError>
    ensures { OnOk result (tags.new
        ≡ behind.put_declarator (declarator_of text.now declarator.now) tags.old) }
{
    put_core(text, &declarator.core, tags)?;
    put_brackets(text, declarator.brackets.as_slice(), tags)
}

#[cycle(put)]
fn put_core<'t>(text: &'t [u8], core: &Core, tags: &mut Completes<'t>) -> Result<(), AllocError>
    ensures { OnOk result (tags.new ≡ behind.put_core (core_of text.now core.now) tags.old) }
{
    match core {
        Core::Lacking | Core::Named(_) => Ok(()),
        Core::Inner { at: _, declarator } => put_declarator(text, declarator.get(), tags),
    }
}

#[cycle(put)]
fn put_brackets<'t>(
    text: &'t [u8],
    brackets: &[Bracket],
    tags: &mut Completes<'t>,
) -> Result<(), AllocError>
    ensures { OnOk result (tags.new
        ≡ behind.put_brackets (brackets_of (map (bracket_of text.now) brackets.now)) tags.old) }
{
    for bracket in brackets {
        put_bracket(text, bracket, tags)?;
    }
    Ok(())
}

#[cycle(put)]
fn put_bracket<'t>(
    text: &'t [u8],
    bracket: &Bracket,
    tags: &mut Completes<'t>,
) -> Result<(), AllocError>
    ensures { OnOk result (tags.new
        ≡ behind.put_bracket (bracket_of text.now bracket.now) tags.old) }
{
    match bracket {
        Bracket::Count(count) => put_perhaps(text, count, tags),
        Bracket::EmptyList | Bracket::VoidList => Ok(()),
        Bracket::ParamList(_) => Ok(()),
    }
}

#[cycle(put)]
fn put_type_name<'t>(
    text: &'t [u8],
    name: &TypeName,
    tags: &mut Completes<'t>,
) -> Result<(), AllocError>
    ensures { OnOk result (tags.new
        ≡ behind.put_type_name (type_name_of text.now name.now) tags.old) }
{
    put_base(text, &name.base, tags)?;
    put_declarator(text, &name.declarator, tags)
}
