//! How types and declarators, and the parts of them, end.

ghost use Rattle.std.specs.Prelude.{ℕ, ◌≡◌, ◌+◌, List, [], ◌∷◌, ◌++◌, map, IfOk};
ghost use Rattle.std.specs.Option.{option_map};
ghost use Rattle.porch_tree.specs.Mirror.{inner, lacking, named, param, type_name};
ghost use Rattle.porch_tree.specs.Views.{name_of, expr_of, base_of, field_of, constant_of, declarator_of, core_of, bracket_of, param_of, type_name_of};
ghost use Rattle.porch_parts.specs.declared.part.Part.{Part};
ghost use Rattle.porch_parts.specs.Types as types;
ghost use Rattle.porch_parts.specs.Types.{declared_by, bracketed, parameters, behind_core, declared, entry_ended, member_ended, param_ended, no_params, fields_closed, constant_closed, constant_ended, given, form_base, place, lost, is_bare_void};
ghost use Rattle.porch_parts.specs.Shown.{form_of, declaring_of, part_of, parts_of, point_of, place_of};

use crate::part::{Declaring, Form, Front, Part, Point};
use crate::sign::Sign;
use porch_tree::{
    Base, Bracket, Constant, Consts, Core, Declarator, Expr, Field, Name, Param, TypeName,
};
use sqlite_items::{Boxed, Items};
use std::alloc::{AllocError, Global};

fn is_close(sign: Sign) -> bool
    ensures { result ≡ types.is_close sign }
{
    matches!(sign, Sign::Close)
}

fn is_close_bracket(sign: Sign) -> bool
    ensures { result ≡ types.is_close_bracket sign }
{
    matches!(sign, Sign::CloseBracket)
}

fn is_close_brace(sign: Sign) -> bool
    ensures { result ≡ types.is_close_brace sign }
{
    matches!(sign, Sign::CloseBrace)
}

fn is_comma(sign: Sign) -> bool
    ensures { result ≡ types.is_comma sign }
{
    matches!(sign, Sign::Comma)
}

fn is_semicolon(sign: Sign) -> bool
    ensures { result ≡ types.is_semicolon sign }
{
    matches!(sign, Sign::Semicolon)
}

/// One more; more than a number holds is more than memory holds.
pub(crate) fn one_more(count: u32) -> Result<u32, AllocError>
    ensures { IfOk result (λ n. n ≡ count + 1) }
{
    match count.checked_add(1) {
        Some(more) => Ok(more),
        None => Err(AllocError),
    }
}

/// A declarator with nothing behind its core.
fn begin_declaring(
    alloc: Global,
    at: u32,
    stars: Items<u32>,
    core: Core,
) -> Result<Boxed<Declaring>, AllocError>
    ensures { IfOk result (λ d. (text : List ℕ) →
        declaring_of text d ≡ types.declaring at stars (core_of text core)) }
{
    Boxed::new(
        alloc,
        Declaring {
            at,
            stars,
            core,
            brackets: Items::new(alloc),
        },
    )
}

/// A declarator with nothing behind its stars.
pub(crate) fn begin_lacking(
    alloc: Global,
    at: u32,
    stars: Items<u32>,
) -> Result<Boxed<Declaring>, AllocError>
    ensures { IfOk result (λ d. (text : List ℕ) →
        declaring_of text d ≡ types.declaring at stars lacking) }
{
    Boxed::new(
        alloc,
        Declaring {
            at,
            stars,
            core: Core::Lacking,
            brackets: Items::new(alloc),
        },
    )
}

/// A declarator with a name behind its stars.
pub(crate) fn begin_named(
    alloc: Global,
    at: u32,
    stars: Items<u32>,
    name: Name,
) -> Result<Boxed<Declaring>, AllocError>
    ensures { IfOk result (λ d. (text : List ℕ) →
        declaring_of text d ≡ types.declaring at stars (named (name_of text name))) }
{
    Boxed::new(
        alloc,
        Declaring {
            at,
            stars,
            core: Core::Named(name),
            brackets: Items::new(alloc),
        },
    )
}

/// The declarator that has been read.
pub(crate) fn declarator_from(declaring: Boxed<Declaring>) -> Declarator
    ensures { (text : List ℕ) →
        declarator_of text result ≡ declared_by (declaring_of text declaring) }
{
    let Declaring {
        at,
        stars,
        core,
        brackets,
    } = declaring.into_inner();
    Declarator {
        at,
        stars,
        core,
        brackets,
    }
}

/// A bracket more behind the core.
pub(crate) fn add_bracket(
    alloc: Global,
    declaring: Boxed<Declaring>,
    bracket: Bracket,
) -> Result<Point, AllocError>
    ensures { IfOk result (λ p. (text : List ℕ) (parts : List Part) → place_of text parts p
        ≡ place (parts_of text parts) (behind_core
        (bracketed (declaring_of text declaring) (bracket_of text bracket)))) }
{
    let Declaring {
        at,
        stars,
        core,
        mut brackets,
    } = declaring.into_inner();
    brackets.push(bracket)?;
    Ok(Point::BehindCore(Boxed::new(
        alloc,
        Declaring {
            at,
            stars,
            core,
            brackets,
        },
    )?))
}

fn is_bare_void(base: &Base) -> bool
    ensures { (text : List ℕ) → result ≡ is_bare_void (base_of text base.now) }
{
    match base {
        Base::Void { at: _, consts } => consts.before == 0 && consts.behind == 0,
        Base::Kind { at: _, words: _ } => false,
        Base::TypedefName {
            at: _,
            name: _,
            consts: _,
        } => false,
        Base::Tag {
            at: _,
            sort: _,
            tag: _,
            consts: _,
        } => false,
        Base::Struct {
            at: _,
            tag: _,
            fields: _,
            consts: _,
        } => false,
        Base::Enum {
            at: _,
            tag: _,
            constants: _,
            consts: _,
        } => false,
    }
}

fn is_lacking(core: &Core) -> bool
    ensures { (text : List ℕ) → result ≡ types.is_lacking (core_of text core.now) }
{
    match core {
        Core::Lacking => true,
        Core::Named(_) => false,
        Core::Inner {
            at: _,
            declarator: _,
        } => false,
    }
}

#[tactic(auto, using(crate::proofs::Voids::some_stars))]
fn is_empty(declaring: &Declaring) -> bool
    ensures { (text : List ℕ) →
        result ≡ types.is_empty (declared_by (declaring_of text declaring.now)) }
{
    if !declaring.stars.is_empty() {
        return false;
    }
    if !declaring.brackets.is_empty() {
        return false;
    }
    is_lacking(&declaring.core)
}

// whether the parameters and one more are the one word `void`
#[tactic(auto, using(crate::proofs::Voids::some_params))]
fn is_void(params: &Items<Param>, base: &Base, declaring: &Declaring) -> bool
    ensures { (text : List ℕ) → result ≡ types.is_void (map (param_of text) params.now
        ++ param (base_of text base.now) (declared_by (declaring_of text declaring.now))
        ∷ []) }
{
    if !params.is_empty() {
        return false;
    }
    if !is_bare_void(base) {
        return false;
    }
    is_empty(declaring)
}

#[tactic(auto, using(crate::proofs::Voids::parameters_void, crate::proofs::Voids::parameters_some))]
fn bracket_from(params: Items<Param>, is_void: bool) -> Bracket
    ensures { (text : List ℕ) → is_void ≡ types.is_void (map (param_of text) params)
        → bracket_of text result ≡ parameters (map (param_of text) params) }
{
    if is_void {
        Bracket::VoidList
    } else {
        Bracket::ParamList(params)
    }
}

fn end_member(
    parts: &mut Items<Part>,
    front: Front,
    tag: Option<Name>,
    mut fields: Items<Field>,
    base: Boxed<Base>,
    declarators: Items<Declarator>,
    sign: Sign,
) -> Result<Point, AllocError>
    ensures { IfOk result (λ p. (text : List ℕ) → place_of text parts.new p
        ≡ member_ended (parts_of text parts.old) front (option_map (name_of text) tag)
        (map (field_of text) fields) (base_of text base) (map (declarator_of text) declarators)
        sign) }
{
    if is_comma(sign) {
        parts.push(Part::InFields { front, tag, fields })?;
        parts.push(Part::Typed { base, declarators })?;
        Ok(Point::AtDeclarator)
    } else if is_semicolon(sign) {
        let base = base.into_inner();
        fields.push(Field { base, declarators })?;
        parts.push(Part::InFields { front, tag, fields })?;
        Ok(Point::AtBase)
    } else {
        Ok(Point::Broken)
    }
}

fn close_params(
    alloc: Global,
    declaring: Boxed<Declaring>,
    params: Items<Param>,
    is_void: bool,
) -> Result<Point, AllocError>
    ensures { IfOk result (λ p. (text : List ℕ) (parts : List Part) →
        is_void ≡ types.is_void (map (param_of text) params) → place_of text parts p
        ≡ place (parts_of text parts) (behind_core
        (bracketed (declaring_of text declaring) (parameters (map (param_of text) params))))) }
{
    add_bracket(alloc, declaring, bracket_from(params, is_void))
}

fn end_param(
    alloc: Global,
    parts: &mut Items<Part>,
    declaring: Boxed<Declaring>,
    params: Items<Param>,
    is_void: bool,
    sign: Sign,
) -> Result<Point, AllocError>
    ensures { IfOk result (λ p. (text : List ℕ) →
        is_void ≡ types.is_void (map (param_of text) params) → place_of text parts.new p
        ≡ param_ended (parts_of text parts.old) (declaring_of text declaring)
        (map (param_of text) params) sign) }
{
    if is_comma(sign) {
        parts.push(Part::InParams { declaring, params })?;
        Ok(Point::AtBase)
    } else if is_close(sign) {
        close_params(alloc, declaring, params, is_void)
    } else {
        Ok(Point::Broken)
    }
}

fn add_param(
    alloc: Global,
    parts: &mut Items<Part>,
    declaring: Boxed<Declaring>,
    mut params: Items<Param>,
    param: Param,
    is_void: bool,
    sign: Sign,
) -> Result<Point, AllocError>
    ensures { IfOk result (λ p. (text : List ℕ) → is_void
        ≡ types.is_void (map (param_of text) params ++ param_of text param ∷ [])
        → place_of text parts.new p
        ≡ param_ended (parts_of text parts.old) (declaring_of text declaring)
        (map (param_of text) params ++ param_of text param ∷ []) sign) }
{
    params.push(param)?;
    end_param(alloc, parts, declaring, params, is_void, sign)
}

fn plain_param(base: Base, declarator: Declarator) -> Param
    ensures { (text : List ℕ) → param_of text result
        ≡ param (base_of text base) (declarator_of text declarator) }
{
    Param { base, declarator }
}

fn param_from(base: Boxed<Base>, declaring: Boxed<Declaring>) -> Param
    ensures { (text : List ℕ) → param_of text result
        ≡ param (base_of text base) (declared_by (declaring_of text declaring)) }
{
    let base = base.into_inner();
    let declarator = declarator_from(declaring);
    plain_param(base, declarator)
}

fn end_last_param(
    alloc: Global,
    parts: &mut Items<Part>,
    outer: Boxed<Declaring>,
    params: Items<Param>,
    base: Boxed<Base>,
    declaring: Boxed<Declaring>,
    sign: Sign,
) -> Result<Point, AllocError>
    ensures { IfOk result (λ p. (text : List ℕ) → place_of text parts.new p
        ≡ param_ended (parts_of text parts.old) (declaring_of text outer)
        (map (param_of text) params
        ++ param (base_of text base) (declared_by (declaring_of text declaring)) ∷ []) sign) }
{
    let is_void = is_void(&params, base.get(), declaring.get());
    let param = param_from(base, declaring);
    add_param(alloc, parts, outer, params, param, is_void, sign)
}

fn add_member(
    parts: &mut Items<Part>,
    front: Front,
    tag: Option<Name>,
    fields: Items<Field>,
    base: Boxed<Base>,
    mut declarators: Items<Declarator>,
    declarator: Declarator,
    sign: Sign,
) -> Result<Point, AllocError>
    ensures { IfOk result (λ p. (text : List ℕ) → place_of text parts.new p
        ≡ member_ended (parts_of text parts.old) front (option_map (name_of text) tag)
        (map (field_of text) fields) (base_of text base)
        (map (declarator_of text) declarators ++ declarator_of text declarator ∷ []) sign) }
{
    declarators.push(declarator)?;
    end_member(parts, front, tag, fields, base, declarators, sign)
}

fn end_last_member(
    parts: &mut Items<Part>,
    front: Front,
    tag: Option<Name>,
    fields: Items<Field>,
    base: Boxed<Base>,
    declarators: Items<Declarator>,
    declaring: Boxed<Declaring>,
    sign: Sign,
) -> Result<Point, AllocError>
    ensures { IfOk result (λ p. (text : List ℕ) → place_of text parts.new p
        ≡ member_ended (parts_of text parts.old) front (option_map (name_of text) tag)
        (map (field_of text) fields) (base_of text base) (map (declarator_of text) declarators
        ++ declared_by (declaring_of text declaring) ∷ []) sign) }
{
    let declarator = declarator_from(declaring);
    add_member(
        parts,
        front,
        tag,
        fields,
        base,
        declarators,
        declarator,
        sign,
    )
}

fn plain_type(
    alloc: Global,
    base: Base,
    declarator: Declarator,
) -> Result<Boxed<TypeName>, AllocError>
    ensures { IfOk result (λ t. (text : List ℕ) → type_name_of text t
        ≡ type_name (base_of text base) (declarator_of text declarator)) }
{
    Boxed::new(alloc, TypeName { base, declarator })
}

fn name_type(
    alloc: Global,
    base: Boxed<Base>,
    declaring: Boxed<Declaring>,
) -> Result<Point, AllocError>
    ensures { IfOk result (λ p. (text : List ℕ) (parts : List Part) → place_of text parts p
        ≡ place (parts_of text parts) (types.over_type (type_name
        (base_of text base) (declared_by (declaring_of text declaring))))) }
{
    let base = base.into_inner();
    let declarator = declarator_from(declaring);
    let name = plain_type(alloc, base, declarator)?;
    Ok(Point::OverType(name))
}

fn end_entry(
    alloc: Global,
    parts: &mut Items<Part>,
    base: Boxed<Base>,
    declarators: Items<Declarator>,
    declaring: Boxed<Declaring>,
    sign: Sign,
) -> Result<Point, AllocError>
    ensures { IfOk result (λ p. (text : List ℕ) → place_of text parts.new p
        ≡ entry_ended (parts_of text parts.old) (base_of text base)
        (map (declarator_of text) declarators) (declared_by (declaring_of text declaring)) sign) }
{
    match parts.pop() {
        Some(Part::InFields { front, tag, fields }) => end_last_member(
            parts,
            front,
            tag,
            fields,
            base,
            declarators,
            declaring,
            sign,
        ),
        Some(
            Part::InParams {
                declaring: outer,
                params,
            },
        ) => end_last_param(alloc, parts, outer, params, base, declaring, sign),
        Some(Part::Alone) => name_type(alloc, base, declaring),
        None
        | Some(
            Part::Typed {
                base: _,
                declarators: _,
            },
        )
        | Some(
            Part::InConstants {
                front: _,
                tag: _,
                constants: _,
            },
        )
        | Some(Part::InConstant(_))
        | Some(Part::InCount(_))
        | Some(
            Part::InInner {
                at: _,
                stars: _,
                inner_at: _,
            },
        ) => Ok(Point::Broken),
    }
}

fn plain_inner(alloc: Global, at: u32, declarator: Declarator) -> Result<Core, AllocError>
    ensures { IfOk result (λ c. (text : List ℕ) →
        core_of text c ≡ inner at (declarator_of text declarator)) }
{
    Ok(Core::Inner {
        at,
        declarator: Boxed::new(alloc, declarator)?,
    })
}

fn inner_core(alloc: Global, at: u32, declaring: Boxed<Declaring>) -> Result<Core, AllocError>
    ensures { IfOk result (λ c. (text : List ℕ) →
        core_of text c ≡ inner at (declared_by (declaring_of text declaring))) }
{
    let declarator = declarator_from(declaring);
    plain_inner(alloc, at, declarator)
}

fn close_inner(
    alloc: Global,
    at: u32,
    stars: Items<u32>,
    inner_at: u32,
    declaring: Boxed<Declaring>,
) -> Result<Point, AllocError>
    ensures { IfOk result (λ p. (text : List ℕ) (parts : List Part) → place_of text parts p
        ≡ place (parts_of text parts) (behind_core (types.declaring at stars
        (inner inner_at (declared_by (declaring_of text declaring)))))) }
{
    let core = inner_core(alloc, inner_at, declaring)?;
    let declaring = begin_declaring(alloc, at, stars, core)?;
    Ok(Point::BehindCore(declaring))
}

fn end_inner(
    alloc: Global,
    at: u32,
    stars: Items<u32>,
    inner_at: u32,
    declaring: Boxed<Declaring>,
    sign: Sign,
) -> Result<Point, AllocError>
    ensures { IfOk result (λ p. (text : List ℕ) (parts : List Part) → place_of text parts p
        ≡ declared (types.in_inner at stars inner_at ∷ parts_of text parts)
        (declared_by (declaring_of text declaring)) sign) }
{
    if is_close(sign) {
        close_inner(alloc, at, stars, inner_at, declaring)
    } else {
        Ok(Point::Broken)
    }
}

/// A declarator ended in front of a word.
pub(crate) fn end_declarator(
    alloc: Global,
    parts: &mut Items<Part>,
    declaring: Boxed<Declaring>,
    sign: Sign,
) -> Result<Point, AllocError>
    ensures { IfOk result (λ p. (text : List ℕ) → place_of text parts.new p
        ≡ declared (parts_of text parts.old) (declared_by (declaring_of text declaring)) sign) }
{
    match parts.pop() {
        None => Ok(Point::OverDeclarator(declaring)),
        Some(
            Part::InInner {
                at,
                stars,
                inner_at,
            },
        ) => end_inner(alloc, at, stars, inner_at, declaring, sign),
        Some(Part::Typed { base, declarators }) => {
            end_entry(alloc, parts, base, declarators, declaring, sign)
        }
        Some(
            Part::InFields {
                front: _,
                tag: _,
                fields: _,
            },
        )
        | Some(
            Part::InConstants {
                front: _,
                tag: _,
                constants: _,
            },
        )
        | Some(Part::InConstant(_))
        | Some(
            Part::InParams {
                declaring: _,
                params: _,
            },
        )
        | Some(Part::InCount(_))
        | Some(Part::Alone) => Ok(Point::Broken),
    }
}

fn bare_list(
    alloc: Global,
    declaring: Boxed<Declaring>,
    params: Items<Param>,
) -> Result<Point, AllocError>
    ensures { IfOk result (λ p. (text : List ℕ) (parts : List Part) → place_of text parts p
        ≡ no_params (types.in_params (declaring_of text declaring) (map (param_of text) params)
        ∷ parts_of text parts)) }
{
    if params.is_empty() {
        add_bracket(alloc, declaring, Bracket::EmptyList)
    } else {
        Ok(Point::Broken)
    }
}

/// `)` where a parameter could begin.
pub(crate) fn end_no_params(alloc: Global, parts: &mut Items<Part>) -> Result<Point, AllocError>
    ensures { IfOk result (λ p. (text : List ℕ) →
        place_of text parts.new p ≡ no_params (parts_of text parts.old)) }
{
    match parts.pop() {
        Some(Part::InParams { declaring, params }) => bare_list(alloc, declaring, params),
        None
        | Some(
            Part::Typed {
                base: _,
                declarators: _,
            },
        )
        | Some(
            Part::InFields {
                front: _,
                tag: _,
                fields: _,
            },
        )
        | Some(
            Part::InConstants {
                front: _,
                tag: _,
                constants: _,
            },
        )
        | Some(Part::InConstant(_))
        | Some(Part::InCount(_))
        | Some(
            Part::InInner {
                at: _,
                stars: _,
                inner_at: _,
            },
        )
        | Some(Part::Alone) => Ok(Point::Broken),
    }
}

/// `}` where a field could begin.
pub(crate) fn end_fields(parts: &mut Items<Part>) -> Point
    ensures { (text : List ℕ) →
        place_of text parts.new result ≡ fields_closed (parts_of text parts.old) }
{
    match parts.pop() {
        Some(Part::InFields { front, tag, fields }) => Point::BehindForm {
            front,
            form: Form::Fields(tag, fields),
            behind: 0,
        },
        None
        | Some(
            Part::Typed {
                base: _,
                declarators: _,
            },
        )
        | Some(
            Part::InConstants {
                front: _,
                tag: _,
                constants: _,
            },
        )
        | Some(Part::InConstant(_))
        | Some(
            Part::InParams {
                declaring: _,
                params: _,
            },
        )
        | Some(Part::InCount(_))
        | Some(
            Part::InInner {
                at: _,
                stars: _,
                inner_at: _,
            },
        )
        | Some(Part::Alone) => Point::Broken,
    }
}

fn add_constant(
    parts: &mut Items<Part>,
    front: Front,
    tag: Option<Name>,
    mut constants: Items<Constant>,
    constant: Constant,
    sign: Sign,
) -> Result<Point, AllocError>
    ensures { IfOk result (λ p. (text : List ℕ) → place_of text parts.new p
        ≡ constant_ended (parts_of text parts.old) front (option_map (name_of text) tag)
        (map (constant_of text) constants ++ constant_of text constant ∷ []) sign) }
{
    constants.push(constant)?;
    if is_comma(sign) {
        parts.push(Part::InConstants {
            front,
            tag,
            constants,
        })?;
        Ok(Point::AtConstant)
    } else if is_close_brace(sign) {
        Ok(Point::BehindForm {
            front,
            form: Form::Constants(tag, constants),
            behind: 0,
        })
    } else {
        Ok(Point::Broken)
    }
}

/// An enumeration constant ended in front of a word.
pub(crate) fn end_constant(
    parts: &mut Items<Part>,
    constant: Constant,
    sign: Sign,
) -> Result<Point, AllocError>
    ensures { IfOk result (λ p. (text : List ℕ) → place_of text parts.new p
        ≡ constant_closed (parts_of text parts.old) (constant_of text constant) sign) }
{
    match parts.pop() {
        Some(
            Part::InConstants {
                front,
                tag,
                constants,
            },
        ) => add_constant(parts, front, tag, constants, constant, sign),
        None
        | Some(
            Part::Typed {
                base: _,
                declarators: _,
            },
        )
        | Some(
            Part::InFields {
                front: _,
                tag: _,
                fields: _,
            },
        )
        | Some(Part::InConstant(_))
        | Some(
            Part::InParams {
                declaring: _,
                params: _,
            },
        )
        | Some(Part::InCount(_))
        | Some(
            Part::InInner {
                at: _,
                stars: _,
                inner_at: _,
            },
        )
        | Some(Part::Alone) => Ok(Point::Broken),
    }
}

fn end_count(
    alloc: Global,
    declaring: Boxed<Declaring>,
    expr: Expr,
    sign: Sign,
) -> Result<Point, AllocError>
    ensures { IfOk result (λ p. (text : List ℕ) (parts : List Part) → place_of text parts p
        ≡ given (types.in_count (declaring_of text declaring) ∷ parts_of text parts)
        (expr_of text expr) sign) }
{
    if is_close_bracket(sign) {
        add_bracket(alloc, declaring, Bracket::Count(Some(expr)))
    } else {
        Ok(Point::Broken)
    }
}

/// An expression ended in front of a word.
pub(crate) fn end_expr(
    alloc: Global,
    parts: &mut Items<Part>,
    expr: Expr,
    sign: Sign,
) -> Result<Point, AllocError>
    ensures { IfOk result (λ p. (text : List ℕ) → place_of text parts.new p
        ≡ given (parts_of text parts.old) (expr_of text expr) sign) }
{
    match parts.pop() {
        Some(Part::InCount(declaring)) => end_count(alloc, declaring, expr, sign),
        Some(Part::InConstant(name)) => end_constant(
            parts,
            Constant {
                name,
                value: Some(expr),
            },
            sign,
        ),
        None
        | Some(
            Part::Typed {
                base: _,
                declarators: _,
            },
        )
        | Some(
            Part::InFields {
                front: _,
                tag: _,
                fields: _,
            },
        )
        | Some(
            Part::InConstants {
                front: _,
                tag: _,
                constants: _,
            },
        )
        | Some(
            Part::InParams {
                declaring: _,
                params: _,
            },
        )
        | Some(
            Part::InInner {
                at: _,
                stars: _,
                inner_at: _,
            },
        )
        | Some(Part::Alone) => Ok(Point::Broken),
    }
}

/// A base with so many `const` behind it.
pub(crate) fn base_from(front: Front, form: Form, behind: u32) -> Base
    ensures { (text : List ℕ) → base_of text result ≡ form_base front (form_of text form) behind }
{
    let consts = Consts {
        before: front.before,
        behind,
    };
    let at = front.at;
    match form {
        Form::Void => Base::Void { at, consts },
        Form::Typedef(name) => Base::TypedefName { at, name, consts },
        Form::Tag(sort, tag) => Base::Tag {
            at,
            sort,
            tag,
            consts,
        },
        Form::Fields(tag, fields) => Base::Struct {
            at,
            tag,
            fields,
            consts,
        },
        Form::Constants(tag, constants) => Base::Enum {
            at,
            tag,
            constants,
            consts,
        },
    }
}
