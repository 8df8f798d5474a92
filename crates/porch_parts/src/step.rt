//! What a token does in a type or a declarator.

ghost use Rattle.std.specs.Prelude.{ℕ, ◌≡◌, suc, List, [], ◌∷◌, ◌++◌, map, IfOk};
ghost use Rattle.std.specs.Option.{option_map};
ghost use Rattle.porch_tree.specs.Mirror.{kind, declarator, lacking, named, no_brackets};
ghost use Rattle.porch_tree.specs.Views.{name_of, base_of};
ghost use Rattle.porch_lex.specs.Words.{spelled_token};
ghost use Rattle.porch_parse.specs.Building.{spelt_name};
ghost use Rattle.porch_parts.specs.declared.part.Part.{Part};
ghost use Rattle.porch_parts.specs.Types as types;
ghost use Rattle.porch_parts.specs.Types.{is_outermost, based, core_step, declarator_step, star_step, form_step, name_step, words_step, base_step, braced, at_tag_step, tag_step, at_core_step, behind_core_step, count_step, at_constant_step, constant_step, type_step};
ghost use Rattle.porch_parts.specs.Shown.{form_of, declaring_of, parts_of, point_of, place_of};

use crate::ended::{
    add_bracket, base_from, begin_lacking, begin_named, end_constant, end_declarator, end_fields,
    end_no_params, one_more,
};
use crate::part::{Declaring, Form, Front, Part, Point};
use crate::sign::Sign;
use porch_lex::Token;
use porch_tree::{Base, Bracket, Constant, Keyword, Name, TagSort};
use sqlite_items::{Boxed, Items};
use std::alloc::{AllocError, Global};

fn name_at(token: Token) -> Name
    ensures { (text : List ℕ) → name_of text result ≡ spelt_name (spelled_token text token) }
{
    Name {
        at: token.from,
        to: token.to,
    }
}

fn name_core(alloc: Global, at: u32, stars: Items<u32>, token: Token) -> Result<Point, AllocError>
    ensures { IfOk result (λ p. (text : List ℕ) (parts : List Part) → place_of text parts p
        ≡ types.place (parts_of text parts) (types.behind_core (types.declaring at stars
        (named (spelt_name (spelled_token text token)))))) }
{
    let name = name_at(token);
    let declaring = begin_named(alloc, at, stars, name)?;
    Ok(Point::BehindCore(declaring))
}

fn count_core(alloc: Global, at: u32, stars: Items<u32>) -> Result<Point, AllocError>
    ensures { IfOk result (λ p. (text : List ℕ) (parts : List Part) → place_of text parts p
        ≡ types.place (parts_of text parts) (types.at_count (types.declaring at stars lacking))) }
{
    let declaring = begin_lacking(alloc, at, stars)?;
    Ok(Point::AtCount(declaring))
}

// where a core may stand; without more tokens the declarator begins at `end_at`
fn core_next(
    alloc: Global,
    parts: &mut Items<Part>,
    at: u32,
    stars: Items<u32>,
    end_at: u32,
    sign: Sign,
    token: Token,
) -> Result<Point, AllocError>
    ensures { IfOk result (λ p. (text : List ℕ) → place_of text parts.new p
        ≡ core_step (parts_of text parts.old) at stars
        (declarator end_at stars lacking no_brackets) sign (spelled_token text token)) }
{
    match sign {
        Sign::Name => name_core(alloc, at, stars, token),
        Sign::Open => Ok(Point::AtCore {
            at,
            stars,
            inner_at: token.from,
        }),
        Sign::OpenBracket => count_core(alloc, at, stars),
        Sign::Const
        | Sign::Kind(_)
        | Sign::Void
        | Sign::Tag(_)
        | Sign::Star
        | Sign::Close
        | Sign::CloseBracket
        | Sign::OpenBrace
        | Sign::CloseBrace
        | Sign::Comma
        | Sign::Semicolon
        | Sign::Equal
        | Sign::Other => end_bare(alloc, parts, end_at, stars, sign),
    }
}

fn end_bare(
    alloc: Global,
    parts: &mut Items<Part>,
    at: u32,
    stars: Items<u32>,
    sign: Sign,
) -> Result<Point, AllocError>
    ensures { IfOk result (λ p. (text : List ℕ) → place_of text parts.new p
        ≡ types.declared (parts_of text parts.old) (declarator at stars lacking no_brackets)
        sign) }
{
    let declaring = begin_lacking(alloc, at, stars)?;
    end_declarator(alloc, parts, declaring, sign)
}

fn declarator_next(
    alloc: Global,
    parts: &mut Items<Part>,
    sign: Sign,
    token: Token,
) -> Result<Point, AllocError>
    ensures { IfOk result (λ p. (text : List ℕ) → place_of text parts.new p
        ≡ declarator_step (parts_of text parts.old) sign (spelled_token text token)) }
{
    let stars = Items::new(alloc);
    match sign {
        Sign::Star => Ok(Point::BehindStar {
            at: token.from,
            stars,
            consts: 0,
        }),
        Sign::Const
        | Sign::Kind(_)
        | Sign::Void
        | Sign::Tag(_)
        | Sign::Name
        | Sign::Open
        | Sign::Close
        | Sign::OpenBracket
        | Sign::CloseBracket
        | Sign::OpenBrace
        | Sign::CloseBrace
        | Sign::Comma
        | Sign::Semicolon
        | Sign::Equal
        | Sign::Other => core_next(alloc, parts, token.from, stars, 0, sign, token),
    }
}

fn star_next(
    alloc: Global,
    parts: &mut Items<Part>,
    at: u32,
    mut stars: Items<u32>,
    consts: u32,
    sign: Sign,
    token: Token,
) -> Result<Point, AllocError>
    ensures { IfOk result (λ p. (text : List ℕ) → place_of text parts.new p
        ≡ star_step (parts_of text parts.old) at stars consts sign (spelled_token text token)) }
{
    match sign {
        Sign::Const => Ok(Point::BehindStar {
            at,
            stars,
            consts: one_more(consts)?,
        }),
        Sign::Star => {
            stars.push(consts)?;
            Ok(Point::BehindStar {
                at,
                stars,
                consts: 0,
            })
        }
        Sign::Kind(_)
        | Sign::Void
        | Sign::Tag(_)
        | Sign::Name
        | Sign::Open
        | Sign::Close
        | Sign::OpenBracket
        | Sign::CloseBracket
        | Sign::OpenBrace
        | Sign::CloseBrace
        | Sign::Comma
        | Sign::Semicolon
        | Sign::Equal
        | Sign::Other => {
            stars.push(consts)?;
            core_next(alloc, parts, at, stars, at, sign, token)
        }
    }
}

#[tactic(auto, using(crate::proofs::Outermost::inner_parts))]
pub(crate) fn outermost(parts: &Items<Part>) -> bool
    ensures { (text : List ℕ) → result ≡ is_outermost (parts_of text parts.now) }
{
    match parts.as_slice() {
        [] => true,
        [.., _] => false,
    }
}

// a base ended in front of a word
fn end_base(
    alloc: Global,
    parts: &mut Items<Part>,
    base: Base,
    sign: Sign,
    token: Token,
) -> Result<Point, AllocError>
    ensures { IfOk result (λ p. (text : List ℕ) → place_of text parts.new p
        ≡ based (parts_of text parts.old) (base_of text base) sign (spelled_token text token)) }
{
    let base = Boxed::new(alloc, base)?;
    if outermost(parts) {
        return Ok(Point::OverBase(base));
    }
    open_base(alloc, parts, base, sign, token)
}

fn open_base(
    alloc: Global,
    parts: &mut Items<Part>,
    base: Boxed<Base>,
    sign: Sign,
    token: Token,
) -> Result<Point, AllocError>
    ensures { IfOk result (λ p. (text : List ℕ) → place_of text parts.new p
        ≡ declarator_step (types.typed (base_of text base) [] ∷ parts_of text parts.old) sign
        (spelled_token text token)) }
{
    parts.push(Part::Typed {
        base,
        declarators: Items::new(alloc),
    })?;
    declarator_next(alloc, parts, sign, token)
}

fn form_next(
    alloc: Global,
    parts: &mut Items<Part>,
    front: Front,
    form: Form,
    behind: u32,
    sign: Sign,
    token: Token,
) -> Result<Point, AllocError>
    ensures { IfOk result (λ p. (text : List ℕ) → place_of text parts.new p
        ≡ form_step (parts_of text parts.old) front (form_of text form) behind sign
        (spelled_token text token)) }
{
    match sign {
        Sign::Const => Ok(Point::BehindForm {
            front,
            form,
            behind: one_more(behind)?,
        }),
        Sign::Kind(_)
        | Sign::Void
        | Sign::Tag(_)
        | Sign::Name
        | Sign::Star
        | Sign::Open
        | Sign::Close
        | Sign::OpenBracket
        | Sign::CloseBracket
        | Sign::OpenBrace
        | Sign::CloseBrace
        | Sign::Comma
        | Sign::Semicolon
        | Sign::Equal
        | Sign::Other => end_base(alloc, parts, base_from(front, form, behind), sign, token),
    }
}

fn name_next(
    alloc: Global,
    parts: &mut Items<Part>,
    front: Front,
    words: Items<Keyword>,
    only: bool,
    token: Token,
) -> Result<Point, AllocError>
    ensures { IfOk result (λ p. (text : List ℕ) → place_of text parts.new p
        ≡ name_step (parts_of text parts.old) front.at words front.before only
        (spelled_token text token)) }
{
    if only {
        return Ok(Point::BehindForm {
            front,
            form: Form::Typedef(name_at(token)),
            behind: 0,
        });
    }
    let at = front.at;
    end_base(alloc, parts, Base::Kind { at, words }, Sign::Name, token)
}

fn words_next(
    alloc: Global,
    parts: &mut Items<Part>,
    front: Front,
    mut words: Items<Keyword>,
    only: bool,
    sign: Sign,
    token: Token,
) -> Result<Point, AllocError>
    ensures { IfOk result (λ p. (text : List ℕ) → place_of text parts.new p
        ≡ words_step (parts_of text parts.old) front.at words front.before only sign
        (spelled_token text token)) }
{
    let at = front.at;
    match sign {
        Sign::Const => {
            words.push(Keyword::Const)?;
            let number = one_more(front.before)?;
            Ok(Point::BehindWords {
                at,
                words,
                number,
                only,
            })
        }
        Sign::Kind(word) => {
            words.push(word)?;
            let number = one_more(front.before)?;
            Ok(Point::BehindWords {
                at,
                words,
                number,
                only: false,
            })
        }
        Sign::Void => Ok(Point::BehindForm {
            front,
            form: Form::Void,
            behind: 0,
        }),
        Sign::Tag(sort) => Ok(Point::AtTag(front, sort)),
        Sign::Name => name_next(alloc, parts, front, words, only, token),
        Sign::Star
        | Sign::Open
        | Sign::Close
        | Sign::OpenBracket
        | Sign::CloseBracket
        | Sign::OpenBrace
        | Sign::CloseBrace
        | Sign::Comma
        | Sign::Semicolon
        | Sign::Equal
        | Sign::Other => end_base(alloc, parts, Base::Kind { at, words }, sign, token),
    }
}

fn base_next(
    alloc: Global,
    parts: &mut Items<Part>,
    sign: Sign,
    token: Token,
) -> Result<Point, AllocError>
    ensures { IfOk result (λ p. (text : List ℕ) → place_of text parts.new p
        ≡ base_step (parts_of text parts.old) sign (spelled_token text token)) }
{
    match sign {
        Sign::Close => end_no_params(alloc, parts),
        Sign::CloseBrace => Ok(end_fields(parts)),
        Sign::Const
        | Sign::Kind(_)
        | Sign::Void
        | Sign::Tag(_)
        | Sign::Name
        | Sign::Star
        | Sign::Open
        | Sign::OpenBracket
        | Sign::CloseBracket
        | Sign::OpenBrace
        | Sign::Comma
        | Sign::Semicolon
        | Sign::Equal
        | Sign::Other => words_next(
            alloc,
            parts,
            Front {
                at: token.from,
                before: 0,
            },
            Items::new(alloc),
            true,
            sign,
            token,
        ),
    }
}

fn open_brace(
    alloc: Global,
    parts: &mut Items<Part>,
    front: Front,
    sort: TagSort,
    tag: Option<Name>,
) -> Result<Point, AllocError>
    ensures { IfOk result (λ p. (text : List ℕ) → place_of text parts.new p
        ≡ braced (parts_of text parts.old) front sort (option_map (name_of text) tag)) }
{
    match sort {
        TagSort::Struct => {
            parts.push(Part::InFields {
                front,
                tag,
                fields: Items::new(alloc),
            })?;
            Ok(Point::AtBase)
        }
        TagSort::Enum => {
            parts.push(Part::InConstants {
                front,
                tag,
                constants: Items::new(alloc),
            })?;
            Ok(Point::AtConstant)
        }
    }
}

fn at_tag_next(
    alloc: Global,
    parts: &mut Items<Part>,
    front: Front,
    sort: TagSort,
    sign: Sign,
    token: Token,
) -> Result<Point, AllocError>
    ensures { IfOk result (λ p. (text : List ℕ) → place_of text parts.new p
        ≡ at_tag_step (parts_of text parts.old) front sort sign (spelled_token text token)) }
{
    match sign {
        Sign::Name => Ok(Point::BehindTag(front, sort, name_at(token))),
        Sign::OpenBrace => open_brace(alloc, parts, front, sort, None),
        Sign::Const
        | Sign::Kind(_)
        | Sign::Void
        | Sign::Tag(_)
        | Sign::Star
        | Sign::Open
        | Sign::Close
        | Sign::OpenBracket
        | Sign::CloseBracket
        | Sign::CloseBrace
        | Sign::Comma
        | Sign::Semicolon
        | Sign::Equal
        | Sign::Other => Ok(Point::Broken),
    }
}

fn tag_next(
    alloc: Global,
    parts: &mut Items<Part>,
    front: Front,
    sort: TagSort,
    tag: Name,
    sign: Sign,
    token: Token,
) -> Result<Point, AllocError>
    ensures { IfOk result (λ p. (text : List ℕ) → place_of text parts.new p
        ≡ tag_step (parts_of text parts.old) front sort (name_of text tag) sign
        (spelled_token text token)) }
{
    match sign {
        Sign::OpenBrace => open_brace(alloc, parts, front, sort, Some(tag)),
        Sign::Const
        | Sign::Kind(_)
        | Sign::Void
        | Sign::Tag(_)
        | Sign::Name
        | Sign::Star
        | Sign::Open
        | Sign::Close
        | Sign::OpenBracket
        | Sign::CloseBracket
        | Sign::CloseBrace
        | Sign::Comma
        | Sign::Semicolon
        | Sign::Equal
        | Sign::Other => form_next(alloc, parts, front, Form::Tag(sort, tag), 0, sign, token),
    }
}

fn begins_params(sign: Sign) -> bool
    ensures { result ≡ types.begins_params sign }
{
    match sign {
        Sign::Close | Sign::Const | Sign::Kind(_) | Sign::Void | Sign::Tag(_) => true,
        Sign::Name
        | Sign::Star
        | Sign::Open
        | Sign::OpenBracket
        | Sign::CloseBracket
        | Sign::OpenBrace
        | Sign::CloseBrace
        | Sign::Comma
        | Sign::Semicolon
        | Sign::Equal
        | Sign::Other => false,
    }
}

fn open_params(
    alloc: Global,
    parts: &mut Items<Part>,
    declaring: Boxed<Declaring>,
) -> Result<Point, AllocError>
    ensures { IfOk result (λ p. (text : List ℕ) → place_of text parts.new p ≡ types.place
        (types.in_params (declaring_of text declaring) [] ∷ parts_of text parts.old)
        types.at_base) }
{
    parts.push(Part::InParams {
        declaring,
        params: Items::new(alloc),
    })?;
    Ok(Point::AtBase)
}

fn at_core_next(
    alloc: Global,
    parts: &mut Items<Part>,
    at: u32,
    stars: Items<u32>,
    inner_at: u32,
    sign: Sign,
    token: Token,
) -> Result<Point, AllocError>
    ensures { IfOk result (λ p. (text : List ℕ) → place_of text parts.new p
        ≡ at_core_step (parts_of text parts.old) at stars inner_at sign
        (spelled_token text token)) }
{
    if begins_params(sign) {
        open_list(alloc, parts, at, stars, sign, token)
    } else {
        open_inner(alloc, parts, at, stars, inner_at, sign, token)
    }
}

fn open_list(
    alloc: Global,
    parts: &mut Items<Part>,
    at: u32,
    stars: Items<u32>,
    sign: Sign,
    token: Token,
) -> Result<Point, AllocError>
    ensures { IfOk result (λ p. (text : List ℕ) → place_of text parts.new p
        ≡ base_step (types.in_params (types.declaring at stars lacking) []
        ∷ parts_of text parts.old) sign (spelled_token text token)) }
{
    let declaring = begin_lacking(alloc, at, stars)?;
    enter_list(alloc, parts, declaring, sign, token)
}

fn enter_list(
    alloc: Global,
    parts: &mut Items<Part>,
    declaring: Boxed<Declaring>,
    sign: Sign,
    token: Token,
) -> Result<Point, AllocError>
    ensures { IfOk result (λ p. (text : List ℕ) → place_of text parts.new p
        ≡ base_step (types.in_params (declaring_of text declaring) [] ∷ parts_of text parts.old)
        sign (spelled_token text token)) }
{
    parts.push(Part::InParams {
        declaring,
        params: Items::new(alloc),
    })?;
    base_next(alloc, parts, sign, token)
}

fn open_inner(
    alloc: Global,
    parts: &mut Items<Part>,
    at: u32,
    stars: Items<u32>,
    inner_at: u32,
    sign: Sign,
    token: Token,
) -> Result<Point, AllocError>
    ensures { IfOk result (λ p. (text : List ℕ) → place_of text parts.new p
        ≡ declarator_step (types.in_inner at stars inner_at ∷ parts_of text parts.old) sign
        (spelled_token text token)) }
{
    parts.push(Part::InInner {
        at,
        stars,
        inner_at,
    })?;
    declarator_next(alloc, parts, sign, token)
}

fn behind_core_next(
    alloc: Global,
    parts: &mut Items<Part>,
    declaring: Boxed<Declaring>,
    sign: Sign,
) -> Result<Point, AllocError>
    ensures { IfOk result (λ p. (text : List ℕ) → place_of text parts.new p
        ≡ behind_core_step (parts_of text parts.old) (declaring_of text declaring) sign) }
{
    match sign {
        Sign::OpenBracket => Ok(Point::AtCount(declaring)),
        Sign::Open => open_params(alloc, parts, declaring),
        Sign::Const
        | Sign::Kind(_)
        | Sign::Void
        | Sign::Tag(_)
        | Sign::Name
        | Sign::Star
        | Sign::Close
        | Sign::CloseBracket
        | Sign::OpenBrace
        | Sign::CloseBrace
        | Sign::Comma
        | Sign::Semicolon
        | Sign::Equal
        | Sign::Other => end_declarator(alloc, parts, declaring, sign),
    }
}

fn count_next(
    alloc: Global,
    parts: &mut Items<Part>,
    declaring: Boxed<Declaring>,
    sign: Sign,
) -> Result<Point, AllocError>
    ensures { IfOk result (λ p. (text : List ℕ) → place_of text parts.new p
        ≡ count_step (parts_of text parts.old) (declaring_of text declaring) sign) }
{
    match sign {
        Sign::CloseBracket => add_bracket(alloc, declaring, Bracket::Count(None)),
        Sign::Const
        | Sign::Kind(_)
        | Sign::Void
        | Sign::Tag(_)
        | Sign::Name
        | Sign::Star
        | Sign::Open
        | Sign::Close
        | Sign::OpenBracket
        | Sign::OpenBrace
        | Sign::CloseBrace
        | Sign::Comma
        | Sign::Semicolon
        | Sign::Equal
        | Sign::Other => {
            parts.push(Part::InCount(declaring))?;
            Ok(Point::AtExpr)
        }
    }
}

fn at_constant_next(sign: Sign, token: Token) -> Point
    ensures { (text : List ℕ) (parts : List Part) → place_of text parts result
        ≡ at_constant_step (parts_of text parts) sign (spelled_token text token) }
{
    match sign {
        Sign::Name => Point::BehindConstant(name_at(token)),
        Sign::Const
        | Sign::Kind(_)
        | Sign::Void
        | Sign::Tag(_)
        | Sign::Star
        | Sign::Open
        | Sign::Close
        | Sign::OpenBracket
        | Sign::CloseBracket
        | Sign::OpenBrace
        | Sign::CloseBrace
        | Sign::Comma
        | Sign::Semicolon
        | Sign::Equal
        | Sign::Other => Point::Broken,
    }
}

fn constant_next(parts: &mut Items<Part>, name: Name, sign: Sign) -> Result<Point, AllocError>
    ensures { IfOk result (λ p. (text : List ℕ) → place_of text parts.new p
        ≡ constant_step (parts_of text parts.old) (name_of text name) sign) }
{
    match sign {
        Sign::Equal => {
            parts.push(Part::InConstant(name))?;
            Ok(Point::AtValue)
        }
        Sign::Const
        | Sign::Kind(_)
        | Sign::Void
        | Sign::Tag(_)
        | Sign::Name
        | Sign::Star
        | Sign::Open
        | Sign::Close
        | Sign::OpenBracket
        | Sign::CloseBracket
        | Sign::OpenBrace
        | Sign::CloseBrace
        | Sign::Comma
        | Sign::Semicolon
        | Sign::Other => end_constant(parts, Constant { name, value: None }, sign),
    }
}

/// What stands behind one more token.
pub(crate) fn next_in_type(
    alloc: Global,
    parts: &mut Items<Part>,
    point: Point,
    sign: Sign,
    token: Token,
) -> Result<Point, AllocError>
    ensures { IfOk result (λ p. (text : List ℕ) → place_of text parts.new p
        ≡ type_step (place_of text parts.old point).parts (place_of text parts.old point).point
        sign (spelled_token text token)) }
{
    match point {
        Point::AtBase => base_next(alloc, parts, sign, token),
        Point::BehindWords {
            at,
            words,
            number,
            only,
        } => {
            let front = Front { at, before: number };
            words_next(alloc, parts, front, words, only, sign, token)
        }
        Point::AtTag(front, sort) => at_tag_next(alloc, parts, front, sort, sign, token),
        Point::BehindTag(front, sort, tag) => {
            tag_next(alloc, parts, front, sort, tag, sign, token)
        }
        Point::BehindForm {
            front,
            form,
            behind,
        } => form_next(alloc, parts, front, form, behind, sign, token),
        Point::AtConstant => Ok(at_constant_next(sign, token)),
        Point::BehindConstant(name) => constant_next(parts, name, sign),
        Point::AtValue => Ok(Point::AtExpr),
        Point::AtDeclarator => declarator_next(alloc, parts, sign, token),
        Point::BehindStar { at, stars, consts } => {
            star_next(alloc, parts, at, stars, consts, sign, token)
        }
        Point::AtCore {
            at,
            stars,
            inner_at,
        } => at_core_next(alloc, parts, at, stars, inner_at, sign, token),
        Point::BehindCore(declaring) => behind_core_next(alloc, parts, declaring, sign),
        Point::AtCount(declaring) => count_next(alloc, parts, declaring, sign),
        Point::AtExpr => Ok(Point::Broken),
        Point::OverBase(_) => Ok(Point::Broken),
        Point::OverDeclarator(_) => Ok(Point::Broken),
        Point::OverType(_) => Ok(Point::Broken),
        Point::Broken => Ok(Point::Broken),
    }
}
