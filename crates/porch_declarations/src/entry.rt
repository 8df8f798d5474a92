//! How the entries of a declaration end.

ghost use Rattle.std.specs.Prelude.{ℕ, ◌≡◌, List, [], map, IfOk};
ghost use Rattle.std.specs.Option.{option_map};
ghost use Rattle.porch_tree.specs.Mirror.{declarator, type_name};
ghost use Rattle.porch_tree.specs.Views.{base_of, bracket_of, brackets_of, core_of, declarator_of, initial_of, declaration_of, type_name_of};
ghost use Rattle.porch_parts.specs.Types as types;
ghost use Rattle.porch_parts.specs.Ends.{at_declared};
ghost use Rattle.porch_declarations.specs.Declarations as declarations;
ghost use Rattle.porch_declarations.specs.Declarations.{opened, with_entry, declared, first_ended, typed, in_declared, at_initial};
ghost use Rattle.porch_declarations.specs.declared.stage.Declarer.{Declarer};
ghost use Rattle.porch_declarations.specs.Shown.{stage_of};

use crate::stage::{Declarer, Stage};
use porch_parts::{Sign, begin_declared};
use porch_tree::{Base, Bracket, Core, Declaration, Declarator, Entry, Initial, TypeName};
use sqlite_items::{Boxed, Items};
use std::alloc::{AllocError, Global};

pub(crate) fn is_equal(sign: Sign) -> bool
    ensures { result ≡ declarations.is_equal sign }
{
    matches!(sign, Sign::Equal)
}

pub(crate) fn is_open_brace(sign: Sign) -> bool
    ensures { result ≡ declarations.is_open_brace sign }
{
    matches!(sign, Sign::OpenBrace)
}

pub(crate) fn is_close_brace(sign: Sign) -> bool
    ensures { result ≡ types.is_close_brace sign }
{
    matches!(sign, Sign::CloseBrace)
}

pub(crate) fn is_comma(sign: Sign) -> bool
    ensures { result ≡ types.is_comma sign }
{
    matches!(sign, Sign::Comma)
}

pub(crate) fn is_semicolon(sign: Sign) -> bool
    ensures { result ≡ types.is_semicolon sign }
{
    matches!(sign, Sign::Semicolon)
}

fn open(alloc: Global, fixed: Option<u32>, base: Base) -> Result<Boxed<Declaration>, AllocError>
    ensures { IfOk result (λ h. (text : List ℕ) →
        declaration_of text h ≡ opened fixed (base_of text base)) }
{
    let entries = Items::new(alloc);
    Boxed::new(
        alloc,
        Declaration {
            fixed,
            base,
            entries,
        },
    )
}

/// One more entry of a declaration.
pub(crate) fn add_entry(
    alloc: Global,
    declaration: Boxed<Declaration>,
    declarator: Boxed<Declarator>,
    initial: Option<Initial>,
) -> Result<Boxed<Declaration>, AllocError>
    ensures { IfOk result (λ h. (text : List ℕ) → declaration_of text h
        ≡ with_entry (declaration_of text declaration) (declarator_of text declarator)
        (option_map (initial_of text) initial)) }
{
    let Declaration {
        fixed,
        base,
        mut entries,
    } = declaration.into_inner();
    let declarator = declarator.into_inner();
    entries.push(Entry {
        declarator,
        initial,
    })?;
    Boxed::new(
        alloc,
        Declaration {
            fixed,
            base,
            entries,
        },
    )
}

/// Behind the comma of an entry.
pub(crate) fn next_entry(
    alloc: Global,
    declarer: &mut Declarer,
    declaration: Boxed<Declaration>,
    declarator: Boxed<Declarator>,
    initial: Option<Initial>,
) -> Result<Stage, AllocError>
    ensures { IfOk result (λ s. (text : List ℕ) → stage_of text declarer.new s
        ≡ in_declared (with_entry (declaration_of text declaration)
        (declarator_of text declarator) (option_map (initial_of text) initial)) at_declared) }
{
    let declaration = add_entry(alloc, declaration, declarator, initial)?;
    let turn = begin_declared(alloc, &mut declarer.reader);
    Ok(Stage::InDeclared(declaration, turn))
}

/// Behind the last entry's `;`.
pub(crate) fn last_entry(
    alloc: Global,
    declaration: Boxed<Declaration>,
    declarator: Boxed<Declarator>,
    initial: Option<Initial>,
) -> Result<Stage, AllocError>
    ensures { IfOk result (λ s. (text : List ℕ) (declarer : Declarer) →
        stage_of text declarer s ≡ declarations.over (with_entry (declaration_of text declaration)
        (declarator_of text declarator) (option_map (initial_of text) initial))) }
{
    let declaration = add_entry(alloc, declaration, declarator, initial)?;
    Ok(Stage::Over(declaration))
}

/// Behind the `=` of an entry.
fn first_initial(
    alloc: Global,
    declarer: &mut Declarer,
    declaration: Boxed<Declaration>,
    declarator: Boxed<Declarator>,
) -> Stage
    ensures { (text : List ℕ) → stage_of text declarer.new result
        ≡ at_initial (declaration_of text declaration) (declarator_of text declarator) [] }
{
    if !declarer.braces.is_empty() {
        declarer.braces = Items::new(alloc);
    }
    Stage::AtInitial(declaration, declarator)
}

/// A declarator ended in front of a word.
pub(crate) fn end_declarator(
    alloc: Global,
    declarer: &mut Declarer,
    declaration: Boxed<Declaration>,
    declarator: Boxed<Declarator>,
    sign: Sign,
) -> Result<Stage, AllocError>
    ensures { IfOk result (λ s. (text : List ℕ) → stage_of text declarer.new s
        ≡ declared (declaration_of text declaration) (declarator_of text declarator) sign) }
{
    if is_equal(sign) {
        Ok(first_initial(alloc, declarer, declaration, declarator))
    } else if is_comma(sign) {
        next_entry(alloc, declarer, declaration, declarator, None)
    } else if is_semicolon(sign) {
        last_entry(alloc, declaration, declarator, None)
    } else if is_open_brace(sign) {
        Ok(Stage::Headed(declaration, declarator))
    } else {
        Ok(Stage::Broken)
    }
}

fn is_lacking(core: &Core) -> bool
    ensures { (text : List ℕ) → result ≡ types.is_lacking (core_of text core.now) }
{
    match core {
        Core::Lacking => true,
        Core::Named(_) => false,
        Core::Inner {
            at: _,
            declarator: _,
        } => false,
    }
}

fn plain_declarator(at: u32, stars: Items<u32>, core: Core, brackets: Items<Bracket>) -> Declarator
    ensures { (text : List ℕ) → declarator_of text result
        ≡ declarator at stars (core_of text core) (brackets_of (map (bracket_of text) brackets)) }
{
    Declarator {
        at,
        stars,
        core,
        brackets,
    }
}

// the first declarator of a declaration, or none, ended
fn end_first(
    alloc: Global,
    declarer: &mut Declarer,
    declaration: Boxed<Declaration>,
    declarator: Boxed<Declarator>,
    nameless: bool,
    sign: Sign,
) -> Result<Stage, AllocError>
    ensures { IfOk result (λ s. (text : List ℕ) → stage_of text declarer.new s
        ≡ first_ended nameless (declaration_of text declaration) (declarator_of text declarator)
        sign) }
{
    if nameless {
        Ok(Stage::Over(declaration))
    } else {
        end_declarator(alloc, declarer, declaration, declarator, sign)
    }
}

fn end_pair(
    alloc: Global,
    declarer: &mut Declarer,
    fixed: Option<u32>,
    base: Base,
    declarator: Boxed<Declarator>,
    nameless: bool,
    sign: Sign,
) -> Result<Stage, AllocError>
    ensures { IfOk result (λ s. (text : List ℕ) → stage_of text declarer.new s
        ≡ first_ended nameless (opened fixed (base_of text base)) (declarator_of text declarator)
        sign) }
{
    let declaration = open(alloc, fixed, base)?;
    end_first(alloc, declarer, declaration, declarator, nameless, sign)
}

fn end_core(
    alloc: Global,
    declarer: &mut Declarer,
    fixed: Option<u32>,
    base: Base,
    at: u32,
    stars: Items<u32>,
    core: Core,
    brackets: Items<Bracket>,
    sign: Sign,
) -> Result<Stage, AllocError>
    ensures { IfOk result (λ s. (text : List ℕ) → stage_of text declarer.new s
        ≡ typed fixed (type_name (base_of text base) (declarator at stars (core_of text core)
        (brackets_of (map (bracket_of text) brackets)))) sign) }
{
    let nameless = is_lacking(&core);
    let declarator = plain_declarator(at, stars, core, brackets);
    let boxed = Boxed::new(alloc, declarator)?;
    end_pair(alloc, declarer, fixed, base, boxed, nameless, sign)
}

fn end_declared(
    alloc: Global,
    declarer: &mut Declarer,
    fixed: Option<u32>,
    base: Base,
    declarator: Declarator,
    sign: Sign,
) -> Result<Stage, AllocError>
    ensures { IfOk result (λ s. (text : List ℕ) → stage_of text declarer.new s
        ≡ typed fixed (type_name (base_of text base) (declarator_of text declarator)) sign) }
{
    let Declarator {
        at,
        stars,
        core,
        brackets,
    } = declarator;
    end_core(
        alloc, declarer, fixed, base, at, stars, core, brackets, sign,
    )
}

/// A base and a declarator ended in front of a word.
pub(crate) fn end_typed(
    alloc: Global,
    declarer: &mut Declarer,
    fixed: Option<u32>,
    name: Boxed<TypeName>,
    sign: Sign,
) -> Result<Stage, AllocError>
    ensures { IfOk result (λ s. (text : List ℕ) → stage_of text declarer.new s
        ≡ typed fixed (type_name_of text name) sign) }
{
    let TypeName { base, declarator } = name.into_inner();
    end_declared(alloc, declarer, fixed, base, declarator, sign)
}
