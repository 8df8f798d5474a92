//! Tags, and structs with braces.

ghost use Rattle.std.specs.Prelude.{◌≡◌, ℕ, List, Ok, IfOk, IfErr, OnOk};
ghost use Rattle.std.specs.Option.{option_map};
ghost use Rattle.porch_check.specs.Scopes.{tag_of, tag_here};
ghost use Rattle.porch_check.specs.Scopes as definitions;
ghost use Rattle.porch_check.specs.Declarations.{tag_type, tagged, tag_alone, begun_struct};
ghost use Rattle.porch_scopes.specs.Views.{as_tag};
ghost use Rattle.porch_scopes.specs.Known.{scopes_of};
ghost use Rattle.porch_scopes.specs.Answers.{IsRefusalOf};

use crate::meaning::Tag;
use crate::scopes::Scopes;
use crate::types::refusal;
use porch_lex::{Rule, SourceFault};
use porch_tree::TagSort;
use porch_types::INT;

// A tag is used with the word of its declaration; an enumeration is int.
fn tag_type(sort: TagSort, at: u32, tag: Tag) -> Result<u32, SourceFault>
    ensures typed { IfOk result (λ n. (x : List ℕ) (s : definitions.Scopes)
        → tag_type sort at (as_tag x tag) tag.sort s ≡ Ok (n, s)) }
    ensures refused { IfErr result (λ e. (x : List ℕ) (s : definitions.Scopes)
        → IsRefusalOf e (tag_type sort at (as_tag x tag) tag.sort s)) }
{
    match sort {
        TagSort::Struct => match tag.sort {
            TagSort::Struct => Ok(tag.shape),
            TagSort::Enum => Err(refusal(Rule::Mismatch, at)),
        },
        TagSort::Enum => match tag.sort {
            TagSort::Struct => Err(refusal(Rule::Mismatch, at)),
            TagSort::Enum => Ok(INT),
        },
    }
}

// A tag that may be declared already.
fn tag_or_new<'t>(
    scopes: &mut Scopes<'t>,
    sort: TagSort,
    at: u32,
    name_at: u32,
    name: &'t [u8],
    tag: Option<Tag>,
) -> Result<u32, SourceFault>
    ensures typed { IfOk result (λ n. tagged sort at (record { at = name_at; bytes = name.now })
        (option_map (as_tag name.now) tag) (scopes_of scopes.old) ≡ Ok (n, scopes_of scopes.new)) }
    ensures outer { OnOk result ((scopes_of scopes.new).outer ≡ (scopes_of scopes.old).outer) }
    ensures refused { IfErr result (λ e. IsRefusalOf e (tagged sort at
        (record { at = name_at; bytes = name.now }) (option_map (as_tag name.now) tag)
        (scopes_of scopes.old))) }
{
    match tag {
        Some(tag) => tag_type(sort, at, tag),
        None => match sort {
            TagSort::Struct => Ok(scopes.struct_tag(name, false)?),
            TagSort::Enum => Err(refusal(Rule::Unknown, name_at)),
        },
    }
}

/// The type of a tag behind its word. A struct's is declared where none is visible.
pub fn tagged_type<'t>(
    scopes: &mut Scopes<'t>,
    sort: TagSort,
    at: u32,
    name_at: u32,
    name: &'t [u8],
) -> Result<u32, SourceFault>
    ensures typed { IfOk result (λ n. tagged sort at (record { at = name_at; bytes = name.now })
        (tag_of name.now (scopes_of scopes.old)) (scopes_of scopes.old)
        ≡ Ok (n, scopes_of scopes.new)) }
    ensures outer { OnOk result ((scopes_of scopes.new).outer ≡ (scopes_of scopes.old).outer) }
    ensures refused { IfErr result (λ e. IsRefusalOf e (tagged sort at
        (record { at = name_at; bytes = name.now }) (tag_of name.now (scopes_of scopes.old))
        (scopes_of scopes.old))) }
{
    let tag = scopes.tag(name);
    tag_or_new(scopes, sort, at, name_at, name, tag)
}

/// The type of a tag that stands in front of a semicolon: a struct's is one of this scope.
pub fn lone_tag<'t>(
    scopes: &mut Scopes<'t>,
    sort: TagSort,
    at: u32,
    name_at: u32,
    name: &'t [u8],
) -> Result<u32, SourceFault>
    ensures typed { IfOk result (λ n. tag_alone sort at (record { at = name_at; bytes = name.now })
        (scopes_of scopes.old) ≡ Ok (n, scopes_of scopes.new)) }
    ensures outer { OnOk result ((scopes_of scopes.new).outer ≡ (scopes_of scopes.old).outer) }
    ensures refused { IfErr result (λ e. IsRefusalOf e (tag_alone sort at
        (record { at = name_at; bytes = name.now }) (scopes_of scopes.old))) }
{
    match sort {
        TagSort::Struct => {
            let tag = scopes.tag_here(name);
            tag_or_new(scopes, TagSort::Struct, at, name_at, name, tag)
        }
        TagSort::Enum => {
            let tag = scopes.tag(name);
            tag_or_new(scopes, TagSort::Enum, at, name_at, name, tag)
        }
    }
}

/// The struct of a tag in front of its brace.
pub fn begin_struct<'t>(
    scopes: &mut Scopes<'t>,
    name_at: u32,
    name: &'t [u8],
) -> Result<u32, SourceFault>
    ensures typed { IfOk result (λ n. begun_struct (record { at = name_at; bytes = name.now })
        (tag_here name.now (scopes_of scopes.old)) (scopes_of scopes.old)
        ≡ Ok (n, scopes_of scopes.new)) }
    ensures outer { OnOk result ((scopes_of scopes.new).outer ≡ (scopes_of scopes.old).outer) }
    ensures refused { IfErr result (λ e. IsRefusalOf e (begun_struct
        (record { at = name_at; bytes = name.now })
        (tag_here name.now (scopes_of scopes.old)) (scopes_of scopes.old))) }
{
    match scopes.tag_here(name) {
        None => Ok(scopes.struct_tag(name, true)?),
        Some(tag) => {
            if tag.begun {
                return Err(refusal(Rule::Twice, name_at));
            }
            let begun = Tag {
                sort: TagSort::Struct,
                shape: tag.shape,
                begun: true,
            };
            scopes.declare_tag(name, begun)?;
            Ok(tag.shape)
        }
    }
}
