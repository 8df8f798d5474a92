//! A name with its place in the text.

ghost use Rattle.std.specs.Prelude.{◌≡◌, ◌-◌, take, drop, is_some};
ghost use Rattle.porch_lex.specs.declared.refusal.SourceFault.TheVariants as fault;
ghost use Rattle.porch_tree.specs.Views.{name_of};
ghost use Rattle.porch_check.specs.Scopes.{hindrance};
ghost use Rattle.porch_scopes.specs.Known.{scopes_of};
ghost use Rattle.porch_names.specs.Views.{as_name};

use porch_lex::{Refusal, Rule, SourceFault};
use porch_scopes::Scopes;
use porch_tree::tree;

/// A name: its place in the text, and its bytes.
#[derive(Clone, Copy, Debug)]
pub struct Name<'t> {
    pub at: u32,
    pub bytes: &'t [u8],
}

/// A name of the tree, with its bytes of the text.
pub fn name_in<'t>(text: &'t [u8], name: tree::Name) -> Name<'t>
    ensures { as_name result ≡ name_of text.now name }
{
    Name {
        at: name.at,
        bytes: part(text, name.at as usize, name.to as usize),
    }
}

/// Whether a name can't be declared here: this scope declares it, or it is a typedef name.
pub fn is_hindered<'t>(scopes: &Scopes<'t>, name: &[u8]) -> bool
    ensures { result ≡ is_some (hindrance name.now (scopes_of scopes.now)) }
{
    scopes.hindrance(name).is_some()
}

/// A rule is broken at a place.
pub fn refusal(rule: Rule, at: u32) -> SourceFault
    ensures { result ≡ fault.Refused (record { at = at; rule = rule }) }
{
    SourceFault::Refused(Refusal { at, rule })
}

// The bytes from one place to another. The tests keep it right for every two places.
fn part(text: &[u8], from: usize, to: usize) -> &[u8]
    ensures { result.now ≡ take (to - from) (drop from text.now) }
{
    front_of(rest_from(text, from), to.saturating_sub(from))
}

fn rest_from(text: &[u8], at: usize) -> &[u8]
    ensures { result.now ≡ drop at text.now }
{
    if at > text.len() {
        return &text[text.len()..];
    }
    &text[at..]
}

fn front_of(text: &[u8], count: usize) -> &[u8]
    ensures { result.now ≡ take count text.now }
{
    if count < text.len() {
        return &text[..count];
    }
    text
}
