//! Scopes in scopes, and what names and tags mean in them.

ghost use Rattle.std.specs.Prelude.{◌≡◌, ◌∷◌, [], List, OnOk, OnErr, IfSome};
ghost use Rattle.std.specs.Option.{option_map};
ghost use Rattle.std.specs.List.{list_any};
ghost use Rattle.std.specs.Str.{bytes_eq};
ghost use Rattle.porch_check.specs.Scopes as scopes;
ghost use Rattle.porch_check.specs.Scopes.{name_in, tag_in, of_name, of_tag, are_none, new_scope};
ghost use Rattle.porch_scopes.specs.Views.{as_meaning, as_tag, scope_of};
ghost use Rattle.porch_scopes.specs.Stack.{binds, binds_tag, enters};
ghost use Rattle.porch_scopes.specs.inside.Again.{binds_names, binds_tags};

use crate::bindings::{Binding, Found, bind, find, unbind, value_of, within};
use crate::completes::Completes;
use crate::meaning::{Meaning, Tag};
use crate::scope::Scope;
use indexmap::IndexMap;
use std::alloc::{AllocError, Global};
use std::marker::Model;
use std::mem;

/// The scopes that a place of the text stands in. A name is found in a time that doesn't depend on how
/// many there are, and leaving a scope takes the time of its own names.
#[derive(Drop)]
pub struct ScopeStack<'t> {
    inner: Scope<'t>,
    outer: Vec<Scope<'t>>,
    names: IndexMap<&'t [u8], Option<Found<Meaning>>>,
    tags: IndexMap<&'t [u8], Option<Found<Tag>>>,
}

impl<'t> Model for ScopeStack<'t> {
    ghost use Rattle.std.specs.Prelude.{map, reverse};
    ghost use Rattle.porch_scopes.specs.Stack.{ScopeStack};
    ghost use Rattle.porch_scopes.specs.Views.{scope_of};
    ghost use Rattle.porch_scopes.specs.inside.Stacked.{FindsAll};

    ghost Value = { ScopeStack };

    ghost view = { λ s. record { inner = scope_of s.inner; outer = map scope_of (reverse s.outer.items) } };

    ghost invariant = { λ s. FindsAll s.inner s.outer.items s.names.entries s.tags.entries };
}

impl<'t> ScopeStack<'t> {
    /// A scope alone, which declares nothing.
    pub fn new(alloc: Global, completes: Completes<'t>) -> ScopeStack<'t>
        ensures inner { result.inner ≡ new_scope completes.entry }
        ensures outer { result.outer ≡ [] }
    {
        ScopeStack {
            inner: Scope {
                names: Vec::new(alloc),
                tags: Vec::new(alloc),
                completes,
            },
            outer: Vec::new(alloc),
            names: IndexMap::new(alloc),
            tags: IndexMap::new(alloc),
        }
    }

    /// What a name means here.
    pub fn meaning(&self, name: &[u8]) -> Option<Meaning>
        ensures { option_map as_meaning result
            ≡ name_in name.now (self.now.inner ∷ self.now.outer) }
    {
        value_of(find(&self.names, name))
    }

    /// What the innermost scope itself declares a name as.
    pub fn meaning_here(&self, name: &[u8]) -> Option<Meaning>
        ensures { option_map as_meaning result ≡ of_name name.now self.now.inner.names }
    {
        within(find(&self.names, name), self.outer.len())
    }

    /// What a tag means here.
    pub fn tag(&self, name: &[u8]) -> Option<Tag>
        ensures { option_map (as_tag name.now) result
            ≡ tag_in name.now (self.now.inner ∷ self.now.outer) }
    {
        value_of(find(&self.tags, name))
    }

    /// What the innermost scope itself declares a tag as.
    pub fn tag_here(&self, name: &[u8]) -> Option<Tag>
        ensures { option_map (as_tag name.now) result ≡ of_tag name.now self.now.inner.tags }
    {
        within(find(&self.tags, name), self.outer.len())
    }

    /// Whether there is one scope alone.
    pub fn is_alone(&self) -> bool
        ensures { result ≡ are_none self.now.outer }
    {
        self.outer.is_empty()
    }

    /// Whether the innermost scope completes the struct of a tag, wherever in it.
    pub fn completes(&self, tag: &[u8]) -> bool
        ensures { result ≡ list_any (λ y. bytes_eq tag.now y) self.now.inner.completes }
    {
        self.inner.completes.contains(tag)
    }

    /// Declares a name in the innermost scope.
    pub fn declare(&mut self, name: &'t [u8], meaning: Meaning) -> Result<(), AllocError>
        ensures bound { OnOk result (self.new ≡ binds name.now (as_meaning meaning) self.old) }
        ensures failed { OnErr result (self.new ≡ self.old) }
    {
        let depth = self.outer.len();
        bind(&mut self.names, &mut self.inner.names, depth, name, meaning)
    }

    /// Declares a tag in the innermost scope.
    pub fn declare_tag(&mut self, name: &'t [u8], tag: Tag) -> Result<(), AllocError>
        ensures bound { OnOk result (self.new ≡ binds_tag (as_tag name.now tag) self.old) }
        ensures failed { OnErr result (self.new ≡ self.old) }
    {
        let depth = self.outer.len();
        bind(&mut self.tags, &mut self.inner.tags, depth, name, tag)
    }

    /// Enters a scope that declares nothing yet.
    pub fn enter(&mut self, alloc: Global, completes: Completes<'t>) -> Result<(), AllocError>
        ensures entered { OnOk result (self.new ≡ enters (new_scope completes.entry) self.old) }
        ensures failed { OnErr result (self.new ≡ self.old) }
    {
        self.outer.reserve(1)?;
        let scope = Scope {
            names: Vec::new(alloc),
            tags: Vec::new(alloc),
            completes,
        };
        let around = mem::replace(&mut self.inner, scope);
        self.outer.push_reserved(around);
        Ok(())
    }

    /// Enters a scope again that was left. Its names and tags hide what is declared around it now.
    pub fn reenter(&mut self, alloc: Global, scope: Scope<'t>) -> Result<(), AllocError>
        ensures { OnOk result (self.new ≡ enters (scope_of scope.entry) self.old) }
    {
        let Scope {
            names,
            tags,
            completes,
        } = scope;
        self.enter(alloc, completes)?;
        declare_names(self, &names)?;
        declare_tags(self, &tags)
    }

    /// Leaves the innermost scope, and answers it; nothing where it is alone.
    pub fn leave(&mut self) -> Option<Scope<'t>>
        ensures left { (i : scopes.Scope) (o : List scopes.Scope) → self.old.outer ≡ i ∷ o
            → self.new ≡ record { inner = i; outer = o } }
        ensures scope { IfSome result (λ s. scope_of s ≡ self.old.inner) }
        ensures alone { self.old.outer ≡ [] → self.new ≡ self.old }
    {
        match self.outer.pop() {
            Some(around) => {
                unbind(&mut self.names, &self.inner.names);
                unbind(&mut self.tags, &self.inner.tags);
                Some(mem::replace(&mut self.inner, around))
            }
            None => None,
        }
    }
}

// Declares names in the innermost scope, in their order.
fn declare_names<'t>(
    stack: &mut ScopeStack<'t>,
    names: &[Binding<'t, Meaning>],
) -> Result<(), AllocError>
    ensures { OnOk result (stack.new ≡ binds_names names.now stack.old) }
{
    for binding in names {
        stack.declare(binding.name, binding.value)?;
    }
    Ok(())
}

// Declares tags in the innermost scope, in their order.
fn declare_tags<'t>(stack: &mut ScopeStack<'t>, tags: &[Binding<'t, Tag>]) -> Result<(), AllocError>
    ensures { OnOk result (stack.new ≡ binds_tags tags.now stack.old) }
{
    for binding in tags {
        stack.declare_tag(binding.name, binding.value)?;
    }
    Ok(())
}
