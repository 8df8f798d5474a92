//! What is known at a place of the text.

ghost use Rattle.std.specs.Prelude.{◌≡◌, ◌∷◌, ℕ, length, IfOk, OnOk, IfSome};
ghost use Rattle.std.specs.Option.{option_map};
ghost use Rattle.porch_check.specs.Shapes.{pointer, array, function};
ghost use Rattle.porch_check.specs.Scopes.{first_scopes, meaning_of, hindrance, tag_of, tag_here, is_file, with_name, with_tag, with_shape, with_struct_tag, new_scope, entered, left, only_type_name};
ghost use Rattle.porch_check.specs.Scopes as definitions;
ghost use Rattle.porch_check.specs.Statements.{with_variable};
ghost use Rattle.porch_scopes.specs.Views.{as_meaning, as_tag, scope_of};
ghost use Rattle.porch_scopes.specs.Known.{scopes_of};

use crate::completes::Completes;
use crate::declared::Declared;
use crate::library::declare_library;
use crate::meaning::{Meaning, Tag};
use crate::scope::Scope;
use crate::shapes::Shapes;
use crate::stack::ScopeStack;
use porch_tree::TagSort;
use porch_typed::{Function, GlobalVariable};
use sqlite_items::Items;
use std::alloc::{AllocError, Global};

/// What is known at a place of the text: types, names and tags in their scopes, functions of the program
/// that were declared, the types of this function's variables, the globals with the places of their
/// entries, and the functions that have had their bodies.
#[derive(Drop)]
pub struct Scopes<'t> {
    pub shapes: Shapes<'t>,
    pub stack: ScopeStack<'t>,
    pub declared: Declared<'t>,
    pub variables: Items<u32>,
    pub globals: Items<GlobalVariable>,
    pub entries: Items<u32>,
    pub functions: Items<Function>,
}

impl<'t> Scopes<'t> {
    /// What is known at the beginning of a text whose file scope completes these tags.
    pub fn new(alloc: Global, completes: Completes<'t>) -> Result<Scopes<'t>, AllocError>
        ensures { IfOk result (λ s. scopes_of s ≡ first_scopes completes.entry) }
    {
        let mut stack = ScopeStack::new(alloc, completes);
        declare_library(&mut stack)?;
        let shapes = Shapes::new(alloc)?;
        Ok(Scopes {
            shapes,
            stack,
            declared: Declared::new(alloc),
            variables: Items::new(alloc),
            globals: Items::new(alloc),
            entries: Items::new(alloc),
            functions: Items::new(alloc),
        })
    }

    /// What a name means here.
    pub fn meaning(&self, name: &[u8]) -> Option<Meaning>
        ensures { option_map as_meaning result ≡ meaning_of name.now (scopes_of self.now) }
    {
        self.stack.meaning(name)
    }

    /// What hinders a declaration of a name here: one in this scope, and that of a typedef name in any.
    pub fn hindrance(&self, name: &[u8]) -> Option<Meaning>
        ensures { option_map as_meaning result ≡ hindrance name.now (scopes_of self.now) }
    {
        match self.stack.meaning_here(name) {
            Some(meaning) => Some(meaning),
            None => only_type_name(self.stack.meaning(name)),
        }
    }

    /// What a tag means here.
    pub fn tag(&self, name: &[u8]) -> Option<Tag>
        ensures { option_map (as_tag name.now) result ≡ tag_of name.now (scopes_of self.now) }
    {
        self.stack.tag(name)
    }

    /// What this scope itself declares a tag as.
    pub fn tag_here(&self, name: &[u8]) -> Option<Tag>
        ensures { option_map (as_tag name.now) result ≡ tag_here name.now (scopes_of self.now) }
    {
        self.stack.tag_here(name)
    }

    /// Whether this is the scope of the file.
    pub fn is_file(&self) -> bool
        ensures { result ≡ is_file (scopes_of self.now) }
    {
        self.stack.is_alone()
    }

    /// Declares a name in this scope.
    pub fn declare(&mut self, name: &'t [u8], meaning: Meaning) -> Result<(), AllocError>
        ensures { OnOk result (scopes_of self.new
            ≡ with_name name.now (as_meaning meaning) (scopes_of self.old)) }
    {
        self.stack.declare(name, meaning)
    }

    /// Declares a tag in this scope.
    pub fn declare_tag(&mut self, name: &'t [u8], tag: Tag) -> Result<(), AllocError>
        ensures { OnOk result (scopes_of self.new
            ≡ with_tag (as_tag name.now tag) (scopes_of self.old)) }
    {
        self.stack.declare_tag(name, tag)
    }

    /// A new struct of a tag, in front of its brace or not.
    pub fn struct_tag(&mut self, name: &'t [u8], begun: bool) -> Result<u32, AllocError>
        ensures { IfOk result (λ n. with_struct_tag name.now begun (scopes_of self.old)
            ≡ (n, scopes_of self.new)) }
    {
        let awaited = self.stack.completes(name);
        let shape = self.shapes.structure(awaited)?;
        let tag = Tag {
            sort: TagSort::Struct,
            shape,
            begun,
        };
        self.stack.declare_tag(name, tag)?;
        Ok(shape)
    }

    /// The number of the pointer to a type.
    pub fn pointer(&mut self, to: u32) -> Result<u32, AllocError>
        ensures { IfOk result (λ n. with_shape (pointer to) (scopes_of self.old)
            ≡ (n, scopes_of self.new)) }
    {
        self.shapes.pointer(to)
    }

    /// The number of an array of a type.
    pub fn array(&mut self, of: u32, count: Option<u64>) -> Result<u32, AllocError>
        ensures { IfOk result (λ n. with_shape (array of count) (scopes_of self.old)
            ≡ (n, scopes_of self.new)) }
    {
        self.shapes.array(of, count)
    }

    /// The number of a function with this result and these parameters.
    pub fn function(&mut self, gives: u32, params: &[u32]) -> Result<u32, AllocError>
        ensures { IfOk result (λ n. with_shape (function gives params.now) (scopes_of self.old)
            ≡ (n, scopes_of self.new)) }
    {
        self.shapes.function(gives, params)
    }

    /// Enters a scope that declares nothing yet.
    pub fn enter(&mut self, alloc: Global, completes: Completes<'t>) -> Result<(), AllocError>
        ensures { OnOk result (scopes_of self.new
            ≡ entered (new_scope completes.entry) (scopes_of self.old)) }
    {
        self.stack.enter(alloc, completes)
    }

    /// Enters a scope again that was left.
    pub fn reenter(&mut self, alloc: Global, scope: Scope<'t>) -> Result<(), AllocError>
        ensures { OnOk result (scopes_of self.new
            ≡ entered (scope_of scope.entry) (scopes_of self.old)) }
    {
        self.stack.reenter(alloc, scope)
    }

    /// Leaves the innermost scope, and answers it. What stood in front of it is in force again.
    pub fn leave(&mut self) -> Option<Scope<'t>>
        ensures left { (before : definitions.Scopes) → (scopes_of self.old).outer
            ≡ before.inner ∷ before.outer
            → scopes_of self.new ≡ left before (scopes_of self.old) }
        ensures scope { IfSome result (λ s. scope_of s ≡ (scopes_of self.old).inner) }
    {
        self.stack.leave()
    }

    /// Declares a variable of this function, and answers its number. More than 2^32 count as want of memory.
    pub fn variable(&mut self, name: &'t [u8], shape: u32) -> Result<u32, AllocError>
        ensures number { IfOk result (λ n. n ≡ length (scopes_of self.old).variables) }
        ensures declared { OnOk result ((at : ℕ) → scopes_of self.new
            ≡ with_variable (record { at = at; bytes = name.now }) shape (scopes_of self.old)) }
    {
        let number = next_number(self.variables.as_slice())?;
        self.variables.push(shape)?;
        self.stack.declare(name, Meaning::Variable(number, shape))?;
        Ok(number)
    }
}

fn next_number(numbers: &[u32]) -> Result<u32, AllocError>
    ensures { IfOk result (λ n. n ≡ length numbers.now) }
{
    match u32::try_from(numbers.len()) {
        Ok(number) => Ok(number),
        Err(_) => Err(AllocError),
    }
}

fn only_type_name(meaning: Option<Meaning>) -> Option<Meaning>
    ensures { option_map as_meaning result ≡ only_type_name (option_map as_meaning meaning) }
{
    match meaning {
        Some(Meaning::TypeName(shape)) => Some(Meaning::TypeName(shape)),
        Some(Meaning::Variable(_, _))
        | Some(Meaning::Global(_, _))
        | Some(Meaning::Enumerator(_))
        | Some(Meaning::Function)
        | Some(Meaning::Library(_))
        | Some(Meaning::Null)
        | None => None,
    }
}
