//! Where an expression stands, as far as that allows a form that it is nowhere else.

ghost use Rattle.std.specs.Prelude.{◌≡◌};
ghost use Rattle.porch_check.specs.Calls.{allows_size, is_called, is_shown};
ghost use Rattle.porch_leaves.specs.Contexts.{as_context};

/// Where an expression stands.
#[derive(Clone, Copy, Debug, PartialEq, Eq)]
pub enum Context {
    Plain,
    /// In front of the parentheses of a call.
    Called,
    /// An argument of `printf` or `puts`.
    Shown,
    /// The size of an allocation.
    AsSize,
    /// The argument of `malloc`.
    AsAllocation,
}

impl Context {
    /// Whether a name stands in front of the parentheses of a call.
    pub fn is_called(self) -> bool
        ensures { result ≡ is_called (as_context self) }
    {
        match self {
            Context::Called => true,
            Context::Plain | Context::Shown | Context::AsSize | Context::AsAllocation => false,
        }
    }

    /// Whether a literal may stand here.
    pub fn is_shown(self) -> bool
        ensures { result ≡ is_shown (as_context self) }
    {
        match self {
            Context::Shown => true,
            Context::Plain | Context::Called | Context::AsSize | Context::AsAllocation => false,
        }
    }

    /// Whether a size may stand here.
    pub fn allows_size(self) -> bool
        ensures { result ≡ allows_size (as_context self) }
    {
        match self {
            Context::AsSize => true,
            Context::AsAllocation => true,
            Context::Plain | Context::Called | Context::Shown => false,
        }
    }
}
