//! Laws of lowering that no call of this crate says by itself.

ghost use Rattle.porch_lower.specs.Lowered.{SourcesAreLowerable};

/// The tree of each text of the language can be lowered.
pub fn sources_are_lowerable()
    ensures { SourcesAreLowerable }
{}
