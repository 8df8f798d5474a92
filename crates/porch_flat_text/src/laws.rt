//! A law of texts. The function has nothing to run.

ghost use Rattle.std.specs.Prelude.{◌≡◌};
ghost use Rattle.porch_flat.specs.declared.whole.Flat.{Flat};
ghost use Rattle.porch_flat_line.specs.Text.{Text};
ghost use Rattle.porch_flat_text.specs.Fitting.{IsSayable};

/// Two programs with one text are one.
pub fn texts_tell_programs_apart()
    ensures { (a b : Flat) → IsSayable a → IsSayable b → Text a ≡ Text b → a ≡ b }
{}
