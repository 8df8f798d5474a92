//! What temporaries don't change. The functions are laws, and have nothing to run.

ghost use Rattle.porch_lowered.specs.Laws.{AreReadAlike, AreChangedAlike, StayGrounded};

/// What is read through pointers of the source is the same where temporaries stand beside its variables.
pub fn temporaries_are_not_read()
    ensures { AreReadAlike }
{}

/// What is changed through pointers of the source is changed alike where temporaries stand beside its variables.
pub fn temporaries_are_not_changed()
    ensures { AreChangedAlike }
{}

/// No operation through pointers of the source makes a pointer to a temporary.
pub fn nothing_points_to_temporaries()
    ensures { StayGrounded }
{}
