//! What the passing of arguments is. The functions are laws, and have nothing to run.

ghost use Rattle.porch_frames.specs.Passing.{ArgumentsArePassed};

use porch_instructions::scopes_are_of_functions;

/// Arguments that go to the cells of the parameters go to the parameters.
pub fn arguments_are_passed()
    ensures { ArgumentsArePassed }
{
    scopes_are_of_functions();
}
