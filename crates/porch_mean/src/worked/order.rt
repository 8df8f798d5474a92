//! Operands and arguments from left to right.

ghost use Rattle.porch_mean.specs.worked.Order.{Assigns, AssignsBy, Operates, Decides, Increments};

/// Operands are evaluated from left to right, and only where they decide.
#[tactic(auto, unfolding(crate::proofs::Runs::runs_compute))]
pub fn operands_come_in_order()
    ensures assigns { Assigns }
    ensures assigns_by { AssignsBy }
    ensures operates { Operates }
    ensures decides { Decides }
    ensures increments { Increments }
{}
