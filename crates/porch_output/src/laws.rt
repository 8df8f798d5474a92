//! What stays of an output while calls are made on other files. The function does nothing: it says a law.
ghost use Rattle.std.specs.Prelude.{ℕ, List};
ghost use Rattle.porch_edge.specs.declared.disk.FileName.TheVariants.{Output as OutputFile};
ghost use Rattle.porch_edge.specs.Disk.{Moment, WhereTold, SparesOne};
ghost use Rattle.porch_output.specs.Outputs.{IsReady, LeavesBeginning, BeginsSince};
ghost use Rattle.porch_output.specs.declared.output.Output.{Output};

use porch_edge::Disk;

/// Calls that spare the output's file leave it as it was: an output knows where it ends, and it begins as it did in
/// every content that a crash may leave, and in every one since a moment.
pub fn output_stays<D: Disk>()
    ensures ready { (output : Output) (s t : D) → IsReady output (D.state s)
        → SparesOne (D.state s) (D.state t) OutputFile → IsReady output (D.state t) }
    ensures leaves { (kept : List ℕ) (s t : D) → LeavesBeginning kept (D.state s)
        → SparesOne (D.state s) (D.state t) OutputFile → LeavesBeginning kept (D.state t) }
    ensures begins { (kept : List ℕ) (mark : Moment) (s t : D)
        → WhereTold (D.state s) (λ _. BeginsSince kept mark (D.state s))
        → SparesOne (D.state s) (D.state t) OutputFile
        → WhereTold (D.state t) (λ _. BeginsSince kept mark (D.state t)) }
{}
