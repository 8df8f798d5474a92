//! The run of a flat program, whose output goes to a sink.

ghost use Rattle.std.specs.Prelude.{◌≡◌, ◌≤◌, ◌<◌, ◌^◌};
ghost use Rattle.porch_machine.specs.Steps.{Fits};
ghost use Rattle.porch_cli.specs.inside.Running.{Advances, RunsFlat};
ghost use Rattle.porch_machine.specs.Column.{prepared};

use crate::status::Status;
use porch_edge::{Sink, write_all};
use porch_flat::Valid;
use porch_machine::{Machine, Step};

/// Makes one step, unless it would count a turn too many. An answer ends the run.
fn advance<O: Sink>(
    machine: &mut Machine,
    program: &Valid,
    budget: u64,
    out: &mut O,
) -> Option<Status>
    requires fits { Fits program.now machine.old }
    requires few { budget ≤ 2 ^ 62 }
    requires within { machine.old.bytes.turns ≤ budget }
    ensures advances { Advances program.now machine.old.setting budget
        machine.old.bytes machine.new.bytes
        (O.held out.old) (O.held out.new) (O.faults out.old) (O.faults out.new) result }
    ensures fits { Fits program.now machine.new }
    ensures setting { machine.new.setting ≡ machine.old.setting }
    ensures later { O.faults out.old ≤ O.faults out.new }
{
    let turns = machine.turns();
    if machine.turn_next(program) && budget <= turns {
        return Some(Status::Paused { turns });
    }
    match machine.step(program) {
        Step::Went => None,
        Step::Out => match write_all(out, machine.shown()) {
            Ok(()) => None,
            Err(_) => Some(Status::WriteFault),
        },
        Step::Ended { value } => Some(Status::Done {
            value,
            turns: machine.turns(),
        }),
        Step::Trap { act } => Some(Status::Trap { act, turns }),
        Step::StackFull { asked, left } => Some(Status::StackFull { asked, left }),
    }
}

/// Runs a machine that stands before turn 1, for at most so many turns.
pub fn run<O: Sink>(machine: &mut Machine, program: &Valid, budget: u64, out: &mut O) -> Status
    requires fits { Fits program.now machine.old }
    requires start { machine.old.bytes ≡ prepared program.now machine.old.setting }
    requires few { budget ≤ 2 ^ 62 }
    ensures runs { RunsFlat program.now machine.old.setting budget
        (O.held out.old) (O.held out.new) (O.faults out.old) (O.faults out.new) result }
    ensures later { O.faults out.old ≤ O.faults out.new }
{
    'steps: loop {
        if let Some(status) = advance(machine, program, budget, out) {
            return status;
        }
    }
}
