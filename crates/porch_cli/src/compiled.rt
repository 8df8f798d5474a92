//! From a tree to the run of its flat program.

ghost use Rattle.std.specs.Prelude.{◌≡◌, ◌≤◌, ◌↔◌, ◌^◌, IsTrue};
ghost use Rattle.porch_syntax.specs.Tree.{program_of};
ghost use Rattle.porch_lower.specs.Lowered.{IsLowerable};
ghost use Rattle.porch_layout.specs.Layouts.{le64};
ghost use Rattle.porch_machine.specs.Steps.{IsSetting};
ghost use Rattle.porch_session.specs.Limits.{AreLimits};
ghost use Rattle.porch_cli.specs.Answers.{setting_of, IsBuilt};
ghost use Rattle.porch_cli.specs.inside.Parts.{IsCompiledFor, RunsProgram, RunsTree};

use crate::exec::run;
use crate::status::Status;
use porch_edge::Sink;
use porch_flat::{Valid, ValidFault};
use porch_layout::Layout;
use porch_lower::lower;
use porch_machine::{Machine, runs_agree, runs_end};
use porch_session::Limits;
use porch_syntax::Tree;
use std::alloc::{AllocError, Global};

/// Whether programs run under a layout.
pub fn is_built(layout: &Layout) -> bool
    ensures { IsTrue result ↔ (layout.now ≡ le64) }
{
    *layout
        == Layout {
            big: false,
            long: 8,
            pointer: 8,
            align_short: 2,
            align_int: 4,
            align_long: 8,
            align_pointer: 8,
            least_struct: 1,
        }
}

/// The valid flat program of a tree.
pub fn compiled(alloc: Global, tree: &Tree) -> Result<Valid, AllocError>
    requires { IsLowerable (program_of tree.now) }
    ensures { IsCompiledFor (program_of tree.now) result }
{
    let plain = lower(alloc, tree)?;
    match Valid::new(alloc, plain.into_flat()) {
        Ok(program) => Ok(program),
        Err(ValidFault::NoMemory) => Err(AllocError),
        Err(ValidFault::NotValid) => unreachable!(),
    }
}

/// Runs a valid program on a stack and a heap of so many bytes, for at most so many turns.
fn run_program<O: Sink>(
    alloc: Global,
    program: &Valid,
    layout: &Layout,
    limits: &Limits,
    out: &mut O,
) -> Status
    requires setting { IsSetting (setting_of layout.now limits.now) }
    requires few { limits.now.turns ≤ 2 ^ 62 }
    ensures runs { RunsProgram program.now (setting_of layout.now limits.now) limits.now.turns
        (O.held out.old) (O.held out.new) (O.faults out.old) (O.faults out.new) result }
    ensures later { O.faults out.old ≤ O.faults out.new }
{
    match Machine::prepare(alloc, program, layout, limits.stack, limits.heap) {
        Ok(mut machine) => run(&mut machine, program, limits.turns, out),
        Err(_) => Status::NoMemory,
    }
}

/// Compiles a tree and runs its flat program.
pub fn run_tree<O: Sink>(
    alloc: Global,
    tree: &Tree,
    layout: &Layout,
    limits: &Limits,
    out: &mut O,
) -> Status
    requires lowerable { IsLowerable (program_of tree.now) }
    requires built { IsBuilt (setting_of layout.now limits.now) }
    requires limited { AreLimits limits.now }
    ensures runs { RunsTree (program_of tree.now)
        (setting_of layout.now limits.now) limits.now.turns
        (O.held out.old) (O.held out.new) (O.faults out.old) (O.faults out.new) result }
    ensures later { O.faults out.old ≤ O.faults out.new }
{
    runs_agree();
    runs_end();
    match compiled(alloc, tree) {
        Ok(program) => run_program(alloc, &program, layout, limits, out),
        Err(_) => Status::NoMemory,
    }
}
