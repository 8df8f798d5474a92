//! The top call.

ghost use Rattle.std.specs.Prelude.{◌≡◌, ◌≤◌, ◌<◌, ◌+◌, ◌^◌, ◌⊎◌, ℕ, ℤ, List, length, [], IfSome};
ghost use Rattle.porch_edge.specs.Causes.{Rose};
ghost use Rattle.porch_edge.specs.Disk.{OnlyLooks};
ghost use Rattle.porch_edge.specs.Streams.{Grew};
ghost use Rattle.porch_session.specs.Limits.{AreLimits};
ghost use Rattle.porch_layout.specs.declared.fault.LayoutKey.{LayoutKey};
ghost use Rattle.porch_layout.specs.declared.fault.LayoutRule.{LayoutRule};
ghost use Rattle.porch_lex.specs.declared.refusal.Refusal.{Refusal};
ghost use Rattle.porch_syntax.specs.Tree.{program_of};
ghost use Rattle.porch_lower.specs.Lowered.{IsLowerable};
ghost use Rattle.porch_words.specs.Words.{texts};
ghost use Rattle.porch_values.specs.declared.acts.Act.{Act};
ghost use Rattle.porch_machine.specs.ByteRun.{Ended, Trap, StackFull, Paused};
ghost use Rattle.porch_cli.specs.Lines.{line_of};
ghost use Rattle.porch_cli.specs.Words.{IsExec};
ghost use Rattle.porch_cli.specs.Answers.{changes, setting_of, HasReason, Closes, HasAnswered, RanSource, IsUsage, IsBadLayout, IsRefused, IsLeftUnbuilt, IsWriteFault, Unordered, RefusesLayout, Refuses, LeavesUnbuilt, Excludes, Completes, CompletesAsMeant, HasLine, HasLinePrefix};
ghost use Rattle.porch_cli.specs.inside.Ordered.{IsOrderedBy, order_of};
ghost use Rattle.porch_cli.specs.inside.Parts.{RunsUnder, RunsText, RunsSource, refused_for, stopped_for, unnamed_for};

use crate::compiled::{is_built, run_tree};
use crate::line::line_of_status;
use crate::naming::{NamingStop, layout_of_name};
use crate::reading::{ReadStop, read_source};
use crate::status::Status;
use crate::words::{RunOrdered, ordered_run};
use porch_edge::{Disk, Sink, Source, write_all};
use porch_layout::Layout;
use porch_lower::sources_are_lowerable;
use porch_session::Limits;
use porch_source::laws::a_text_has_one_answer;
use porch_source::{SourceFault, read_program};
use porch_syntax::Tree;
use std::alloc::Global;

/// The status of a text that has no program.
fn status_of_fault(fault: SourceFault) -> Status
    ensures { result ≡ refused_for fault }
{
    match fault {
        SourceFault::Refused(refusal) => Status::Refused(refusal),
        SourceFault::Unbuilt => Status::Unbuilt,
        SourceFault::NoMemory => Status::NoMemory,
    }
}

/// The status of a source that wasn't read.
fn status_of_stop(stop: ReadStop) -> Status
    ensures { result ≡ stopped_for stop }
{
    match stop {
        ReadStop::ReadFault => Status::ReadFault,
        ReadStop::NoMemory => Status::NoMemory,
    }
}

/// The status of a layout that wasn't found.
fn status_of_naming(stop: NamingStop) -> Status
    ensures { result ≡ unnamed_for stop }
{
    match stop {
        NamingStop::BadLayout { key, rule } => Status::BadLayout { key, rule },
        NamingStop::DiskFault => Status::DiskFault,
        NamingStop::NoMemory => Status::NoMemory,
    }
}

/// Runs the program of a tree, where programs run under the layout.
fn run_under<O: Sink>(
    alloc: Global,
    tree: &Tree,
    layout: &Layout,
    limits: &Limits,
    out: &mut O,
) -> Status
    requires lowerable { IsLowerable (program_of tree.now) }
    requires limited { AreLimits limits.now }
    ensures runs { RunsUnder (program_of tree.now)
        (setting_of layout.now limits.now) limits.now.turns
        (O.held out.old) (O.held out.new) (O.faults out.old) (O.faults out.new) result }
    ensures later { O.faults out.old ≤ O.faults out.new }
{
    if is_built(layout) {
        run_tree(alloc, tree, layout, limits, out)
    } else {
        Status::Unbuilt
    }
}

/// Runs the program that a text is the source of.
fn run_text<O: Sink>(
    alloc: Global,
    text: &[u8],
    layout: &Layout,
    limits: &Limits,
    out: &mut O,
) -> Status
    requires { AreLimits limits.now }
    ensures runs { RunsText text.now (setting_of layout.now limits.now) limits.now.turns
        (O.held out.old) (O.held out.new) (O.faults out.old) (O.faults out.new) result }
    ensures later { O.faults out.old ≤ O.faults out.new }
{
    match read_program(alloc, text) {
        Ok(tree) => {
            sources_are_lowerable();
            run_under(alloc, &tree, layout, limits, out)
        }
        Err(fault) => status_of_fault(fault),
    }
}

/// Reads a source, and runs its program. `text` gets what was read.
fn run_source<S: Source, O: Sink>(
    alloc: Global,
    layout: &Layout,
    limits: &Limits,
    source: &mut S,
    out: &mut O,
    text: &mut Vec<u8>,
) -> Status
    requires limited { AreLimits limits.now }
    requires empty { text.old.items ≡ [] }
    ensures runs { RunsSource (setting_of layout.now limits.now) limits.now.turns
        (S.left source.old) (S.left source.new) (S.faults source.old) (S.faults source.new)
        text.new.items
        (O.held out.old) (O.held out.new) (O.faults out.old) (O.faults out.new) result }
    ensures short { length text.new.items ≤ 2 ^ 20 + 4096 }
{
    match read_source(source, text) {
        Ok(()) => run_text(alloc, text.as_slice(), layout, limits, out),
        Err(stop) => status_of_stop(stop),
    }
}

/// Finds the layout of a run that is ordered, and runs the source.
fn exec<S: Source, D: Disk, O: Sink>(
    alloc: Global,
    run: RunOrdered<'_>,
    source: &mut S,
    disk: &mut D,
    out: &mut O,
    text: &mut Vec<u8>,
) -> Status
    requires limited { AreLimits run.limits }
    requires empty { text.old.items ≡ [] }
    ensures reason { (words : List (List ℕ)) → IsExec words (order_of run.entry) → HasReason words
        (changes S.left S.faults source.old source.new D.state D.faults disk.old disk.new
        O.held O.faults out.old out.new)
        text.new.items result }
    ensures looks { OnlyLooks (D.state disk.old) (D.state disk.new) }
    ensures short { length text.new.items ≤ 2 ^ 20 + 4096 }
{
    match layout_of_name(alloc, disk, run.layout) {
        Ok(layout) => run_source(alloc, &layout, &run.limits, source, out, text),
        Err(stop) => status_of_naming(stop),
    }
}

/// Does what words order, up to the closing line. `text` gets what was read of the source.
fn work<S: Source, D: Disk, O: Sink>(
    alloc: Global,
    run: Option<RunOrdered<'_>>,
    source: &mut S,
    disk: &mut D,
    out: &mut O,
    text: &mut Vec<u8>,
) -> Status
    requires limited { IfSome run (λ r. AreLimits r.limits) }
    requires empty { text.old.items ≡ [] }
    ensures reason { (words : List (List ℕ)) → IsOrderedBy words run.entry → HasReason words
        (changes S.left S.faults source.old source.new D.state D.faults disk.old disk.new
        O.held O.faults out.old out.new)
        text.new.items result }
    ensures looks { OnlyLooks (D.state disk.old) (D.state disk.new) }
    ensures short { length text.new.items ≤ 2 ^ 20 + 4096 }
{
    match run {
        Some(run) => exec(alloc, run, source, disk, out, text),
        None => Status::Usage,
    }
}

/// Writes the closing line, and answers the status, or WriteFault where the line failed.
pub fn close<E: Sink>(text: &[u8], status: Status, err: &mut E) -> Status
    requires { length text.now < 2 ^ 32 }
    ensures { Closes (E.held err.old) (E.held err.new) (E.faults err.old) (E.faults err.new)
        (line_of text.now status) status result }
{
    let line = line_of_status(text, status);
    match write_all(err, line.as_str().as_bytes()) {
        Ok(()) => status,
        Err(_) => Status::WriteFault,
    }
}

/// Does what the words order, and writes the closing line of its answer to `err`.
///
/// `exec` reads a program's text from `source`, compiles it, runs it over bytes under the layout that its words name,
/// and writes its output to `out` byte by byte. `disk` is read for the layouts file alone, where the name is none of the
/// built-in ones. Programs run under le64 alone so far: under another layout the answer is Unbuilt.
pub fn porch<S: Source, D: Disk, O: Sink, E: Sink>(
    alloc: Global,
    words: &[String],
    source: &mut S,
    disk: &mut D,
    out: &mut O,
    err: &mut E,
) -> Status
    ensures answered { HasAnswered (texts words.now)
        (changes S.left S.faults source.old source.new D.state D.faults disk.old disk.new
        O.held O.faults out.old out.new)
        (E.held err.old) (E.held err.new) (E.faults err.old) (E.faults err.new) result }

    // No file of the disk is changed.
    ensures looks { OnlyLooks (D.state disk.old) (D.state disk.new) }

    // The run of a program over bytes. Unless the program's meaning meets an undefined act by then, its end, its turns and
    // its whole output are those of the meaning.
    ensures done { (value : ℤ) (turns : ℕ) → result ≡ Status.Done value turns
        → RanSource (texts words.now)
        (changes S.left S.faults source.old source.new D.state D.faults disk.old disk.new
        O.held O.faults out.old out.new)
        (Ended value) turns }
    ensures trap { (act : Act) (turns : ℕ) → result ≡ Status.Trap act turns
        → RanSource (texts words.now)
        (changes S.left S.faults source.old source.new D.state D.faults disk.old disk.new
        O.held O.faults out.old out.new)
        (Trap act) turns }
    ensures stack_full { (asked left : ℕ) → result ≡ Status.StackFull asked left
        → (turns : ℕ) × RanSource (texts words.now)
        (changes S.left S.faults source.old source.new D.state D.faults disk.old disk.new
        O.held O.faults out.old out.new)
        (StackFull asked left) turns }
    ensures paused { (turns : ℕ) → result ≡ Status.Paused turns
        → RanSource (texts words.now)
        (changes S.left S.faults source.old source.new D.state D.faults disk.old disk.new
        O.held O.faults out.old out.new)
        Paused turns }

    // The refusals, and the faults.
    ensures usage { result ≡ Status.Usage → IsUsage (texts words.now)
        (changes S.left S.faults source.old source.new D.state D.faults disk.old disk.new
        O.held O.faults out.old out.new) }
    ensures bad_layout { (key : LayoutKey) (rule : LayoutRule) → result ≡ Status.BadLayout key rule
        → IsBadLayout (texts words.now)
        (changes S.left S.faults source.old source.new D.state D.faults disk.old disk.new
        O.held O.faults out.old out.new) key rule }
    ensures refused { (refusal : Refusal) → result ≡ Status.Refused refusal
        → IsRefused (texts words.now)
        (changes S.left S.faults source.old source.new D.state D.faults disk.old disk.new
        O.held O.faults out.old out.new) refusal }
    ensures unbuilt { result ≡ Status.Unbuilt → IsLeftUnbuilt (texts words.now)
        (changes S.left S.faults source.old source.new D.state D.faults disk.old disk.new
        O.held O.faults out.old out.new) }
    ensures read_fault { result ≡ Status.ReadFault
        → Rose (S.faults source.old) (S.faults source.new)
        × Grew (O.held out.old) (O.held out.new) [] }
    ensures disk_fault { result ≡ Status.DiskFault
        → Rose (D.faults disk.old) (D.faults disk.new)
        × Grew (O.held out.old) (O.held out.new) [] }
    ensures write_fault { result ≡ Status.WriteFault
        → Rose (O.faults out.old) (O.faults out.new) ⊎ Rose (E.faults err.old) (E.faults err.new) }
    ensures no_memory { result ≡ Status.NoMemory → Grew (O.held out.old) (O.held out.new) [] }
    ensures written { result ≡ Status.WriteFault → IsWriteFault (texts words.now)
        (changes S.left S.faults source.old source.new D.state D.faults disk.old disk.new
        O.held O.faults out.old out.new) }

    // The other way round: no answer is given up, unless memory is refused.
    ensures unordered { Unordered (texts words.now) (E.faults err.old) (E.faults err.new) result }
    ensures refuses_layout { RefusesLayout (texts words.now)
        (changes S.left S.faults source.old source.new D.state D.faults disk.old disk.new
        O.held O.faults out.old out.new)
        (E.faults err.old) (E.faults err.new) result }
    ensures refuses { Refuses (texts words.now)
        (changes S.left S.faults source.old source.new D.state D.faults disk.old disk.new
        O.held O.faults out.old out.new)
        (E.faults err.old) (E.faults err.new) result }
    ensures leaves_unbuilt { LeavesUnbuilt (texts words.now)
        (changes S.left S.faults source.old source.new D.state D.faults disk.old disk.new
        O.held O.faults out.old out.new)
        (E.faults err.old) (E.faults err.new) result }
    ensures excludes { Excludes (texts words.now)
        (changes S.left S.faults source.old source.new D.state D.faults disk.old disk.new
        O.held O.faults out.old out.new)
        (E.faults err.old) (E.faults err.new) result }
    ensures completes { Completes (texts words.now)
        (changes S.left S.faults source.old source.new D.state D.faults disk.old disk.new
        O.held O.faults out.old out.new)
        (E.faults err.old) (E.faults err.new) result }
    ensures completes_as_meant { CompletesAsMeant (texts words.now)
        (changes S.left S.faults source.old source.new D.state D.faults disk.old disk.new
        O.held O.faults out.old out.new)
        (E.faults err.old) (E.faults err.new) result }

    // The closing line, and no more, unless it failed.
    ensures closing { (Rose (E.faults err.old) (E.faults err.new) → ⊥) → HasLine (texts words.now)
        (changes S.left S.faults source.old source.new D.state D.faults disk.old disk.new
        O.held O.faults out.old out.new)
        (E.held err.old) (E.held err.new) result }
    ensures closing_failed { HasLine (texts words.now)
        (changes S.left S.faults source.old source.new D.state D.faults disk.old disk.new
        O.held O.faults out.old out.new)
        (E.held err.old) (E.held err.new) result
        ⊎ (Rose (E.faults err.old) (E.faults err.new) × HasLinePrefix (texts words.now)
        (changes S.left S.faults source.old source.new D.state D.faults disk.old disk.new
        O.held O.faults out.old out.new)
        (E.held err.old) (E.held err.new)) }
{
    a_text_has_one_answer();
    let mut text = Vec::new(alloc);
    let run = ordered_run(words);
    let status = work(alloc, run, source, disk, out, &mut text);
    close(text.as_slice(), status, err)
}
