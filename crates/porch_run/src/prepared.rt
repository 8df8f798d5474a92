//! The parts of a machine before turn 1.

ghost use Rattle.std.specs.Prelude.{◌≡◌, ◌<◌, ◌+◌, ◌*◌, [], replicate, length, vec_capacity, IfOk};
ghost use Rattle.porch_layout.specs.Layouts.{IsLayout};
ghost use Rattle.porch_bytes.specs.State.{setting_of, prepared, before};
ghost use Rattle.porch_bytes.specs.Fits.{IsSetting};
ghost use Rattle.porch_load.specs.Loaded.{setting_in, IsLoaded, IsGlobalMap};
ghost use Rattle.porch_stack.specs.declared.spot.Stage.TheVariants.{Before};
ghost use Rattle.porch_stack.specs.Holding.{Stands, context_in};
ghost use Rattle.porch_stack.specs.Doing.{IsHeapOf};

use porch_code::CodeFault;
use porch_flat::whole::Valid;
use porch_heap::Heap;
use porch_instructions::instruction::Context;
use porch_layout::Layout;
use porch_load::{GlobalMap, Loaded, load, place_globals, widths_of_layout};
use porch_map::{Globals, values_are_of_globals, write_globals};
use porch_metrics::Metrics;
use porch_stack::spot::{Held, Spot, Stage};
use std::alloc::{AllocError, Global};

/// The program, loaded, and where its globals are.
pub(crate) fn load_program(
    alloc: Global,
    program: Valid,
    layout: &Layout,
    stack: u64,
    heap: u64,
) -> Result<(Loaded, GlobalMap), CodeFault>
    requires allowed { IsSetting (setting_of layout.now stack heap) }
    ensures loaded { IfOk result (λ r. IsLoaded r.0) }
    ensures program { IfOk result (λ r. r.0.program ≡ program) }
    ensures setting { IfOk result (λ r. setting_in r.0 ≡ setting_of layout.now stack heap) }
    ensures globals { IfOk result (λ r. IsGlobalMap r.0.program (setting_in r.0) r.1) }
{
    let metrics = measure(alloc, &program, layout)?;
    let globals = place_globals(alloc, &metrics, program.flat())?;
    let loaded = load(alloc, program, metrics, &globals, stack, heap)?;
    Ok((loaded, globals))
}

fn measure(alloc: Global, program: &Valid, layout: &Layout) -> Result<Metrics, AllocError>
    requires { IsLayout layout.now }
    ensures types { IfOk result (λ m. m.types ≡ program.now.types) }
    ensures layout { IfOk result (λ m. m.layout ≡ layout.now) }
{
    Metrics::new(alloc, &program.flat().types, layout)
}

/// Memory before turn 1.
pub(crate) fn first_memory(
    alloc: Global,
    loaded: &Loaded,
    globals: &GlobalMap,
) -> Result<Vec<u8>, CodeFault>
    requires loaded { IsLoaded loaded.now }
    requires globals { IsGlobalMap loaded.now.program (setting_in loaded.now) globals.now }
    ensures bytes { IfOk result (λ m. m.items
        ≡ (prepared loaded.now.program (setting_in loaded.now)).memory) }
    ensures length { IfOk result (λ m. length m.items ≡ loaded.now.map.end) }
{
    values_are_of_globals();
    let mut memory = zeros(alloc, loaded.map.end as usize)?;
    let places = Globals {
        types: &globals.types,
        addresses: &globals.addresses,
    };
    let objects = loaded.program.flat().globals.as_slice();
    match write_globals(&loaded.metrics, &places, objects, &mut memory) {
        Some(()) => Ok(memory),
        None => Err(CodeFault::Unresolved),
    }
}

// So many zeros.
fn zeros(alloc: Global, count: usize) -> Result<Vec<u8>, AllocError>
    ensures { IfOk result (λ v. v.items ≡ replicate count 0) }
{
    vec![in alloc; 0; count]
}

/// The heap before turn 1, without blocks.
pub(crate) fn first_heap(alloc: Global, loaded: &Loaded) -> Result<Heap, AllocError>
    requires { IsLoaded loaded.now }
    ensures heap { IfOk result (IsHeapOf loaded.now) }
    ensures none { IfOk result (λ h. h.blocks ≡ []) }
{
    Heap::new(alloc, loaded.map.heap, loaded.heap)
}

/// Where a machine stands before turn 1, with room for all frames that the stack may hold.
pub(crate) fn first_spot(alloc: Global, loaded: &Loaded) -> Result<Spot, AllocError>
    requires { IsLoaded loaded.now }
    ensures stands { IfOk result (λ s. Stands loaded.now s loaded.now.map.end) }
    ensures stage { IfOk result (λ s. s.stage ≡ Before) }
    ensures turns { IfOk result (λ s. s.turns ≡ 0) }
{
    let callers = room_for_callers(alloc, loaded.stack)?;
    Ok(Spot {
        stage: Stage::Before,
        frame: Held {
            function: 0,
            next: 0,
            at: 0,
            into: None,
        },
        callers,
        here: first_context(loaded),
        turns: 0,
    })
}

fn room_for_callers(alloc: Global, stack: u64) -> Result<Vec<Held>, AllocError>
    ensures none { IfOk result (λ v. v.items ≡ []) }
    ensures room { IfOk result (λ v. stack < 16 * vec_capacity v + 16) }
{
    Vec::with_capacity(alloc, (stack / 16) as usize)
}

// What operations are done in before any function is called.
fn first_context(loaded: &Loaded) -> Context
    requires { IsLoaded loaded.now }
    ensures { result ≡ context_in loaded.now before }
{
    let layout = loaded.metrics.layout();
    Context {
        big: layout.big,
        widths: widths_of_layout(layout.long),
        parts: loaded.map,
        at: 0,
    }
}
