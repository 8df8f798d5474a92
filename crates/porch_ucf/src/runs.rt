//! Leaves of one type in a row, so that they are looked at with no search for each.

ghost use Rattle.std.specs.Prelude.{◌≡◌, ◌<◌, ◌≤◌, ◌+◌, ◌^◌, length, Some, IfOk, OnOk};
ghost use Rattle.porch_types.specs.Leaves.{leaves_of};
ghost use Rattle.porch_ucf.specs.inside.Leaves.{ArePointees, HasSize};
ghost use Rattle.porch_ucf.specs.declared.leaves.Sought.{Sought};
ghost use Rattle.porch_ucf.specs.inside.Runs.{AreRuns, AreFoundAt, AreRunsFound, runs_found};
ghost use Rattle.porch_ucf.specs.inside.Runs.{ElementsRepeat, IsStretch};

use crate::leaf_test::{LeafTest, test_of};
use crate::leaves::Sought;
use porch_metrics::{
    Metrics, elements_are_aligned, extents_add_up, places_add_up, ucf_is_a_layout,
};
use porch_types::{leaf_types_go_by_parts, leaves_add_up, leaves_are_scalars, rows_lie_inside};
use std::alloc::{AllocError, Global};

/// Leaves of a type of which the same test is made: the first, how many, and where the first begins in
/// the type, in bytes of the data. Each has eight bytes.
#[derive(Clone, Copy)]
pub(crate) struct Run {
    pub(crate) test: LeafTest,
    pub(crate) first: u64,
    pub(crate) len: u64,
    pub(crate) place: u64,
}

/// How many leaves of one type stand in a row from a leaf on.
#[derive(Clone, Copy)]
pub(crate) struct Stretch {
    pub(crate) ty: u32,
    pub(crate) len: u64,
}

/// No runs, for each type.
#[tactic(auto, using(crate::proofs::FoundRuns::none_more))]
pub(crate) fn no_runs(alloc: Global, metrics: &Metrics) -> Result<Vec<Option<Vec<Run>>>, AllocError>
    ensures { (sought : Sought) → IfOk result
        (λ found. AreRunsFound sought metrics.now.types found.items) }
{
    let len = metrics.types().len();
    let mut found = Vec::with_capacity(alloc, len)?;
    for _ in 0..len {
        found.push(None)?;
    }
    Ok(found)
}

/// Finds the runs of a type, where they weren't found before.
pub(crate) fn find_runs(
    alloc: Global,
    sought: Sought,
    metrics: &Metrics,
    ty: u32,
    found: &mut Vec<Option<Vec<Run>>>,
) -> Result<(), AllocError>
    requires size { HasSize sought }
    requires pointees { ArePointees metrics.now.types }
    requires known { ty < length metrics.now.types }
    requires found { AreRunsFound sought metrics.now.types found.old.items }
    ensures found { OnOk result (AreRunsFound sought metrics.now.types found.new.items) }
    ensures here { OnOk result (AreFoundAt found.new.items ty) }
{
    if found[ty as usize].is_none() {
        let runs = runs_of(alloc, sought, metrics, ty)?;
        found[ty as usize] = Some(runs);
    }
    Ok(())
}

/// The runs of a type for which they were found.
pub(crate) fn runs_in(found: &[Option<Vec<Run>>], ty: u32) -> &[Run]
    requires { AreFoundAt found.now ty }
    ensures { runs_found found.now ty ≡ Some result.now }
{
    match &found[ty as usize] {
        Some(runs) => runs.as_slice(),
        None => &[],
    }
}

/// The runs of a type, in order.
fn runs_of(
    alloc: Global,
    sought: Sought,
    metrics: &Metrics,
    root: u32,
) -> Result<Vec<Run>, AllocError>
    requires size { HasSize sought }
    requires pointees { ArePointees metrics.now.types }
    requires known { root < length metrics.now.types }
    ensures { IfOk result (λ runs. AreRuns sought metrics.now.types root
        (leaves_of metrics.now.types root) runs.items) }
{
    let leaves = metrics.types().leaves(root);
    let mut runs = Vec::new(alloc);
    let mut leaf = 0;
    'runs: while leaf < leaves {
        let stretch = stretch_at(metrics, root, leaf);
        put_stretch(sought, metrics, root, leaf, stretch, &mut runs)?;
        leaf += stretch.len;
    }
    Ok(runs)
}

/// Puts the leaves of a stretch behind the runs before it, where a test is made of them.
fn put_stretch(
    sought: Sought,
    metrics: &Metrics,
    root: u32,
    leaf: u64,
    stretch: Stretch,
    runs: &mut Vec<Run>,
) -> Result<(), AllocError>
    requires size { HasSize sought }
    requires pointees { ArePointees metrics.now.types }
    requires known { root < length metrics.now.types }
    requires near { leaf ≤ 2 ^ 52 }
    requires stretch { IsStretch metrics.now.types root leaf stretch }
    requires runs { AreRuns sought metrics.now.types root leaf runs.old.items }
    ensures { OnOk result (AreRuns sought metrics.now.types root (leaf + stretch.len)
        runs.new.items) }
{
    let _layout = metrics.layout();
    extents_add_up();
    match test_of(sought, metrics, stretch.ty) {
        None => Ok(()),
        Some(test) => {
            let place = metrics.ucf_place(root, leaf);
            let len = stretch.len;
            let first = leaf;
            runs.push(Run {
                test,
                first,
                len,
                place,
            })?;
            Ok(())
        }
    }
}

/// The leaves of the row that a leaf stands in, from it on.
fn stretch_at(metrics: &Metrics, root: u32, leaf: u64) -> Stretch
    requires known { root < length metrics.now.types }
    requires within { leaf < leaves_of metrics.now.types root }
    ensures { IsStretch metrics.now.types root leaf result }
{
    let _layout = metrics.layout();
    leaves_add_up();
    rows_lie_inside();
    leaves_are_scalars();
    leaf_types_go_by_parts();
    places_add_up();
    ucf_is_a_layout();
    let types = metrics.types();
    let _most = types.leaves(root);
    let ty = types.leaf_type(root, leaf);
    match types.row_of(root, 1, leaf, ty) {
        Some(row) => Stretch {
            ty,
            len: row.first + row.len - leaf,
        },
        None => Stretch { ty, len: 1 },
    }
}

/// An element has the leaves of its type.
pub(crate) fn elements_repeat()
    ensures { ElementsRepeat }
{
    leaf_types_go_by_parts();
    places_add_up();
    elements_are_aligned();
    ucf_is_a_layout();
}
