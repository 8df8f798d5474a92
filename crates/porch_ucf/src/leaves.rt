//! The first leaf of a checkpoint's data that is wrong.

ghost use Rattle.std.specs.Prelude.{◌≡◌, ◌≤◌, ◌<◌, ◌+◌, ◌*◌, ◌^◌, ◌⊎◌, length, IfErr, OnOk};
ghost use Rattle.porch_types.specs.Leaves.{leaves_of};
ghost use Rattle.porch_metrics.specs.Extents.{extent_of, ucf_layout};
ghost use Rattle.porch_points.specs.Plans.{end_of};
ghost use Rattle.porch_ucf.specs.DataFlaws.{leaf_count, IsFirstFaulty, IsFaultless};
ghost use Rattle.porch_ucf.specs.inside.LeafTests.{CanTest, IsFirstFailure, PassBelow};
ghost use Rattle.porch_ucf.specs.inside.Leaves.{ArePlaced, ArePointees, EndWithin, HasSize, IsFirstOf, IsSoundBelow, WordsLieInside};
ghost use Rattle.porch_ucf.specs.inside.Runs.{AreRuns, AreRunsFound};

use crate::fault::ImageFault;
use crate::image::Image;
use crate::leaf_test::failure;
use crate::runs::{Run, elements_repeat, find_runs, no_runs, runs_in};
use porch_find::{Root, Roots};
use porch_metrics::{
    Metrics, elements_are_aligned, extents_add_up, places_rise, ucf_is_a_layout,
    ucf_leaves_are_packed,
};
use std::alloc::Global;

/// What is looked for.
#[derive(Clone, Copy)]
pub(crate) enum Sought {
    /// A pointer whose word names nothing.
    Words,
    /// A long value that has no room in so many bytes.
    Values { long: u8 },
}

/// Refuses the first faulty leaf, in the order of the data.
pub(crate) fn check_leaves(
    alloc: Global,
    sought: Sought,
    metrics: &Metrics,
    objects: &Roots,
    image: &Image,
) -> Result<(), ImageFault>
    requires size { HasSize sought }
    requires placed { ArePlaced metrics.now.types objects.now.items }
    requires pointees { ArePointees metrics.now.types }
    requires inside { EndWithin metrics.now.types objects.now.items (length image.now.bytes) }
    ensures sound { OnOk result (IsFaultless sought metrics.now.types
        objects.now.items image.now) }
    ensures first { IfErr result (λ fault. (fault ≡ ImageFault.NoMemory)
        ⊎ IsFirstFaulty sought metrics.now.types objects.now.items image.now fault) }
{
    let mut found = no_runs(alloc, metrics)?;
    for object in objects.as_slice() {
        check_object(alloc, sought, metrics, objects, image, *object, &mut found)?;
    }
    Ok(())
}

/// Refuses the first faulty leaf of an object. The runs of its type are found where they weren't
/// before.
fn check_object(
    alloc: Global,
    sought: Sought,
    metrics: &Metrics,
    objects: &Roots,
    image: &Image,
    object: Root,
    found: &mut Vec<Option<Vec<Run>>>,
) -> Result<(), ImageFault>
    requires size { HasSize sought }
    requires found { AreRunsFound sought metrics.now.types found.old.items }
    requires placed { ArePlaced metrics.now.types objects.now.items }
    requires pointees { ArePointees metrics.now.types }
    requires known { object.ty < length metrics.now.types }
    requires inside { end_of ucf_layout metrics.now.types object ≤ length image.now.bytes }
    ensures sound { OnOk result (IsSoundBelow sought metrics.now.types
        objects.now.items image.now object (leaf_count metrics.now.types object)) }
    ensures first { IfErr result (λ fault. (fault ≡ ImageFault.NoMemory)
        ⊎ IsFirstOf sought metrics.now.types objects.now.items image.now object fault) }
    ensures found { OnOk result (AreRunsFound sought metrics.now.types found.new.items) }
{
    find_runs(alloc, sought, metrics, object.ty, found)?;
    let runs = runs_in(found, object.ty);
    check_elements(sought, metrics, objects, image, object, runs)
}

/// The same, where the runs of its type are known.
fn check_elements(
    sought: Sought,
    metrics: &Metrics,
    objects: &Roots,
    image: &Image,
    object: Root,
    runs: &[Run],
) -> Result<(), ImageFault>
    requires placed { ArePlaced metrics.now.types objects.now.items }
    requires known { object.ty < length metrics.now.types }
    requires inside { end_of ucf_layout metrics.now.types object ≤ length image.now.bytes }
    requires runs { AreRuns sought metrics.now.types object.ty
        (leaves_of metrics.now.types object.ty) runs.now }
    ensures sound { OnOk result (IsSoundBelow sought metrics.now.types
        objects.now.items image.now object (leaf_count metrics.now.types object)) }
    ensures first { IfErr result (IsFirstOf sought metrics.now.types
        objects.now.items image.now object) }
{
    let _layout = metrics.layout();
    elements_repeat();
    if runs.is_empty() {
        return Ok(());
    }
    for element in 0..u64::from(object.count) {
        check_element(sought, metrics, objects, image, object, runs, element)?;
    }
    Ok(())
}

/// Refuses the first faulty leaf of an element of an object, where none is before it.
fn check_element(
    sought: Sought,
    metrics: &Metrics,
    objects: &Roots,
    image: &Image,
    object: Root,
    runs: &[Run],
    element: u64,
) -> Result<(), ImageFault>
    requires placed { ArePlaced metrics.now.types objects.now.items }
    requires known { object.ty < length metrics.now.types }
    requires inside { end_of ucf_layout metrics.now.types object ≤ length image.now.bytes }
    requires runs { AreRuns sought metrics.now.types object.ty
        (leaves_of metrics.now.types object.ty) runs.now }
    requires within { element < object.count }
    requires before { IsSoundBelow sought metrics.now.types objects.now.items image.now object
        (element * leaves_of metrics.now.types object.ty) }
    ensures sound { OnOk result (IsSoundBelow sought metrics.now.types objects.now.items image.now
        object ((element + 1) * leaves_of metrics.now.types object.ty)) }
    ensures first { IfErr result (IsFirstOf sought metrics.now.types
        objects.now.items image.now object) }
{
    let _layout = metrics.layout();
    let _length = image.bytes().len();
    elements_repeat();
    words_lie_inside();
    let place = element_place(metrics, object, element);
    for run in runs {
        check_run(*run, metrics, objects, image, place)?;
    }
    Ok(())
}

/// Where an element of an object begins in the data.
fn element_place(metrics: &Metrics, object: Root, element: u64) -> u64
    requires known { object.ty < length metrics.now.types }
    requires within { element < object.count }
    requires inside { end_of ucf_layout metrics.now.types object < 2 ^ 63 }
    ensures place { result
        ≡ object.at + element * (extent_of ucf_layout metrics.now.types object.ty).size }
    ensures few { result < 2 ^ 63 }
{
    let _leaves = metrics.types().leaves(object.ty);
    let count = object.count;
    object.at + element * metrics.ucf_size(object.ty)
}

/// Refuses the first leaf of a run that fails its test, in an element that begins at a place of the data.
fn check_run(
    run: Run,
    metrics: &Metrics,
    objects: &Roots,
    image: &Image,
    place: u64,
) -> Result<(), ImageFault>
    requires test { CanTest metrics.now.types run.test }
    requires placed { ArePlaced metrics.now.types objects.now.items }
    requires inside { place + run.place + 8 * run.len ≤ length image.now.bytes }
    ensures sound { OnOk result (PassBelow metrics.now.types objects.now.items image.now
        run.test (place + run.place) run.len) }
    ensures first { IfErr result (IsFirstFailure metrics.now.types objects.now.items image.now
        run.test (place + run.place) run.len) }
{
    let _length = image.bytes().len();
    let begin = place + run.place;
    for k in 0..run.len {
        if let Some(fault) = failure(run.test, metrics, objects, image, begin + 8 * k) {
            return Err(fault);
        }
    }
    Ok(())
}

/// The eight bytes of a pointer or a long lie inside their object.
fn words_lie_inside()
    ensures { WordsLieInside }
{
    extents_add_up();
    elements_are_aligned();
    places_rise();
    ucf_is_a_layout();
    ucf_leaves_are_packed();
}
