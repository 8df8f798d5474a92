//! The test that is made of the eight bytes of a pointer or a long.

ghost use Rattle.std.specs.Prelude.{◌≡◌, ◌≤◌, ◌<◌, ◌+◌, ◌*◌, ◌^◌, length, slice_get, Some, None, IfSome, IfNone, if◌then◌else◌, true};
ghost use Rattle.porch_layout.specs.Layouts.{IsSize};
ghost use Rattle.porch_values.specs.Integers.{in_range};
ghost use Rattle.porch_ucf.specs.declared.fault.ImageFault.{ImageFault};
ghost use Rattle.porch_ucf.specs.DataFlaws.{long_value, is_long};
ghost use Rattle.porch_ucf.specs.Fields.{u64_in};
ghost use Rattle.porch_ucf.specs.inside.LeafTests.{CanTest, Fails, FailsRoom, IsTestOf, IsUntested, data_place};
ghost use Rattle.porch_ucf.specs.inside.Leaves.{ArePlaced, ArePointees, HasSize};

use crate::fault::{ImageFault, Reason};
use crate::field::read_u64;
use crate::front::rows_size;
use crate::header::HEADER_BYTES;
use crate::image::Image;
use crate::leaves::Sought;
use porch_find::Roots;
use porch_metrics::Metrics;
use porch_points::is_displacement;
use porch_types::{Kind, Ty};
use porch_values::{greatest, least};

/// What eight bytes have to be: the word of a pointer to a type, or a long value that has room where a
/// long has so many bytes.
#[derive(Clone, Copy)]
pub(crate) enum LeafTest {
    Word { pointee: u32 },
    Room { kind: Kind, width: u8 },
}

/// The test that is made of leaves of a type, if one is.
pub(crate) fn test_of(sought: Sought, metrics: &Metrics, ty: u32) -> Option<LeafTest>
    requires size { HasSize sought }
    requires pointees { ArePointees metrics.now.types }
    requires known { ty < length metrics.now.types }
    ensures test { IfSome result (IsTestOf sought (slice_get metrics.now.types ty)) }
    ensures can { IfSome result (CanTest metrics.now.types) }
    ensures none { IfNone result (IsUntested sought (slice_get metrics.now.types ty)) }
{
    match sought {
        Sought::Words => word_test(metrics, ty),
        Sought::Values { long } => room_test(metrics, ty, long),
    }
}

fn word_test(metrics: &Metrics, ty: u32) -> Option<LeafTest>
    requires pointees { ArePointees metrics.now.types }
    requires known { ty < length metrics.now.types }
    ensures test { IfSome result (IsTestOf Sought.Words (slice_get metrics.now.types ty)) }
    ensures can { IfSome result (CanTest metrics.now.types) }
    ensures none { IfNone result (IsUntested Sought.Words (slice_get metrics.now.types ty)) }
{
    match metrics.types().get(ty) {
        Ty::Pointer { to } => Some(LeafTest::Word { pointee: *to }),
        Ty::Whole { kind: _ } => None,
        Ty::Array { of: _, count: _ } => None,
        Ty::Struct { members: _ } => None,
    }
}

fn room_test(metrics: &Metrics, ty: u32, long: u8) -> Option<LeafTest>
    requires size { IsSize long }
    requires known { ty < length metrics.now.types }
    ensures test { IfSome result (IsTestOf (Sought.Values long) (slice_get metrics.now.types ty)) }
    ensures can { IfSome result (CanTest metrics.now.types) }
    ensures none { IfNone result
        (IsUntested (Sought.Values long) (slice_get metrics.now.types ty)) }
{
    match metrics.types().get(ty) {
        Ty::Whole { kind } => room_test_of(*kind, long),
        Ty::Pointer { to: _ } => None,
        Ty::Array { of: _, count: _ } => None,
        Ty::Struct { members: _ } => None,
    }
}

fn room_test_of(kind: Kind, width: u8) -> Option<LeafTest>
    ensures { result ≡ (if is_long kind then Some (LeafTest.Room kind width) else None) }
{
    match kind {
        Kind::Long | Kind::ULong => Some(LeafTest::Room { kind, width }),
        Kind::Char | Kind::UChar | Kind::Short | Kind::UShort | Kind::Int | Kind::UInt => None,
    }
}

/// The fault of the eight bytes at a place of the data, if they fail a test.
#[inline]
pub(crate) fn failure(
    test: LeafTest,
    metrics: &Metrics,
    objects: &Roots,
    image: &Image,
    place: u64,
) -> Option<ImageFault>
    requires test { CanTest metrics.now.types test }
    requires placed { ArePlaced metrics.now.types objects.now.items }
    requires inside { place + 8 ≤ length image.now.bytes }
    ensures some { IfSome result (Fails metrics.now.types objects.now.items image.now test place) }
    ensures none { IfNone result ((fault : ImageFault)
        → Fails metrics.now.types objects.now.items image.now test place fault → ⊥) }
{
    match test {
        LeafTest::Word { pointee } => word_failure(pointee, metrics, objects, image, place),
        LeafTest::Room { kind, width } => room_failure(kind, width, image, place),
    }
}

#[inline]
fn word_failure(
    pointee: u32,
    metrics: &Metrics,
    objects: &Roots,
    image: &Image,
    place: u64,
) -> Option<ImageFault>
    requires pointee { pointee < length metrics.now.types }
    requires placed { ArePlaced metrics.now.types objects.now.items }
    requires inside { place + 8 ≤ length image.now.bytes }
    ensures some { IfSome result (Fails metrics.now.types objects.now.items image.now
        (LeafTest.Word pointee) place) }
    ensures none { IfNone result ((fault : ImageFault) → Fails metrics.now.types objects.now.items
        image.now (LeafTest.Word pointee) place fault → ⊥) }
{
    if is_displacement(objects, metrics, word_at(image, place), pointee) {
        None
    } else {
        Some(bad_word(data_place(image, place)))
    }
}

#[inline]
fn room_failure(kind: Kind, width: u8, image: &Image, place: u64) -> Option<ImageFault>
    requires long { is_long kind ≡ true }
    requires size { IsSize width }
    requires inside { place + 8 ≤ length image.now.bytes }
    ensures some { IfSome result (FailsRoom image.now kind width place) }
    ensures none { IfNone result ((fault : ImageFault)
        → FailsRoom image.now kind width place fault → ⊥) }
{
    let value = long_value(kind, word_at(image, place));
    if is_in_range(kind, width, value) {
        None
    } else {
        Some(too_narrow(value, data_place(image, place)))
    }
}

/// The eight bytes at a place of the data.
#[inline]
fn word_at(image: &Image, place: u64) -> u64
    requires { place + 8 ≤ length image.now.bytes }
    ensures { result ≡ u64_in image.now.bytes place }
{
    let bytes = image.bytes();
    let _length = bytes.len();
    read_u64(bytes, place as usize)
}

fn bad_word(place: u64) -> ImageFault
    ensures { result ≡ ImageFault.Damaged place Reason.Word }
{
    ImageFault::Damaged {
        place,
        reason: Reason::Word,
    }
}

fn too_narrow(value: i128, place: u64) -> ImageFault
    ensures { result ≡ ImageFault.TooNarrow value place }
{
    ImageFault::TooNarrow { value, place }
}

/// What eight bytes say.
fn long_value(kind: Kind, word: u64) -> i128
    ensures { is_long kind ≡ true → result ≡ long_value kind word }
{
    if kind == Kind::Long {
        i128::from(word.cast_signed())
    } else {
        i128::from(word)
    }
}

/// Whether a value lies in the range that its kind has where long has so many bytes.
fn is_in_range(kind: Kind, long: u8, value: i128) -> bool
    requires { IsSize long }
    ensures { result ≡ in_range kind (8 * long) value }
{
    let width = 8 * u32::from(long);
    least(kind, width) <= value && value <= greatest(kind, width)
}

/// Where a byte of the data stands in the file.
fn data_place(image: &Image, place: u64) -> u64
    requires { place + 8 ≤ length image.now.bytes }
    ensures { result ≡ data_place image.now place }
{
    let _length = image.bytes().len();
    HEADER_BYTES as u64 + rows_size(image.header()) + place
}
