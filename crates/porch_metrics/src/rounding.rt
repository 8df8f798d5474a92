//! Rounding up to an alignment.

ghost use Rattle.std.specs.Prelude.{◌≡◌, ◌<◌, ◌≤◌, ◌+◌, ◌^◌};
ghost use Rattle.porch_metrics.specs.Extents.{round_up};

/// The lowest multiple of an alignment at or after a place.
pub(crate) fn rounded_up(place: u64, align: u64) -> u64
    requires some { 0 < align }
    requires fits { place + align < 2 ^ 64 }
    ensures value { result ≡ round_up place align }
    ensures least { result < place + align }
{
    (place + (align - 1)) / align * align
}
