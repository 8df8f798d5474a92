//! Rows and parts, and which element or member holds a leaf.
ghost use Rattle.std.specs.Prelude.{◌≡◌, ◌<◌, ◌≤◌, ◌+◌, ◌==◌, ◌&&◌, ℕ, length, slice_get, slice_index, Some, None, IfSome};
ghost use Rattle.porch_types.specs.Rows.{element_at, member_at};
ghost use Rattle.porch_types.specs.inside.Kept.{starts_from};
ghost use Rattle.porch_types.specs.Leaves.{leaves_together};

/// Elements of one type that stand after each other: the first leaf, and how many elements.
#[derive(Clone, Copy, Debug, PartialEq, Eq)]
pub struct Row {
    pub first: u64,
    pub len: u64,
}

/// An element of an array or a member of a struct: its type, which one it is, its first leaf, and
/// the row that it stands in, by the leaves of the whole.
#[derive(Clone, Copy, Debug, PartialEq, Eq)]
pub struct Part {
    pub ty: u32,
    pub index: u64,
    pub first: u64,
    pub row: Row,
}

/// The element that holds a leaf, of `count` elements with so many leaves each.
pub(crate) fn element(of: u32, leaves: u64, count: u64, place: u64) -> Option<Part>
    requires { 0 < leaves }
    ensures value { result ≡ element_at of leaves count place }
    ensures ty { IfSome result (λ part. part.ty ≡ of) }
    ensures begun { IfSome result (λ part. part.first ≤ place) }
    ensures row { IfSome result (λ part. part.row.first ≤ part.first) }
{
    let index = place / leaves;
    if index < count {
        Some(Part {
            ty: of,
            index,
            first: index * leaves,
            row: Row {
                first: 0,
                len: count,
            },
        })
    } else {
        None
    }
}

/// The last of these rising numbers that is at most `place`, by halving.
fn last_start(starts: &[u64], place: u64) -> usize
    requires some { 0 < length starts.now }
    requires first { slice_index starts.now 0 ≤ place }
    ensures within { result < length starts.now }
    ensures begun { slice_index starts.now result ≤ place }
    ensures last { result + 1 < length starts.now → place < slice_index starts.now (result + 1) }
{
    let mut low = 0;
    let mut high = starts.len();
    while high - low > 1 {
        let middle = low + (high - low) / 2;
        if starts[middle] <= place {
            low = middle;
        } else {
            high = middle;
        }
    }
    low
}

/// The member that holds a leaf, of members that begin at these leaves.
pub(crate) fn member(members: &[u32], starts: &[u64], leaves: u64, place: u64) -> Option<Part>
    requires some { 0 < length members.now }
    requires each { length starts.now ≡ length members.now }
    requires first { slice_index starts.now 0 ≡ 0 }
    ensures value { (f : ℕ → ℕ) → starts.now ≡ starts_from f 0 members.now
        → leaves ≡ leaves_together f members.now → result ≡ member_at f members.now 0 0 place }
    ensures ty { IfSome result (λ part. slice_get members.now part.index ≡ Some part.ty) }
    ensures begun { IfSome result (λ part. part.first ≤ place) }
    ensures row { IfSome result (λ part. part.row.first ≤ part.first) }
{
    if place >= leaves {
        return None;
    }
    let index = last_start(starts, place);
    let first = starts[index];
    Some(Part {
        ty: members[index],
        index: index as u64,
        first,
        row: Row { first, len: 1 },
    })
}

/// Whether this part is the subobject of type `pointee` that begins at leaf `place`.
pub(crate) fn is_at(part: Part, place: u64, pointee: u32) -> bool
    ensures { result ≡ (part.ty == pointee && part.first == place) }
{
    part.ty == pointee && part.first == place
}
