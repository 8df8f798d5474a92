//! Laws on lists of types: their kinds, leaves, rows and subobjects.
ghost use Rattle.std.specs.Prelude.{◌≡◌, ◌≢◌, ◌<◌, ◌≤◌, ◌+◌, ◌-◌, ◌*◌, ◌++◌, ◌↔◌, ℕ, List, length, slice_get, Some, None};
ghost use Rattle.porch_types.specs.declared.shapes.Kind.{Kind};
ghost use Rattle.porch_types.specs.declared.shapes.Ty.{Ty};
ghost use Rattle.porch_types.specs.Kinds.{kind_number, int_type};
ghost use Rattle.porch_types.specs.Leaves.{IsTypes, leaf_count, leaves_of};
ghost use Rattle.porch_types.specs.declared.parts.Part.{Part};
ghost use Rattle.porch_types.specs.declared.parts.Row.{Row};
ghost use Rattle.porch_types.specs.Parts.{HoldsLeaf};
ghost use Rattle.porch_types.specs.Rows.{IsRow, IsRowAt, IsSubobject, moved_row, part_at, row_at};
ghost use Rattle.porch_types.specs.LeafTypes.{IsScalar, leaf_type};
ghost use Rattle.porch_types.specs.Longer.{KeepsTypes};

use crate::shapes::INT;

/// Each list of types has each kind under its number, and `int` under `INT`.
pub fn kinds_come_first()
    ensures kinds { (types : List Ty) (kind : Kind) → IsTypes types
        → slice_get types (kind_number kind) ≡ Some (Ty.Whole kind) }
    ensures int { INT ≡ int_type }
{}

/// A type has the leaves of its parts together, and at least one.
pub fn leaves_add_up()
    ensures together { (types : List Ty) (number : ℕ) (ty : Ty) → IsTypes types
        → slice_get types number ≡ Some ty
        → leaves_of types number ≡ leaf_count (leaves_of types) ty }
    ensures some { (types : List Ty) (number : ℕ) → IsTypes types → number < length types
        → 0 < leaves_of types number }
{}

/// What is said of the types of a list stays so where further ones come behind them.
pub fn earlier_types_stay()
    ensures { (types more : List Ty) → IsTypes types → KeepsTypes types (types ++ more) }
{}

/// The part that holds a leaf is of an earlier type and lies in the whole. Only integers and pointers
/// have none.
pub fn parts_hold_leaves()
    ensures some { (types : List Ty) (ty leaf : ℕ) (part : Part) → IsTypes types
        → part_at types ty leaf ≡ Some part → HoldsLeaf types ty leaf part }
    ensures none { (types : List Ty) (ty leaf : ℕ) → IsTypes types → ty < length types
        → leaf < leaves_of types ty → part_at types ty leaf ≡ None
        → IsScalar (slice_get types ty) × (leaf ≡ 0) }
    ensures scalar { (types : List Ty) (ty leaf : ℕ) → IsScalar (slice_get types ty)
        → part_at types ty leaf ≡ None }
{}

/// The type of a leaf is that of its part's leaf, and of an integer or a pointer the type itself.
pub fn leaf_types_go_by_parts()
    ensures part { (types : List Ty) (ty leaf : ℕ) (part : Part) → IsTypes types
        → leaf < leaves_of types ty → part_at types ty leaf ≡ Some part
        → leaf_type types ty leaf ≡ leaf_type types part.ty (leaf - part.first) }
    ensures scalar { (types : List Ty) (ty leaf : ℕ) → IsScalar (slice_get types ty)
        → leaf_type types ty leaf ≡ ty }
    ensures again { (types : List Ty) (ty leaf elements : ℕ)
        → leaf_type types ty (elements * leaves_of types ty + leaf) ≡ leaf_type types ty leaf }
{}

/// The search for a row finds it where there is one, and finds no other.
pub fn rows_are_found()
    ensures some { (types : List Ty) (root count place pointee : ℕ) (row : Row) → IsTypes types
        → root < length types
        → (row_at types root count place pointee ≡ Some row)
        ↔ IsRowAt types root count place pointee row }
    ensures none { (types : List Ty) (root count place pointee : ℕ) → IsTypes types
        → root < length types
        → (row_at types root count place pointee ≡ None)
        ↔ (¬ IsSubobject types root count place pointee) }
{}

/// A row lies inside its root, and so does each subobject; their types are of the list.
pub fn rows_lie_inside()
    ensures rows { (types : List Ty) (root count ty first len : ℕ) → IsTypes types
        → IsRow types root count ty first len
        → first + len * leaves_of types ty ≤ count * leaves_of types root }
    ensures subobjects { (types : List Ty) (root count place ty : ℕ) → IsTypes types
        → IsSubobject types root count place ty
        → place + leaves_of types ty ≤ count * leaves_of types root }
    ensures known { (types : List Ty) (root count place ty : ℕ) → IsTypes types
        → root < length types
        → IsSubobject types root count place ty → ty < length types }
{}

/// A subobject of a subobject is one of the root, and a row in elements of a row is one of the
/// root.
pub fn subobjects_nest()
    ensures subobjects { (types : List Ty) (root count place ty inner pointee : ℕ) → IsTypes types
        → IsSubobject types root count place ty → IsSubobject types ty 1 inner pointee
        → IsSubobject types root count (place + inner) pointee }
    ensures rows { (types : List Ty) (root count ty first len k elements inner pointee : ℕ)
        (row : Row)
        → IsTypes types → IsRow types root count ty first len → k + elements ≤ len
        → IsRowAt types ty elements inner pointee row → pointee ≢ ty
        → IsRowAt types root count (first + k * leaves_of types ty + inner) pointee
        (moved_row (first + k * leaves_of types ty) row) }
{}

/// At each leaf of a root begins one integer or pointer, of the leaf's type. Leaves have the same
/// types in the root as in its rows.
pub fn leaves_are_scalars()
    ensures begins { (types : List Ty) (root count leaf : ℕ) → IsTypes types → root < length types
        → leaf < count * leaves_of types root
        → IsSubobject types root count leaf (leaf_type types root leaf) }
    ensures scalar { (types : List Ty) (root leaf : ℕ) → IsTypes types → root < length types
        → IsScalar (slice_get types (leaf_type types root leaf)) }
    ensures only { (types : List Ty) (root count leaf ty : ℕ) → IsTypes types → root < length types
        → IsSubobject types root count leaf ty → IsScalar (slice_get types ty)
        → ty ≡ leaf_type types root leaf }
    ensures rows { (types : List Ty) (root count ty first len leaf : ℕ) → IsTypes types
        → root < length types
        → IsRow types root count ty first len → leaf < len * leaves_of types ty
        → leaf_type types root (first + leaf) ≡ leaf_type types ty leaf }
    ensures subobjects { (types : List Ty) (root count place ty leaf : ℕ) → IsTypes types
        → IsSubobject types root count place ty → leaf < leaves_of types ty
        → leaf_type types root (place + leaf) ≡ leaf_type types ty leaf }
{}
