//! The types of a text while it is read, by number. Equal ones have one number.

ghost use Rattle.std.specs.Prelude.{◌≡◌, ◌≤◌, ◌++◌, ◌∷◌, [], length, slice_get, IfOk, IfSome, OnOk, OnErr, Some, None};
ghost use Rattle.std.specs.Option.{option_map, option_map_or};
ghost use Rattle.porch_check.specs.Shapes.{first_shapes, first_row, numbered, with_struct, completed, shape_of, leaves_of, is_complete, size_of, is_ever_complete, members_of, structure, pointer, array, function, whole, void};
ghost use Rattle.porch_check.specs.Operators.{member_named};
ghost use Rattle.porch_shape.specs.Views.{as_shape};
ghost use Rattle.porch_scopes.specs.Views.{as_member, as_place, place_of};
ghost use Rattle.porch_types.specs.Leaves as limits;
ghost use Rattle.porch_types.specs.Kinds.{kind_number};
ghost use Rattle.porch_scopes.specs.Sizes.{is_few, is_small};
ghost use Rattle.porch_scopes.specs.inside.Rows.{rows_of, array_leaves, leaves_in_rows, members_in_rows};

use crate::members::{Member, Members};
use crate::numbers::Numbers;
use crate::row::{Row, has_room, put, set};
use indexmap::IndexMap;
use porch_shape::Shape;
use porch_types::Kind;
use std::alloc::{AllocError, Global};
use std::marker::Model;

/// The most leaves that a type may have.
pub(crate) const MOST_LEAVES: u64 = 1_048_576;

/// The types of a text while it is read. A type that is no struct has the number of its equals, and is
/// found in a time that doesn't depend on how many there are. Numbers past 2^32 count as want of memory.
#[derive(Drop)]
pub struct Shapes<'t> {
    rows: Vec<Row<'t>>,
    complete: Vec<u32>,
    numbers: Numbers,
    nothing: Shape,
}

impl<'t> Model for Shapes<'t> {
    ghost use Rattle.porch_check.specs.Shapes.{Shapes};
    ghost use Rattle.porch_scopes.specs.inside.Rows.{rows_of, AreSmall, IsNothing};
    ghost use Rattle.porch_scopes.specs.inside.Numbers.{AreNumbers};

    ghost Value = { Shapes };

    ghost view = { λ s. record { rows = rows_of s.rows.items; complete = s.complete.items } };

    ghost invariant = { λ s. AreNumbers (rows_of s.rows.items) s.numbers
        × IsNothing s.nothing × AreSmall (rows_of s.rows.items) };
}

impl<'t> Shapes<'t> {
    /// The kinds with their numbers, and void behind them.
    pub fn new(alloc: Global) -> Result<Shapes<'t>, AllocError>
        ensures { IfOk result (λ shapes. shapes ≡ first_shapes) }
    {
        let mut rows = Vec::with_capacity(alloc, 16)?;
        let mut complete = Vec::with_capacity(alloc, 16)?;
        put_kind(alloc, &mut rows, &mut complete, Kind::Char)?;
        put_kind(alloc, &mut rows, &mut complete, Kind::UChar)?;
        put_kind(alloc, &mut rows, &mut complete, Kind::Short)?;
        put_kind(alloc, &mut rows, &mut complete, Kind::UShort)?;
        put_kind(alloc, &mut rows, &mut complete, Kind::Int)?;
        put_kind(alloc, &mut rows, &mut complete, Kind::UInt)?;
        put_kind(alloc, &mut rows, &mut complete, Kind::Long)?;
        put_kind(alloc, &mut rows, &mut complete, Kind::ULong)?;
        put_void(alloc, &mut rows)?;
        Ok(Shapes {
            rows,
            complete,
            numbers: Numbers::new(alloc),
            nothing: Shape::Void,
        })
    }

    /// How many there are.
    pub fn len(&self) -> usize
        ensures { result ≡ length self.now.rows }
    {
        self.rows.len()
    }

    /// What a type is; void where there is none of the number.
    pub fn shape(&self, number: u32) -> &Shape
        ensures { as_shape result.now ≡ shape_of self.now number }
    {
        match self.rows.get(number as usize) {
            Some(row) => &row.shape,
            None => &self.nothing,
        }
    }

    /// The leaves of a type, where it is complete.
    pub fn leaves(&self, number: u32) -> Option<u64>
        ensures { result ≡ leaves_of self.now number }
    {
        match self.rows.get(number as usize) {
            Some(row) => row.leaves,
            None => None,
        }
    }

    /// Whether a type is complete.
    pub fn is_complete(&self, number: u32) -> bool
        ensures { result ≡ is_complete self.now number }
    {
        self.leaves(number).is_some()
    }

    /// The leaves of a complete type, and 0 for any other.
    pub fn size(&self, number: u32) -> u64
        ensures { result ≡ size_of self.now number }
    {
        match self.leaves(number) {
            Some(leaves) => leaves,
            None => 0,
        }
    }

    /// Whether a type is complete, or will be.
    pub fn is_ever_complete(&self, number: u32) -> bool
        ensures { result ≡ is_ever_complete self.now number }
    {
        match self.rows.get(number as usize) {
            Some(row) => row.leaves.is_some() || row.awaited,
            None => false,
        }
    }

    /// The member of a name, of a complete struct.
    pub fn member(&self, number: u32, name: &[u8]) -> Option<Member>
        ensures found { member_named name.now (members_of self.now number)
            ≡ option_map (as_member name.now) result }
        ensures small { IfSome result (λ m. m.leaf ≤ limits.MOST_LEAVES) }
    {
        member_in(&self.rows, number, name)
    }

    /// The member of a place in their order, of a complete struct.
    pub fn member_at(&self, number: u32, place: usize) -> Option<Member>
        ensures { option_map as_place result
            ≡ option_map place_of (slice_get (members_of self.now number) place) }
    {
        match self.rows.get(number as usize) {
            Some(row) => row.members.get(place),
            None => None,
        }
    }

    /// The number of the pointer to a type.
    pub fn pointer(&mut self, to: u32) -> Result<u32, AllocError>
        ensures number { IfOk result (λ n. numbered (pointer to) self.old ≡ (n, self.new)) }
        ensures failed { OnErr result (self.new ≡ self.old) }
    {
        match self.numbers.pointer(to) {
            Some(number) => return Ok(number),
            None => {}
        }
        let number = has_room(&mut self.rows, &mut self.complete)?;
        self.numbers.add_pointer(to, number)?;
        let alloc = *self.rows.allocator();
        put(
            &mut self.rows,
            &mut self.complete,
            Row::new(alloc, Shape::Pointer(to), Some(1)),
        );
        Ok(number)
    }

    /// The number of an array of a type, which is incomplete without a count. More than 2^64 leaves count as
    /// want of memory.
    pub fn array(&mut self, of: u32, count: Option<u64>) -> Result<u32, AllocError>
        ensures number { IfOk result (λ n. numbered (array of count) self.old ≡ (n, self.new)) }
        ensures failed { OnErr result (self.new ≡ self.old) }
    {
        match self.numbers.array(of, count) {
            Some(number) => return Ok(number),
            None => {}
        }
        let leaves = leaves_of_array(count, leaves_at(&self.rows, of))?;
        let number = has_room(&mut self.rows, &mut self.complete)?;
        self.numbers.add_array(of, count, number)?;
        let alloc = *self.rows.allocator();
        put(
            &mut self.rows,
            &mut self.complete,
            Row::new(alloc, Shape::Array(of, count), leaves),
        );
        Ok(number)
    }

    /// Whether an array of a complete type has at most 1,048,576 leaves. Products past 2^64 are none.
    pub fn is_small_array(&self, of: u32, count: Option<u64>) -> bool
        ensures { result ≡ is_small (numbered (array of count) self.now) }
    {
        match self.numbers.array(of, count) {
            Some(number) => self.size(number) <= MOST_LEAVES,
            None => are_few(count, leaves_at(&self.rows, of)),
        }
    }

    /// The number of a function with this result and these parameters.
    pub fn function(&mut self, gives: u32, params: &[u32]) -> Result<u32, AllocError>
        ensures number { IfOk result (λ n. numbered (function gives params.now) self.old
            ≡ (n, self.new)) }
        ensures failed { OnErr result (self.new ≡ self.old) }
    {
        let alloc = *self.rows.allocator();
        let types = signature(alloc, gives, params)?;
        match self.numbers.function(&types) {
            Some(number) => return Ok(number),
            None => {}
        }
        let params = Vec::from_slice(alloc, params)?;
        let number = has_room(&mut self.rows, &mut self.complete)?;
        self.numbers.add_function(types, number)?;
        put(
            &mut self.rows,
            &mut self.complete,
            Row::new(alloc, Shape::Function(gives, params), None),
        );
        Ok(number)
    }

    /// A new struct, still incomplete.
    pub fn structure(&mut self, awaited: bool) -> Result<u32, AllocError>
        ensures number { IfOk result (λ n. with_struct awaited self.old ≡ (n, self.new)) }
        ensures failed { OnErr result (self.new ≡ self.old) }
    {
        let number = has_room(&mut self.rows, &mut self.complete)?;
        let alloc = *self.rows.allocator();
        let mut row = Row::new(alloc, Shape::Structure(number), None);
        row.awaited = awaited;
        put(&mut self.rows, &mut self.complete, row);
        Ok(number)
    }

    /// Completes a struct by its members, which are no more than a type may have.
    pub fn complete(&mut self, number: u32, members: Members<'t>) -> Result<(), AllocError>
        requires structure { shape_of self.old number ≡ structure number }
        requires small { members.leaves ≤ limits.MOST_LEAVES }
        ensures completed { OnOk result (self.new
            ≡ completed number members.entry.list members.entry.leaves self.old) }
        ensures failed { OnErr result (self.new ≡ self.old) }
    {
        self.complete.push(number)?;
        let leaves = members.leaves();
        let row = Row {
            shape: Shape::Structure(number),
            leaves: Some(leaves),
            members,
            awaited: false,
        };
        set(&mut self.rows, number, row);
        Ok(())
    }
}

fn member_in<'t>(rows: &[Row<'t>], number: u32, name: &[u8]) -> Option<Member>
    ensures { member_named name.now (members_in_rows (rows_of rows.now) number)
        ≡ option_map (as_member name.now) result }
{
    match rows.get(number as usize) {
        Some(row) => row.members.find(name),
        None => None,
    }
}

fn leaves_at<'t>(rows: &[Row<'t>], number: u32) -> Option<u64>
    ensures { result ≡ leaves_in_rows (rows_of rows.now) number }
{
    match rows.get(number as usize) {
        Some(row) => row.leaves,
        None => None,
    }
}

fn are_few(count: Option<u64>, leaves: Option<u64>) -> bool
    ensures { result
        ≡ is_few (option_map_or (λ n. n) (array_leaves count leaves) 0) }
{
    match (count, leaves) {
        (Some(count), Some(leaves)) => match count.checked_mul(leaves) {
            None => false,
            Some(all) => all <= MOST_LEAVES,
        },
        (None, _) => true,
        (_, None) => true,
    }
}

fn leaves_of_array(count: Option<u64>, leaves: Option<u64>) -> Result<Option<u64>, AllocError>
    ensures { IfOk result (λ all. all ≡ array_leaves count leaves) }
{
    match count {
        None => Ok(None),
        Some(count) => match leaves {
            None => Ok(None),
            Some(leaves) => match count.checked_mul(leaves) {
                None => Err(AllocError),
                Some(all) => Ok(Some(all)),
            },
        },
    }
}

// A function's result, with its parameters behind.
fn signature(alloc: Global, gives: u32, params: &[u32]) -> Result<Vec<u32>, AllocError>
    ensures { IfOk result (λ types. types.items ≡ gives ∷ params.now) }
{
    let mut types = Vec::with_capacity(alloc, params.len())?;
    types.push(gives)?;
    types.extend_from_slice(params)?;
    Ok(types)
}

fn put_kind<'t>(
    alloc: Global,
    rows: &mut Vec<Row<'t>>,
    complete: &mut Vec<u32>,
    kind: Kind,
) -> Result<(), AllocError>
    ensures rows { OnOk result (rows_of rows.new.items
        ≡ rows_of rows.old.items ++ first_row (whole kind) (Some 1) ∷ []) }
    ensures complete { OnOk result (complete.new.items
        ≡ complete.old.items ++ kind_number kind ∷ []) }
{
    complete.push(kind.number())?;
    rows.push(Row::new(alloc, Shape::Whole(kind), Some(1)))?;
    Ok(())
}

fn put_void<'t>(alloc: Global, rows: &mut Vec<Row<'t>>) -> Result<(), AllocError>
    ensures rows { OnOk result (rows_of rows.new.items
        ≡ rows_of rows.old.items ++ first_row void None ∷ []) }
{
    rows.push(Row::new(alloc, Shape::Void, None))?;
    Ok(())
}
