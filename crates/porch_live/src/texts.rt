//! Texts: the bytes that a pointer to a char names, up to a byte 0.
ghost use Rattle.std.specs.Prelude.{◌≡◌, ◌≤◌, ◌^◌, ℕ, List, Some, IfOk};
ghost use Rattle.porch_types.specs.declared.shapes.Ty.{Ty};
ghost use Rattle.porch_objects.specs.Meaning.{byte_of};
ghost use Rattle.porch_objects.specs.Pointers.{text, text_in};
ghost use Rattle.porch_live.specs.Views.{value_of};
ghost use Rattle.porch_live.specs.Answers.{text_of};
ghost use Rattle.porch_live.specs.inside.Texts.{byte_in};
ghost use Rattle.porch_live.specs.inside.Positions.{view_of};

use crate::positions::Position;
use crate::store::Store;
use crate::value::{Value, determined};
use porch_types::Types;
use porch_values::Act;
use std::alloc::{AllocError, Global};

impl Store {
    /// The text that a pointer to a char names: the bytes up to a byte 0, which must come in its row.
    /// `alloc` is the allocator, `pointee` the type that it points to.
    pub fn text(
        &self,
        alloc: Global,
        types: &Types,
        pointee: u32,
        p: Value,
    ) -> Result<Result<Vec<u8>, Act>, AllocError>
        ensures { IfOk result (λ answer. text_of answer
            ≡ text types.now pointee self.now (value_of p)) }
    {
        match determined(self.seen(p)) {
            Ok(p) => match self.position(types, pointee, p) {
                Some(position) => {
                    let answer = self.text_in(alloc, position)?;
                    Ok(answer)
                }
                None => Ok(Err(Act::Access)),
            },
            Err(act) => Ok(Err(act)),
        }
    }

    fn text_in(&self, alloc: Global, p: Position) -> Result<Result<Vec<u8>, Act>, AllocError>
        requires begun { p.row.first ≤ 2 ^ 52 }
        requires short { p.row.len ≤ 2 ^ 52 }
        requires index { p.index ≤ 2 ^ 53 }
        ensures { (types : List Ty) (pointee : ℕ) → IfOk result (λ answer. text_of answer
            ≡ text_in types pointee self.now (Some (view_of p))) }
    {
        let start = p.row.first + p.index;
        let count = p.row.len.saturating_sub(p.index);
        let mut bytes = Vec::new(alloc);
        for ahead in 0..count {
            let byte = match byte_in(self.seen(self.leaf(p.home, start + ahead))) {
                Ok(byte) => byte,
                Err(act) => return Ok(Err(act)),
            };
            if byte == 0 {
                return Ok(Ok(bytes));
            }
            bytes.push(byte)?;
        }
        Ok(Err(Act::Access))
    }
}

/// The byte of a number that is there.
fn byte_in(value: Value) -> Result<u8, Act>
    ensures { result ≡ byte_in (value_of value) }
{
    match value {
        Value::Number(number) => Ok(low_byte(number)),
        Value::Null => Err(Act::Indeterminate),
        Value::Pointer { home: _, leaf: _ } => Err(Act::Indeterminate),
        Value::Past {
            home: _,
            leaf: _,
            until: _,
        } => Err(Act::Indeterminate),
        Value::Indeterminate => Err(Act::Indeterminate),
    }
}

fn low_byte(number: i128) -> u8
    ensures { result ≡ byte_of number }
{
    number.rem_euclid(256).unsigned_abs() as u8
}
