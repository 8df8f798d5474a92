//! Where the objects of a checkpoint stand in its data.

ghost use Rattle.std.specs.Prelude.{◌≡◌, ◌≤◌, ◌<◌, ◌+◌, ◌^◌, ◌∷◌, [], length, All, IfOk, IfErr, OnOk, slice_get};
ghost use Rattle.std.specs.List.{flat_map, fold};
ghost use Rattle.porch_flat.specs.declared.whole.Sort.TheVariants as sort;
ghost use Rattle.porch_flat.specs.whole.Places.{vars_of};
ghost use Rattle.porch_flat.specs.whole.Rules.{IsValid};
ghost use Rattle.porch_ucf.specs.Objects.{objects_of, single, frame_objects, put_behind, nothing_placed, packed_size};
ghost use Rattle.porch_ucf.specs.inside.Placing.{IsFull};

use crate::fault::{ImageFault, Reason};
use crate::header::{BODY_AT, damaged};
use crate::image::{BlockRow, FrameRow};
use porch_find::Root;
use porch_flat::GlobalObject;
use porch_flat::whole::Flat;
use porch_metrics::Metrics;
use std::alloc::Global;
use std::marker::Model;

/// The objects that stand in the data so far, and where they end.
#[derive(Drop)]
pub(crate) struct Placing {
    roots: Vec<Root>,
    end: u64,
}

impl Model for Placing {
    ghost use Rattle.porch_ucf.specs.Objects.{Placed};

    ghost Value = { Placed };

    ghost view = { λ p. record { roots = p.roots.items; end = p.end } };
}

impl Placing {
    pub(crate) fn new(alloc: Global) -> Placing
        ensures { result ≡ nothing_placed }
    {
        Placing {
            roots: Vec::new(alloc),
            end: 0,
        }
    }

    /// Where the objects end.
    pub(crate) fn end(&self) -> u64
        ensures { result ≡ self.now.end }
    {
        self.end
    }

    /// The objects in order.
    pub(crate) fn into_roots(self) -> Vec<Root>
        ensures { result.items ≡ self.roots }
    {
        let Placing { roots, end: _ } = self;
        roots
    }

    /// Puts an object behind the others, where it ends within the data.
    fn put(&mut self, metrics: &Metrics, most: u64, object: BlockRow) -> Result<(), ImageFault>
        requires known { object.ty < length metrics.now.types }
        requires within { self.old.end ≤ most }
        requires few { most < 2 ^ 63 }
        ensures put { OnOk result (self.new ≡ put_behind metrics.now.types self.old object) }
        ensures within { OnOk result (self.new.end ≤ most) }
        ensures full { IfErr result
            (λ fault. IsFull most (put_behind metrics.now.types self.old object).end fault) }
    {
        let size = packed_size(metrics, object);
        if most - self.end < size {
            return Err(damaged(BODY_AT, Reason::Size));
        }
        self.roots.push(Root {
            at: self.end,
            ty: object.ty,
            count: object.count,
        })?;
        self.end += size;
        Ok(())
    }

    /// Puts the objects of a checkpoint behind the others: the globals, the variables of each frame, the
    /// heap blocks.
    pub(crate) fn put_all(
        &mut self,
        metrics: &Metrics,
        most: u64,
        program: &Flat,
        frames: &[FrameRow],
        blocks: &[BlockRow],
    ) -> Result<(), ImageFault>
        requires valid { IsValid sort.Rewritten program.now }
        requires types { metrics.now.types ≡ program.now.types }
        requires known { All (λ block. block.ty < length program.now.types) blocks.now }
        requires within { self.old.end ≤ most }
        requires few { most < 2 ^ 63 }
        ensures put { OnOk result (self.new ≡ fold (put_behind metrics.now.types) self.old
            (objects_of program.now frames.now blocks.now)) }
        ensures within { OnOk result (self.new.end ≤ most) }
        ensures full { IfErr result (λ fault. IsFull most (fold (put_behind metrics.now.types)
            self.old (objects_of program.now frames.now blocks.now)).end fault) }
    {
        self.put_globals(metrics, most, program.globals.as_slice())?;
        self.put_frames(metrics, most, program, frames)?;
        self.put_blocks(metrics, most, blocks)
    }

    /// Puts the globals behind the others.
    fn put_globals(
        &mut self,
        metrics: &Metrics,
        most: u64,
        globals: &[GlobalObject],
    ) -> Result<(), ImageFault>
        requires known { All (λ g. g.ty < length metrics.now.types) globals.now }
        requires within { self.old.end ≤ most }
        requires few { most < 2 ^ 63 }
        ensures put { OnOk result (self.new ≡ fold (put_behind metrics.now.types) self.old
            (flat_map (λ g. single g.ty) globals.now)) }
        ensures within { OnOk result (self.new.end ≤ most) }
        ensures full { IfErr result (λ fault. IsFull most (fold (put_behind metrics.now.types)
            self.old (flat_map (λ g. single g.ty) globals.now)).end fault) }
    {
        for global in globals {
            let ty = global.ty;
            self.put(metrics, most, BlockRow { ty, count: 1 })?;
        }
        Ok(())
    }

    /// Puts variables of these types behind the others.
    fn put_variables(&mut self, metrics: &Metrics, most: u64, tys: &[u32]) -> Result<(), ImageFault>
        requires known { All (λ ty. ty < length metrics.now.types) tys.now }
        requires within { self.old.end ≤ most }
        requires few { most < 2 ^ 63 }
        ensures put { OnOk result
            (self.new ≡ fold (put_behind metrics.now.types) self.old (flat_map single tys.now)) }
        ensures within { OnOk result (self.new.end ≤ most) }
        ensures full { IfErr result (λ fault. IsFull most
            (fold (put_behind metrics.now.types) self.old (flat_map single tys.now)).end fault) }
    {
        for ty in tys {
            self.put(metrics, most, BlockRow { ty: *ty, count: 1 })?;
        }
        Ok(())
    }

    /// Puts the variables of each frame behind the others.
    fn put_frames(
        &mut self,
        metrics: &Metrics,
        most: u64,
        program: &Flat,
        frames: &[FrameRow],
    ) -> Result<(), ImageFault>
        requires known { All (λ frame. All (λ ty. ty < length metrics.now.types)
            (vars_of (slice_get program.now.functions frame.function))) frames.now }
        requires within { self.old.end ≤ most }
        requires few { most < 2 ^ 63 }
        ensures put { OnOk result (self.new ≡ fold (put_behind metrics.now.types) self.old
            (flat_map (frame_objects program.now) frames.now)) }
        ensures within { OnOk result (self.new.end ≤ most) }
        ensures full { IfErr result (λ fault. IsFull most (fold (put_behind metrics.now.types)
            self.old (flat_map (frame_objects program.now) frames.now)).end fault) }
    {
        for frame in frames {
            let variables = variables_of(program, frame.function);
            self.put_variables(metrics, most, variables)?;
        }
        Ok(())
    }

    /// Puts heap blocks behind the others.
    fn put_blocks(
        &mut self,
        metrics: &Metrics,
        most: u64,
        blocks: &[BlockRow],
    ) -> Result<(), ImageFault>
        requires known { All (λ block. block.ty < length metrics.now.types) blocks.now }
        requires within { self.old.end ≤ most }
        requires few { most < 2 ^ 63 }
        ensures put { OnOk result (self.new ≡ fold (put_behind metrics.now.types) self.old
            (flat_map (λ block. block ∷ []) blocks.now)) }
        ensures within { OnOk result (self.new.end ≤ most) }
        ensures full { IfErr result (λ fault. IsFull most (fold (put_behind metrics.now.types)
            self.old (flat_map (λ block. block ∷ []) blocks.now)).end fault) }
    {
        for block in blocks {
            self.put(metrics, most, *block)?;
        }
        Ok(())
    }
}

/// The types of the variables of a function.
fn variables_of(program: &Flat, function: u32) -> &[u32]
    ensures { result.now ≡ vars_of (slice_get program.now.functions function) }
{
    match program.functions.get(function as usize) {
        Some(function) => function.vars.as_slice(),
        None => &[],
    }
}

/// How many bytes an object has in the data.
fn packed_size(metrics: &Metrics, object: BlockRow) -> u64
    requires { object.ty < length metrics.now.types }
    ensures { result ≡ packed_size metrics.now.types object }
{
    let _leaves = metrics.types().leaves(object.ty);
    u64::from(object.count) * metrics.ucf_size(object.ty)
}
