//! Reading a checkpoint.

ghost use Rattle.std.specs.Prelude.{◌≡◌, ◌≤◌, ◌<◌, ◌+◌, ◌-◌, ◌⊎◌, ◌++◌, ℕ, List, length, drop, take, All, IfOk, IfErr, OnOk, None, Some};
ghost use Rattle.porch_flat.specs.declared.whole.Sort.TheVariants as sort;
ghost use Rattle.porch_flat.specs.whole.Rules.{IsValid};
ghost use Rattle.porch_layout.specs.Layouts.{IsLayout};
ghost use Rattle.porch_ucf.specs.declared.leaves.Sought.TheVariants as sought;
ghost use Rattle.porch_ucf.specs.DataFlaws.{IsFaultless, IsFirstFaulty};
ghost use Rattle.sha2.specs.Sha256.{sha256};
ghost use Rattle.porch_flat_line.specs.Text.{Text};
ghost use Rattle.porch_ucf.specs.Files.{file_of};
ghost use Rattle.porch_ucf.specs.FirstFlaw.{IsFirstFlaw, IsFlawless};
ghost use Rattle.porch_ucf.specs.Headers.{header_of};
ghost use Rattle.porch_ucf.specs.Images.{Checkpoint, rows_size};
ghost use Rattle.porch_ucf.specs.Laws.{IsOpen, IsReadable, IsReadTo, IsResumable};
ghost use Rattle.porch_ucf.specs.Reading.{bytes_in, image_of};
ghost use Rattle.porch_ucf.specs.inside.Checked.{IsDataFlaw, IsDataSound, IsFlaw, IsSound};
ghost use Rattle.porch_ucf.specs.inside.Leaves.{ArePlaced, ArePointees, EndWithin};

use crate::body::place_objects;
use crate::fault::ImageFault;
use crate::front::{read_front, rows_size};
use crate::header::{HEADER_BYTES, Header};
use crate::image::Image;
use crate::laws::{files_are_read_back, files_are_spelled, first_flaws_are_one};
use crate::leaves::{Sought, check_leaves};
use crate::resumable::{check_blocks, check_frames};
use crate::rows::{read_blocks, read_frames};
use crate::saved::saved_places;
use crate::write::SEAL_BYTES;
use porch_find::Roots;
use porch_flat::whole::{Flat, Valid};
use porch_layout::Layout;
use porch_metrics::Metrics;
use std::alloc::Global;

/// The checkpoint of an open file, for the program whose text has this digest, or the file's first flaw.
pub fn read_image(
    alloc: Global,
    program: &Valid,
    digest: &[u8; 32],
    text: &[u8],
    layout: &Layout,
) -> Result<Image, ImageFault>
    requires open { SEAL_BYTES ≤ length text.now }
    requires layout { IsLayout layout.now }
    ensures image { IfOk result (λ image. image ≡ image_of text.now) }
    ensures sound { OnOk result
        (IsFlawless layout.now.long program.now digest.now text.now) }
    ensures flaw { IfErr result (λ fault. (fault ≡ ImageFault.NoMemory)
        ⊎ IsFirstFlaw layout.now.long program.now digest.now text.now fault) }
    ensures again { (c : Checkpoint) (rest : List ℕ)
        → IsReadable layout.now.long program.now c → digest.now ≡ sha256 (Text program.now)
        → text.now ≡ file_of c ++ rest → IsReadTo c result }
    ensures begins { IsOpen text.now → IfOk result (λ image. file_of image
        ≡ take (SEAL_BYTES + image.header.body) text.now) }
    ensures good { digest.now ≡ sha256 (Text program.now)
        → IfOk result (IsResumable layout.now.long program.now) }
{
    files_are_spelled();
    files_are_read_back();
    first_flaws_are_one();
    read_flawless(alloc, program, digest, text, layout)
}

/// The same, by the flaws of the file.
fn read_flawless(
    alloc: Global,
    program: &Valid,
    digest: &[u8; 32],
    text: &[u8],
    layout: &Layout,
) -> Result<Image, ImageFault>
    requires open { SEAL_BYTES ≤ length text.now }
    requires layout { IsLayout layout.now }
    ensures image { IfOk result (λ image. image ≡ image_of text.now) }
    ensures sound { OnOk result
        (IsFlawless layout.now.long program.now digest.now text.now) }
    ensures flaw { IfErr result (λ fault. (fault ≡ ImageFault.NoMemory)
        ⊎ IsFirstFlaw layout.now.long program.now digest.now text.now fault) }
{
    let header = read_front(digest, text)?;
    let image = read_unchecked(alloc, header, text)?;
    match check_image(alloc, program.flat(), layout, &image) {
        Ok(()) => Ok(image),
        Err(fault) => Err(fault),
    }
}

/// What a file holds whose front has no flaw.
fn read_unchecked(alloc: Global, header: Header, text: &[u8]) -> Result<Image, ImageFault>
    requires header { header ≡ header_of text.now }
    requires whole { SEAL_BYTES + header.body ≤ length text.now }
    requires rows { rows_size header.frames header.blocks ≤ header.body }
    ensures image { IfOk result (λ image. image ≡ image_of text.now) }
    ensures memory { IfErr result (λ fault. fault ≡ ImageFault.NoMemory) }
{
    let count = header.frames as usize;
    let frames = read_frames(alloc, text, count)?;
    let blocks = read_blocks(alloc, text, count, header.blocks as usize)?;
    let bytes = Vec::from_slice(alloc, bytes_in(text, &header))?;
    Ok(Image::new(header, frames, blocks, bytes))
}

/// The data of a file: what the body holds behind the rows.
fn bytes_in<'a>(text: &'a [u8], header: &Header) -> &'a [u8]
    requires whole { SEAL_BYTES + header.now.body ≤ length text.now }
    requires rows { rows_size header.now.frames header.now.blocks ≤ header.now.body }
    ensures { result.now ≡ bytes_in text.now
        (rows_size header.now.frames header.now.blocks) header.now.body }
{
    let begin = HEADER_BYTES + rows_size(header) as usize;
    &text[begin..HEADER_BYTES + header.body as usize]
}

/// Refuses a checkpoint with a flaw behind its front.
fn check_image(
    alloc: Global,
    program: &Flat,
    layout: &Layout,
    image: &Image,
) -> Result<(), ImageFault>
    requires valid { IsValid sort.Rewritten program.now }
    requires layout { IsLayout layout.now }
    ensures sound { OnOk result (IsSound layout.now.long program.now image.now) }
    ensures flaw { IfErr result (IsFlaw layout.now.long program.now image.now) }
{
    let header = image.header();
    let count = header.frames as usize;
    let saved = saved_places(alloc, program)?;
    check_frames(program, &saved, image.frames())?;
    check_blocks(&program.types, count, image.blocks())?;
    let metrics = Metrics::new(alloc, &program.types, layout)?;
    check_data(alloc, program, &metrics, image)
}

/// Refuses a checkpoint whose data has a flaw.
fn check_data(
    alloc: Global,
    program: &Flat,
    metrics: &Metrics,
    image: &Image,
) -> Result<(), ImageFault>
    requires valid { IsValid sort.Rewritten program.now }
    requires types { metrics.now.types ≡ program.now.types }
    requires known { All (λ block. block.ty < length program.now.types) image.now.blocks }
    ensures sound { OnOk result (IsDataSound metrics.now.layout.long program.now image.now) }
    ensures flaw { IfErr result (IsDataFlaw metrics.now.layout.long program.now image.now) }
{
    let _layout = metrics.layout();
    let roots = place_objects(
        alloc,
        program,
        metrics,
        image.frames(),
        image.blocks(),
        image.bytes(),
    )?;
    check_values(alloc, metrics, &Roots::from_vec(roots), image)
}

/// Refuses a checkpoint with a word that names nothing, or a long value that has no room.
fn check_values(
    alloc: Global,
    metrics: &Metrics,
    objects: &Roots,
    image: &Image,
) -> Result<(), ImageFault>
    requires placed { ArePlaced metrics.now.types objects.now.items }
    requires pointees { ArePointees metrics.now.types }
    requires inside { EndWithin metrics.now.types objects.now.items (length image.now.bytes) }
    ensures words { OnOk result
        (IsFaultless sought.Words metrics.now.types objects.now.items image.now) }
    ensures values { OnOk result (IsFaultless (sought.Values metrics.now.layout.long)
        metrics.now.types objects.now.items image.now) }
    ensures flaw { IfErr result (λ fault. (fault ≡ ImageFault.NoMemory)
        ⊎ (IsFirstFaulty sought.Words metrics.now.types objects.now.items image.now fault
        ⊎ (IsFaultless sought.Words metrics.now.types objects.now.items image.now
        × IsFirstFaulty (sought.Values metrics.now.layout.long) metrics.now.types
        objects.now.items image.now fault))) }
{
    let layout = metrics.layout();
    check_leaves(alloc, Sought::Words, metrics, objects, image)?;
    check_leaves(
        alloc,
        Sought::Values { long: layout.long },
        metrics,
        objects,
        image,
    )
}
