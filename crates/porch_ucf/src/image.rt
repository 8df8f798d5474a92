//! A checkpoint: its header, its frames, its heap blocks and its data.

ghost use Rattle.std.specs.Prelude.{◌≡◌, ◌<◌, ◌^◌, length};
ghost use Rattle.porch_ucf.specs.Images.{IsImage};

use crate::header::Header;
use std::marker::Model;

/// A frame that waits at a call: the function and the number of the call in it.
#[derive(Clone, Copy, Debug, PartialEq, Eq)]
pub struct FrameRow {
    pub function: u32,
    pub call: u32,
}

/// A heap block of so many elements of a type.
#[derive(Clone, Copy, Debug, PartialEq, Eq)]
pub struct BlockRow {
    pub ty: u32,
    pub count: u32,
}

/// What a checkpoint holds. Its bytes are the packed values of the globals, of the variables of each
/// frame and of the heap blocks.
#[derive(Drop)]
pub struct Image {
    header: Header,
    frames: Vec<FrameRow>,
    blocks: Vec<BlockRow>,
    bytes: Vec<u8>,
}

impl Model for Image {
    ghost use Rattle.porch_ucf.specs.Images.{Checkpoint, IsImage};

    ghost Value = { Checkpoint };

    ghost view = { λ i. record {
      header = i.header;
      frames = i.frames.items;
      blocks = i.blocks.items;
      bytes = i.bytes.items;
    } };

    ghost invariant = { λ i. IsImage (record {
      header = i.header;
      frames = i.frames.items;
      blocks = i.blocks.items;
      bytes = i.bytes.items;
    }) };
}

impl Image {
    /// A checkpoint of these parts, whose numbers the header says. It takes no memory.
    pub fn new(
        header: Header,
        frames: Vec<FrameRow>,
        blocks: Vec<BlockRow>,
        bytes: Vec<u8>,
    ) -> Image
        requires { IsImage (record {
          header = header;
          frames = frames.items;
          blocks = blocks.items;
          bytes = bytes.items;
        }) }
        ensures { result ≡ record {
          header = header;
          frames = frames.items;
          blocks = blocks.items;
          bytes = bytes.items;
        } }
    {
        Image {
            header,
            frames,
            blocks,
            bytes,
        }
    }

    /// The header, which says how many frames and blocks there are and how many bytes they have with the
    /// data.
    pub fn header(&self) -> &Header
        ensures header { result.now ≡ self.now.header }
        ensures numbers { IsImage self.now }
        ensures few_frames { length self.now.frames < 2 ^ 32 }
        ensures few_blocks { length self.now.blocks < 2 ^ 32 }
    {
        let _frames = self.header.frames;
        let _blocks = self.header.blocks;
        &self.header
    }

    /// The frames, the outermost one first.
    pub fn frames(&self) -> &[FrameRow]
        ensures { result.now ≡ self.now.frames }
    {
        self.frames.as_slice()
    }

    /// The heap blocks, by their addresses when they were saved.
    pub fn blocks(&self) -> &[BlockRow]
        ensures { result.now ≡ self.now.blocks }
    {
        self.blocks.as_slice()
    }

    /// The data.
    pub fn bytes(&self) -> &[u8]
        ensures { result.now ≡ self.now.bytes }
    {
        self.bytes.as_slice()
    }
}
