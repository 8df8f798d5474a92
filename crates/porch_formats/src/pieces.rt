//! The pieces that are shown so far.

ghost use Rattle.std.specs.Prelude.{◌≡◌, ◌++◌, ◌∷◌, [], map, OnOk, IfOk};
ghost use Rattle.porch_typed.specs.Views.{print_of};
ghost use Rattle.porch_typed.specs.Mirror as tree;
ghost use Rattle.porch_formats.specs.inside.Shown.{with_run};

use porch_typed::Print;
use sqlite_items::Items;
use std::alloc::{AllocError, Global};

/// Pieces, and behind them bytes that none of them holds yet.
#[derive(Drop)]
pub(crate) struct Pieces {
    pub prints: Items<Print>,
    pub run: Items<u8>,
}

/// None.
pub(crate) fn no_pieces(alloc: Global) -> Pieces
    ensures prints { result.prints ≡ [] }
    ensures run { result.run ≡ [] }
{
    Pieces {
        prints: Items::new(alloc),
        run: Items::new(alloc),
    }
}

/// A byte behind them.
pub(crate) fn add_byte(pieces: &mut Pieces, byte: u8) -> Result<(), AllocError>
    ensures prints { OnOk result (pieces.new.prints ≡ pieces.old.prints) }
    ensures run { OnOk result (pieces.new.run ≡ pieces.old.run ++ byte ∷ []) }
{
    pieces.run.push(byte)
}

/// A piece that is no bytes behind them.
pub(crate) fn add_piece(alloc: Global, pieces: &mut Pieces, piece: Print) -> Result<(), AllocError>
    ensures prints { OnOk result (map print_of pieces.new.prints
        ≡ with_run (map print_of pieces.old.prints) pieces.old.run ++ print_of piece ∷ []) }
    ensures run { OnOk result (pieces.new.run ≡ []) }
{
    let run = std::mem::replace(&mut pieces.run, Items::new(alloc));
    add_run(&mut pieces.prints, run)?;
    pieces.prints.push(piece)
}

// A piece of bytes, where there are some.
fn add_run(prints: &mut Items<Print>, run: Items<u8>) -> Result<(), AllocError>
    ensures { OnOk result (map print_of prints.new
        ≡ with_run (map print_of prints.old) run) }
{
    if run.is_empty() {
        Ok(())
    } else {
        prints.push(bytes_piece(run))
    }
}

fn bytes_piece(run: Items<u8>) -> Print
    ensures { print_of result ≡ tree.bytes run }
{
    Print::Bytes(run)
}

/// All of them.
pub(crate) fn end_pieces(pieces: Pieces) -> Result<Items<Print>, AllocError>
    ensures { IfOk result (λ ps. map print_of ps
        ≡ with_run (map print_of pieces.prints) pieces.run) }
{
    let Pieces { mut prints, run } = pieces;
    add_run(&mut prints, run)?;
    Ok(prints)
}
