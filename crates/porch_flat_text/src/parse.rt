//! A program out of its text.

ghost use Rattle.std.specs.Prelude.{◌≡◌, IfOk, IfErr};
ghost use Rattle.porch_flat.specs.declared.whole.Flat.{Flat};
ghost use Rattle.porch_flat_line.specs.Text.{Text};
ghost use Rattle.porch_flat_text.specs.Fitting.{IsSayable};
ghost use Rattle.porch_flat_text.specs.Parsing.{Gives, IsRefused};
ghost use Rattle.porch_flat_text.specs.inside.Reads.{HasRead, IsEnded, IsParsed, IsRefusedBy, IsStoppedBy};
ghost use Rattle.porch_flat_text.specs.inside.Drafts.{empty_draft, is_whole};
ghost use Rattle.porch_flat_text.specs.declared.parse.FlatFault.TheVariants.{NoMemory};

use crate::cut::first_line;
use crate::draft::{Draft, into_flat, is_whole, start, take_line, type_count};
use porch_flat::whole::Flat;
use std::alloc::{AllocError, Global};
use thiserror::Error;

/// Why a text is not read.
#[derive(Clone, Copy, Debug, PartialEq, Eq, Error)]
pub enum FlatFault {
    /// The text is that of no program. The line, from 1, is the first that no program's text has there.
    #[error("line {line} is no line of a program")]
    FlatSyntax { line: u64 },
    #[error("no memory")]
    NoMemory,
}

impl From<AllocError> for FlatFault {
    ghost from_gives = { λ _ fault. fault ≡ NoMemory };

    fn from(_: AllocError) -> Self {
        FlatFault::NoMemory
    }
}

/// The program of a text. Each program has one text.
pub fn parse_flat(alloc: Global, text: &[u8]) -> Result<Flat, FlatFault>
    ensures read { IfOk result (λ flat. (Text flat ≡ text.now) × IsSayable flat) }
    ensures only { (flat : Flat) → IsSayable flat → Text flat ≡ text.now → Gives flat result }
    ensures refused { IfErr result (λ fault. IsRefused text.now fault) }
{
    read_flat(alloc, text)
}

fn read_flat(alloc: Global, text: &[u8]) -> Result<Flat, FlatFault>
    ensures parsed { IfOk result (λ flat. IsParsed text.now flat) }
    ensures refused { IfErr result (λ fault. IsRefusedBy text.now fault) }
{
    let mut draft = start(alloc)?;
    let (line, ended) = read_lines(alloc, &mut draft, text)?;
    if ended && is_whole(&draft) {
        Ok(into_flat(alloc, draft)?)
    } else {
        Err(FlatFault::FlatSyntax { line })
    }
}

/// Reads all whole lines. Answers the number of the line behind them, and whether the text ends there.
#[tactic(auto, using(crate::proofs::Reading::begun, crate::proofs::Reading::goes_on, crate::proofs::Reading::stops, crate::proofs::Reading::ends))]
fn read_lines(alloc: Global, draft: &mut Draft, text: &[u8]) -> Result<(u64, bool), FlatFault>
    requires { draft.old ≡ empty_draft }
    ensures ended { IfOk result (λ found. IsEnded text.now found.0 found.1 draft.new) }
    ensures stopped { IfErr result (λ fault. IsStoppedBy text.now fault) }
{
    let mut scratch = Vec::new(alloc);
    let mut rest = text;
    let mut line = 1u64;
    let _ = type_count(draft);
    while let Some((first, behind)) = first_line(rest) {
        if !take_line(alloc, draft, &mut scratch, first, behind)? {
            return Err(FlatFault::FlatSyntax { line });
        }
        rest = behind;
        line += 1;
        let _ = type_count(draft);
    }
    Ok((line, rest.is_empty()))
}
