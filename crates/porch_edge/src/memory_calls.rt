//! The calls that a disk in memory keeps, and what they do to its files.
ghost use Rattle.std.specs.Prelude.{◌≡◌, ◌≤◌, ◌<◌, ◌+◌, ◌-◌, ◌++◌, ◌^◌, [], ◌∷◌, length, take, drop, replicate, min, IfOk, OnOk, OnErr, vec_len, vec_capacity};
ghost use Rattle.porch_edge.specs.Files.{file_of, with_file, written};
ghost use Rattle.porch_edge.specs.inside.Kept.{Logged, Noted};

use crate::FileName;
use crate::contents::Contents;
use std::alloc::{AllocError, Global};

/// What a call does to its file.
#[derive(Clone, Copy)]
pub enum Change {
    /// Nothing.
    Nothing,
    /// A sync.
    Synced,
    /// A write of the places from the first up to the second.
    Write(u64, u64),
    /// A cut to a length.
    Cut(u64),
    /// Other bytes, all of them synced.
    Put,
}

/// One call on one file.
#[derive(Drop)]
pub struct Call {
    pub file: FileName,
    pub change: Change,
    /// The bytes of the file from before it, where it has changed them.
    pub before: Vec<u8>,
    /// Its moment, as one of all the calls and puts, from 1.
    pub moment: u64,
}

/// Keeps a call that changes no byte. Want of memory leaves everything as it was.
pub(crate) fn note(
    alloc: Global,
    calls: &mut Vec<Call>,
    file: FileName,
    change: Change,
    moment: u64,
) -> Result<(), AllocError>
    ensures ok { OnOk result (Noted calls.old.items calls.new.items file change moment) }
    ensures err { OnErr result (calls.new.items ≡ calls.old.items) }
{
    calls.reserve(1)?;
    let before = Vec::new(alloc);
    append(
        calls,
        Call {
            file,
            change,
            before,
            moment,
        },
    );
    Ok(())
}

/// Writes at a place of a file. Want of memory leaves everything as it was.
pub(crate) fn write(
    alloc: Global,
    files: &mut Contents,
    calls: &mut Vec<Call>,
    file: FileName,
    at: u64,
    bytes: &[u8],
    moment: u64,
) -> Result<(), AllocError>
    requires some { 0 < length bytes.now }
    requires short { at + length bytes.now ≤ 2 ^ 62 }
    ensures ok { OnOk result (Logged files.old files.new calls.old.items calls.new.items file
        (written (file_of file files.old) at bytes.now)
        (Change.Write (min at (length (file_of file files.old))) (at + length bytes.now))
        moment) }
    ensures files_err { OnErr result (files.new ≡ files.old) }
    ensures calls_err { OnErr result (calls.new.items ≡ calls.old.items) }
{
    let old = files.get(file);
    let from = at.min(old.len() as u64);
    let next = rewritten(alloc, old, at as usize, bytes)?;
    exchange(
        files,
        calls,
        file,
        Change::Write(from, at + bytes.len() as u64),
        next,
        moment,
    )
}

/// Cuts a file that is longer to a length. Want of memory leaves everything as it was.
pub(crate) fn cut(
    alloc: Global,
    files: &mut Contents,
    calls: &mut Vec<Call>,
    file: FileName,
    len: u64,
    moment: u64,
) -> Result<(), AllocError>
    requires { len < length (file_of file files.old) }
    ensures ok { OnOk result (Logged files.old files.new calls.old.items calls.new.items file
        (take len (file_of file files.old)) (Change.Cut len) moment) }
    ensures files_err { OnErr result (files.new ≡ files.old) }
    ensures calls_err { OnErr result (calls.new.items ≡ calls.old.items) }
{
    let next = files.get(file)[..len as usize].to_vec(alloc)?;
    exchange(files, calls, file, Change::Cut(len), next, moment)
}

/// Gives a file other bytes, synced. Want of memory leaves everything as it was.
pub(crate) fn put(
    alloc: Global,
    files: &mut Contents,
    calls: &mut Vec<Call>,
    file: FileName,
    bytes: &[u8],
    moment: u64,
) -> Result<(), AllocError>
    ensures ok { OnOk result (Logged files.old files.new calls.old.items calls.new.items file
        bytes.now Change.Put moment) }
    ensures files_err { OnErr result (files.new ≡ files.old) }
    ensures calls_err { OnErr result (calls.new.items ≡ calls.old.items) }
{
    let next = bytes.to_vec(alloc)?;
    exchange(files, calls, file, Change::Put, next, moment)
}

// Adds a call where there is room.
fn append(calls: &mut Vec<Call>, call: Call)
    requires { vec_len calls.old < vec_capacity calls.old }
    ensures { calls.new.items ≡ calls.old.items ++ call ∷ [] }
{
    let _ = calls.push(call);
}

// Gives a file other bytes, and keeps the call. Want of memory leaves everything as it was.
fn exchange(
    files: &mut Contents,
    calls: &mut Vec<Call>,
    file: FileName,
    change: Change,
    next: Vec<u8>,
    moment: u64,
) -> Result<(), AllocError>
    ensures ok { OnOk result (Logged files.old files.new calls.old.items calls.new.items file
        next.items change moment) }
    ensures files_err { OnErr result (files.new ≡ files.old) }
    ensures calls_err { OnErr result (calls.new.items ≡ calls.old.items) }
{
    calls.reserve(1)?;
    let before = files.replace(file, next);
    append(
        calls,
        Call {
            file,
            change,
            before,
            moment,
        },
    );
    Ok(())
}

// The bytes after a write that begins within them.
fn over(alloc: Global, old: &[u8], at: usize, bytes: &[u8]) -> Result<Vec<u8>, AllocError>
    requires inside { at ≤ length old.now }
    requires short { at + length bytes.now ≤ 2 ^ 62 }
    ensures { IfOk result
        (λ v. v.items ≡ take at old.now ++ bytes.now ++ drop (at + length bytes.now) old.now) }
{
    let mut next = old[..at].to_vec(alloc)?;
    next.extend_from_slice(bytes)?;
    let end = at + bytes.len();
    if end < old.len() {
        next.extend_from_slice(&old[end..])?;
    }
    Ok(next)
}

// The bytes after a write that begins past their end.
fn behind(alloc: Global, old: &[u8], at: usize, bytes: &[u8]) -> Result<Vec<u8>, AllocError>
    requires { length old.now < at }
    ensures { IfOk result
        (λ v. v.items ≡ (old.now ++ replicate (at - length old.now) 0) ++ bytes.now) }
{
    let mut next = old.to_vec(alloc)?;
    next.resize(at, 0)?;
    next.extend_from_slice(bytes)?;
    Ok(next)
}

// The bytes after a write.
fn rewritten(alloc: Global, old: &[u8], at: usize, bytes: &[u8]) -> Result<Vec<u8>, AllocError>
    requires some { 0 < length bytes.now }
    requires short { at + length bytes.now ≤ 2 ^ 62 }
    ensures { IfOk result (λ v. v.items ≡ written old.now at bytes.now) }
{
    if at <= old.len() {
        over(alloc, old, at, bytes)
    } else {
        behind(alloc, old, at, bytes)
    }
}
