//! What a crash leaves of the files of a disk in memory.
ghost use Rattle.std.specs.Prelude.{◌≡◌, ◌∷◌, ◌<◌, List, length, IsTrue, false, reverse};
ghost use Rattle.porch_edge.specs.declared.memory_calls.Call.{Call};
ghost use Rattle.porch_edge.specs.Calls.{index_of};
ghost use Rattle.porch_edge.specs.Files.{file_of, with_file};
ghost use Rattle.porch_edge.specs.declared.disk.FileName.{FileName};
ghost use Rattle.porch_edge.specs.Picks.{is_between, is_pending, painted, synced_bytes, revived};
ghost use Rattle.porch_edge.specs.inside.Undo.{left_to_undo};

use crate::FileName;
use crate::contents::Contents;
use crate::memory_calls::{Call, Change};
use crate::memory_plan::Pick;
use std::alloc::Global;

/// Makes of the files what a crash leaves by this pick, or leaves them where there was none. It takes no memory.
pub(crate) fn crash(alloc: Global, files: &mut Contents, calls: Vec<Call>, pick: Option<Pick>)
    ensures { (file : FileName)
        → file_of file files.new
        ≡ revived pick file (file_of file files.old) (reverse calls.items) }
{
    match pick {
        None | Some(Pick::New) => {}
        Some(Pick::Old) => undo_pending(files, calls),
        Some(Pick::Fill(byte)) => paint_files(alloc, files, &calls, byte),
    }
}

// A number for each file.
fn index_of(file: FileName) -> usize
    ensures is { result ≡ index_of file }
    ensures below { result < 6 }
{
    match file {
        FileName::Program => 0,
        FileName::Output => 1,
        FileName::CkA => 2,
        FileName::CkB => 3,
        FileName::Layouts => 4,
        FileName::Input => 5,
    }
}

// Puts one byte in the places from the first up to the second.
fn paint(bytes: &mut [u8], from: u64, to: u64, byte: u8)
    ensures { bytes.new ≡ painted (is_between from to) byte 0 bytes.old }
{
    for (place, slot) in bytes.iter_mut().enumerate() {
        if from as usize <= place && place < to as usize {
            *slot = byte;
        }
    }
}

// Puts one byte in the places that this call has made pending in a file, and answers whether an earlier call may
// have made others so.
fn paint_one(bytes: &mut [u8], call: &Call, file: FileName, byte: u8) -> bool
    ensures more { IsTrue result → (log : List Call)
        → painted (is_pending file log) byte 0 bytes.new
        ≡ painted (is_pending file (call.now ∷ log)) byte 0 bytes.old }
    ensures done { result ≡ false → (log : List Call)
        → bytes.new ≡ painted (is_pending file (call.now ∷ log)) byte 0 bytes.old }
{
    if index_of(call.file) != index_of(file) {
        return true;
    }
    match call.change {
        Change::Synced | Change::Put => false,
        Change::Write(from, to) => {
            paint(bytes, from, to, byte);
            true
        }
        Change::Cut(_) | Change::Nothing => true,
    }
}

// Puts one byte in each pending place of a file.
fn paint_pending(bytes: &mut [u8], calls: &[Call], file: FileName, byte: u8)
    ensures { bytes.new ≡ painted (is_pending file (reverse calls.now)) byte 0 bytes.old }
{
    let mut left = calls.len();
    while left > 0 {
        left -= 1;
        if !paint_one(bytes, &calls[left], file, byte) {
            return;
        }
    }
}

// Puts back the bytes from before a call, where its file hasn't come to its last sync yet.
fn undo_one(files: &mut Contents, settled: &mut [bool], call: Call)
    requires { length settled.old ≡ 6 }
    ensures { (file : FileName) → (log : List Call)
        → left_to_undo file files.new settled.new log
        ≡ left_to_undo file files.old settled.old (call ∷ log) }
{
    let Call {
        file,
        change,
        before,
        moment: _,
    } = call;
    let index = index_of(file);
    if settled[index] {
        return;
    }
    match change {
        Change::Nothing => {}
        Change::Synced | Change::Put => settled[index] = true,
        Change::Write(_, _) | Change::Cut(_) => {
            files.replace(file, before);
        }
    }
}

// Puts back what the last sync of each file left.
fn undo_pending(files: &mut Contents, mut calls: Vec<Call>)
    ensures { (file : FileName)
        → file_of file files.new
        ≡ synced_bytes file (file_of file files.old) (reverse calls.items) }
{
    let mut settled = [false; 6];
    while let Some(call) = calls.pop() {
        undo_one(files, &mut settled, call);
    }
}

// Puts one byte in each pending place of one file.
fn paint_file(alloc: Global, files: &mut Contents, calls: &[Call], file: FileName, byte: u8)
    ensures { files.new ≡ with_file file files.old
        (painted (is_pending file (reverse calls.now)) byte 0 (file_of file files.old)) }
{
    let mut bytes = files.replace(file, Vec::new(alloc));
    paint_pending(&mut bytes, calls, file, byte);
    files.replace(file, bytes);
}

// Puts one byte in each pending place.
fn paint_files(alloc: Global, files: &mut Contents, calls: &[Call], byte: u8)
    ensures { (file : FileName)
        → file_of file files.new
        ≡ painted (is_pending file (reverse calls.now)) byte 0 (file_of file files.old) }
{
    paint_file(alloc, files, calls, FileName::Program, byte);
    paint_file(alloc, files, calls, FileName::Output, byte);
    paint_file(alloc, files, calls, FileName::CkA, byte);
    paint_file(alloc, files, calls, FileName::CkB, byte);
    paint_file(alloc, files, calls, FileName::Layouts, byte);
    paint_file(alloc, files, calls, FileName::Input, byte);
}
