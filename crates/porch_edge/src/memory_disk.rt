//! A disk in memory, for tests and drills. Its calls can be made to fail, and it can be stopped in one of them.
ghost use Rattle.std.specs.Prelude.{◌≡◌, ◌<◌, ◌≤◌, ◌+◌, ◌-◌, ◌^◌, ◌++◌, length, take, drop, min, reverse, OnOk, OnErr};
ghost use Rattle.porch_edge.specs.Causes.{Rose, HasCause, faults_after};
ghost use Rattle.porch_edge.specs.Calls.{end_of_time};
ghost use Rattle.porch_edge.specs.Plan.{next_fate, plan_after};
ghost use Rattle.porch_edge.specs.inside.Kept.{Kept, last_moment, next_moment};
ghost use Rattle.porch_edge.specs.inside.Props.{kept_prop};

use crate::contents::Contents;
use crate::disk::LONGEST;
use crate::memory_calls::{self, Call, Change};
use crate::memory_plan::{Fate, Plan, Stop};
use crate::{Disk, Failed, FileName, memory_picks};
use std::alloc::{AllocError, Global};

/// From this moment on no file is put: in the last one no call goes.
const LAST_PUT: u64 = u64::MAX - 1;

/// Six files in memory. It keeps a list of its calls, with the bytes that each has changed. Each call has a moment, one
/// that fails without effect too. After 2^64 - 1 moments, which no run comes to, each call fails and changes nothing.
#[derive(Drop)]
pub struct MemDisk {
    alloc: Global,
    files: Contents,
    calls: Vec<Call>,
    plan: Plan,
    // How many calls and puts there were, up to its last value.
    clock: u64,
    // How many calls have failed, up to its last value.
    faults: u64,
    ghost kept: { Kept files (reverse calls.items) } by { kept_prop files (reverse calls.items) },
    ghost past: { last_moment (reverse calls.items) ≤ clock },
}

impl MemDisk {
    ghost use Rattle.std.specs.Prelude.{◌≡◌, ◌⊎◌, ◌+◌, IsErr, OnOk, OnErr};
    ghost use Rattle.porch_edge.specs.Causes.{HasCause, faults_after};
    ghost use Rattle.porch_edge.specs.Files.{Files, no_files, file_of, with_file};
    ghost use Rattle.porch_edge.specs.Disk.{Stays, Ticks, Turned, Follows, Passes};
    ghost use Rattle.porch_edge.specs.Memory.{mem_state, files_held, plan_of, moment_of, after_crash, IsFresh, IsUntouched, IsDurable, Obeys};
    ghost use Rattle.porch_edge.specs.Plan.{plan_to_fail, plan_to_stop};
    ghost use Rattle.porch_edge.specs.declared.disk.FileName.{FileName};
    ghost use Rattle.porch_edge.specs.declared.memory_calls.Change.TheVariants.{Nothing, Synced};
    ghost use Rattle.porch_edge.specs.declared.memory_plan.Fate.TheVariants.{Goes, Fails};

    /// Six empty files with nothing pending, and no call made. It takes no memory.
    pub fn new(alloc: Global) -> MemDisk
        ensures empty { files_held result ≡ no_files }
        ensures settled { (file : FileName) → IsDurable result file }
        ensures fresh { IsFresh result }
        ensures faults { result.faults ≡ 0 }
    {
        MemDisk {
            alloc,
            files: Contents::empty(alloc),
            calls: Vec::new(alloc),
            plan: Plan::new(),
            clock: 0,
            faults: 0,
        }
    }

    /// The bytes of a file, as a read gives them.
    pub fn file(&self, file: FileName) -> &[u8]
        ensures { result.now ≡ file_of file (files_held self.now) }
    {
        self.files.get(file)
    }

    /// Makes the call with this number fail without effect, where it is still to come and the disk hasn't stopped.
    /// Of several such calls the last holds.
    pub fn fail_at(&mut self, call: u64)
        ensures plan { plan_of self.new ≡ plan_to_fail (plan_of self.old) call }
        ensures same { IsUntouched self.old self.new }
        ensures moment { moment_of self.new ≡ moment_of self.old }
        ensures faults { self.new.faults ≡ self.old.faults }
    {
        self.plan.fail_at(call);
    }

    /// Makes the call of this number take effect as pending and fail, and every later one fail, where it is still
    /// to come and the disk hasn't stopped. Of several stops the last holds. Where a call is named here and to
    /// `fail_at`, it is a stop.
    pub fn stop_at(&mut self, stop: Stop)
        ensures plan { plan_of self.new ≡ plan_to_stop (plan_of self.old) stop }
        ensures same { IsUntouched self.old self.new }
        ensures moment { moment_of self.new ≡ moment_of self.old }
        ensures faults { self.new.faults ≡ self.old.faults }
    {
        self.plan.stop_at(stop);
    }

    /// Replaces a file, with nothing pending in it. It has a moment of its own, as a call has. A file of more than
    /// 2^62 bytes is refused as one for which there is no memory, and so is every file when just the last moment is
    /// left.
    pub fn put(&mut self, file: FileName, bytes: &[u8]) -> Result<(), AllocError>
        ensures has { OnOk result
            (files_held self.new ≡ with_file file (files_held self.old) bytes.now) }
        ensures leaves { OnOk result
            (Follows file (λ _ c. c ≡ bytes.now)
            (mem_state self.old).leaves (mem_state self.new).leaves) }
        ensures moment { OnOk result (moment_of self.new ≡ moment_of self.old + 1) }
        ensures time { OnOk result (Passes (mem_state self.old) (mem_state self.new)
            (Turned file (λ _ c. c ≡ bytes.now) (mem_state self.old).leaves)) }
        ensures refused { OnErr result (IsUntouched self.old self.new) }
        ensures still { OnErr result (moment_of self.new ≡ moment_of self.old) }
        ensures plan { plan_of self.new ≡ plan_of self.old }
        ensures faults { self.new.faults ≡ self.old.faults }
    {
        if bytes.len() as u64 > LONGEST || self.clock >= LAST_PUT {
            return Err(AllocError);
        }
        let moment = self.clock + 1;
        memory_calls::put(
            self.alloc,
            &mut self.files,
            &mut self.calls,
            file,
            bytes,
            moment,
        )?;
        self.clock = moment;
        Ok(())
    }

    /// The disk after the crash, where it has stopped: its content is then the one that the pick names, and else the
    /// one that reads give. Its calls and moments are numbered from 1 again, and none is to fail. It takes no memory.
    pub fn revive(self) -> MemDisk
        ensures content { (file : FileName)
            → file_of file (files_held result) ≡ after_crash self file }
        ensures leaves { (mem_state self).leaves (files_held result) }
        ensures settled { (file : FileName) → IsDurable result file }
        ensures fresh { IsFresh result }
        ensures faults { result.faults ≡ self.faults }
    {
        let MemDisk {
            alloc,
            mut files,
            calls,
            plan,
            clock: _,
            faults,
        } = self;
        memory_picks::crash(alloc, &mut files, calls, plan.stopped);
        MemDisk {
            alloc,
            files,
            calls: Vec::new(alloc),
            plan: Plan::new(),
            clock: 0,
            faults,
        }
    }

    // A call that fails without effect.
    fn refused(&mut self) -> Result<(), Failed>
        ensures failed { IsErr result }
        ensures stays { Stays (mem_state self.old) (mem_state self.new)
            (files_held self.old) (files_held self.new) }
        ensures ticks { Ticks (mem_state self.old) (mem_state self.new)
            (files_held self.old) (files_held self.new) result }
        ensures obeys { (files : Files) → Obeys self.old self.new files result }
        ensures cause { HasCause self.old.faults self.new.faults result }
        ensures counted { self.new.faults ≡ faults_after self.old.faults result }
    {
        begin(&mut self.plan, &mut self.clock);
        Err(counted(&mut self.faults))
    }

    // A call that changes no byte.
    fn noted(&mut self, file: FileName, change: Change) -> Result<(), Failed>
        requires { (change ≡ Nothing) ⊎ (change ≡ Synced) }
        ensures stays { Stays (mem_state self.old) (mem_state self.new)
            (files_held self.old) (files_held self.new) }
        ensures ticks { Ticks (mem_state self.old) (mem_state self.new)
            (files_held self.old) (files_held self.new) result }
        ensures durable { change ≡ Synced → OnOk result (IsDurable self.new file) }
        ensures obeys { Obeys self.old self.new (files_held self.old) result }
        ensures cause { HasCause self.old.faults self.new.faults result }
        ensures counted { self.new.faults ≡ faults_after self.old.faults result }
    {
        match begin(&mut self.plan, &mut self.clock) {
            Fate::Goes => {}
            Fate::Fails | Fate::Stops => return Err(counted(&mut self.faults)),
        }
        match memory_calls::note(self.alloc, &mut self.calls, file, change, self.clock) {
            Ok(()) => Ok(()),
            Err(_) => Err(counted(&mut self.faults)),
        }
    }
}

impl Disk for MemDisk {
    ghost use Rattle.std.specs.Prelude.{IfOk};
    ghost use Rattle.porch_edge.specs.Causes.{HasCause, faults_after};
    ghost use Rattle.porch_edge.specs.Files.{file_of, with_file, written};
    ghost use Rattle.porch_edge.specs.Disk.{LenStep, ReadStep, WriteStep, CutStep, SyncStep};
    ghost use Rattle.porch_edge.specs.Memory.{mem_state, files_held, Obeys};
    ghost use Rattle.porch_edge.specs.inside.MemoryLaws.{reads_leave, counts_now, only_now, up_to_now};

    ghost state = { mem_state };

    ghost faults = { λ d. d.faults };

    fn len(&mut self, file: FileName) -> Result<u64, Failed>
        ensures within { IfOk result (λ n. n ≤ 2 ^ 62) }
        ensures step { LenStep (mem_state self.old) (mem_state self.new) file result }
        ensures cause { HasCause self.old.faults self.new.faults result }
        ensures counted { self.new.faults ≡ faults_after self.old.faults result }
        ensures obeys { Obeys self.old self.new (files_held self.old) result }
    {
        self.noted(file, Change::Nothing)?;
        Ok(self.files.get(file).len() as u64)
    }

    fn read(&mut self, file: FileName, at: u64, buf: &mut [u8]) -> Result<usize, Failed>
        ensures bound { IfOk result (λ n. n ≤ length buf.new) }
        ensures within { IfOk result (λ n. 0 < n → at + n ≤ 2 ^ 62) }
        ensures step { ReadStep (mem_state self.old) (mem_state self.new)
            file at buf.old buf.new result }
        ensures cause { HasCause self.old.faults self.new.faults result }
        ensures counted { self.new.faults ≡ faults_after self.old.faults result }
        ensures obeys { Obeys self.old self.new (files_held self.old) result }
    {
        self.noted(file, Change::Nothing)?;
        Ok(copy_from(self.files.get(file), at, buf))
    }

    fn write_at(&mut self, file: FileName, at: u64, bytes: &[u8]) -> Result<(), Failed>
        ensures within { OnOk result (at + length bytes.now ≤ 2 ^ 62) }
        ensures step { WriteStep (mem_state self.old) (mem_state self.new)
            file at bytes.now result }
        ensures cause { HasCause self.old.faults self.new.faults result }
        ensures counted { self.new.faults ≡ faults_after self.old.faults result }
        ensures obeys { Obeys self.old self.new
            (with_file file (files_held self.old)
            (written (file_of file (files_held self.old)) at bytes.now))
            result }
    {
        if at > LONGEST || bytes.len() as u64 > LONGEST - at {
            return self.refused();
        }
        if bytes.is_empty() {
            return self.noted(file, Change::Nothing);
        }
        let fate = begin(&mut self.plan, &mut self.clock);
        if let Fate::Fails = fate {
            return Err(counted(&mut self.faults));
        }
        let done = memory_calls::write(
            self.alloc,
            &mut self.files,
            &mut self.calls,
            file,
            at,
            bytes,
            self.clock,
        );
        answer(fate, done, &mut self.faults)
    }

    fn cut(&mut self, file: FileName, len: u64) -> Result<(), Failed>
        ensures within { OnOk result (len ≤ 2 ^ 62) }
        ensures step { CutStep (mem_state self.old) (mem_state self.new) file len result }
        ensures cause { HasCause self.old.faults self.new.faults result }
        ensures counted { self.new.faults ≡ faults_after self.old.faults result }
        ensures obeys { Obeys self.old self.new
            (with_file file (files_held self.old) (take len (file_of file (files_held self.old))))
            result }
    {
        if len > LONGEST {
            return self.refused();
        }
        if self.files.get(file).len() as u64 <= len {
            return self.noted(file, Change::Nothing);
        }
        let fate = begin(&mut self.plan, &mut self.clock);
        if let Fate::Fails = fate {
            return Err(counted(&mut self.faults));
        }
        let done = memory_calls::cut(
            self.alloc,
            &mut self.files,
            &mut self.calls,
            file,
            len,
            self.clock,
        );
        answer(fate, done, &mut self.faults)
    }

    fn sync(&mut self, file: FileName) -> Result<(), Failed>
        ensures step { SyncStep (mem_state self.old) (mem_state self.new) file result }
        ensures cause { HasCause self.old.faults self.new.faults result }
        ensures counted { self.new.faults ≡ faults_after self.old.faults result }
        ensures obeys { Obeys self.old self.new (files_held self.old) result }
    {
        self.noted(file, Change::Synced)
    }

    ghost reads_leave = { λ d. reads_leave d.files (reverse d.calls.items) d.kept };

    ghost counts_now = { λ d. counts_now d.files (reverse d.calls.items) d.clock d.past };

    ghost only_now = { λ d. only_now d.files (reverse d.calls.items) d.clock d.past };

    ghost up_to_now = { λ d. up_to_now d.files (reverse d.calls.items) d.clock };

    ghost is_within = { λ d. d.kept.within };
}

// Counts the next call, and answers what is to come of it. In the last moment none goes.
fn begin(plan: &mut Plan, clock: &mut u64) -> Fate
    ensures planned { plan.new ≡ plan_after plan.old }
    ensures moment { clock.new ≡ next_moment clock.old }
    ensures within { clock.old ≤ end_of_time }
    ensures fails { next_fate plan.old ≡ Fate.Fails → result ≡ Fate.Fails }
    ensures goes { result ≡ Fate.Goes → next_fate plan.old ≡ Fate.Goes }
    ensures before { result ≡ Fate.Goes → clock.new < end_of_time }
    ensures last { clock.new ≡ end_of_time → result ≡ Fate.Fails }
{
    let fate = plan.begin();
    *clock = clock.saturating_add(1);
    if *clock == u64::MAX {
        return Fate::Fails;
    }
    fate
}

// Copies what stands from a place on, as much as the buffer takes.
fn copy_from(bytes: &[u8], at: u64, buf: &mut [u8]) -> usize
    ensures count { result ≡ min (length buf.old) (length bytes.now - at) }
    ensures copied { buf.new ≡ take result (drop at bytes.now) ++ drop result buf.old }
{
    let from = at.min(bytes.len() as u64) as usize;
    let count = buf.len().min(bytes.len() - from);
    buf[..count].copy_from_slice(&bytes[from..from + count]);
    count
}

// Counts one more fault.
fn counted(faults: &mut u64) -> Failed
    ensures counted { faults.new ≡ min (faults.old + 1) (2 ^ 64 - 1) }
    ensures rose { Rose faults.old faults.new }
    ensures later { faults.old ≤ faults.new }
{
    *faults = faults.saturating_add(1);
    Failed
}

// The answer of a call that was made, or for which there was no memory.
fn answer(fate: Fate, done: Result<(), AllocError>, faults: &mut u64) -> Result<(), Failed>
    ensures done { OnErr done (OnOk result ⊥) }
    ensures goes { OnOk result (fate ≡ Fate.Goes) }
    ensures cause { HasCause faults.old faults.new result }
    ensures counted { faults.new ≡ faults_after faults.old result }
{
    match (fate, done) {
        (Fate::Goes, Ok(())) => Ok(()),
        _ => Err(counted(faults)),
    }
}
