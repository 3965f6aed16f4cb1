//! A disk in memory.
ghost use Rattle.std.specs.Prelude.{◌≡◌, ◌<◌, ◌+◌, ◌^◌, ◌↔◌, true, false, Some, length, take, drop, vec_len, vec_capacity, [], ◌∷◌, ◌++◌, All, if◌then◌else◌, option_map, IsOk, IsErr, IfOk, OnOk, OnErr, IsErrOf, ◌≤◌};
ghost use Rattle.outside.specs.Counts.{Rose};
ghost use Rattle.outside.specs.Calls.{faults_of, next_call, next_fails, CountedUnlessNoMemory};
ghost use Rattle.disk.specs.Disk.{Content, IsImage, MayBreakOff, with_written, with_synced, overwritten, is_in_doubt, is_clear, filled};
ghost use Rattle.disk.specs.Moments.{Elapses};
ghost use Rattle.disk.specs.MemDisks.{content_of};

use crate::numbered::NumberedCalls;
use crate::{Disk, Range, Step};
use outside::{Failed, StoreFault};
use ss_text::{NoMemory, Text};
use std::alloc::{AllocError, Global};
use std::marker::Model;

/// A disk in memory, of which the calls that write or sync with these numbers fail, counted from 1. It keeps what was done to
/// it, so that what a crash might have left is known at each moment.
#[derive(Drop)]
pub struct MemDisk {
    first: Text,
    steps: Vec<Step>,
    // What a read gives, where that is not the first bytes.
    current: Option<Text>,
    // The size at the last sync, and the ranges written since, the last of them first. Where there is one, there is room
    // for a step more.
    stable_len: u64,
    written: Vec<Range>,
    calls: NumberedCalls,
}

impl Model for MemDisk {
    ghost use Rattle.std.specs.Prelude.{◌≡◌, ◌<◌, [], unwrap_or, vec_len, vec_capacity};
    ghost use Rattle.disk.specs.Disk.{stable, with_synced};
    ghost use Rattle.disk.specs.MemDisks.{MemDiskState, after_steps};

    ghost Value = { MemDiskState };

    ghost view = { λ s. record { first = s.first; steps = s.steps.items; calls = s.calls } };

    ghost invariant = { λ s. record {
      bytes : unwrap_or s.current s.first ≡ (after_steps (stable s.first) s.steps.items).bytes;
      stable_len : s.stable_len ≡ (after_steps (stable s.first) s.steps.items).stable;
      written : s.written.items ≡ (after_steps (stable s.first) s.steps.items).written;
      synced : vec_len s.written ≡ 0 → after_steps (stable s.first) s.steps.items ≡ with_synced (after_steps (stable s.first) s.steps.items);
      room : 0 < vec_len s.written → vec_len s.steps < vec_capacity s.steps;
    } };
}

impl MemDisk {
    /// A disk of these bytes, all of them stable. It takes no memory.
    pub fn of(alloc: Global, bytes: Text, fails: Vec<u64>) -> MemDisk
        requires { All (λ k. k < 18446744073709551615) fails.items }
        ensures { result ≡ record { first = bytes; steps = []; calls = record { fails = fails.items; calls = 0 } } }
    {
        MemDisk {
            stable_len: bytes.as_slice().len() as u64,
            first: bytes,
            steps: Vec::new(alloc),
            current: None,
            written: Vec::new(alloc),
            calls: NumberedCalls::of(alloc, fails),
        }
    }

    /// What a read gives.
    pub fn bytes(&self) -> &[u8]
        ensures { result.now ≡ (content_of self.now).bytes }
    {
        match &self.current {
            Some(bytes) => bytes.as_slice(),
            None => self.first.as_slice(),
        }
    }

    /// What was done to it since it began or stopped, in order.
    pub fn steps(&self) -> &[Step]
        ensures { result.now ≡ self.now.steps }
    {
        self.steps.as_slice()
    }

    /// Stops it: from now on it is a disk of the crash image whose bytes in doubt are all `fill` and whose size is the present
    /// one, and all of that is stable. Its calls count on.
    pub fn stop(&mut self, alloc: Global, fill: u8) -> Result<(), NoMemory>
        ensures ok { OnOk result (self.new ≡ record { first = filled fill (content_of self.old); steps = []; calls = self.old.calls }) }
        ensures image { IsImage (content_of self.old) (filled fill (content_of self.old)) }
        ensures err { OnErr result (self.new ≡ self.old) }
    {
        let image = filled(alloc, self.bytes(), self.stable_len, &self.written, fill)?;
        self.stable_len = image.as_slice().len() as u64;
        self.first = image;
        self.steps.clear();
        self.current = None;
        self.written.clear();
        Ok(())
    }
}

impl Disk for MemDisk {
    ghost use Rattle.disk.specs.MemDisks.{state_of, HasLeft};
    ghost use Rattle.disk.specs.MemDiskLaws.{told_reads, told_now, told_only_now};

    ghost state = { λ s. state_of s };

    ghost left_since = { λ s t image. HasLeft s t image };

    ghost reads = { told_reads };

    ghost counts_now = { told_now };

    ghost only_now = { told_only_now };

    fn size(&mut self) -> Result<u64, Failed>
        ensures told { IfOk result (λ n. (held : Content) → Some (content_of self.old) ≡ Some held → n ≡ length held.bytes) }
        ensures same { self.new ≡ self.old }
        ensures time { Elapses (state_of self.old) (state_of self.new) (HasLeft self.old) (HasLeft self.new) }

        // What is particular to it: no such call fails.
        ensures never { IsOk result }
    {
        Ok(self.bytes().len() as u64)
    }

    fn read_at(&mut self, at: u64, into: &mut [u8]) -> Result<(), Failed>
        requires { (held : Content) → Some (content_of self.old) ≡ Some held → at + length into.old ≤ length held.bytes }
        ensures told { OnOk result ((held : Content) → Some (content_of self.old) ≡ Some held → into.new ≡ take (length into.old) (drop at held.bytes)) }
        ensures same { self.new ≡ self.old }
        ensures time { Elapses (state_of self.old) (state_of self.new) (HasLeft self.old) (HasLeft self.new) }

        // What is particular to it: no such call fails.
        ensures never { IsOk result }
    {
        let from = at as usize;
        into.copy_from_slice(&self.bytes()[from..from + into.len()]);
        Ok(())
    }

    fn write_at(&mut self, alloc: Global, at: u64, bytes: &[u8]) -> Result<(), StoreFault>
        requires within { (held : Content) → Some (content_of self.old) ≡ Some held → at ≤ length held.bytes }
        requires fits { at + length bytes.now < 2 ^ 62 }
        ensures ok { OnOk result (Some (content_of self.new) ≡ option_map (with_written at bytes.now) (Some (content_of self.old))) }
        ensures broke_off { IsErrOf result StoreFault.Failed → MayBreakOff at (length bytes.now) (Some (content_of self.old)) (Some (content_of self.new)) }
        ensures no_memory { IsErrOf result StoreFault.NoMemory → self.new ≡ self.old }
        ensures time { Elapses (state_of self.old) (state_of self.new) (HasLeft self.old) (HasLeft self.new) }
        ensures failed { IsErrOf result StoreFault.Failed → Rose (faults_of self.old.calls) (faults_of self.new.calls) }
        ensures steady { faults_of self.old.calls ≤ faults_of self.new.calls }

        // What is particular to it: it fails as the numbers tell, and then leaves what a read gives.
        ensures fails { IsErrOf result StoreFault.Failed → next_fails self.old.calls ≡ true }
        ensures done { OnOk result (next_fails self.old.calls ≡ false) }
        ensures numbered { CountedUnlessNoMemory result self.old.calls self.new.calls }
        ensures reads { IsErrOf result StoreFault.Failed → (content_of self.new).bytes ≡ (content_of self.old).bytes }
    {
        let len = bytes.len() as u64;
        let next = overwritten(alloc, self.bytes(), at as usize, bytes)?;
        let bytes = Text::of(alloc, bytes)?;
        make_room(&mut self.steps, &mut self.written)?;
        let range = Range {
            from: at,
            to: at + len,
        };
        match self.calls.count() {
            Ok(()) => {
                put_in_doubt(
                    &mut self.steps,
                    &mut self.written,
                    Step::Wrote { at, bytes },
                    range,
                );
                self.current = Some(next);
                Ok(())
            }
            Err(Failed) => {
                drop(next);
                drop(bytes);
                put_in_doubt(
                    &mut self.steps,
                    &mut self.written,
                    Step::Tore { at, len },
                    range,
                );
                Err(StoreFault::Failed)
            }
        }
    }

    fn sync(&mut self) -> Result<(), Failed>
        ensures ok { OnOk result (Some (content_of self.new) ≡ option_map with_synced (Some (content_of self.old))) }
        ensures err { OnErr result (Some (content_of self.new) ≡ Some (content_of self.old)) }
        ensures time { Elapses (state_of self.old) (state_of self.new) (HasLeft self.old) (HasLeft self.new) }
        ensures failed { OnErr result (Rose (faults_of self.old.calls) (faults_of self.new.calls)) }
        ensures steady { faults_of self.old.calls ≤ faults_of self.new.calls }

        // What is particular to it: it fails as the numbers tell.
        ensures fails { IsErr result ↔ (next_fails self.old.calls ≡ true) }
        ensures numbered { self.new.calls ≡ next_call self.old.calls }
    {
        self.calls.count()?;
        if !self.written.is_empty() {
            self.stable_len = self.bytes().len() as u64;
            self.steps.push_reserved(Step::Synced);
            self.written.clear();
        }
        Ok(())
    }
}

// Room for a step and the sync behind it, and for one range more.
fn make_room(steps: &mut Vec<Step>, written: &mut Vec<Range>) -> Result<(), AllocError>
    ensures steps { steps.new.items ≡ steps.old.items }
    ensures len { vec_len steps.new ≡ vec_len steps.old }
    ensures capacity { vec_capacity steps.old ≤ vec_capacity steps.new }
    ensures written { written.new.items ≡ written.old.items }
    ensures written_len { vec_len written.new ≡ vec_len written.old }
    ensures room { OnOk result (vec_len steps.new + 2 ≤ vec_capacity steps.new) }
    ensures written_room { OnOk result (vec_len written.new < vec_capacity written.new) }
{
    steps.reserve(2)?;
    written.reserve(1)
}

// Adds a step that puts a range in doubt.
fn put_in_doubt(steps: &mut Vec<Step>, written: &mut Vec<Range>, step: Step, range: Range)
    requires room { vec_len steps.old + 2 ≤ vec_capacity steps.old }
    requires written_room { vec_len written.old < vec_capacity written.old }
    ensures steps { steps.new.items ≡ steps.old.items ++ step ∷ [] }
    ensures written { written.new.items ≡ range ∷ written.old.items }
    ensures some { 0 < vec_len written.new }
    ensures room { vec_len steps.new < vec_capacity steps.new }
{
    steps.push_reserved(step);
    match written.insert(0, range) {
        Ok(()) => {}
        Err(_) => unreachable!(),
    }
}

// These bytes at a place, over those that are there and past their end.
fn overwritten(alloc: Global, old: &[u8], at: usize, bytes: &[u8]) -> Result<Text, NoMemory>
    requires { at ≤ length old.now }
    ensures { IfOk result (λ next. next ≡ overwritten at bytes.now old.now) }
{
    let mut next = old[..at].to_vec(alloc)?;
    next.extend_from_slice(bytes)?;
    if bytes.len() < old.len() - at {
        next.extend_from_slice(&old[at + bytes.len()..])?;
    }
    Text::of_vec(next)
}

// These bytes, with `fill` for each that is in doubt.
fn filled(
    alloc: Global,
    bytes: &[u8],
    stable: u64,
    written: &[Range],
    fill: u8,
) -> Result<Text, NoMemory>
    ensures { IfOk result (λ image. image ≡ filled fill (record { bytes = bytes.now; stable = stable; written = written.now })) }
{
    let mut image = Vec::with_capacity(alloc, bytes.len())?;
    for (i, b) in bytes.iter().enumerate() {
        image.push(left(*b, i as u64, stable, written, fill))?;
    }
    Text::of_vec(image)
}

// The byte at a place, or `fill` where it is in doubt.
fn left(b: u8, i: u64, stable: u64, written: &[Range], fill: u8) -> u8
    ensures { result ≡ (if is_clear stable written.now i then b else fill) }
{
    if i < stable && !is_written(i, written) {
        b
    } else {
        fill
    }
}

// Whether a place lies in one of these ranges.
fn is_written(i: u64, written: &[Range]) -> bool
    ensures { result ≡ is_in_doubt written.now i }
{
    written.iter().any(|range| range.from <= i && i < range.to)
}
