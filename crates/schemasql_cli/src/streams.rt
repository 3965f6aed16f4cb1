//! Standard input and standard output, which tell nothing of what they hold.
ghost use Rattle.std.specs.Prelude.{None, ◌<◌, ◌≤◌, length, IfSome};

use outside::{Failed, Sink, Source, StoreFault};
use std::alloc::Global;
use std::io::{ErrorKind, Read, Write};

/// A reader as a source. A read that a signal interrupts is tried again.
#[derive(Drop)]
pub struct HostSource<R: Read> {
    reader: R,
    faults: u64,
}

impl<R: Read> HostSource<R> {
    /// The source of a reader, on which no call has failed.
    pub fn of(reader: R) -> Self {
        HostSource { reader, faults: 0 }
    }
}

impl<R: Read> Source for HostSource<R> {
    ghost rest = { λ _. None };

    ghost last = { λ _. None };

    ghost faults = { λ s. s.faults };

    fn read(&mut self, into: &mut [u8]) -> Result<usize, Failed> {
        match read_again(&mut self.reader, into) {
            Some(count) => Ok(count),
            None => {
                self.faults = self.faults.saturating_add(1);
                Err(Failed)
            }
        }
    }
}

// Reads, again where a signal interrupts it. Nothing where the reader fails.
fn read_again<R: Read>(reader: &mut R, into: &mut [u8]) -> Option<usize>
    ensures { IfSome result (λ count. count ≤ length into.old) }
{
    for _ in 0..u64::MAX {
        match reader.read(into) {
            Ok(count) => return Some(count),
            Err(error) if error.kind() == ErrorKind::Interrupted => {}
            Err(_) => break,
        }
    }
    None
}

/// A writer as a sink. A write that takes nothing of a piece that is not empty is a failure, and one that a signal
/// interrupts is tried again.
#[derive(Drop)]
pub struct HostSink<W: Write> {
    writer: W,
    faults: u64,
}

impl<W: Write> HostSink<W> {
    /// The sink of a writer, on which no call has failed.
    pub fn of(writer: W) -> Self {
        HostSink { writer, faults: 0 }
    }
}

impl<W: Write> Sink for HostSink<W> {
    ghost state = { λ s. record { held = None; faults = s.faults } };

    fn write(&mut self, _alloc: Global, piece: &[u8]) -> Result<usize, StoreFault> {
        match write_again(&mut self.writer, piece) {
            Some(count) => Ok(count),
            None => {
                self.faults = self.faults.saturating_add(1);
                Err(StoreFault::Failed)
            }
        }
    }
}

// Writes the first bytes of a piece, at least one where it is not empty, again where a signal interrupts it. Nothing
// where the writer fails.
fn write_again<W: Write>(writer: &mut W, piece: &[u8]) -> Option<usize>
    ensures count { IfSome result (λ count. count ≤ length piece.now) }
    ensures some { 0 < length piece.now → IfSome result (λ count. 0 < count) }
{
    for _ in 0..u64::MAX {
        match writer.write(piece) {
            Ok(0) if !piece.is_empty() => break,
            Ok(count) => return Some(count),
            Err(error) if error.kind() == ErrorKind::Interrupted => {}
            Err(_) => break,
        }
    }
    None
}
