//! The bytes of a disk, read in one pass by pieces.
ghost use Rattle.std.specs.Prelude.{◌≡◌, ◌⊎◌, ℕ, ◌+◌, ◌-◌, ◌<◌, ◌≤◌, List, [], Some, length, take, drop, IfOk, IfErr, OnOk, OnErr, IsErrOf};
ghost use Rattle.outside.specs.Counts.{Rose};
ghost use Rattle.disk.specs.Disk.{Content};
ghost use Rattle.disk.specs.Moments.{Elapses};
ghost use Rattle.change_journal.specs.Opening.{IsReading};

use crate::JournalFault;
use disk::Disk;
use std::alloc::Global;
use std::marker::Model;

// The most bytes that are read at once, where an entry does not ask for more.
const PIECE: u64 = 65_536;

/// What was read of a disk and is not passed yet, which contracts see as the size of the disk, the place of the next
/// byte, and the bytes that were read from there on.
#[derive(Drop)]
pub(crate) struct Window {
    size: u64,
    place: u64,
    piece: Vec<u8>,
    from: usize,
}

impl Model for Window {
    ghost use Rattle.std.specs.Prelude.{◌+◌, ◌-◌, ◌≤◌, drop, vec_len};
    ghost use Rattle.change_journal.specs.States.{WindowState};

    ghost Value = { WindowState };

    ghost view = { λ w. record { size = w.size; place = w.place; ahead = drop w.from w.piece.items } };

    ghost invariant = { λ w. record {
      from : w.from ≤ vec_len w.piece;
      within : w.place + (vec_len w.piece - w.from) ≤ w.size;
    } };
}

impl Window {
    /// Nothing yet of a disk of this size.
    pub(crate) fn of(alloc: Global, size: u64) -> Window
        ensures { result ≡ record { size = size; place = 0; ahead = [] } }
    {
        Window {
            size,
            place: 0,
            piece: Vec::new(alloc),
            from: 0,
        }
    }

    /// The place of the next byte.
    pub(crate) fn place(&self) -> u64
        ensures { result ≡ self.now.place }
    {
        self.place
    }

    /// How many bytes the disk has from there on.
    pub(crate) fn left(&self) -> u64
        ensures left { self.now.place + result ≡ self.now.size }
        ensures ahead { length self.now.ahead ≤ result }
    {
        self.size - self.place
    }

    /// What was read from there on.
    pub(crate) fn ahead(&self) -> &[u8]
        ensures { result.now ≡ self.now.ahead }
    {
        &self.piece[self.from..]
    }

    /// Goes past so many bytes.
    pub(crate) fn pass(&mut self, n: u64)
        requires { n ≤ length self.old.ahead }
        ensures { self.new ≡ record { size = self.old.size; place = self.old.place + n; ahead = drop n self.old.ahead } }
    {
        self.place += n;
        self.from += n as usize;
    }

    /// Reads on, a piece at most or as much as is asked for, until so many bytes are ahead. After an error what is ahead
    /// stays.
    pub(crate) fn fill<D: Disk>(
        &mut self,
        alloc: Global,
        disk: &mut D,
        n: u64,
    ) -> Result<(), JournalFault>
        requires reading { IsReading self.old ((D.state disk.old).content) }
        requires within { self.old.place + n ≤ self.old.size }
        ensures reading { IsReading self.new ((D.state disk.new).content) }
        ensures enough { OnOk result (n ≤ length self.new.ahead) }
        ensures place { self.new.place ≡ self.old.place }
        ensures size { self.new.size ≡ self.old.size }
        ensures content { (D.state disk.new).content ≡ (D.state disk.old).content }
        ensures time { Elapses (D.state disk.old) (D.state disk.new) (D.left_since disk.old) (D.left_since disk.new) }
        ensures only { IfErr result (λ e. (e ≡ JournalFault.DiskFault) ⊎ (e ≡ JournalFault.NoMemory)) }
        ensures failed { IsErrOf result JournalFault.DiskFault → Rose ((D.state disk.old).faults) ((D.state disk.new).faults) }
        ensures steady { (D.state disk.old).faults ≤ (D.state disk.new).faults }
    {
        let have = self.ahead().len() as u64;
        if n <= have {
            return Ok(());
        }
        let at = self.place + have;
        let more = (n - have).max(PIECE).min(self.size - at);
        let mut piece = Vec::from_slice(alloc, self.ahead())?;
        let read = read_piece(alloc, disk, at, more)?;
        piece.extend_from_slice(&read)?;
        self.piece = piece;
        self.from = 0;
        Ok(())
    }
}

// So many bytes of a disk, from a place on.
fn read_piece<D: Disk>(
    alloc: Global,
    disk: &mut D,
    at: u64,
    n: u64,
) -> Result<Vec<u8>, JournalFault>
    requires { (held : Content) → (D.state disk.old).content ≡ Some held → at + n ≤ length held.bytes }
    ensures told { IfOk result (λ piece. (held : Content) → (D.state disk.old).content ≡ Some held → piece.items ≡ take n (drop at held.bytes)) }
    ensures len { IfOk result (λ piece. length piece.items ≡ n) }
    ensures content { (D.state disk.new).content ≡ (D.state disk.old).content }
    ensures time { Elapses (D.state disk.old) (D.state disk.new) (D.left_since disk.old) (D.left_since disk.new) }
    ensures only { IfErr result (λ e. (e ≡ JournalFault.DiskFault) ⊎ (e ≡ JournalFault.NoMemory)) }
    ensures failed { IsErrOf result JournalFault.DiskFault → Rose ((D.state disk.old).faults) ((D.state disk.new).faults) }
    ensures steady { (D.state disk.old).faults ≤ (D.state disk.new).faults }
{
    let mut piece = vec![in alloc; 0; n as usize]?;
    disk.read_at(at, piece.as_mut_slice())?;
    Ok(piece)
}
