//! All that a crash may leave while a small group is added, by a model of the disk that knows nothing of `disk` but the steps.
use crate::journals::{Lines, add_once, disk_of, open};
use change_journal::JournalFault;
use disk::{MemDisk, Step};
use ss_text::{NoMemory, Text};
use std::alloc::Global;
use std::test::Fail;

// A byte, the one that was there at the last sync, and whether a crash may leave another one in its place.
#[derive(Clone, Copy)]
struct Byte {
    value: u8,
    old: u8,
    is_doubtful: bool,
}

// A disk after some steps. All past its stable size may be missing after a crash.
#[derive(Drop)]
struct Held {
    bytes: Vec<Byte>,
    stable: usize,
}

impl Held {
    fn of(alloc: Global, bytes: &[u8]) -> Result<Held, NoMemory> {
        let mut held = Held {
            bytes: Vec::new(alloc),
            stable: bytes.len(),
        };
        for value in bytes {
            held.bytes.push(Byte {
                value: *value,
                old: *value,
                is_doubtful: false,
            })?;
        }
        Ok(held)
    }

    // From a place on so many bytes are doubtful, and there.
    fn doubt(&mut self, at: usize, len: usize) -> Result<(), NoMemory> {
        for place in at..at.saturating_add(len) {
            if place < self.bytes.len() {
                self.bytes[place].is_doubtful = true;
            } else {
                self.bytes.push(Byte {
                    value: 0,
                    old: 0,
                    is_doubtful: true,
                })?;
            }
        }
        Ok(())
    }

    fn write(&mut self, at: usize, bytes: &[u8]) -> Result<(), NoMemory> {
        self.doubt(at, bytes.len())?;
        for (i, value) in bytes.iter().enumerate() {
            let place = at.saturating_add(i);
            if place < self.bytes.len() {
                self.bytes[place].value = *value;
            }
        }
        Ok(())
    }

    fn sync(&mut self) {
        for byte in self.bytes.iter_mut() {
            byte.is_doubtful = false;
            byte.old = byte.value;
        }
        self.stable = self.bytes.len();
    }

    fn follow(&mut self, step: &Step) -> Result<(), NoMemory> {
        match step {
            Step::Wrote { at, bytes } => self.write(*at as usize, bytes.as_slice())?,
            Step::Tore { at, len } => self.doubt(*at as usize, *len as usize)?,
            Step::Synced => self.sync(),
        }
        Ok(())
    }

    // How many images there are of one length: with what was written and with what was there before, any with four bytes at
    // each of four places and four at all further ones.
    fn images(&self) -> u32 {
        let mut images = 2;
        for byte in &self.bytes {
            if byte.is_doubtful && images < 2048 {
                images *= 4;
            }
        }
        images
    }

    // The image of a length and a number.
    fn image(&self, alloc: Global, len: usize, number: u32) -> Result<Text, NoMemory> {
        let mut image = Vec::new(alloc);
        let mut nth: u32 = 0;
        for byte in self.bytes.iter().take(len) {
            image.push(left(byte, nth, number))?;
            if byte.is_doubtful {
                nth = nth.saturating_add(1);
            }
        }
        Text::of_vec(image)
    }
}

// What is left of a byte, before which so many are doubtful: where it is doubtful itself, as the number says 0, 1, 255 or
// what was written, and of an odd number what was there before. From the fifth one on they are alike.
fn left(byte: &Byte, nth: u32, number: u32) -> u8 {
    match number >> (2 * nth.min(4) + 1) & 3 {
        _ if !byte.is_doubtful => byte.value,
        0 => 0,
        1 => 1,
        2 => 255,
        _ if number % 2 == 0 => byte.value,
        _ => byte.old,
    }
}

// What images say.
#[derive(Clone, Copy, Debug, PartialEq, Eq)]
enum Said {
    // All of them the groups from before.
    Before,
    // All of them these and one more.
    After,
    // Some of them the first, and all others the second.
    Either,
    // One of them something else.
    Other,
}

fn joined(all: Option<Said>, one: Said) -> Said {
    match all {
        None => one,
        Some(all) if all == one => all,
        Some(Said::Other) => Said::Other,
        Some(_) if one == Said::Other => Said::Other,
        Some(_) => Said::Either,
    }
}

// A group that is added to a journal: what the disk holds at first and its groups, and these with the new one.
#[derive(Clone, Copy)]
struct Added {
    first: &'static [u8],
    before: &'static [u8],
    lines: Lines,
    after: &'static [u8],
}

// What an image says.
fn said_by(alloc: Global, image: Text, added: &Added) -> Result<Said, JournalFault> {
    let mut disk = MemDisk::of(alloc, image, Vec::new(alloc));
    match open(alloc, &mut disk) {
        Ok((said, _journal)) if said.as_slice() == added.before => Ok(Said::Before),
        Ok((said, _journal)) if said.as_slice() == added.after => Ok(Said::After),
        Ok(_) => Ok(Said::Other),
        Err(JournalFault::BadJournal { .. }) => Ok(Said::Other),
        Err(fault) => Err(fault),
    }
}

// What all images say.
fn said_by_all(alloc: Global, held: &Held, added: &Added) -> Result<Option<Said>, JournalFault> {
    let mut all = None;
    for len in held.stable..=held.bytes.len() {
        for number in 0..held.images() {
            let image = held.image(alloc, len, number)?;
            all = Some(joined(all, said_by(alloc, image, added)?));
        }
    }
    Ok(all)
}

// What all images say before the first step and behind each of them, as a list with as many places as there may be.
fn moments(
    alloc: Global,
    steps: &[Step],
    added: &Added,
) -> Result<Vec<Option<Said>>, JournalFault> {
    let mut held = Held::of(alloc, added.first)?;
    let mut moments = Vec::new(alloc);
    moments.push(said_by_all(alloc, &held, added)?)?;
    for step in steps {
        held.follow(step)?;
        moments.push(said_by_all(alloc, &held, added)?)?;
    }
    Ok(moments)
}

const ADDED: [Added; 4] = [
    Added {
        first: b"\x00",
        before: b"",
        lines: ("insert\td\tr\tx", None),
        after: b"insert\td\tr\tx\t\n\n",
    },
    // Behind an entry, and two changes.
    Added {
        first: b"\x01\x00\x00\x00\x0fdrop-database\tz\x00",
        before: b"drop-database\tz\t\n\n",
        lines: ("delete\td\tr\tx", Some("insert\td\tr\ty")),
        after: b"drop-database\tz\t\n\ndelete\td\tr\tx\t\ninsert\td\tr\ty\t\n\n",
    },
    // Over what an entry that was not opened left.
    Added {
        first: b"\x00\x00\x00\x00\x0cinsert\td\tr\tx\x00",
        before: b"",
        lines: ("drop-database\td", None),
        after: b"drop-database\td\t\n\n",
    },
    // Over other bytes, with more of them behind.
    Added {
        first: b"\x00\xff\x01\x00\x00\x00\x0cinsert\td\tr\tx\x01\x01\x01\x00\x00\x00\x0cinsert\td\tr\ty\x00",
        before: b"",
        lines: ("insert\td\tr\tz", None),
        after: b"insert\td\tr\tz\t\n\n",
    },
];

const BEFORE: Option<Said> = Some(Said::Before);

const EITHER: Option<Said> = Some(Said::Either);

const AFTER: Option<Said> = Some(Said::After);

// What is said behind each step where the call with a number fails. The steps are: the entry is written, it is synced, it
// is opened, that is synced. A sync that fails is no step.
const FAILING: &[(u8, &[Option<Said>])] = &[
    (1, &[BEFORE, BEFORE]),
    (2, &[BEFORE, BEFORE]),
    (3, &[BEFORE, BEFORE, BEFORE, EITHER]),
    (4, &[BEFORE, BEFORE, BEFORE, EITHER]),
    (5, &[BEFORE, BEFORE, BEFORE, EITHER, AFTER]),
];

// What all images say while a group is added and the call with a number fails.
fn added_moments(alloc: Global, added: &Added, failing: u8) -> Result<Vec<Option<Said>>, Fail> {
    let mut disk = disk_of(alloc, added.first, failing)?;
    let _answer = add_once(alloc, &mut disk, added.lines)?;
    Ok(moments(alloc, disk.steps(), added)?)
}

#[test]
fn each_image_has_the_groups_from_before_or_the_new_one_too(rt: HostRuntime) -> Result<(), Fail> {
    let alloc = rt.alloc();
    for &(failing, wanted) in FAILING {
        for (i, added) in ADDED.iter().enumerate() {
            let got = added_moments(alloc, added, failing)?;
            assert!(rt;
                got.as_slice() == wanted,
                "call {failing}, group {i}: {got:?}"
            );
        }
    }
    Ok(())
}

#[test]
fn an_entry_that_is_opened_before_it_is_synced_is_found(rt: HostRuntime) -> Result<(), Fail> {
    let alloc = rt.alloc();
    let bytes = Text::of(alloc, b"\x00\x00\x00\x0cinsert\td\tr\tx\x00")?;
    let steps = [
        Step::Wrote { at: 1, bytes },
        Step::Wrote {
            at: 0,
            bytes: Text::of(alloc, &[1])?,
        },
    ];
    let got = moments(alloc, &steps, &ADDED[0])?;
    assert!(rt; got.as_slice() == [BEFORE, BEFORE, Some(Said::Other)].as_slice());
    Ok(())
}
