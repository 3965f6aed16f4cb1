//! Edits of files that are made whole or not at all, wherever a program is stopped.
//!
//! What is written is put beside its place first. Then one list says what is to be done, and from the moment at which
//! it is there, all is done: by the program itself, or by the next one, which finds the list. Without a list what lies
//! beside is taken away.
//!
//! Its contract: over a disk that tells what it holds and which calls it did, wherever `replace` is stopped or fails, a
//! recovery gives the files before the edits or those after them. Where it fails for want of memory, the files are those
//! before the edits, and no list is there. One that succeeds leaves those after them, and did its calls in their order:
//! what is written is put beside its places, then the list, then what makes something, and behind a sync what removes
//! something. A recovery that succeeds did what the list says that it found, and one that is stopped can be done again. Of
//! folders it says which calls are made, and not which folders are there. It knows nothing of paths, links or locks.
//!
//! A failure, other than for want of memory, has a cause. A call on the disk that fails is counted. `replace` fails only where
//! a call failed, or where the edits cannot be on one list: a name has a byte 0, or a file is both written and removed.
//! `recover` fails only where a call failed, or where a list is there that is the text of no moves.
#![tactic(auto)]

mod file_calls;
mod moves;
mod sync;
mod words;

pub use file_calls::FileCalls;
pub use moves::Move;
pub use sync::{recover, replace};
