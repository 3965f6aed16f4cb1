//! The program `schemasql`: its words, the current folder, standard input, standard output and the file of a journal go to
//! `run_with_disk`, and its exit status is the number of the status that comes out.
//!
//! It is the trusted edge: its adapters tell nothing of what real folders, streams and files hold. The folders have a seed
//! that is made of a random number.
#![tactic(auto)]

mod streams;
mod words;

ghost use Rattle.std.specs.Prelude.{◌≡◌, ◌<◌};

use host_disk::HostDisk;
use host_folders::HostFolders;
use ss_text::{Seed, Steps, Text};
use ss_top::{Status, run_with_disk};
use std::fs::File;
use std::io::Error;
use std::marker::Brand;
use std::process::ExitCode;
use std::random::RandomSource;
use std::sync::ledger::{Blank, Ledger};
use streams::{HostSink, HostSource};
use words::{words_of, writes_of};

// A standard stream that is closed leaves its number free, and the next file that is opened gets that: what the program
// printed would be written into a journal. So a folder takes it first, which gives nothing to read and takes nothing that
// is written. Where all three are open, these get other numbers and do nothing.
fn main(rt: HostRuntime) -> ExitCode {
    let (Ok(_first), Ok(_second), Ok(_third)) = (folder(&rt), folder(&rt), folder(&rt)) else {
        return ExitCode::from(Status::ReadFault.number());
    };
    match words_of(&rt) {
        Ok(words) => {
            let status = run_here::<Brand>(&rt, &words, Blank::new(1));
            ExitCode::from(status.number())
        }
        Err(status) => ExitCode::from(status.number()),
    }
}

// The root folder, which every user may read, open for reading.
fn folder(rt: &HostRuntime) -> Result<File, Error> {
    File::open(rt, "/")
}

// Runs over the current folder and the standard streams, and lets the count of steps go.
fn run_here<L: Ledger>(rt: &HostRuntime, words: &[Text], blank: Blank) -> Status
    requires name { blank.name ≡ L.name }
    requires parts { blank.parts ≡ L.parts }
    requires some { 0 < L.parts }
{
    let mut store = HostFolders::of(*rt, writes_of(words), seed_of(rt));
    let mut input = HostSource::of(rt.stdin());
    let mut output = HostSink::of(rt.stdout());
    let mut disk = HostDisk::of(*rt);
    let mut steps = Steps::<L>::of(blank);
    run_with_disk(
        rt.alloc(),
        words,
        &mut store,
        &mut input,
        &mut output,
        &mut disk,
        &mut steps,
    )
}

// The seed of this run. Where the system gives no number, it is the one that is the same in each run.
fn seed_of(rt: &impl RandomSource) -> Seed {
    let mut bytes = [0; 8];
    match rt.fill_bytes(&mut bytes) {
        Ok(()) => Seed::of(u64::from_le_bytes(bytes)),
        Err(_) => Seed::fixed(),
    }
}
