//! The words after the program's name.
use host_folders::Writes;
use ss_text::{NoMemory, Text};
use ss_top::Status;
use std::alloc::Global;
use std::env::{self, Env};
use std::io::{Error, ErrorKind};

// The words after the program's own name. Where they cannot be had, nothing is run: for want of memory the
// status is that of it, and for every other cause, as a word that is not UTF-8, that of a failed read.
pub(crate) fn words_of<R: Env + AllocGlobal>(rt: &R) -> Result<Vec<Text>, Status> {
    let arguments = match env::args(rt) {
        Ok(arguments) => arguments,
        Err(error) => return Err(status_of(&error)),
    };
    let mut words = Vec::new(rt.alloc());
    for argument in arguments.skip(1) {
        let word = match Text::of(rt.alloc(), argument.as_bytes()) {
            Ok(word) => word,
            Err(NoMemory) => return Err(Status::NoMemory),
        };
        if words.push(word).is_err() {
            return Err(Status::NoMemory);
        }
    }
    Ok(words)
}

fn status_of(error: &Error) -> Status {
    match error.kind() {
        ErrorKind::OutOfMemory => Status::NoMemory,
        _ => Status::ReadFault,
    }
}

/// What the command that these words ask for may change.
pub(crate) fn writes_of(words: &[Text]) -> Writes {
    match words {
        [command, ..] => match command.as_slice() {
            b"maintain" | b"stack" | b"feed" => Writes::ViewsAndSources,
            b"show" | b"journal" => Writes::View,
            b"apply" => Writes::OnlyView,
            _ => Writes::Nothing,
        },
        [] => Writes::Nothing,
    }
}
