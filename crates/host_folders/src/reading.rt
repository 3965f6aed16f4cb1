//! What a file holds.
ghost use Rattle.std.specs.Prelude.{◌≡◌, ◌≤◌, length, IfOk, IfSome};

use crate::paths::{file_path, found};
use crate::stamps::Stamp;
use ss_text::{NoMemory, Text};
use std::fs::{self, File, Metadata, OpenFile};
use std::io::{Error, ErrorKind, Read};
use std::rt::Files;

// A file of this many bytes or more is a failure.
const TOO_LONG: u64 = 1 << 32;

/// The bytes of a file, and which file it was, or nothing where it is missing, also where it goes while it is looked for.
/// What is no regular file is a failure.
pub(crate) fn read_at<R: Files + AllocGlobal>(
    rt: &R,
    folder: &Text,
    file: &Text,
) -> Result<Option<(Text, Stamp)>, Error> {
    let path = file_path(rt.alloc(), folder, file)?;
    match found(opened(rt, path.as_str()))? {
        Some(file) => {
            let stamp = Stamp::of(&file.metadata()?);
            Ok(Some((contents(rt, file)?, stamp)))
        }
        None => Ok(None),
    }
}

/// The first bytes of a file, at most so many, or nothing where it is missing. What cannot be read whole is a failure.
pub(crate) fn front_at<R: Files + AllocGlobal>(
    rt: &R,
    folder: &Text,
    file: &Text,
    most: usize,
) -> Result<Option<Text>, Error>
    ensures { IfOk result (λ bytes. IfSome bytes (λ b. length b ≤ most)) }
{
    let path = file_path(rt.alloc(), folder, file)?;
    match found(opened(rt, path.as_str()))? {
        Some(file) => Ok(Some(first_bytes(rt, file, most)?)),
        None => Ok(None),
    }
}

// The file at a path, open. It is looked at before that too, since opening what is no file might wait for a writer.
fn opened<R: Files>(rt: &R, path: &str) -> Result<R::File, Error> {
    if !fs::metadata(rt, path)?.is_file() {
        return Err(Error::from(ErrorKind::InvalidInput));
    }
    File::open(rt, path)
}

// All bytes of an open file.
fn contents<R: Files + AllocGlobal>(rt: &R, file: R::File) -> Result<Text, Error> {
    let length = length_of(&file.metadata()?)?;
    let mut bytes = Vec::with_capacity(rt.alloc(), length)?;
    let mut rest = file.take(TOO_LONG);
    rest.read_to_end(&mut bytes)?;
    if bytes.len() as u64 >= TOO_LONG {
        return Err(Error::from(ErrorKind::FileTooLarge));
    }
    text_of(bytes)
}

// The first bytes of an open file, at most so many.
fn first_bytes<R: Files + AllocGlobal>(rt: &R, file: R::File, most: usize) -> Result<Text, Error>
    ensures { IfOk result (λ bytes. length bytes ≤ most) }
{
    let length = length_of(&file.metadata()?)?;
    let mut bytes = Vec::with_capacity(rt.alloc(), length.min(most))?;
    let mut front = file.take(most as u64);
    front.read_to_end(&mut bytes)?;
    bytes.truncate(most);
    text_of(bytes)
}

// The text with these bytes.
fn text_of(bytes: Vec<u8>) -> Result<Text, Error>
    ensures { IfOk result (λ text. text ≡ bytes.items) }
{
    match Text::of_vec(bytes) {
        Ok(text) => Ok(text),
        Err(NoMemory) => Err(Error::from(ErrorKind::OutOfMemory)),
    }
}

// The length of a regular file that may be read.
fn length_of(metadata: &Metadata) -> Result<usize, Error> {
    if !metadata.is_file() {
        return Err(Error::from(ErrorKind::InvalidInput));
    }
    if metadata.len() >= TOO_LONG {
        return Err(Error::from(ErrorKind::FileTooLarge));
    }
    Ok(metadata.len() as usize)
}
