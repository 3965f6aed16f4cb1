//! Names, as the tests of this crate tell them.

use ss_text::{NoMemory, Text};
use std::alloc::Global;

/// The names of a folder and of a file in it, or of a database and of a relation in it.
pub struct Names {
    pub outer: Text,
    pub inner: Text,
}

impl Drop for Names {
    fn drop(self) {
        let Names { outer, inner } = self;
        drop(outer);
        drop(inner);
    }
}

impl Names {
    pub fn of(alloc: Global, outer: &[u8], inner: &[u8]) -> Result<Names, NoMemory> {
        let outer = Text::of(alloc, outer)?;
        match Text::of(alloc, inner) {
            Ok(inner) => Ok(Names { outer, inner }),
            Err(fault) => {
                drop(outer);
                Err(fault)
            }
        }
    }
}

/// The parts between commas.
pub fn texts(alloc: Global, parts: &[u8]) -> Result<Vec<Text>, NoMemory> {
    let mut texts = Vec::new(alloc);
    for part in parts.split(|b| *b == b',') {
        texts.push(Text::of(alloc, part)?)?;
    }
    Ok(texts)
}
