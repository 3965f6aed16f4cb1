//! Lines of inputs that are cut or fail.
use outside::{MemSource, Source, SureSource};
use ss_text::{NoMemory, Text};
use std::alloc::Global;
use tab_lines::{Lines, Next, ReadStop};

// The bytes, in pieces of so many.
fn cut(alloc: Global, bytes: &[u8], size: usize) -> Result<Vec<Text>, NoMemory> {
    let mut pieces = Vec::new(alloc);
    for piece in bytes.chunks(size.max(1)) {
        pieces.push(Text::of(alloc, piece)?)?;
    }
    Ok(pieces)
}

// The next line, or `.` at the end.
fn next<S: Source>(alloc: Global, lines: &mut Lines, source: &mut S) -> Result<Text, ReadStop> {
    match lines.next(source)? {
        Next::Line(line) => Ok(line),
        Next::End => Ok(Text::of(alloc, b".")?),
    }
}

#[test]
fn lines_do_not_depend_on_the_cuts(rt: HostRuntime) -> Result<(), ReadStop> {
    let alloc = rt.alloc();
    let want: [&[u8]; 6] = [b"a", b"", b"bcd", b"e", b".", b"."];
    for size in [1, 2, 3, 100] {
        let mut source = SureSource::of(cut(alloc, b"a\n\nbcd\ne", size)?);
        let mut lines = Lines::new(alloc)?;
        for line in want {
            assert_eq!(rt;
                next(alloc, &mut lines, &mut source)?.as_slice(),
                line,
                "cut by {size}"
            );
        }
    }
    Ok(())
}

#[test]
fn bytes_stay_after_a_fault(rt: HostRuntime) -> Result<(), NoMemory> {
    let alloc = rt.alloc();
    let pieces = cut(alloc, b"a\nbc\nd", 3)?;
    let mut source = MemSource::of(pieces, vec![in alloc; 2]?);
    let mut lines = Lines::new(alloc)?;
    let want: [Result<&[u8], ReadStop>; 5] = [
        Ok(b"a"),
        Err(ReadStop::ReadFault),
        Ok(b"bc"),
        Ok(b"d"),
        Ok(b"."),
    ];
    for line in want {
        let read = next(alloc, &mut lines, &mut source);
        assert_eq!(rt;
            read.as_ref().map(|text| text.as_slice()),
            line.as_ref().copied()
        );
    }
    Ok(())
}
