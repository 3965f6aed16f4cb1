//! The print of a definition that no text spells.
use ss_text::{NoMemory, Text};
use std::alloc::Global;
use std::test::Fail;
use view_def::{Name, RawCond, ViewText, view_text};

fn named(alloc: Global, text: &[u8], quoted: bool) -> Result<Name, NoMemory> {
    let text = Text::of(alloc, text)?;
    Ok(Name { text, quoted })
}

// A definition with all its lists empty, which no text spells, has a text too.
#[test]
fn empty_lists(rt: HostRuntime) -> Result<(), Fail> {
    let alloc = rt.alloc();
    let view = ViewText {
        view_db: named(alloc, b"V", false)?,
        label: named(alloc, b"a \"b\"", true)?,
        columns: Vec::new(alloc),
        select: Vec::new(alloc),
        decls: Vec::new(alloc),
        filter: Some(RawCond::Any(Vec::new(alloc))),
    };
    let text = view_text(alloc, &view)?;
    let wanted = b"CREATE VIEW V::\"a \"\"b\"\"\"() AS SELECT  FROM  WHERE \n";
    assert_eq!(rt; text.as_slice(), wanted.as_slice());
    Ok(())
}
