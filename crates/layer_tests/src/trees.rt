//! Definitions that are refused, nest deep, or are read.
use ss_parser::{ParseFault, parse};
use std::alloc::Global;
use std::test::Fail;
use view_def::{RawCond, ViewText};

// The fault of a text.
fn fault_of(alloc: Global, text: &[u8]) -> Option<ParseFault> {
    parse(alloc, text).err()
}

// A view whose condition has this before it so many times.
fn view_with(alloc: Global, opening: &[u8], times: usize, rest: &[u8]) -> Result<Vec<u8>, Fail> {
    let mut text = Vec::from_slice(
        alloc,
        b"create view V::t(a) as select T.a from d::r T where ",
    )?;
    for _ in 0..times {
        text.extend_from_slice(opening)?;
    }
    text.extend_from_slice(rest)?;
    Ok(text)
}

#[test]
fn refused(rt: HostRuntime) -> Result<(), Fail> {
    let texts: [(&[u8], ParseFault); 11] = [
        (b"", ParseFault::Unexpected { at: 0 }),
        (
            b"create view V::t(a) as select T.a from d::r",
            ParseFault::Unexpected { at: 43 },
        ),
        (
            b"create view V::t(a) as select T.a # from d::r T",
            ParseFault::BadByte { at: 34 },
        ),
        (
            b"create view V::t(a) as select 'x",
            ParseFault::OpenQuote { at: 30 },
        ),
        (
            b"create view V::t(a) as select 'x''",
            ParseFault::OpenQuote { at: 30 },
        ),
        (
            b"create view V::t(a) as select \"x\"\"",
            ParseFault::OpenQuote { at: 30 },
        ),
        (
            b"create view V::select(a) as",
            ParseFault::Unexpected { at: 15 },
        ),
        (
            b"create view V::t(a) as select T.a from d::r T;;",
            ParseFault::Unexpected { at: 46 },
        ),
        (
            b"create 1234567890123456789",
            ParseFault::Unexpected { at: 7 },
        ),
        (
            b"create view V::t(a) as select 1234567890123456789 from d::r T",
            ParseFault::BadByte { at: 48 },
        ),
        (
            b"create view V::t(a) as select T.a from \"d\".a T",
            ParseFault::Unexpected { at: 42 },
        ),
    ];
    for (text, fault) in texts {
        assert_eq!(rt; fault_of(rt.alloc(), text), Some(fault));
    }
    Ok(())
}

#[test]
fn depth(rt: HostRuntime) -> Result<(), Fail> {
    let alloc = rt.alloc();
    let texts: [(&[u8], usize, &[u8], Option<ParseFault>); 6] = [
        (b"(", 65, b"", Some(ParseFault::TooDeep { at: 116 })),
        (b"not ", 65, b"", Some(ParseFault::TooDeep { at: 308 })),
        (b"(", 64, b"a = (", Some(ParseFault::Unexpected { at: 120 })),
        (b"(", 64, b"a = b", Some(ParseFault::Unexpected { at: 121 })),
        (b"not ", 64, b"a = b and not c = d", None),
        (b"not ", 63, b"(a = b and c = d or e < 5)", None),
    ];
    for (opening, times, rest, fault) in texts {
        let text = view_with(alloc, opening, times, rest)?;
        assert_eq!(rt; fault_of(alloc, &text), fault);
    }
    Ok(())
}

// Whether the parts of a view are those of the text.
fn has_its_parts(view: &ViewText) -> bool {
    view.view_db.text.as_slice() == b"V\"w".as_slice()
        && view.view_db.quoted
        && view.label.quoted
        && (view.columns.len(), view.select.len(), view.decls.len()) == (2, 2, 6)
        && view.filter.as_ref().is_some_and(is_all_of_not_any)
}

#[test]
fn read(rt: HostRuntime) -> Result<(), Fail> {
    let text =
        b"CREATE view \"V\"\"w\"::\"select\"(a-1, D) as select T.a, -5 from d::r T, -> X, d -> Y, d::r -> Z, d::r.c W, T.a U
        where not (T.a = 5 or T.b < 'k''l') and T.c <> 'q';";
    let view = parse(rt.alloc(), text)?;
    let has_its_parts = has_its_parts(&view);
    drop(view);
    assert!(rt; has_its_parts);
    Ok(())
}

// The NOT has ended before the AND, and the OR stands inside it.
fn is_all_of_not_any(condition: &RawCond) -> bool {
    match condition {
        RawCond::All(members) => match members.as_slice() {
            [RawCond::Not(held), RawCond::Compare(..)] => matches!(&**held, RawCond::Any(_)),
            _ => false,
        },
        _ => false,
    }
}
