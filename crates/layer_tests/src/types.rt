//! A definition that no text spells.
use ss_text::{NoMemory, Text};
use std::alloc::Global;
use std::test::Fail;
use var_typing::{TypeFault, type_view};
use view_def::{Name, RawTerm, Term, ViewText};

fn named(alloc: Global, text: &[u8]) -> Result<Name, NoMemory> {
    let text = Text::of(alloc, text)?;
    Ok(Name {
        text,
        quoted: false,
    })
}

fn empty(alloc: Global, view_db: Name, label: Name) -> ViewText {
    ViewText {
        view_db,
        label,
        columns: Vec::new(alloc),
        select: Vec::new(alloc),
        decls: Vec::new(alloc),
        filter: None,
    }
}

// A column, and a literal as its term.
fn add_literal(alloc: Global, view: &mut ViewText) -> Result<(), NoMemory> {
    view.columns.push(named(alloc, b"a")?)?;
    let literal = RawTerm::Literal(Text::of(alloc, b"x")?);
    view.select.push(literal)?;
    Ok(())
}

fn lacks_a_column(alloc: Global, view: &ViewText) -> bool {
    matches!(type_view(alloc, view), Err(TypeFault::NoConstantColumn))
}

fn has_a_literal(alloc: Global, view: &ViewText) -> Result<bool, TypeFault> {
    let typed = type_view(alloc, view)?;
    Ok(matches!(typed.keys.as_slice(), [Term::Literal(_)]))
}

// A view of no column, and then of one and a literal, without declarations.
fn answers(alloc: Global, view: &mut ViewText) -> Result<(bool, bool), Fail> {
    let refused = lacks_a_column(alloc, view);
    add_literal(alloc, view)?;
    Ok((refused, has_a_literal(alloc, view)?))
}

#[test]
fn one_literal(rt: HostRuntime) -> Result<(), Fail> {
    let alloc = rt.alloc();
    let label = named(alloc, b"t")?;
    let mut view = empty(alloc, named(alloc, b"V")?, label);
    let answers = answers(alloc, &mut view);
    drop(view);
    assert_eq!(rt; answers?, (true, true));
    Ok(())
}
