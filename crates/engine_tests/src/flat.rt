//! Flat rows of declarations, and how changes of the catalogue move them.
ghost use Rattle.std.specs.Prelude.{◌≡◌, ◌<◌, IfOk, IsTrue};
ghost use Rattle.schema_model.specs.Changes.{is_well_formed};

use operator_law::{Delta, Signed};
use schema_delta::{FlatSpec, flat_changes};
use schema_model::{Catalogue, Change, ChangeFault};
use ss_text::{NoMemory, Row, Steps, Text};
use std::alloc::Global;
use std::marker::Brand;
use std::slice;
use std::sync::ledger::{Blank, Ledger};
use view_def::{Place, Range};

// What a declaration ranges over: the rows of relations, all of a database or of a name, or their names.
#[derive(Clone, Copy)]
enum Over {
    Rows(&'static str, &'static str),
    Folds(&'static str, &'static str),
    Relations(&'static str),
    Databases,
}

// A declaration with the attributes that are wanted, a change, and the signed rows that it moves, each a line, sorted.
struct Moved {
    over: Over,
    wanted: &'static str,
    change: &'static str,
    moves: &'static str,
}

// The catalogue before each change: a relation with two rows, of which one has an empty cell, and one beside it.
const BEFORE: &[&str] = &[
    "create-database d",
    "create-relation d r k a b",
    "insert d r 1 x y",
    "insert d r 2 x ",
    "create-relation d t k",
    "insert d t 9",
];

// A star stands for a variable.
const MOVED: &[Moved] = &[
    // A wanted attribute is renamed, and one is renamed to a wanted name.
    Moved {
        over: Over::Rows("d", "r"),
        wanted: "k a",
        change: "rename-attribute d r a c",
        moves: "- d r 1 x\n- d r 2 x\n",
    },
    Moved {
        over: Over::Rows("d", "r"),
        wanted: "k c",
        change: "rename-attribute d r a c",
        moves: "+ d r 1 x\n+ d r 2 x\n",
    },
    // An attribute that is not wanted is renamed, comes and goes.
    Moved {
        over: Over::Rows("d", "r"),
        wanted: "k",
        change: "rename-attribute d r a c",
        moves: "",
    },
    Moved {
        over: Over::Rows("d", "r"),
        wanted: "k",
        change: "add-attribute d r n 0",
        moves: "",
    },
    Moved {
        over: Over::Rows("d", "r"),
        wanted: "k n",
        change: "add-attribute d r n 0",
        moves: "+ d r 1 0\n+ d r 2 0\n",
    },
    Moved {
        over: Over::Rows("d", "r"),
        wanted: "b",
        change: "drop-attribute d r b",
        moves: "- d r \n- d r y\n",
    },
    // A fold keeps empty cells, and moves what a new or renamed attribute gives.
    Moved {
        over: Over::Folds("d", "r"),
        wanted: "k",
        change: "insert d r 3 z ",
        moves: "+ d r 3 a z\n+ d r 3 b \n+ d r 3 k 3\n",
    },
    Moved {
        over: Over::Folds("d", "r"),
        wanted: "k",
        change: "rename-attribute d r b c",
        moves: "+ d r 1 c y\n+ d r 2 c \n- d r 1 b y\n- d r 2 b \n",
    },
    Moved {
        over: Over::Folds("d", "r"),
        wanted: "k",
        change: "drop-attribute d r b",
        moves: "- d r 1 b y\n- d r 2 b \n",
    },
    // A relation is renamed under a variable over relations, and a database under one over databases.
    Moved {
        over: Over::Rows("d", "*"),
        wanted: "k",
        change: "rename-relation d r s",
        moves: "+ d s 1\n+ d s 2\n- d r 1\n- d r 2\n",
    },
    Moved {
        over: Over::Rows("*", "*"),
        wanted: "k",
        change: "rename-database d e",
        moves: "+ e r 1\n+ e r 2\n+ e t 9\n- d r 1\n- d r 2\n- d t 9\n",
    },
    Moved {
        over: Over::Relations("*"),
        wanted: "",
        change: "rename-database d e",
        moves: "+ e r\n+ e t\n- d r\n- d t\n",
    },
    Moved {
        over: Over::Databases,
        wanted: "",
        change: "create-database e",
        moves: "+ e\n",
    },
    // Another relation's row is none of the declaration's.
    Moved {
        over: Over::Rows("d", "r"),
        wanted: "k",
        change: "delete d t 9",
        moves: "",
    },
];

fn text(alloc: Global, part: &str) -> Result<Text, NoMemory> {
    Text::of(alloc, part.as_bytes())
}

// The fields of a line, which are parted by blanks.
pub(crate) fn fields(alloc: Global, line: &str) -> Result<Row, NoMemory> {
    let mut cells = Vec::new(alloc);
    if !line.is_empty() {
        for cell in line.split(' ') {
            cells.push(text(alloc, cell)?)?;
        }
    }
    Ok(Row::of(cells))
}

fn place(alloc: Global, name: &str) -> Result<Place, NoMemory> {
    if name == "*" {
        Ok(Place::Var(0))
    } else {
        Ok(Place::Fixed(text(alloc, name)?))
    }
}

fn range(alloc: Global, over: Over) -> Result<Range, NoMemory> {
    match over {
        Over::Rows(db, rel) | Over::Folds(db, rel) => {
            let db = place(alloc, db)?;
            match place(alloc, rel) {
                Ok(rel) => Ok(Range::Tuples(db, rel)),
                Err(fault) => {
                    drop(db);
                    Err(fault)
                }
            }
        }
        Over::Relations(db) => Ok(Range::Relations(place(alloc, db)?)),
        Over::Databases => Ok(Range::Databases),
    }
}

fn spec(alloc: Global, moved: &Moved) -> Result<FlatSpec, NoMemory> {
    let wanted = fields(alloc, moved.wanted)?;
    match range(alloc, moved.over) {
        Ok(range) => Ok(FlatSpec {
            range,
            wanted,
            folded: matches!(moved.over, Over::Folds(..)),
        }),
        Err(fault) => {
            drop(wanted);
            Err(fault)
        }
    }
}

fn change(alloc: Global, line: &str) -> Result<Change, ChangeFault>
    ensures { IfOk result (λ change. IsTrue (is_well_formed change)) }
{
    let line = fields(alloc, line)?;
    let change = Change::read(alloc, &line);
    drop(line);
    change
}

// Makes a change that is not refused.
fn make(catalogue: &mut Catalogue, change: &Change) -> Result<(), NoMemory>
    requires { IsTrue (is_well_formed change.now) }
{
    if catalogue.judge(change).is_none() {
        let ready = catalogue.reserve(change)?;
        catalogue.commit(ready);
    }
    Ok(())
}

fn make_all(alloc: Global, catalogue: &mut Catalogue) -> Result<(), ChangeFault> {
    for &line in BEFORE {
        let change = change(alloc, line)?;
        let made = make(catalogue, &change);
        drop(change);
        made?;
    }
    Ok(())
}

fn before(alloc: Global) -> Result<Catalogue, ChangeFault> {
    let mut catalogue = Catalogue::empty(alloc);
    match make_all(alloc, &mut catalogue) {
        Ok(()) => Ok(catalogue),
        Err(fault) => {
            drop(catalogue);
            Err(fault)
        }
    }
}

// The moves of a change that is not refused.
fn moves<L: Ledger>(
    alloc: Global,
    catalogue: &Catalogue,
    change: &Change,
    specs: &[FlatSpec],
    blank: Blank,
) -> Result<Option<Vec<Delta>>, NoMemory>
    requires name { blank.name ≡ L.name }
    requires parts { blank.parts ≡ L.parts }
    requires some { 0 < L.parts }
{
    let mut steps = Steps::<L>::of(blank);
    match catalogue.judge(change) {
        Some(_) => Ok(None),
        None => Ok(Some(flat_changes(alloc, catalogue, change, specs, &mut steps)?)),
    }
}

fn moves_of(
    alloc: Global,
    catalogue: &Catalogue,
    change: &Change,
    specs: &[FlatSpec],
) -> Result<Option<Vec<Delta>>, NoMemory> {
    moves::<Brand>(alloc, catalogue, change, specs, Blank::new(1))
}

// A signed row as a line.
fn line(alloc: Global, m: &Signed) -> Result<Text, NoMemory> {
    let mut bytes = Vec::new(alloc);
    bytes.push(if m.up { b'+' } else { b'-' })?;
    for cell in m.row.cells() {
        bytes.push(b' ')?;
        bytes.extend_from_slice(cell.as_slice())?;
    }
    bytes.push(b'\n')?;
    Text::of(alloc, &bytes)
}

// The lines of all moves, sorted.
pub(crate) fn lines(alloc: Global, deltas: &[Delta]) -> Result<Vec<u8>, NoMemory> {
    let mut lines = Vec::new(alloc);
    for delta in deltas {
        for m in &delta.moves {
            lines.push(line(alloc, m)?)?;
        }
    }
    lines.sort()?;
    let mut all = Vec::new(alloc);
    for line in &lines {
        all.extend_from_slice(line.as_slice())?;
    }
    Ok(all)
}

// The lines of what a change moves, if it is not refused.
fn shown(
    alloc: Global,
    catalogue: &Catalogue,
    change: &Change,
    specs: &[FlatSpec],
) -> Result<Option<Vec<u8>>, NoMemory> {
    match moves_of(alloc, catalogue, change, specs)? {
        Some(deltas) => {
            let shown = lines(alloc, &deltas);
            drop(deltas);
            Ok(Some(shown?))
        }
        None => Ok(None),
    }
}

fn shown_of(
    alloc: Global,
    catalogue: &Catalogue,
    line: &str,
    specs: &[FlatSpec],
) -> Result<Option<Vec<u8>>, ChangeFault> {
    let change = change(alloc, line)?;
    let shown = shown(alloc, catalogue, &change, specs);
    drop(change);
    Ok(shown?)
}

// The lines of what a change of the catalogue moves.
fn moved_lines(
    alloc: Global,
    catalogue: &Catalogue,
    moved: &Moved,
) -> Result<Option<Vec<u8>>, ChangeFault> {
    let spec = spec(alloc, moved)?;
    let shown = shown_of(alloc, catalogue, moved.change, slice::from_ref(&spec));
    drop(spec);
    shown
}

// Whether a change moves just these rows.
fn is_moved(alloc: Global, moved: &Moved) -> Result<bool, ChangeFault> {
    let catalogue = before(alloc)?;
    let shown = moved_lines(alloc, &catalogue, moved);
    drop(catalogue);
    match shown? {
        Some(shown) => Ok(shown.as_slice() == moved.moves.as_bytes()),
        None => Ok(false),
    }
}

#[test]
fn changes_move_flat_rows(rt: HostRuntime) -> Result<(), ChangeFault> {
    for moved in MOVED {
        assert!(rt;
            is_moved(rt.alloc(), moved)?,
            "at {} over {}",
            moved.change,
            moved.wanted
        );
    }
    Ok(())
}
