//! `Pick` and `Fold` by themselves: how each change of a sheet moves what they give.
ghost use Rattle.std.specs.Prelude.{◌≡◌, ◌<◌, ◌∷◌, [], IfOk, IsTrue};
ghost use Rattle.schema_model.specs.Placed.{placed_rows};
ghost use Rattle.ss_text.specs.Texts.{is_in};
ghost use Rattle.fold_op.specs.Sheets.{FitsSheet};

use crate::flat::{fields, lines};
use fold_op::{Fold, Pick, Sheet, SheetChange};
use operator_law::{Delta, Operator};
use ss_text::{NoMemory, Row, Steps, Text};
use std::alloc::Global;
use std::marker::{Brand, Model};
use std::slice;
use std::sync::ledger::{Blank, Ledger};

/// A sheet of three attributes, `k`, `a` and `b`, and two rows.
struct Page {
    attributes: Row,
    first: Row,
    second: Row,
}

impl Drop for Page {
    fn drop(self) {
        let Page {
            attributes,
            first,
            second,
        } = self;
        drop(attributes);
        drop(first);
        drop(second);
    }
}

impl Model for Page {
    ghost use Rattle.std.specs.Prelude.{◌≡◌, ◌∷◌, [], List, ℕ, length};

    ghost Value = { List (List ℕ) × List (ℕ × List (List ℕ)) };

    ghost view = { λ p. (p.attributes, (0, p.first) ∷ (1, p.second) ∷ []) };

    ghost invariant = { λ p. (p.attributes ≡ (107 ∷ []) ∷ (97 ∷ []) ∷ (98 ∷ []) ∷ []) × (length p.first ≡ 3) × (length p.second ≡ 3) };
}

impl Sheet for Page {
    ghost attributes = { λ p. p.0 };

    ghost placed = { λ p. p.1 };

    fn attributes(&self) -> &Row {
        &self.attributes
    }

    fn first(&self) -> Option<usize> {
        let _first = &self.first;
        Some(0)
    }

    fn after(&self, place: usize) -> Option<usize> {
        let _first = &self.first;
        if place == 0 { Some(1) } else { None }
    }

    fn row(&self, place: usize) -> &Row {
        if place == 0 {
            &self.first
        } else {
            &self.second
        }
    }
}

/// The sheet that is absent.
#[derive(Drop)]
struct Absent {
    attributes: Row,
}

impl Model for Absent {
    ghost use Rattle.std.specs.Prelude.{◌≡◌, [], List, ℕ};

    ghost Value = { List (List ℕ) × List (ℕ × List (List ℕ)) };

    ghost view = { λ p. (p.attributes, []) };

    ghost invariant = { λ p. p.attributes ≡ [] };
}

impl Sheet for Absent {
    ghost attributes = { λ p. p.0 };

    ghost placed = { λ p. p.1 };

    fn attributes(&self) -> &Row {
        &self.attributes
    }

    fn first(&self) -> Option<usize> {
        let _attributes = &self.attributes;
        None
    }

    fn after(&self, place: usize) -> Option<usize> {
        let _attributes = &self.attributes;
        None
    }

    fn row(&self, place: usize) -> &Row {
        &self.attributes
    }
}

// What the wanted attributes are given by.
#[derive(Clone, Copy)]
enum By {
    Pick,
    Fold,
}

// A change of the sheet.
#[derive(Clone, Copy)]
enum Shift {
    Up(&'static str),
    Down(&'static str),
    Add(&'static str, &'static str),
    Drop(usize),
    Rename(usize, &'static str),
    Gone,
}

// An operator with the attributes that are wanted, a change, and the signed rows that it moves, each a line, sorted.
struct Shifted {
    by: By,
    wanted: &'static str,
    shift: Shift,
    moves: &'static str,
}

// The rows before each change are `1 x y`, and `2 x` with an empty cell.
const SHIFTED: &[Shifted] = &[
    // A wanted attribute is renamed, and one is renamed to a wanted name.
    Shifted {
        by: By::Pick,
        wanted: "k a",
        shift: Shift::Rename(1, "c"),
        moves: "- 1 x\n- 2 x\n",
    },
    Shifted {
        by: By::Pick,
        wanted: "k c",
        shift: Shift::Rename(1, "c"),
        moves: "+ 1 x\n+ 2 x\n",
    },
    Shifted {
        by: By::Fold,
        wanted: "k",
        shift: Shift::Rename(0, "q"),
        moves: "- 1 a x\n- 1 b y\n- 1 k 1\n- 2 a x\n- 2 b \n- 2 k 2\n",
    },
    Shifted {
        by: By::Fold,
        wanted: "q",
        shift: Shift::Rename(0, "q"),
        moves: "+ 1 a x\n+ 1 b y\n+ 1 q 1\n+ 2 a x\n+ 2 b \n+ 2 q 2\n",
    },
    // One that is not wanted is renamed, which only its name's rows tell.
    Shifted {
        by: By::Pick,
        wanted: "k",
        shift: Shift::Rename(1, "c"),
        moves: "",
    },
    Shifted {
        by: By::Fold,
        wanted: "k",
        shift: Shift::Rename(2, "c"),
        moves: "+ 1 c y\n+ 2 c \n- 1 b y\n- 2 b \n",
    },
    // An attribute comes, not wanted and wanted.
    Shifted {
        by: By::Pick,
        wanted: "k",
        shift: Shift::Add("n", "0"),
        moves: "",
    },
    Shifted {
        by: By::Pick,
        wanted: "n k",
        shift: Shift::Add("n", "0"),
        moves: "+ 0 1\n+ 0 2\n",
    },
    Shifted {
        by: By::Fold,
        wanted: "k",
        shift: Shift::Add("n", ""),
        moves: "+ 1 n \n+ 2 n \n",
    },
    Shifted {
        by: By::Fold,
        wanted: "n",
        shift: Shift::Add("n", "0"),
        moves: "+ 0 a x\n+ 0 a x\n+ 0 b \n+ 0 b y\n+ 0 k 1\n+ 0 k 2\n+ 0 n 0\n+ 0 n 0\n",
    },
    // An attribute goes.
    Shifted {
        by: By::Pick,
        wanted: "b",
        shift: Shift::Drop(2),
        moves: "- \n- y\n",
    },
    Shifted {
        by: By::Pick,
        wanted: "a",
        shift: Shift::Drop(2),
        moves: "",
    },
    Shifted {
        by: By::Fold,
        wanted: "k",
        shift: Shift::Drop(2),
        moves: "- 1 b y\n- 2 b \n",
    },
    // Rows come and go; a fold keeps empty cells.
    Shifted {
        by: By::Pick,
        wanted: "b a",
        shift: Shift::Up("3 z w"),
        moves: "+ w z\n",
    },
    Shifted {
        by: By::Pick,
        wanted: "q",
        shift: Shift::Up("3 z w"),
        moves: "",
    },
    Shifted {
        by: By::Fold,
        wanted: "k",
        shift: Shift::Up("3 z "),
        moves: "+ 3 a z\n+ 3 b \n+ 3 k 3\n",
    },
    Shifted {
        by: By::Pick,
        wanted: "a",
        shift: Shift::Down("1 x y"),
        moves: "- x\n",
    },
    Shifted {
        by: By::Fold,
        wanted: "a",
        shift: Shift::Down("2 x "),
        moves: "- x a x\n- x b \n- x k 2\n",
    },
    // The sheet goes, with all its rows.
    Shifted {
        by: By::Pick,
        wanted: "a",
        shift: Shift::Gone,
        moves: "- x\n- x\n",
    },
    Shifted {
        by: By::Fold,
        wanted: "",
        shift: Shift::Gone,
        moves: "- a x\n- a x\n- b \n- b y\n- k 1\n- k 2\n",
    },
];

fn three(alloc: Global, first: &[u8], second: &[u8], third: &[u8]) -> Result<Row, NoMemory>
    ensures { IfOk result (λ row. row ≡ first.now ∷ second.now ∷ third.now ∷ []) }
{
    let mut cells = Vec::new(alloc);
    cells.push(Text::of(alloc, first)?)?;
    cells.push(Text::of(alloc, second)?)?;
    cells.push(Text::of(alloc, third)?)?;
    Ok(Row::of(cells))
}

fn full_page(alloc: Global) -> Result<Page, NoMemory> {
    let attributes = three(alloc, b"k".as_slice(), b"a".as_slice(), b"b".as_slice())?;
    let first = three(alloc, b"1".as_slice(), b"x".as_slice(), b"y".as_slice())?;
    let second = three(alloc, b"2".as_slice(), b"x".as_slice(), b"".as_slice())?;
    Ok(Page {
        attributes,
        first,
        second,
    })
}

fn up(alloc: Global, row: &str) -> Result<SheetChange, NoMemory> {
    let row = fields(alloc, row)?;
    Ok(SheetChange::Up { row })
}

fn down(alloc: Global, row: &str) -> Result<SheetChange, NoMemory> {
    let row = fields(alloc, row)?;
    Ok(SheetChange::Down { row })
}

fn add(alloc: Global, name: &str, fill: &str) -> Result<SheetChange, NoMemory> {
    let name = Text::of(alloc, name.as_bytes())?;
    match Text::of(alloc, fill.as_bytes()) {
        Ok(fill) => Ok(SheetChange::Add { name, fill }),
        Err(fault) => {
            drop(name);
            Err(fault)
        }
    }
}

fn rename(alloc: Global, place: usize, to: &str) -> Result<SheetChange, NoMemory> {
    let to = Text::of(alloc, to.as_bytes())?;
    Ok(SheetChange::Rename { place, to })
}

fn change(alloc: Global, shift: Shift) -> Result<SheetChange, NoMemory> {
    match shift {
        Shift::Up(row) => up(alloc, row),
        Shift::Down(row) => down(alloc, row),
        Shift::Add(name, fill) => add(alloc, name, fill),
        Shift::Drop(place) => Ok(SheetChange::Drop { place }),
        Shift::Rename(place, to) => rename(alloc, place, to),
        Shift::Gone => Ok(SheetChange::Gone),
    }
}

fn is_attribute(name: &Text, attributes: &Row) -> bool
    ensures { result ≡ is_in name.now attributes.now }
{
    attributes.cells().iter().any(|a| name == a)
}

// Whether the sheet, which is there, can have the change.
fn fits(page: &Page, change: &SheetChange) -> bool
    ensures { IsTrue result → FitsSheet change.now (page.now.0, placed_rows page.now.1) }
{
    let attributes = &page.attributes;
    match change {
        SheetChange::Up { row } => row.cells().len() == attributes.cells().len(),
        SheetChange::Down { row } => *row == page.first || *row == page.second,
        SheetChange::Add { name, .. } => !is_attribute(name, attributes),
        SheetChange::Drop { place } => *place < attributes.cells().len(),
        SheetChange::Rename { place, to } => {
            *place < attributes.cells().len() && !is_attribute(to, attributes)
        }
        SheetChange::Born { .. } => false,
        SheetChange::Gone => true,
    }
}

// How the change moves what the operator gives.
fn moves<S: Sheet, L: Ledger>(
    alloc: Global,
    sheet: &S,
    change: &SheetChange,
    by: By,
    wanted: &'static str,
    steps: &mut Steps<L>,
) -> Result<Delta, NoMemory>
    requires { FitsSheet change.now (S.attributes sheet.now, placed_rows (S.placed sheet.now)) }
{
    let wanted = fields(alloc, wanted)?;
    match by {
        By::Pick => {
            let pick = Pick::<S>::new(wanted);
            let delta = pick.prepare(alloc, sheet, change, steps);
            drop(pick);
            delta
        }
        By::Fold => {
            let fold = Fold::<S>::new(wanted);
            let delta = fold.prepare(alloc, sheet, change, steps);
            drop(fold);
            delta
        }
    }
}

fn page_moves<L: Ledger>(
    alloc: Global,
    page: &Page,
    change: &SheetChange,
    shifted: &Shifted,
    blank: Blank,
) -> Result<Delta, NoMemory>
    requires fits { FitsSheet change.now (page.now.0, placed_rows page.now.1) }
    requires name { blank.name ≡ L.name }
    requires parts { blank.parts ≡ L.parts }
    requires some { 0 < L.parts }
{
    let mut steps = Steps::<L>::of(blank);
    moves(alloc, page, change, shifted.by, shifted.wanted, &mut steps)
}

fn born_moves<L: Ledger>(
    alloc: Global,
    absent: &Absent,
    change: &SheetChange,
    by: By,
    blank: Blank,
) -> Result<Delta, NoMemory>
    requires fits { FitsSheet change.now (absent.now.0, placed_rows absent.now.1) }
    requires name { blank.name ≡ L.name }
    requires parts { blank.parts ≡ L.parts }
    requires some { 0 < L.parts }
{
    let mut steps = Steps::<L>::of(blank);
    moves(alloc, absent, change, by, "k", &mut steps)
}

// The moves of a change that the page can have, each a line, sorted.
fn shown(
    alloc: Global,
    page: &Page,
    change: &SheetChange,
    shifted: &Shifted,
) -> Result<Option<Vec<u8>>, NoMemory> {
    if !fits(page, change) {
        return Ok(None);
    }
    let delta = page_moves::<Brand>(alloc, page, change, shifted, Blank::new(1))?;
    let shown = lines(alloc, slice::from_ref(&delta));
    drop(delta);
    Ok(Some(shown?))
}

// Whether a change moves just these rows.
fn is_shifted(alloc: Global, shifted: &Shifted) -> Result<bool, NoMemory> {
    let page = full_page(alloc)?;
    let same = is_shifted_in(alloc, &page, shifted);
    drop(page);
    same
}

fn is_shifted_in(alloc: Global, page: &Page, shifted: &Shifted) -> Result<bool, NoMemory> {
    let change = change(alloc, shifted.shift)?;
    let shown = shown(alloc, page, &change, shifted);
    drop(change);
    match shown? {
        Some(shown) => Ok(shown.as_slice() == shifted.moves.as_bytes()),
        None => Ok(false),
    }
}

fn no_sheet(alloc: Global) -> Absent
    ensures { result ≡ ([], []) }
{
    Absent {
        attributes: Row::of(Vec::new(alloc)),
    }
}

fn birth(alloc: Global) -> Result<SheetChange, NoMemory>
    ensures { IfOk result (λ change. change ≡ SheetChange.Born ((107 ∷ []) ∷ (97 ∷ []) ∷ (98 ∷ []) ∷ [])) }
{
    let attributes = three(alloc, b"k".as_slice(), b"a".as_slice(), b"b".as_slice())?;
    Ok(SheetChange::Born { attributes })
}

// How many rows an absent sheet moves once it is there.
fn born(alloc: Global, by: By) -> Result<usize, NoMemory> {
    let birth = birth(alloc)?;
    let absent = no_sheet(alloc);
    let delta = born_moves::<Brand>(alloc, &absent, &birth, by, Blank::new(1));
    drop(absent);
    drop(birth);
    Ok(delta?.moves.len())
}

// The moves of the first change that makes others.
fn first_other(alloc: Global) -> Result<Option<&'static str>, NoMemory> {
    for shifted in SHIFTED {
        if !is_shifted(alloc, shifted)? {
            return Ok(Some(shifted.moves));
        }
    }
    Ok(None)
}

// How many rows a sheet that is born brings, alone and with each name.
fn born_of_both(alloc: Global) -> Result<(usize, usize), NoMemory> {
    let alone = born(alloc, By::Pick)?;
    let named = born(alloc, By::Fold)?;
    Ok((alone, named))
}

#[test]
fn changes_move_what_sheets_give(rt: HostRuntime) -> Result<(), NoMemory> {
    let other = first_other(rt.alloc())?;
    assert_eq!(rt; other, None);
    let born = born_of_both(rt.alloc())?;
    assert_eq!(rt; born, (0, 0));
    Ok(())
}
