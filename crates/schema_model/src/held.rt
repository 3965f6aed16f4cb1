//! The rows of a relation, which its copies share until they change.
ghost use Rattle.std.specs.Prelude.{◌≡◌, ◌∷◌, ◌++◌, [], IfOk, OnOk, OnErr, IsTrue, drop, remove};
ghost use Rattle.std.specs.List.{position_or_len};
ghost use Rattle.ss_text.specs.Texts.{row_eq};
ghost use Rattle.schema_model.specs.Placed.{placed_rows};
ghost use Rattle.schema_model.specs.ListedRows.{IsNext};
ghost use Rattle.schema_model.specs.RowsKept.{placed_in, waiting_in};
ghost use Rattle.schema_model.specs.HeldRows.{rows_held, placed_held, waiting_held, is_own};

use crate::listed::Listed;
use crate::rows::Rows;
use ss_text::{NoMemory, Row, Seed};
use std::alloc::Global;
use std::mem::replace;
use std::rc::Rc;
use std::snapshot::Snapshot;

/// Rows that copies share. A row comes or goes only where they are its own; they become so before, by a move where no copy
/// holds them, and else by a copy.
#[derive(Drop)]
pub(crate) struct Held {
    // The rows, where they are its own.
    own: Option<Rows>,
    // The rows, where they are not. Copies hold the same.
    home: Rc<Rows>,
}

impl Held {
    /// These rows, which no copy holds.
    pub(crate) fn of(alloc: Global, rows: Rows) -> Result<Held, NoMemory>
        ensures { IfOk result (λ held. rows_held held ≡ rows) }
    {
        let home = Rc::new(alloc, rows)?;
        Ok(Held { own: None, home })
    }

    /// The rows.
    pub(crate) fn kept(&self) -> &Rows
        ensures { result.now ≡ rows_held self.now }
    {
        match &self.own {
            Some(rows) => rows,
            None => self.home.as_ref(),
        }
    }

    /// A copy, which shares the rows where they are not its own.
    pub(crate) fn copy(&self, alloc: Global) -> Result<Held, NoMemory>
        ensures { IfOk result (λ copy. placed_rows (placed_held copy) ≡ placed_rows (placed_held self.now)) }
    {
        match &self.own {
            Some(rows) => Held::of(alloc, listed(alloc, rows)?),
            None => {
                let home = self.home.clone()?;
                Ok(Held { own: None, home })
            }
        }
    }

    /// Makes the rows its own.
    pub(crate) fn own(&mut self, alloc: Global) -> Result<(), NoMemory>
        ensures rows { placed_rows (placed_held self.new) ≡ placed_rows (placed_held self.old) }
        ensures waiting { waiting_held self.new ≡ waiting_held self.old }
        ensures ok { OnOk result (IsTrue (is_own self.new)) }
    {
        if self.own.is_none() {
            let rows = taken(alloc, &mut self.home)?;
            self.own = Some(rows);
        }
        Ok(())
    }

    /// Gives its own rows back to be shared, where no copy holds the former ones. This takes no memory.
    pub(crate) fn settle(&mut self)
        ensures { placed_rows (placed_held self.new) ≡ placed_rows (placed_held self.old) }
    {
        if let Some(home) = Rc::get_mut(&mut self.home) {
            if let Some(rows) = self.own.take() {
                *home = rows;
            }
        }
    }

    /// Puts a row last.
    pub(crate) fn put(&mut self, alloc: Global, row: Row) -> Result<(), NoMemory>
        ensures ok { OnOk result (placed_rows (placed_held self.new) ≡ placed_rows (placed_held self.old) ++ row ∷ []) }
        ensures err { OnErr result (placed_rows (placed_held self.new) ≡ placed_rows (placed_held self.old)) }
    {
        match &mut self.own {
            Some(rows) => rows.put(alloc, row),
            None => put_home(alloc, &mut self.home, row),
        }
    }

    /// Makes a row ready to be put last: takes all memory that this needs. It waits alone then.
    pub(crate) fn reserve(&mut self, alloc: Global, row: Row) -> Result<(), NoMemory>
        ensures rows { placed_rows (placed_held self.new) ≡ placed_rows (placed_held self.old) }
        ensures ok { OnOk result (waiting_held self.new ≡ row ∷ []) }
    {
        self.own(alloc)?;
        let Some(rows) = &mut self.own else {
            unreachable!()
        };
        rows.reserve(alloc, row)
    }

    /// Makes one more row ready to be put last, before those that wait already: takes all memory that this needs.
    pub(crate) fn wait(&mut self, alloc: Global, row: Row) -> Result<(), NoMemory>
        ensures rows { placed_rows (placed_held self.new) ≡ placed_rows (placed_held self.old) }
        ensures ok { OnOk result (waiting_held self.new ≡ row ∷ waiting_held self.old) }
        ensures own { OnOk result (IsTrue (is_own self.new)) }
    {
        self.own(alloc)?;
        let Some(rows) = &mut self.own else {
            unreachable!()
        };
        rows.wait(alloc, row)
    }

    /// Lets no row wait.
    pub(crate) fn forget(&mut self, alloc: Global) -> Result<(), NoMemory>
        ensures { placed_rows (placed_held self.new) ≡ placed_rows (placed_held self.old) }
    {
        match &mut self.own {
            Some(rows) => rows.forget(alloc),
            None => Ok(()),
        }
    }

    /// Links the rows, where no copy holds them: takes all memory that this needs.
    pub(crate) fn link(&mut self, alloc: Global, seed: Seed) -> Result<(), NoMemory>
        ensures { placed_rows (placed_held self.new) ≡ placed_rows (placed_held self.old) }
    {
        match &mut self.own {
            Some(rows) => rows.link(alloc, seed),
            None => link_home(alloc, seed, &mut self.home),
        }
    }

    /// Puts others in their place. This takes no memory.
    #[tactic(auto, using(crate::proofs::NumberedLemmas::rows_numbered))]
    pub(crate) fn replace(&mut self, rows: Vec<Row>)
        ensures rows { placed_rows (placed_held self.new) ≡ rows.items }
        ensures waiting { waiting_held self.new ≡ [] }
        ensures own { IsTrue (is_own self.new) }
    {
        self.own = Some(Rows::Listed(Listed::of(rows)));
    }

    /// Puts the first row that waits last. This takes no memory.
    pub(crate) fn add(&mut self, row: Snapshot<Row>)
        requires { IsNext row.value (waiting_held self.old) }
        ensures rows { placed_rows (placed_held self.new) ≡ placed_rows (placed_held self.old) ++ row.value ∷ [] }
        ensures waiting { waiting_held self.new ≡ drop 1 (waiting_held self.old) }
        ensures own { is_own self.new ≡ is_own self.old }
    {
        let Some(rows) = &mut self.own else {
            unreachable!()
        };
        rows.add(row);
    }

    /// Takes the first row out that equals this one, if one does. This takes no memory.
    pub(crate) fn take(&mut self, row: &Row)
        requires { IsTrue (is_own self.old) }
        ensures rows { placed_rows (placed_held self.new) ≡ remove (placed_rows (placed_held self.old)) (position_or_len (row_eq row.now) (placed_rows (placed_held self.old))) }
        ensures waiting { waiting_held self.new ≡ waiting_held self.old }
        ensures own { is_own self.new ≡ is_own self.old }
    {
        let Some(rows) = &mut self.own else {
            unreachable!()
        };
        rows.take(row);
    }
}

// The rows out of what copies share: moved where no copy holds them, and else copied. No row waits to be added to them.
fn taken(alloc: Global, home: &mut Rc<Rows>) -> Result<Rows, NoMemory>
    ensures rows { IfOk result (λ rows. placed_rows (placed_in rows) ≡ placed_rows (placed_in home.old.value)) }
    ensures waiting { IfOk result (λ rows. waiting_in rows ≡ []) }
    ensures same { OnErr result (placed_rows (placed_in home.new.value) ≡ placed_rows (placed_in home.old.value)) }
{
    match Rc::get_mut(home) {
        Some(rows) => moved(alloc, rows),
        None => copied(alloc, home),
    }
}

fn moved(alloc: Global, rows: &mut Rows) -> Result<Rows, NoMemory>
    ensures rows { IfOk result (λ moved. placed_rows (placed_in moved) ≡ placed_rows (placed_in rows.old)) }
    ensures waiting { IfOk result (λ moved. waiting_in moved ≡ []) }
    ensures same { OnErr result (placed_rows (placed_in rows.new) ≡ placed_rows (placed_in rows.old)) }
{
    rows.forget(alloc)?;
    Ok(replace(rows, no_rows(alloc)))
}

fn copied(alloc: Global, home: &mut Rc<Rows>) -> Result<Rows, NoMemory>
    ensures rows { IfOk result (λ rows. placed_rows (placed_in rows) ≡ placed_rows (placed_in home.old.value)) }
    ensures waiting { IfOk result (λ rows. waiting_in rows ≡ []) }
    ensures same { OnErr result (home.new.value ≡ home.old.value) }
{
    let rows = listed_home(alloc, home)?;
    let empty = Rc::new(alloc, no_rows(alloc))?;
    *home = empty;
    Ok(rows)
}

fn no_rows(alloc: Global) -> Rows
    ensures { placed_rows (placed_in result) ≡ [] }
{
    Rows::Listed(Listed::of(Vec::new(alloc)))
}

fn put_home(alloc: Global, home: &mut Rc<Rows>, row: Row) -> Result<(), NoMemory>
    ensures ok { OnOk result (placed_rows (placed_in home.new.value) ≡ placed_rows (placed_in home.old.value) ++ row ∷ []) }
    ensures err { OnErr result (placed_rows (placed_in home.new.value) ≡ placed_rows (placed_in home.old.value)) }
{
    match Rc::get_mut(home) {
        Some(rows) => rows.put(alloc, row),
        None => put_copy(alloc, home, row),
    }
}

fn put_copy(alloc: Global, home: &mut Rc<Rows>, row: Row) -> Result<(), NoMemory>
    ensures ok { OnOk result (placed_rows (placed_in home.new.value) ≡ placed_rows (placed_in home.old.value) ++ row ∷ []) }
    ensures err { OnErr result (home.new.value ≡ home.old.value) }
{
    let mut rows = listed_home(alloc, home)?;
    rows.put(alloc, row)?;
    let copy = Rc::new(alloc, rows)?;
    *home = copy;
    Ok(())
}

fn link_home(alloc: Global, seed: Seed, home: &mut Rc<Rows>) -> Result<(), NoMemory>
    ensures { placed_rows (placed_in home.new.value) ≡ placed_rows (placed_in home.old.value) }
{
    match Rc::get_mut(home) {
        Some(rows) => rows.link(alloc, seed),
        None => Ok(()),
    }
}

fn listed_home(alloc: Global, home: &Rc<Rows>) -> Result<Rows, NoMemory>
    ensures rows { IfOk result (λ copy. placed_rows (placed_in copy) ≡ placed_rows (placed_in home.now.value)) }
    ensures waiting { IfOk result (λ copy. waiting_in copy ≡ []) }
{
    listed(alloc, home.as_ref())
}

// A copy of rows, in a list.
#[tactic(auto, using(crate::proofs::NumberedLemmas::rows_numbered))]
fn listed(alloc: Global, rows: &Rows) -> Result<Rows, NoMemory>
    ensures rows { IfOk result (λ copy. placed_rows (placed_in copy) ≡ placed_rows (placed_in rows.now)) }
    ensures waiting { IfOk result (λ copy. waiting_in copy ≡ []) }
{
    let copies = copies(alloc, rows)?;
    Ok(Rows::Listed(Listed::of(copies)))
}

fn copies(alloc: Global, rows: &Rows) -> Result<Vec<Row>, NoMemory>
    ensures { IfOk result (λ copies. copies.items ≡ placed_rows (placed_in rows.now)) }
{
    let mut copies = Vec::with_capacity(alloc, rows.count())?;
    let mut next = rows.first();
    while let Some(place) = next {
        copies.push(rows.row(place).copy()?)?;
        next = rows.after(place);
    }
    Ok(copies)
}
