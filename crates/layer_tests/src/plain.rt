//! A small thing that takes changes in two steps.
ghost use Rattle.std.specs.Prelude.{◌≡◌, ◌+◌, ◌≤◌, ◌<◌, ◌^◌, None, IfErr, OnOk, IsTrue, length};
ghost use Rattle.std.specs.List.{AllByRecursion};
ghost use Rattle.schema_model.specs.Changes.{is_well_formed};
ghost use Rattle.schema_model.specs.Refusals.{group_fault};
ghost use Rattle.change_script.specs.Fits.{IsForm};
ghost use Rattle.layer_tests.specs.Plain.{IsRefusedFrom};

use apply_law::{Applies, GroupRefused};
use change_script::Script;
use flow_law::Shape;
use kept_tables::KeptTables;
use schema_model::{Catalogue, Change, ReadyAll};
use ss_text::{NoMemory, Steps};
use std::alloc::Global;
use std::marker::Model;
use std::sync::ledger::Ledger;

/// A catalogue that has no tables, whatever is in it, and takes each change that it does not refuse.
pub struct Plain {
    catalogue: Catalogue,
    tables: KeptTables,
    shape: Shape,
    ready: Option<ReadyAll>,
}

impl Drop for Plain {
    fn drop(self) {
        let Plain {
            catalogue,
            tables,
            shape,
            ready,
        } = self;
        drop(catalogue);
        drop(tables);
        drop(shape);
        drop(ready);
    }
}

impl Model for Plain {
    ghost use Rattle.std.specs.Prelude.{◌≡◌, ◌≤◌, [], length};
    ghost use Rattle.change_script.specs.Fits.{IsForm};
    ghost use Rattle.layer_tests.specs.Plain.{PlainState, WaitsIn};

    ghost Value = { PlainState };

    ghost view = { λ p. record { catalogue = p.catalogue.databases; shape = p.shape; proposed = p.ready } };

    ghost invariant = { λ p. record {
      tables : p.tables.tables ≡ [];
      form : IsForm p.shape;
      some : 1 ≤ length p.shape.constants;
      waits : WaitsIn p.catalogue p.ready;
    } };
}

impl Plain {
    ghost use Rattle.layer_tests.specs.Plain.{PlainState};

    /// This catalogue, with a form of tables.
    pub fn of(alloc: Global, catalogue: Catalogue, shape: Shape) -> Plain
        requires form { IsForm shape }
        requires some { 1 ≤ length shape.constants }
        ensures { result ≡ record { catalogue = catalogue.databases; shape = shape; proposed = None } }
    {
        Plain {
            catalogue,
            tables: KeptTables::new(alloc),
            shape,
            ready: None,
        }
    }
}

// Makes changes, or finds the first that is refused behind those before it, the first of all being at this place.
fn made(catalogue: &mut Catalogue, changes: &[Change], place: usize) -> Result<(), GroupRefused>
    requires well_formed { AllByRecursion (λ g. IsTrue (is_well_formed g)) changes.now }
    requires small { place + length changes.now < 2 ^ 64 }
    ensures accepted { OnOk result (group_fault catalogue.old.databases changes.now ≡ None) }
    ensures refused { IfErr result (IsRefusedFrom place catalogue.old.databases changes.now) }
{
    let [first, rest @ ..] = changes else {
        return Ok(());
    };
    if let Some(refusal) = catalogue.judge(first) {
        return Err(GroupRefused::Change { place, refusal });
    }
    let ready = catalogue.reserve(first)?;
    catalogue.commit(ready);
    made(catalogue, rest, place + 1)
}

// Judges changes over a copy of the catalogue.
fn judged(catalogue: &Catalogue, changes: &[Change]) -> Result<(), GroupRefused>
    requires well_formed { AllByRecursion (λ g. IsTrue (is_well_formed g)) changes.now }
    ensures accepted { OnOk result (group_fault catalogue.now.databases changes.now ≡ None) }
    ensures refused { IfErr result (IsRefusedFrom 0 catalogue.now.databases changes.now) }
{
    let mut copy = catalogue.copy()?;
    let made = made(&mut copy, changes, 0);
    drop(copy);
    made
}

impl Applies for Plain {
    ghost use Rattle.std.specs.Prelude.{refl};
    ghost use Rattle.layer_tests.specs.Plain.{standing_of, waiting_by, proposing, accepted};

    ghost state = { λ p. standing_of p };

    ghost waits = { λ p. waiting_by p.proposed };

    ghost after_propose = { λ p gs. proposing p gs };

    ghost after_accept = { λ p. accepted p };

    fn catalogue(&self) -> &Catalogue {
        let catalogue = &self.catalogue;
        // What a catalogue has is sound.
        let _databases = catalogue.databases();
        catalogue
    }

    fn tables(&self) -> &KeptTables {
        &self.tables
    }

    fn shape(&self) -> &Shape {
        &self.shape
    }

    #[tactic(auto, using(crate::proofs::PlainLemmas::no_lines))]
    fn propose<L: Ledger>(
        &mut self,
        alloc: Global,
        changes: &[Change],
        _steps: &mut Steps<L>,
    ) -> Result<Script, GroupRefused> {
        judged(&self.catalogue, changes)?;
        let ready = self.catalogue.reserve_all(changes)?;
        self.ready = Some(ready);
        Ok(Script::of(Vec::new(alloc)))
    }

    fn accept(&mut self) {
        let Some(ready) = self.ready.take() else {
            unreachable!()
        };
        self.catalogue.commit_all(ready);
    }

    fn dismiss(&mut self) {
        self.ready = None;
    }

    ghost same_verdict = { λ p c d sound also order. refl };
}
