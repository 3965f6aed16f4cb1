//! Why views are not opened, and why their levels take no changes.
ghost use Rattle.std.specs.Prelude.{◌≡◌, List, IfOk, OnErr};
ghost use Rattle.schema_model.specs.Catalogue.{CatalogueValue};
ghost use Rattle.schema_model.specs.declared.change.Change.{Change as ChangeValue};
ghost use Rattle.view_def.specs.Query.{Query};
ghost use Rattle.stack_levels.specs.Levels.{refused_at, limit_fields};
ghost use Rattle.stack_levels.specs.Taking.{AreRefused, IsToldOf};

use apply_law::GroupRefused;
use csv_catalog::LoadFault;
use schema_model::{Refusal, Which};
use ss_print::{clash_fields, illegal_fields, load_fields};
use ss_text::{NoMemory, Row};
use std::alloc::Global;
use view_stack::StackRefused;

/// The level that is refused, counted from 1, the lowest, and the name and the fields of the refusal. Where the database
/// that a level is to read would pass a limit, it is that level which is refused.
#[derive(Drop)]
pub struct LevelRefusal {
    pub level: usize,
    pub fields: Row,
}

/// Why views are not opened.
#[derive(Drop)]
pub enum OpenFault {
    /// The first refusal.
    Refused(LevelRefusal),
    NoMemory,
}

impl From<NoMemory> for OpenFault {
    ghost use Rattle.stack_levels.specs.declared.refusal.OpenFault.{OpenFault};

    ghost from_gives = { λ _ fault. fault ≡ OpenFault.NoMemory };

    fn from(_: NoMemory) -> Self {
        OpenFault::NoMemory
    }
}

impl OpenFault {
    // A level is refused with these fields, unless there was no memory for them.
    pub(crate) fn at(level: usize, fields: Result<Row, NoMemory>) -> OpenFault
        ensures told { IfOk fields (λ row. result ≡ OpenFault.Refused (refused_at level row)) }
        ensures lack { OnErr fields (result ≡ OpenFault.NoMemory) }
    {
        match fields {
            Ok(fields) => OpenFault::Refused(LevelRefusal { level, fields }),
            Err(lack) => lack.into(),
        }
    }
}

/// Why levels take no changes.
#[derive(Drop)]
pub enum LevelsRefused {
    /// The catalogue after the changes before it refuses the one at this place, counted from 0.
    Change { place: usize, refusal: Refusal },
    /// After them all this is the first refusal.
    Level(LevelRefusal),
    NoMemory,
}

impl From<NoMemory> for LevelsRefused {
    ghost use Rattle.stack_levels.specs.declared.refusal.LevelsRefused.{LevelsRefused};

    ghost from_gives = { λ _ refused. refused ≡ LevelsRefused.NoMemory };

    fn from(_: NoMemory) -> Self {
        LevelsRefused::NoMemory
    }
}

impl LevelsRefused {
    // A level is refused with these fields, unless there was no memory for them.
    fn at(level: usize, fields: Result<Row, NoMemory>) -> LevelsRefused
        ensures told { IfOk fields (λ row. result ≡ LevelsRefused.Level (refused_at level row)) }
        ensures lack { OnErr fields (result ≡ LevelsRefused.NoMemory) }
    {
        match fields {
            Ok(fields) => LevelsRefused::Level(LevelRefusal { level, fields }),
            Err(lack) => lack.into(),
        }
    }

    // What a stack tells of its levels.
    pub(crate) fn of(alloc: Global, refused: StackRefused) -> LevelsRefused
        ensures { (c : CatalogueValue) (qs : List Query) (gs : List ChangeValue) → IsToldOf c qs gs refused.level refused.why → AreRefused c qs gs result }
    {
        let StackRefused { level, why } = refused;
        match why {
            GroupRefused::Change { place, refusal } => change_refused(alloc, level, place, refusal),
            GroupRefused::Illegal(label) => LevelsRefused::at(level, illegal_fields(alloc, &label)),
            GroupRefused::Conflict(clash) => LevelsRefused::at(level, clash_fields(alloc, &clash)),
            GroupRefused::NoMemory => LevelsRefused::NoMemory,
        }
    }
}

// A change of the lowest level is refused, or one above it passes a limit.
fn change_refused(alloc: Global, level: usize, place: usize, refusal: Refusal) -> LevelsRefused
    ensures { (c : CatalogueValue) (qs : List Query) (gs : List ChangeValue) → IsToldOf c qs gs level (GroupRefused.Change place refusal) → AreRefused c qs gs result }
{
    match refusal {
        Refusal::Limit { which } if level > 1 => LevelsRefused::at(
            level,
            limit_fields(alloc, which),
        ),
        _ => LevelsRefused::Change { place, refusal },
    }
}

// The name and the fields of a limit that a level's database passes.
pub(crate) fn limit_fields(alloc: Global, which: Which) -> Result<Row, NoMemory>
    ensures { IfOk result (λ row. row ≡ limit_fields which) }
{
    load_fields(alloc, &LoadFault::Limit { which })
}
