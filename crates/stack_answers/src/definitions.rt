//! The definitions of a stack.
ghost use Rattle.std.specs.Prelude.{◌≡◌, List, [], Some, IfOk, map};
ghost use Rattle.outside.specs.Reading.{OnlyRead};
ghost use Rattle.outside.specs.Tree.{Tree};
ghost use Rattle.outside.specs.Effects.{Does, world_of};
ghost use Rattle.outside.specs.Blame.{StoreBlames};
ghost use Rattle.view_def.specs.Query.{Query};
ghost use Rattle.stack_levels.specs.Opening.{defined_views};
ghost use Rattle.view_stages.specs.Stages.{DefinitionOrRefusal};
ghost use Rattle.stack_answers.specs.Opening.{all_accepted, twice_fields};
ghost use Rattle.stack_answers.specs.Definitions.{AreDefinitions, AreRead, IsForAll, defined_as};

use outside::{Folders, Stop};
use ss_text::{NoMemory, Row, Text};
use std::alloc::Global;
use view_stages::{Definition, Understood, read_definition};

/// What definitions are: all accepted, or the first that is refused has these fields.
#[derive(Drop)]
pub(crate) enum Defined {
    Accepted(Vec<Definition>),
    Refused(Row),
}

/// The definitions of these names, which are read in their order up to one that is refused. Where a call fails or memory
/// runs out, nothing was done.
#[tactic(auto, using(outside::proofs::Following::following))]
pub(crate) fn read_definitions<F: Folders>(
    alloc: Global,
    store: &mut F,
    names: &[Text],
) -> Result<Defined, Stop>
    ensures told { IfOk result (λ r. (t : Tree) (ds : List DefinitionOrRefusal) → (F.state store.old).tree ≡ Some t → AreDefinitions t names.now ds → defined_as r ≡ all_accepted ds) }
    ensures many { IfOk result (IsForAll names.now) }
    ensures does { (o : _) → Does [] (world_of (F.state store.old) o) (world_of (F.state store.new) o) result }
    ensures only_read { OnlyRead (F.state store.old) (F.state store.new) }
    ensures blames { StoreBlames (F.state store.old) (F.state store.new) result }
{
    let mut definitions = Vec::new(alloc);
    match read_each(alloc, store, names, &mut definitions)? {
        None => Ok(Defined::Accepted(definitions)),
        Some(fields) => {
            drop(definitions);
            Ok(Defined::Refused(fields))
        }
    }
}

// Puts the definitions of these names last, up to one that is refused, and answers the fields of that one.
#[tactic(auto, using(outside::proofs::Following::following))]
fn read_each<F: Folders>(
    alloc: Global,
    store: &mut F,
    names: &[Text],
    definitions: &mut Vec<Definition>,
) -> Result<Option<Row>, Stop>
    ensures read { IfOk result (λ fields. AreRead (F.state store.old).tree names.now fields definitions.old.items definitions.new.items) }
    ensures does { (o : _) → Does [] (world_of (F.state store.old) o) (world_of (F.state store.new) o) result }
    ensures only_read { OnlyRead (F.state store.old) (F.state store.new) }
    ensures blames { StoreBlames (F.state store.old) (F.state store.new) result }
{
    let Some((name, rest)) = names.split_first() else {
        return Ok(None);
    };
    match read_definition(alloc, store, name)? {
        Understood::Refused(fields) => Ok(Some(fields)),
        Understood::Accepted(definition) => {
            definitions.push(definition)?;
            let fields = read_each(alloc, store, rest, definitions)?;
            Ok(fields)
        }
    }
}

/// The view databases of definitions, in their order.
pub(crate) fn databases_of(alloc: Global, definitions: &[Definition]) -> Result<Vec<Text>, NoMemory>
    ensures { IfOk result (λ dbs. dbs.items ≡ map (λ (q : Query). q.view_db) (defined_views definitions.now)) }
{
    let mut databases = Vec::with_capacity(alloc, definitions.len())?;
    for definition in definitions {
        databases.push(definition.view.view_db.copy()?)?;
    }
    Ok(databases)
}

/// The fields of a view database that stands twice.
pub(crate) fn twice_fields(alloc: Global, db: &Text) -> Result<Row, NoMemory>
    ensures { IfOk result (λ row. row ≡ twice_fields db.now) }
{
    let mut fields = Vec::new(alloc);
    fields.push(Text::of(alloc, b"view-database-twice")?)?;
    fields.push(db.copy()?)?;
    Ok(Row::of(fields))
}
