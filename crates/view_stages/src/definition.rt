//! The definition of a view.
ghost use Rattle.std.specs.Prelude.{◌≡◌, ◌≢◌, ◌∷◌, ◌++◌, [], OnOk, Some, IfOk, codes};
ghost use Rattle.ss_text.specs.Texts.{Row};
ghost use Rattle.outside.specs.Reading.{OnlyRead};
ghost use Rattle.outside.specs.Tree.{Tree};
ghost use Rattle.outside.specs.Effects.{Does, world_of};
ghost use Rattle.outside.specs.Blame.{StoreBlames};
ghost use Rattle.view_def.specs.Tree.{tree_of};
ghost use Rattle.view_def.specs.Written.{IsWritten};
ghost use Rattle.view_stages.specs.Stages;
ghost use Rattle.view_stages.specs.Stages.{ReadsAs, typed_or_refused};
ghost use Rattle.view_stages.specs.Opening.{IsDefinition, definition_bytes};
ghost use Rattle.ss_print.specs.Fields.{parse_fields, type_fields};
ghost use Rattle.ss_parser.specs.declared.fault.ParseFault.TheVariants.{NoMemory as UnreadNoMemory};
ghost use Rattle.var_typing.specs.declared.fault.TypeFault.TheVariants.{NoMemory as UntypedNoMemory};
ghost use Rattle.view_stages.specs.Steps.{definition_of};

use crate::accepted::Definition;
use outside::{Folders, Stop, read_file};
use ss_parser::{ParseFault, parse};
use ss_print::{parse_fields, type_fields};
use ss_text::{NoMemory, Row, Text};
use std::alloc::Global;
use var_typing::{TypeFault, type_view};
use view_def::ViewText;

/// What a definition is: accepted, or refused with these fields.
#[derive(Drop)]
pub enum Understood {
    Accepted(Definition),
    Refused(Row),
}

/// The definition of this name, or the fields of its refusal. Where a call fails or memory runs out, nothing was done.
#[tactic(auto, using(outside::proofs::Following::following))]
pub fn read_definition<F: Folders>(
    alloc: Global,
    store: &mut F,
    name: &Text,
) -> Result<Understood, Stop>
    ensures told { IfOk result (λ r. (t : Tree) (d : Stages.DefinitionOrRefusal) → (F.state store.old).tree ≡ Some t → IsDefinition name.now (definition_bytes t name.now) d → definition_of r ≡ d) }
    ensures does { (o : _) → Does [] (world_of (F.state store.old) o) (world_of (F.state store.new) o) result }
    ensures only_read { OnlyRead (F.state store.old) (F.state store.new) }
    ensures blames { StoreBlames (F.state store.old) (F.state store.new) result }
{
    let folder = Text::of(alloc, b"defs")?;
    let file = joined(alloc, name.as_slice(), b".ssql")?;
    match read_file(alloc, store, &folder, &file)? {
        None => {
            let fields = missing(alloc, name)?;
            Ok(Understood::Refused(fields))
        }
        Some(bytes) => {
            let understood = understand(alloc, bytes.as_slice())?;
            Ok(understood)
        }
    }
}

// What the bytes of a definition are read as.
#[tactic(auto, using(crate::proofs::DefinitionLemmas::read_as, crate::proofs::DefinitionLemmas::refused_as))]
fn understand(alloc: Global, bytes: &[u8]) -> Result<Understood, NoMemory>
    ensures { IfOk result (λ r. (d : Stages.DefinitionOrRefusal) → ReadsAs bytes.now d → definition_of r ≡ d) }
{
    match parse(alloc, bytes) {
        Ok(text) => {
            let text = Box::new(alloc, text)?;
            let understood = type_text(alloc, text)?;
            Ok(understood)
        }
        Err(fault) => {
            let fields = parse_refusal(alloc, &fault)?;
            Ok(Understood::Refused(fields))
        }
    }
}

// The fields of a view text's refusal.
fn parse_refusal(alloc: Global, fault: &ParseFault) -> Result<Row, NoMemory>
    ensures some { OnOk result (fault.now ≢ UnreadNoMemory) }
    ensures row { IfOk result (λ row. row ≡ parse_fields fault.now) }
{
    match fault {
        ParseFault::NoMemory => Err(NoMemory),
        _ => parse_fields(alloc, fault),
    }
}

// What a written view is typed as.
#[tactic(auto, using(crate::proofs::DefinitionLemmas::has_type, crate::proofs::DefinitionLemmas::has_no_type))]
fn type_text(alloc: Global, text: Box<ViewText>) -> Result<Understood, NoMemory>
    requires { IsWritten (tree_of text.value) }
    ensures { IfOk result (λ r. definition_of r ≡ typed_or_refused (tree_of text.value)) }
{
    match type_view(alloc, &text) {
        Ok(view) => {
            let view = Box::new(alloc, view)?;
            Ok(Understood::Accepted(Definition { text, view }))
        }
        Err(fault) => {
            let fields = type_refusal(alloc, &fault)?;
            Ok(Understood::Refused(fields))
        }
    }
}

// The fields of a written view's refusal.
fn type_refusal(alloc: Global, fault: &TypeFault) -> Result<Row, NoMemory>
    ensures some { OnOk result (fault.now ≢ UntypedNoMemory) }
    ensures row { IfOk result (λ row. row ≡ type_fields fault.now) }
{
    match fault {
        TypeFault::NoMemory => Err(NoMemory),
        _ => type_fields(alloc, fault),
    }
}

// The fields of a missing definition's refusal.
fn missing(alloc: Global, name: &Text) -> Result<Row, NoMemory>
    ensures { IfOk result (λ row. row ≡ codes "no-definition" ∷ name.now ∷ []) }
{
    let mut fields = Vec::new(alloc);
    fields.push(Text::of(alloc, b"no-definition")?)?;
    fields.push(name.copy()?)?;
    Ok(Row::of(fields))
}

// Two texts, one after the other.
pub(crate) fn joined(alloc: Global, front: &[u8], back: &[u8]) -> Result<Text, NoMemory>
    ensures { IfOk result (λ text. text ≡ front.now ++ back.now) }
{
    let mut bytes = Vec::from_slice(alloc, front)?;
    bytes.extend_from_slice(back)?;
    Text::of(alloc, &bytes)
}
