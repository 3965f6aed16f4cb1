//! What is kept of a change that was handled.
ghost use Rattle.std.specs.Prelude.{◌≡◌, ◌∷◌, [], map, Ok, Err, IfOk, IsTrue};
ghost use Rattle.schema_model.specs.Changes.{is_well_formed};
ghost use Rattle.schema_model.specs.Reading.{line_of};
ghost use Rattle.feed_core.specs.Arrivals.{same_change};
ghost use Rattle.feed_core.specs.Handled.{first_row, lines_in, handled_by};

use crate::line::{is_line, line_in};
use crate::refusal::{KeptRefusal, kept_refusal, refusal_of};
use crate::{Arrival, PackedRows, Reply};
use apply_law::GroupRefused;
use change_script::{Script, script_lines};
use schema_model::Change;
use ss_text::{NoMemory, Row, Text};
use std::alloc::Global;
use std::marker::Model;
use std::slice::from_ref;

/// An arrival that was handled, which contracts see with its reply. The texts of its change and of its script take one
/// piece of memory, and are given back as copies.
#[derive(Debug, Drop)]
pub struct Handled {
    source: Text,
    number: u64,
    // The line of its change, and the printed row of each line of its script.
    rows: PackedRows,
    refused: Option<Box<KeptRefusal>>,
}

impl Model for Handled {
    ghost use Rattle.feed_core.specs.Handled.{Handled as HandledValue, handled_by, HasChange};

    ghost Value = { HandledValue };

    ghost view = { λ h. handled_by h.source h.number h.rows h.refused };

    ghost invariant = { λ h. HasChange h.rows };
}

impl Handled {
    /// An arrival whose change was made, with this script.
    #[tactic(auto, using(crate::proofs::HandledLemmas::made_is))]
    pub(crate) fn made(
        alloc: Global,
        arrival: Arrival,
        script: &Script,
    ) -> Result<Handled, NoMemory>
        requires { IsTrue (is_well_formed arrival.change) }
        ensures { IfOk result (λ handled. handled ≡ record { arrival = arrival; reply = Ok script.now }) }
    {
        let line = arrival.change.write(alloc)?;
        let mut rows = script_lines(alloc, script)?;
        rows.insert(0, line)?;
        Handled::of(alloc, arrival, rows.as_slice(), None)
    }

    /// An arrival whose change was refused.
    #[tactic(auto, using(crate::proofs::HandledLemmas::refused_is))]
    pub(crate) fn refused(
        alloc: Global,
        arrival: Arrival,
        refused: GroupRefused,
    ) -> Result<Handled, NoMemory>
        requires { IsTrue (is_well_formed arrival.change) }
        ensures { IfOk result (λ handled. handled ≡ record { arrival = arrival; reply = Err refused }) }
    {
        let line = arrival.change.write(alloc)?;
        let kept = kept_refusal(alloc, refused)?;
        let boxed = Box::new(alloc, kept)?;
        Handled::of(alloc, arrival, from_ref(&line), Some(boxed))
    }

    // What is kept of an arrival, by the rows of its change and of its script.
    #[tactic(auto, using(crate::proofs::HandledLemmas::has_change))]
    fn of(
        alloc: Global,
        arrival: Arrival,
        rows: &[Row],
        refused: Option<Box<KeptRefusal>>,
    ) -> Result<Handled, NoMemory>
        requires well_formed { IsTrue (is_well_formed arrival.change) }
        requires line { first_row rows.now ≡ line_of arrival.change }
        ensures { IfOk result (λ handled. handled ≡ handled_by arrival.source arrival.number rows.now refused) }
    {
        let rows = PackedRows::of(alloc, rows)?;
        let (source, number) = arrival.into_sender();
        Ok(Handled {
            source,
            number,
            rows,
            refused,
        })
    }

    /// The source that sent it.
    pub fn source(&self) -> &Text
        ensures { result.now ≡ self.now.arrival.source }
    {
        &self.source
    }

    /// Its number.
    pub fn number(&self) -> u64
        ensures { result ≡ self.now.arrival.number }
    {
        self.number
    }

    /// Whether this is its change. It takes no memory.
    #[tactic(auto, using(crate::proofs::HandledLemmas::same_line))]
    pub fn has_change(&self, change: &Change) -> bool
        ensures { result ≡ same_change change.now self.now.arrival.change }
    {
        is_line(&self.rows, change)
    }

    /// A copy of its change.
    pub fn change(&self, alloc: Global) -> Result<Change, NoMemory>
        ensures { IfOk result (λ change. change ≡ self.now.arrival.change) }
    {
        let rows = self.rows.rows(alloc)?;
        // The first row is the line of a change.
        let [line, ..] = rows.as_slice() else {
            return Err(NoMemory);
        };
        match Change::read(alloc, line) {
            Ok(change) => Ok(change),
            Err(_) => Err(NoMemory),
        }
    }

    /// A copy of what was replied.
    pub fn reply(&self, alloc: Global) -> Result<Reply, NoMemory>
        ensures { IfOk result (λ reply. reply ≡ self.now.reply) }
    {
        match &self.refused {
            None => {
                let rows = self.rows.rows(alloc)?;
                let script = script_of(alloc, rows.as_slice())?;
                Ok(Reply::done(script))
            }
            Some(kept) => {
                let refused = refusal_of(kept)?;
                Reply::refused(alloc, refused)
            }
        }
    }
}

// The script whose rows stand behind the first of these.
fn script_of(alloc: Global, rows: &[Row]) -> Result<Script, NoMemory>
    ensures { IfOk result (λ script. script ≡ lines_in rows.now) }
{
    let [_, rest @ ..] = rows else {
        return Ok(Script::of(Vec::new(alloc)));
    };
    let mut lines = Vec::with_capacity(alloc, rest.len())?;
    for row in rest {
        lines.push(line_in(alloc, row)?)?;
    }
    Ok(Script::of(lines))
}
