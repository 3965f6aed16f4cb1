//! Sessions of texts, and what a view back has.
ghost use Rattle.std.specs.Prelude.{◌≡◌, ◌<◌};

mod forms;
mod relations;

use crate::kept::are_same;
use crate::stacks::{catalogue_above, session_over};
use apply_law::Applies;
use schema_model::Catalogue;
use ss_text::{Steps, Text};
use std::alloc::Global;
use std::marker::Brand;
use std::sync::ledger::{Blank, Ledger};
use std::test::Fail;
use view_session::Session;

/// A view in another form, the view back, and one over the sources that has what the view back is to have. The first
/// makes the database `M`.
pub struct Trip {
    pub there: &'static str,
    pub back: &'static str,
    pub wanted: &'static str,
}

/// What comes of a trip.
#[derive(Clone, Copy, Debug, PartialEq, Eq, Drop)]
pub enum Outcome {
    /// One of the two views is refused.
    Refused,
    /// The view back has what is wanted.
    Kept,
    /// It has something else.
    Lost,
}

// The session of the view back, if none of the two views is refused.
fn back_over<L: Ledger>(
    alloc: Global,
    catalogue: Catalogue,
    trip: &Trip,
    steps: &mut Steps<L>,
) -> Result<Option<Session>, Fail> {
    let Some(session) = session_over(alloc, catalogue, trip.there, steps)? else {
        return Ok(None);
    };
    let name = Text::of(alloc, b"M")?;
    match catalogue_above(alloc, &name, &session)? {
        Some(above) => session_over(alloc, above, trip.back, steps),
        None => Ok(None),
    }
}

fn comes_by<L: Ledger>(
    alloc: Global,
    catalogue: &Catalogue,
    trip: &Trip,
    blank: Blank,
) -> Result<Outcome, Fail>
    requires name { blank.name ≡ L.name }
    requires parts { blank.parts ≡ L.parts }
    requires some { 0 < L.parts }
{
    let mut steps = Steps::<L>::of(blank);
    let Some(back) = back_over(alloc, catalogue.copy()?, trip, &mut steps)? else {
        return Ok(Outcome::Refused);
    };
    match session_over(alloc, catalogue.copy()?, trip.wanted, &mut steps)? {
        Some(wanted) if are_same(alloc, back.tables(), wanted.tables())? => Ok(Outcome::Kept),
        _ => Ok(Outcome::Lost),
    }
}

/// What comes of a trip over a catalogue.
pub fn comes_to(alloc: Global, catalogue: &Catalogue, trip: &Trip) -> Result<Outcome, Fail> {
    let outcome = comes_by::<Brand>(alloc, catalogue, trip, Blank::new(1))?;
    Ok(outcome)
}
