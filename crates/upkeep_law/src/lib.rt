//! What a view that is opened and gives answers comes to: laws without code.
//!
//! Its contract: whatever answers an opened view gives, its files are those of its meaning over the catalogue at the last
//! sync, and the sources hold what was saved; and so it is where the course of `maintain` was done, or its input gave out.
//! It knows nothing of words or of how a line is read.
#![tactic(auto)]

ghost use Rattle.upkeep_law.specs.Law.{AnswersAreUpheld, DoneIsMaintained, CutOffIsSynced, ScriptsTake};

/// A view is upheld over all answers that it gives; it is kept up to date over all lines of its input, or over those before
/// the input gave out; and the lines of a script take the tables before its change to those after it.
pub fn opened_views_are_kept()
    ensures answers { AnswersAreUpheld }
    ensures done { DoneIsMaintained }
    ensures cut_off { CutOffIsSynced }
    ensures takes { ScriptsTake }
{}
