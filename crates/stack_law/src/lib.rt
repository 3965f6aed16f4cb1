//! What a stack of views that is opened and answers lines comes to: laws without code.
//!
//! Its contract: where its course was done, the files of each level are those of its view's meaning over the database that
//! the level below gives, and the sources hold what the changes make that all levels accepted; and where its input gave out,
//! so it is of the catalogue at the last sync. A stack of one view is opened as the view is, answers each line as the view
//! does, but that a script stands behind the level's number, and ends as it does. It knows nothing of words or of how a line
//! is read.
#![tactic(auto)]

ghost use Rattle.stack_law.specs.OneView.{IsAsOneView};
ghost use Rattle.stack_law.specs.Law.{DoneAreMaintained, CutOffAreSynced};

/// Views are kept up to date over one another over all lines of the input, or over those before the input gave out.
pub fn stacks_are_kept()
    ensures done { DoneAreMaintained }
    ensures cut_off { CutOffAreSynced }
{}

/// Where one view stands alone, a stack is that view, kept up to date.
pub fn one_view_is_a_stack()
    ensures same { IsAsOneView }
{}
