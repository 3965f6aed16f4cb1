//! The output of one place, applied in another: a law without code.
//!
//! Its contract: what is printed where a view is kept up to date takes the view's folder in another place, which held
//! the same files at first, to the present files. It knows nothing of how a run comes to its output.
#![tactic(auto)]

ghost use Rattle.pipe_law.specs.Law.{TablesReadBack, PipedViewsFollow};

/// A folder that holds the files of tables is read as them, and the output of a view that was kept up to date is a
/// script that takes such a folder from the former tables to the present ones.
pub fn piped_views_follow()
    ensures read { TablesReadBack }
    ensures follow { PipedViewsFollow }
{}
