//! Typing: from a view definition as it is written to a typed view.
//!
//! Its contract: `type_view` gives the typed view, or the first refusal on one walk over declarations, header,
//! numbers and terms. It knows nothing of tokens, of catalogues or of what a view means.
#![tactic(auto)]

mod conditions;
mod declarations;
mod fault;
mod folds;
mod header;
mod scope;
mod terms;
mod view;

pub use fault::TypeFault;
pub use view::type_view;
