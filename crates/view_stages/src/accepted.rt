//! A definition that is accepted.
ghost use Rattle.std.proofs.Props.{props};
ghost use Rattle.view_def.specs.Profile.{IsViewOfProfile};
ghost use Rattle.view_def.specs.Query.{query_of};

use view_def::{View, ViewText};

/// A definition that is accepted: as it is written, and as it is typed.
#[derive(Drop)]
pub struct Definition {
    pub text: Box<ViewText>,
    pub view: Box<View>,
    pub ghost profile: { IsViewOfProfile (query_of view.value) } by { Prim.hlevel props },
}
