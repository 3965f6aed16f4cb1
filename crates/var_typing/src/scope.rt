//! What identifiers and names stand for.
ghost use Rattle.std.specs.Prelude.{◌≡◌, ◌<◌, ◌≤◌, ◌++◌, length, Some, IfSome, OnOk};
ghost use Rattle.var_typing.specs.Folds.{fold_of, attribute_fault, SameOthers};
ghost use Rattle.var_typing.specs.Refusals.{where_true, Answers};
ghost use Rattle.var_typing.specs.Scope.{declared_at, is_tuple, variable_named, place_named, variable_at, visible_fault, name_fault, tuple_at_fault, tuple_fault};
ghost use Rattle.var_typing.specs.declared.fault.TypeFault.TheVariants.{WrongKind};

use crate::TypeFault;
use crate::folds::{Fold, take_fold};
use ss_text::Text;
use view_def::{Name, Place, RawDecl, RawRange};

/// The place of the declaration of an identifier, the first where there are several.
pub(crate) fn declared_at(decls: &[RawDecl], identifier: &Text) -> Option<usize>
    ensures value { result ≡ declared_at decls.now identifier.now }
    ensures within { IfSome result (λ k. k < length decls.now) }
{
    decls.iter().position(|d| d.var == *identifier)
}

/// All declarations of a view, of which so many first ones are in sight.
#[derive(Clone, Copy)]
pub(crate) struct Scope<'a> {
    pub decls: &'a [RawDecl],
    pub visible: usize,
    ghost few: { visible ≤ 8 },
}

impl Scope<'_> {
    // Whether the declaration at a place is that of a tuple variable.
    fn is_tuple(&self, place: usize) -> bool
        ensures { result ≡ is_tuple self.now.decls.now place }
    {
        matches!(
            self.decls.get(place),
            Some(RawDecl {
                range: RawRange::Tuples(_, _),
                ..
            })
        )
    }

    /// The variable of a name, where it has one.
    pub fn variable(&self, name: &Name) -> Option<usize>
        ensures value { result ≡ variable_named self.now.decls.now name.now }
        ensures within { IfSome result (λ k. k < length self.now.decls.now) }
    {
        if name.quoted {
            None
        } else {
            declared_at(self.decls, &name.text)
        }
    }

    /// The variable `identifier` of the declaration at `place`, which has to be no tuple variable.
    pub fn text_variable(&self, place: usize, identifier: &Text) -> Result<u32, TypeFault>
        requires { place < 8 }
        ensures { Answers (λ j. j) (where_true (is_tuple self.now.decls.now place) (WrongKind identifier.now)) place result }
    {
        if self.is_tuple(place) {
            return Err(TypeFault::WrongKind {
                name: identifier.copy()?,
            });
        }
        Ok(place as u32)
    }

    // The same, where it has to be in sight.
    fn text_variable_in_sight(&self, place: usize, identifier: &Text) -> Result<u32, TypeFault>
        ensures { Answers (λ j. j) (visible_fault self.now.decls.now self.now.visible identifier.now (Some place)) place result }
    {
        if place >= self.visible {
            return Err(TypeFault::NotDeclared {
                name: identifier.copy()?,
            });
        }
        self.text_variable(place, identifier)
    }

    /// What a name stands for.
    pub fn place(&self, name: &Name) -> Result<Place, TypeFault>
        ensures { let ds = self.now.decls.now in
            Answers (λ p. p) (name_fault ds self.now.visible name.now) (place_named ds name.now) result }
    {
        match self.variable(name) {
            None => Ok(Place::Fixed(name.text.copy()?)),
            Some(place) => Ok(Place::Var(self.text_variable_in_sight(place, &name.text)?)),
        }
    }

    // The variable `identifier` of the declaration at `place`, which has to be a tuple variable in sight.
    fn tuple_in_sight(&self, place: usize, identifier: &Text) -> Result<u32, TypeFault>
        ensures { Answers (λ j. j) (tuple_at_fault self.now.decls.now self.now.visible identifier.now (Some place)) place result }
    {
        if place >= self.visible {
            return Err(TypeFault::NotDeclared {
                name: identifier.copy()?,
            });
        }
        if !self.is_tuple(place) {
            return Err(TypeFault::WrongKind {
                name: identifier.copy()?,
            });
        }
        Ok(place as u32)
    }

    // A tuple variable.
    fn tuple_variable(&self, identifier: &Text) -> Result<u32, TypeFault>
        ensures { let ds = self.now.decls.now in
            Answers (λ j. j) (tuple_fault ds self.now.visible identifier.now) (variable_at ds identifier.now) result }
    {
        match declared_at(self.decls, identifier) {
            None => Err(TypeFault::NotDeclared {
                name: identifier.copy()?,
            }),
            Some(place) => self.tuple_in_sight(place, identifier),
        }
    }

    /// A tuple variable with an attribute, after these folds.
    pub fn attribute(
        &self,
        folds: &mut Vec<Fold>,
        identifier: &Text,
        attribute: &Name,
    ) -> Result<(u32, Place), TypeFault>
        ensures answer { let ds = self.now.decls.now in
            Answers (λ p. p) (attribute_fault ds self.now.visible folds.old.items identifier.now attribute.now)
            (variable_at ds identifier.now, place_named ds attribute.now) result }
        ensures taken { OnOk result
            (SameOthers (folds.old.items ++ fold_of self.now.decls.now identifier.now attribute.now) folds.new.items) }
    {
        let tuple = self.tuple_variable(identifier)?;
        let place = self.place(attribute)?;
        take_fold(folds, identifier, tuple, &place)?;
        Ok((tuple, place))
    }
}
