//! Variables in attribute places: at most one for each tuple variable.
ghost use Rattle.std.specs.Prelude.{◌≡◌, ◌++◌, [], ◌∷◌, OnOk};
ghost use Rattle.var_typing.specs.Folds.{fold_at, is_other, is_same, has_other, two_folds, SameOthers};
ghost use Rattle.var_typing.specs.Refusals.{IsJudged};

use crate::TypeFault;
use ss_text::{NoMemory, Text};
use view_def::Place;

/// A tuple variable, and the variable in its attribute place, both by the places of their declarations.
#[derive(Clone, Copy)]
pub(crate) struct Fold {
    pub tuple: u32,
    pub variable: u32,
}

impl Fold {
    // Whether the other has another variable for the same tuple variable.
    fn is_other(&self, other: &Fold) -> bool
        ensures { result ≡ is_other self.now other.now }
    {
        other.tuple == self.tuple && other.variable != self.variable
    }

    fn is_same(&self, other: &Fold) -> bool
        ensures { result ≡ is_same self.now other.now }
    {
        other.tuple == self.tuple && other.variable == self.variable
    }
}

/// Takes up the attribute place of the tuple variable `identifier`, which is declared at the place `tuple`.
pub(crate) fn take_fold(
    folds: &mut Vec<Fold>,
    identifier: &Text,
    tuple: u32,
    attribute: &Place,
) -> Result<(), TypeFault>
    ensures answer { IsJudged (two_folds folds.old.items identifier.now (fold_at tuple attribute.now)) result }
    ensures taken { OnOk result
        (SameOthers (folds.old.items ++ fold_at tuple attribute.now) folds.new.items) }
{
    let Place::Var(variable) = attribute else {
        return Ok(());
    };
    let fold = Fold {
        tuple,
        variable: *variable,
    };
    if has_other(folds, &fold) {
        return Err(TypeFault::TwoFolds {
            var: identifier.copy()?,
        });
    }
    keep(folds, fold)?;
    Ok(())
}

fn has_other(folds: &[Fold], fold: &Fold) -> bool
    ensures { result ≡ has_other folds.now fold.now }
{
    folds.iter().any(|other| fold.is_other(other))
}

// Each fold is kept once, so that there are never more than tuple variables.
#[tactic(auto, using(crate::proofs::FoldLemmas::same_others))]
fn keep(folds: &mut Vec<Fold>, fold: Fold) -> Result<(), NoMemory>
    ensures { OnOk result (SameOthers (folds.old.items ++ fold ∷ []) folds.new.items) }
{
    if !folds.iter().any(|kept| fold.is_same(kept)) {
        folds.push(fold)?;
    }
    Ok(())
}
