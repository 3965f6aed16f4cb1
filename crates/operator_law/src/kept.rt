//! What keeps a thing, and moves it in two steps.
ghost use Rattle.std.specs.Prelude.{◌≡◌, [], List, IfOk, MatchResult, Some, None};
ghost use Rattle.ss_text.specs.Texts.{Row as RowValue};

use crate::{Delta, Operator};
use flow_law::Moves;
use ss_text::NoMemory;
use std::alloc::Global;

/// What keeps a thing and moves it: `reserve` takes all memory, and `commit` cannot fail.
///
/// What is kept need not give the thing back, as counts do not give back a list of rows; so it is a relation.
pub trait Kept {
    ghost use Rattle.std.specs.Prelude.{Option};

    type Change: Moves;

    /// Names the change for which `reserve` was called.
    type Ready: Drop;

    // That what is kept stands for the thing.
    ghost keeps: { Self → Self.Change.Thing → Type 0 };

    // That the thing is one that can be kept.
    ghost can_keep: { Self → Self.Change.Thing → Type 0 };

    // That both have the same constants.
    ghost alike: { Self → Self → Type 0 };

    // The change that waits.
    ghost waiting: { Self → Option Self.Change };

    // The change that something was made ready for.
    ghost made_for: { Self.Ready → Self.Change };

    // The condition of `reserve` on the change alone.
    ghost can_reserve: { Self → Self.Change → Type 0 };

    /// Takes all memory that the change needs. It waits then, or after `NoMemory` none does.
    fn reserve(&mut self, alloc: Global, change: &Self::Change) -> Result<Self::Ready, NoMemory>
        requires change { can_reserve self.old change.now }
        requires fits { (x : Self.Change.Thing) × (y : Self.Change.Thing) × keeps self.old x × Self.Change.moves x change.now y × can_keep self.old y }
        ensures keeps { (x : Self.Change.Thing) → keeps self.old x → keeps self.new x }
        ensures alike { alike self.old self.new }
        ensures ready { IfOk result (λ r. made_for r ≡ change.now) }
        ensures waits { MatchResult result (λ _. waiting self.new ≡ Some change.now) (λ _. waiting self.new ≡ None) };

    /// Moves what is kept by the change that waits. It takes no memory.
    fn commit(&mut self, ready: Self::Ready)
        requires { waiting self.old ≡ Some (made_for ready) }
        ensures moved { (x y : Self.Change.Thing) → keeps self.old x → Self.Change.moves x (made_for ready) y → can_keep self.old y → keeps self.new y }
        ensures alike { alike self.old self.new }
        ensures none { waiting self.new ≡ None };

    // What can be kept depends on the constants alone.
    ghost keeps_alike: { (s t : Self) (x : Self.Change.Thing) → alike s t → can_keep s x → can_keep t x };
}

/// An operator over the rows that it keeps, which can be made anew.
pub trait Fresh: Operator<Input = (), Change = Delta> + Kept<Change = Delta> + Sized {
    /// One with the same constants that keeps no rows.
    fn fresh(&self, alloc: Global) -> Result<Self, NoMemory>
        ensures alike { IfOk result (λ s. Self.alike self.now s) }
        ensures empty { IfOk result (λ s. Self.keeps s []) }
        ensures none { IfOk result (λ s. Self.waiting s ≡ None) };

    // The rows that are kept are those that the operator stands for.
    ghost stands: { (s : Self) (x : List RowValue) → Self.keeps s x → Self.stands_for s tt x };

    // The value depends on the constants alone.
    ghost same_value: { (s t : Self) (x : List RowValue) → Self.alike s t → Self.value s x ≡ Self.value t x };

    // What is like the second of two that are alike is like the first.
    ghost alike_on: { (s t u : Self) → Self.alike s t → Self.alike t u → Self.alike s u };
}
