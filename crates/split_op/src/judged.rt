//! Lines of tables, judged label by label.
ghost use Rattle.std.specs.Prelude.{◌≡◌, ◌++◌, ◌⊎◌, [], None, Some, Ok, Err, IfOk, IfErr, OnOk};
ghost use Rattle.flow_law.specs.declared.refused.Clash.{Clash};
ghost use Rattle.flow_law.specs.declared.refused.EvalFault.TheVariants as EvalFault;
ghost use Rattle.std.specs.Option.{option_or};

use flow_law::{Clash, EvalFault, TableLine};
use ss_text::NoMemory;
use std::alloc::Global;

/// What the labels so far come to: their lines, which count only where there is no conflict, and the first conflict.
#[derive(Drop)]
pub(crate) struct Judged {
    pub lines: Vec<TableLine>,
    pub clash: Option<Clash>,
}

impl Judged {
    /// Of no labels.
    pub(crate) fn new(alloc: Global) -> Judged
        ensures lines { result.lines.items ≡ [] }
        ensures clash { result.clash ≡ None }
    {
        Judged {
            lines: Vec::new(alloc),
            clash: None,
        }
    }

    /// Adds the lines of the next label.
    pub(crate) fn add_lines(&mut self, more: Vec<TableLine>) -> Result<(), NoMemory>
        ensures lines { OnOk result (self.new.lines.items ≡ self.old.lines.items ++ more.items) }
        ensures clash { self.new.clash ≡ self.old.clash }
    {
        for line in more {
            self.lines.push(line)?;
        }
        Ok(())
    }

    /// Notes the conflict of the next label, if it is the first.
    pub(crate) fn add_clash(&mut self, clash: Clash)
        ensures { self.new ≡ record self.old { clash = option_or self.old.clash (Some clash) } }
    {
        if self.clash.is_none() {
            self.clash = Some(clash);
        }
    }

    /// The lines, where all labels were judged and there is no conflict.
    pub(crate) fn finish(self, outcome: Result<(), EvalFault>) -> Result<Vec<TableLine>, EvalFault>
        ensures lines { IfOk result (λ lines. (outcome ≡ Ok tt) × (self.clash ≡ None) × (lines ≡ self.lines)) }
        ensures stops { IfErr result (λ stop. (outcome ≡ Err stop) ⊎ ((clash : Clash) × (outcome ≡ Ok tt) × (self.clash ≡ Some clash) × (stop ≡ EvalFault.Conflict clash))) }
    {
        let Judged { lines, clash } = self;
        match (outcome, clash) {
            (Err(stop), _) => Err(stop),
            (Ok(()), Some(clash)) => Err(EvalFault::Conflict(clash)),
            (Ok(()), None) => Ok(lines),
        }
    }
}
