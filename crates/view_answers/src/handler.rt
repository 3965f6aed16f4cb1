//! The handler of the lines of an opened view.
use crate::answers::{answer_line, end_input};
use course::{LineHandler, LineStop, NoDisk, Verdict};
use opened_view::OpenView;
use outside::{Folders, Sink, Stop};
use ss_text::Steps;
use std::alloc::Global;
use std::marker::Model;
use std::sync::ledger::Ledger;

/// The handler of the lines of an opened view, which contracts see as that view.
pub struct Answering {
    pub view: OpenView,
}

impl Drop for Answering {
    fn drop(self) {
        let Answering { view } = self;
        drop(view);
    }
}

impl Model for Answering {
    ghost use Rattle.std.specs.Coded.{Coded, codes};
    ghost use Rattle.view_session.specs.ConditionCode.{Mark, condition_code};
    ghost use Rattle.view_stages.specs.Open.{OpenValue};

    ghost Value = { OpenValue };

    ghost coded = { let mark_code : Coded Mark = Prim.hlevel codes in Prim.hlevel (codes, condition_code mark_code) };

    ghost view = { λ a. a.view };
}

impl LineHandler<NoDisk> for Answering {
    ghost use Rattle.std.specs.Prelude.{true, []};
    ghost use Rattle.course.specs.Keeping.{no_log};
    ghost use Rattle.opened_view.specs.Answers.{step, finish};
    ghost use Rattle.opened_view.specs.Limits.{limit};

    ghost step = { step };

    ghost log = { no_log };

    ghost note = { λ view line. [] };

    ghost ready = { λ view disk. Unit {0} };

    ghost limit = { limit };

    ghost counts = { true };

    ghost finish = { finish };

    fn line<F: Folders, K: Sink, L: Ledger>(
        &mut self,
        alloc: Global,
        store: &mut F,
        output: &mut K,
        _disk: &mut NoDisk,
        line: &[u8],
        steps: &mut Steps<L>,
    ) -> Result<Option<Verdict>, LineStop> {
        answer_line(alloc, &mut self.view, store, output, line, steps)?;
        Ok(None)
    }

    fn end<F: Folders, K: Sink, L: Ledger>(
        &mut self,
        alloc: Global,
        store: &mut F,
        output: &mut K,
        _steps: &mut Steps<L>,
    ) -> Result<Verdict, Stop> {
        end_input(alloc, &mut self.view, store, output)?;
        if self.view.some_refused {
            Ok(Verdict::SomeRefused)
        } else {
            Ok(Verdict::Done)
        }
    }
}
