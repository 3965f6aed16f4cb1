//! Changes are kept before they are made.
ghost use Rattle.std.specs.Prelude.{◌≡◌, ◌⊎◌, List, None, Some, false, not, IfOk, IfErr, OnOk, OnErr, IsTrue};
ghost use Rattle.std.specs.List.{AllByRecursion};
ghost use Rattle.schema_model.specs.Changes.{is_well_formed};
ghost use Rattle.course.specs.Keeping.{Entry, LeavesNow, LineBlamesDisk};
ghost use Rattle.change_journal.specs.Lines.{lines_in};
ghost use Rattle.journal_log.specs.Logs.{log_of, IsReady, KeepsFirst};
ghost use Rattle.journal_log.specs.Room.{appended_to, lacks_room, grown};
ghost use Rattle.view_session.specs.Session.{accepted, dismissed};

use change_journal::Journal;
use change_script::Script;
use course::LineStop;
use disk::Disk;
use journal_log::append;
use outside::Stop;
use schema_model::Change;
use ss_text::{NoMemory, Row};
use std::alloc::Global;
use view_session::Session;

/// What became of changes that were asked for: they were kept and made, they were refused with these fields, or the journal
/// has no room for them.
#[derive(Drop)]
pub(crate) enum Taken {
    Made(Script),
    Refused(Row),
    Full,
}

/// Keeps the changes that are proposed, and then makes them; or answers that the journal has no room for them. Where they are
/// not kept, they are dropped.
pub(crate) fn settle<D: Disk>(
    alloc: Global,
    session: &mut Session,
    journal: &mut Journal,
    disk: &mut D,
    group: &[Change],
) -> Result<bool, LineStop>
    requires proposed { session.old.proposed ≡ Some group.now }
    requires formed { AllByRecursion (λ g. IsTrue (is_well_formed g)) group.now }
    requires ready { IsReady journal.old (D.state disk.old) }
    ensures room { IfOk result (λ has_room. not has_room ≡ lacks_room journal.old.end group.now) }
    ensures made { IfOk result (λ has_room. IsTrue has_room → session.new ≡ accepted session.old) }
    ensures journal { IfOk result (λ has_room. IsTrue has_room → journal.new ≡ grown group.now journal.old) }
    ensures full { IfOk result (λ has_room. has_room ≡ false → journal.new ≡ journal.old) }
    ensures unwritten { IfOk result (λ has_room. has_room ≡ false → disk.new ≡ disk.old) }
    ensures dropped { IfOk result (λ has_room. has_room ≡ false → session.new ≡ dismissed session.old) }
    ensures same { OnErr result (session.new ≡ dismissed session.old) }
    ensures query { session.new.query ≡ session.old.query }
    ensures unproposed { session.new.proposed ≡ None }
    ensures keeps { (es : List Entry) → LeavesNow (log_of D.state D.left_since) es disk.old
        → KeepsFirst (log_of D.state D.left_since) es (lines_in (appended_to journal.old.end group.now)) disk.old disk.new result }
    ensures ready { OnOk result (IsReady journal.new (D.state disk.new)) }
    ensures disk { LineBlamesDisk ((D.state disk.old).faults) ((D.state disk.new).faults) result }
    ensures only { IfErr result (λ e. (e ≡ LineStop.DiskFault) ⊎ (e ≡ LineStop.Stopped Stop.NoMemory)) }
{
    match append(alloc, journal, disk, group) {
        Ok(true) => {
            session.accept();
            Ok(true)
        }
        Ok(false) => {
            session.dismiss();
            Ok(false)
        }
        Err(stop) => {
            session.dismiss();
            Err(stop)
        }
    }
}

/// Copies of changes.
pub(crate) fn copies(alloc: Global, changes: &[Change]) -> Result<Vec<Change>, NoMemory>
    ensures { IfOk result (λ copies. copies.items ≡ changes.now) }
{
    let mut copies = Vec::with_capacity(alloc, changes.len())?;
    for change in changes {
        copies.push(change.copy()?)?;
    }
    Ok(copies)
}
