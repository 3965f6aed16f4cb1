//! What is replied to a change.
ghost use Rattle.std.specs.Prelude.{◌≡◌, Ok, Err, IfOk, MatchResult};

use apply_law::GroupRefused;
use change_script::Script;
use ss_text::NoMemory;
use std::alloc::Global;
use std::marker::Model;

/// What is replied to a change, which contracts see as a result: the script by which the tables changed, or why the
/// change was refused.
// A refusal stands in a box, since most replies are scripts, and a refusal takes four times as much room.
#[derive(Debug, Drop)]
pub struct Reply {
    kept: Result<Script, Box<GroupRefused>>,
}

impl Model for Reply {
    ghost use Rattle.feed_core.specs.Replies.{ReplyValue, unboxed};

    ghost Value = { ReplyValue };

    ghost view = { λ r. unboxed r.kept };
}

impl Reply {
    /// That the change was made, with this script.
    pub(crate) fn done(script: Script) -> Reply
        ensures { result ≡ Ok script }
    {
        Reply { kept: Ok(script) }
    }

    /// That it was refused.
    pub(crate) fn refused(alloc: Global, refused: GroupRefused) -> Result<Reply, NoMemory>
        ensures { IfOk result (λ reply. reply ≡ Err refused) }
    {
        let boxed = Box::new(alloc, refused)?;
        Ok(Reply { kept: Err(boxed) })
    }

    /// The script, or the refusal.
    pub fn as_result(&self) -> Result<&Script, &GroupRefused>
        ensures { MatchResult result (λ script. self.now ≡ Ok script.now) (λ refused. self.now ≡ Err refused.now) }
    {
        match &self.kept {
            Ok(script) => Ok(script),
            Err(refused) => Err(refused),
        }
    }
}
