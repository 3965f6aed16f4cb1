//! Reads the lines of an input.
ghost use Rattle.std.specs.Prelude.{◌≡◌, ◌≢◌, ℕ, ◌+◌, ◌<◌, ◌≤◌, true, false, List, [], ◌∷◌, ◌++◌, Some, length, take, drop, MatchOption, IfOk, IfErr, OnOk, OnErr, IsErrOf, Ok};
ghost use Rattle.outside.specs.Counts.{Rose};
ghost use Rattle.tab_lines.specs.Lines.{has_feed, lines_of};
ghost use Rattle.tab_lines.specs.declared.lines.ReadStop.TheVariants.{NoMemory as LacksMemory};

use crate::parts::split_once;
use crate::window::{PIECE, Window};
use outside::Source;
use ss_text::{NoMemory, Text};
use std::alloc::{AllocError, Global};
use std::marker::Model;
use thiserror::Error;

/// What is read next.
#[derive(Drop)]
pub enum Next {
    /// A line, without its LF.
    Line(Text),
    /// No line is left.
    End,
}

/// Why no line was read.
#[derive(Clone, Copy, Debug, PartialEq, Eq, Error)]
pub enum ReadStop {
    #[error("the input cannot be read")]
    ReadFault,
    #[error("the input is too long")]
    TooLong,
    #[error("no memory is left")]
    NoMemory,
}

impl From<NoMemory> for ReadStop {
    ghost from_gives = { λ _ e. e ≡ LacksMemory };

    fn from(_: NoMemory) -> Self {
        ReadStop::NoMemory
    }
}

// The most bytes that are taken.
const MOST_TAKEN: u64 = 1 << 32;

/// A reader of lines, which contracts see as the bytes that it took and has not answered, how many it took
/// in all, and whether a read answered 0. It holds a piece of the input and one line.
#[derive(Drop)]
pub struct Lines {
    // The front of a line. What follows it stands in the window.
    held: Vec<u8>,
    window: Window,
    taken: u64,
    ended: bool,
}

impl Model for Lines {
    ghost use Rattle.std.specs.Prelude.{◌≡◌, ◌<◌, ◌≤◌, ◌++◌, true, false};
    ghost use Rattle.tab_lines.specs.Lines.{has_feed};
    ghost use Rattle.tab_lines.specs.Taking.{LinesState, most_taken};

    ghost Value = { LinesState };

    ghost view = { λ s. record { taken = s.taken; left = s.held.items ++ s.window; ended = s.ended } };

    ghost invariant = { λ s. record {
      no_feed : has_feed s.held.items ≡ false;
      taken : s.taken ≤ most_taken;
      ended : s.ended ≡ true → s.taken < most_taken;
    } };
}

impl Lines {
    ghost use Rattle.tab_lines.specs.Taking.{Answers, Reads, TakesPiece, IsNextOf, IsWithinLimit, is_ready, ahead};

    /// A reader that took nothing yet.
    pub fn new(alloc: Global) -> Result<Lines, NoMemory>
        ensures { IfOk result (λ lines. lines ≡ record { taken = 0; left = []; ended = false }) }
    {
        Ok(Lines {
            held: Vec::new(alloc),
            window: Window::new(alloc)?,
            taken: 0,
            ended: false,
        })
    }

    /// The next line, as soon as it stands whole in the bytes taken; a source is read only where none does,
    /// in pieces of at most 65,536 bytes.
    ///
    /// After each error the bytes taken stay. `TooLong` comes where 2^32 bytes were taken that leave no
    /// whole line, and then at each call.
    pub fn next<S: Source>(&mut self, source: &mut S) -> Result<Next, ReadStop>
        ensures reads { Reads result self.old self.new (S.rest source.old) (S.rest source.new) (S.last source.old) (S.last source.new) }
        ensures next { (bytes later : List ℕ) → S.rest source.old ≡ Some bytes → S.rest source.new ≡ Some later → IsNextOf (lines_of (ahead self.old bytes)) (lines_of (ahead self.new later)) result }
        ensures idle { is_ready self.old ≡ true → source.new ≡ source.old }
        ensures most { IsWithinLimit self.new }
        ensures failed { IsErrOf result ReadStop.ReadFault → Rose (S.faults source.old) (S.faults source.new) }
        ensures steady { S.faults source.old ≤ S.faults source.new }
    {
        loop {
            if let Some(next) = self.answer()? {
                return Ok(next);
            }
            self.take(source)?;
        }
    }

    // What needs no read.
    fn answer(&mut self) -> Result<Option<Next>, ReadStop>
        ensures next { IfOk result (λ answer. MatchOption answer ((is_ready self.old ≡ false) × (self.new ≡ self.old)) (λ next. Answers (Ok next) self.old.left self.new)) }
        ensures count { self.new.taken ≡ self.old.taken }
        ensures ended { self.new.ended ≡ self.old.ended }
        ensures err { IfErr result (λ stop. Answers (Err stop) self.old.left self.new) }
        ensures most { IsWithinLimit self.new }
        ensures no_read { ¬ (IsErrOf result ReadStop.ReadFault) }
    {
        if let Some(line) = self.whole_line()? {
            return Ok(Some(Next::Line(line)));
        }
        if self.ended {
            return Ok(Some(self.last_line()?));
        }
        if self.taken == MOST_TAKEN {
            return Err(ReadStop::TooLong);
        }
        Ok(None)
    }

    // The line before the first LF. Memory lacks only where there is one.
    fn whole_line(&mut self) -> Result<Option<Text>, NoMemory>
        ensures found { IfOk result (λ found. MatchOption found ((has_feed self.old.left ≡ false) × (self.new ≡ self.old)) (λ line. (has_feed line ≡ false)
            × (self.old.left ≡ line ++ 10 ∷ self.new.left))) }
        ensures count { self.new.taken ≡ self.old.taken }
        ensures ended { self.new.ended ≡ self.old.ended }
        ensures most { IsWithinLimit self.new }
        ensures err { OnErr result ((self.new ≡ self.old) × (has_feed self.old.left ≡ true)) }
    {
        let Some((front, _)) = split_once(self.window.bytes(), b'\n') else {
            return Ok(None);
        };
        let at = front.len();
        hold(&mut self.held, &mut self.window, at)?;
        let line = Text::of(*self.held.allocator(), self.held.as_slice())?;
        self.held.clear();
        self.window.pass(1);
        Ok(Some(line))
    }

    // The bytes after the last LF, as a line where there are any.
    fn last_line(&mut self) -> Result<Next, NoMemory>
        requires no_line { has_feed self.old.left ≡ false }
        requires ended { self.old.ended ≡ true }
        ensures ok { IfOk result (λ next. Answers (Ok next) self.old.left self.new) }
        ensures count { self.new.taken ≡ self.old.taken }
        ensures ended { self.new.ended ≡ self.old.ended }
        ensures most { IsWithinLimit self.new }
        ensures err { OnErr result (self.new ≡ self.old) }
    {
        let rest = self.window.bytes().len();
        hold(&mut self.held, &mut self.window, rest)?;
        if self.held.is_empty() {
            return Ok(Next::End);
        }
        let line = Text::of(*self.held.allocator(), self.held.as_slice())?;
        self.held.clear();
        Ok(Next::Line(line))
    }

    // Reads a piece.
    fn take<S: Source>(&mut self, source: &mut S) -> Result<(), ReadStop>
        requires { is_ready self.old ≡ false }
        ensures took { OnOk result (TakesPiece self.old self.new (S.rest source.old) (S.rest source.new) (S.last source.new)) }
        ensures stays { OnErr result ((self.new ≡ self.old) × (S.rest source.new ≡ S.rest source.old) × (S.last source.new ≡ S.last source.old)) }
        ensures most { IsWithinLimit self.new }
        ensures no_long { ¬ (IsErrOf result ReadStop.TooLong) }
        ensures failed { IsErrOf result ReadStop.ReadFault → Rose (S.faults source.old) (S.faults source.new) }
        ensures steady { S.faults source.old ≤ S.faults source.new }
    {
        let rest = self.window.bytes().len();
        hold(&mut self.held, &mut self.window, rest)?;
        let most = (MOST_TAKEN - self.taken).min(PIECE as u64) as usize;
        let n = match self.window.fill(source, most) {
            Ok(n) => n,
            Err(_) => return Err(ReadStop::ReadFault),
        };
        self.taken += n as u64;
        self.ended = n == 0;
        Ok(())
    }
}

// Moves the first bytes of the window to those that are held.
fn hold(held: &mut Vec<u8>, window: &mut Window, n: usize) -> Result<(), NoMemory>
    requires { n ≤ length window.old }
    ensures ok { OnOk result ((held.new.items ≡ held.old.items ++ take n window.old) × (window.new ≡ drop n window.old)) }
    ensures err { OnErr result ((held.new.items ≡ held.old.items) × (window.new ≡ window.old)) }
{
    held.extend_from_slice(&window.bytes()[..n])?;
    window.pass(n);
    Ok(())
}
