//! Terms, and lists of names and of terms.
ghost use Rattle.std.specs.Prelude.{vec_items};
ghost use Rattle.ss_parser.specs.Terms.{a_term, dotted as dotted_phrase, ident_term as ident_term_phrase, name as name_phrase, some};
ghost use Rattle.ss_parser.specs.Parses.{Parses};

use crate::fault::ParseStop;
use crate::reader::Reader;
use ss_text::Text;
use std::alloc::Global;
use view_def::{Name, RawTerm};

impl Reader<'_> {
    /// A term.
    pub(crate) fn term(&mut self, alloc: Global) -> Result<RawTerm, ParseStop>
        ensures { Parses (λ t. t) a_term self.old self.new result }
    {
        if self.is_ident() {
            self.ident_term(alloc)
        } else {
            self.literal(alloc)
        }
    }

    // An identifier, or an attribute of one.
    fn ident_term(&mut self, alloc: Global) -> Result<RawTerm, ParseStop>
        ensures { Parses (λ t. t) ident_term_phrase self.old self.new result }
    {
        let ident = self.ident(alloc)?;
        if self.is_sign(b".") {
            self.dotted(alloc, ident)
        } else {
            Ok(RawTerm::Lone(ident))
        }
    }

    // An attribute of an identifier.
    fn dotted(&mut self, alloc: Global, ident: Text) -> Result<RawTerm, ParseStop>
        ensures { Parses (λ t. t) (dotted_phrase ident) self.old self.new result }
    {
        self.sign(b".")?;
        let attribute = self.name(alloc)?;
        Ok(RawTerm::Dot(ident, attribute))
    }

    /// Terms between commas.
    pub(crate) fn terms(&mut self, alloc: Global) -> Result<Vec<RawTerm>, ParseStop>
        ensures { Parses vec_items (some a_term) self.old self.new result }
    {
        let mut all = Vec::new(alloc);
        loop {
            let term = self.term(alloc)?;
            all.push(term)?;
            if !self.takes_sign(b",") {
                return Ok(all);
            }
        }
    }

    /// Names between commas.
    pub(crate) fn names(&mut self, alloc: Global) -> Result<Vec<Name>, ParseStop>
        ensures { Parses vec_items (some name_phrase) self.old self.new result }
    {
        let mut all = Vec::new(alloc);
        loop {
            let name = self.name(alloc)?;
            all.push(name)?;
            if !self.takes_sign(b",") {
                return Ok(all);
            }
        }
    }
}
