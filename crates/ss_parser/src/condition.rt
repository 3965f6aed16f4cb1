//! Conditions. Only a NOT and a parenthesis hold others, and at most so many are open at once.
ghost use Rattle.std.specs.Prelude.{◌≡◌, map};
ghost use Rattle.view_def.specs.RawConditions.{raw_of};
ghost use Rattle.ss_parser.specs.Phrases.{by_next, limit, passes, next};
ghost use Rattle.ss_parser.specs.Conditions.{comparison as comparison_phrase, any_of as any_raw, all_of as all_raw, all as all_phrase, any as any_phrase, negation as negation_phrase, group as group_phrase, starts_term, opens as opens_test, nested as nested_phrase, unit as unit_phrase};
ghost use Rattle.ss_parser.specs.Parses.{Parses};

use crate::fault::ParseStop;
use crate::keyword::Keyword;
use crate::reader::Reader;
use std::alloc::Global;
use view_def::RawCond;

impl Reader<'_> {
    /// Members of which some is to hold, inside which at most so many may be open at once.
    #[cycle(condition)]
    pub(crate) fn any(&mut self, alloc: Global, levels: u8) -> Result<RawCond, ParseStop>
        ensures { Parses raw_of (any_phrase (unit_phrase levels)) self.old self.new result }
    {
        let mut members = Vec::new(alloc);
        loop {
            let member = self.all(alloc, levels)?;
            members.push(member)?;
            if !self.takes_key(Keyword::Or) {
                return Ok(any_of(members));
            }
        }
    }

    // Members each of which is to hold.
    #[cycle(condition)]
    fn all(&mut self, alloc: Global, levels: u8) -> Result<RawCond, ParseStop>
        ensures { Parses raw_of (all_phrase (unit_phrase levels)) self.old self.new result }
    {
        let mut members = Vec::new(alloc);
        loop {
            let member = self.unit(alloc, levels)?;
            members.push(member)?;
            if !self.takes_key(Keyword::And) {
                return Ok(all_of(members));
            }
        }
    }

    // One member.
    #[cycle(condition)]
    fn unit(&mut self, alloc: Global, levels: u8) -> Result<RawCond, ParseStop>
        ensures { Parses raw_of (unit_phrase levels) self.old self.new result }
    {
        if levels == 0 {
            self.innermost(alloc)
        } else {
            self.nested(alloc, levels - 1)
        }
    }

    // One that may hold others.
    #[cycle(condition)]
    fn nested(&mut self, alloc: Global, levels: u8) -> Result<RawCond, ParseStop>
        ensures { Parses raw_of (nested_phrase (unit_phrase levels)) self.old self.new result }
    {
        if self.is_term() {
            self.comparison(alloc)
        } else if self.is_key(Keyword::Not) {
            self.negation(alloc, levels)
        } else {
            self.group(alloc, levels)
        }
    }

    // One that is not to hold.
    #[cycle(condition)]
    fn negation(&mut self, alloc: Global, levels: u8) -> Result<RawCond, ParseStop>
        ensures { Parses raw_of (negation_phrase (unit_phrase levels)) self.old self.new result }
    {
        self.key(Keyword::Not)?;
        let held = self.unit(alloc, levels)?;
        Ok(RawCond::Not(Box::new(alloc, held)?))
    }

    // One in parentheses.
    #[cycle(condition)]
    fn group(&mut self, alloc: Global, levels: u8) -> Result<RawCond, ParseStop>
        ensures { Parses raw_of (group_phrase (unit_phrase levels)) self.old self.new result }
    {
        self.sign(b"(")?;
        let held = self.any(alloc, levels)?;
        self.sign(b")")?;
        Ok(held)
    }

    // One that may hold no other.
    fn innermost(&mut self, alloc: Global) -> Result<RawCond, ParseStop>
        ensures { Parses raw_of (by_next starts_term comparison_phrase (limit opens_test)) self.old self.new result }
    {
        if self.is_term() {
            self.comparison(alloc)
        } else if self.opens() {
            Err(ParseStop::TooDeep)
        } else {
            Err(ParseStop::Unexpected)
        }
    }

    // Whether what is next would hold others.
    fn opens(&self) -> bool
        ensures { result ≡ passes opens_test (next self.now) }
    {
        self.is_key(Keyword::Not) || self.is_sign(b"(")
    }

    // Two terms and an operator.
    fn comparison(&mut self, alloc: Global) -> Result<RawCond, ParseStop>
        ensures { Parses raw_of comparison_phrase self.old self.new result }
    {
        let left = self.term(alloc)?;
        let op = self.operator()?;
        let right = self.term(alloc)?;
        Ok(RawCond::Compare(left, op, right))
    }
}

// The condition that some of these holds; a single one stands for itself.
fn any_of(mut members: Vec<RawCond>) -> RawCond
    ensures { raw_of result ≡ any_raw (map raw_of members.items) }
{
    if members.len() == 1
        && let Some(only) = members.pop()
    {
        only
    } else {
        RawCond::Any(members)
    }
}

// The condition that each of these holds; a single one stands for itself.
fn all_of(mut members: Vec<RawCond>) -> RawCond
    ensures { raw_of result ≡ all_raw (map raw_of members.items) }
{
    if members.len() == 1
        && let Some(only) = members.pop()
    {
        only
    } else {
        RawCond::All(members)
    }
}
