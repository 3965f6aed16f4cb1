//! Declarations.
ghost use Rattle.std.specs.Prelude.{vec_items};
ghost use Rattle.ss_parser.specs.Terms.{some};
ghost use Rattle.ss_parser.specs.Declarations.{var as var_phrase, arrow_var as arrow_var_phrase, column_var as column_var_phrase, cell_var as cell_var_phrase, in_relation as in_relation_phrase, in_database as in_database_phrase, behind_name as behind_name_phrase, named as named_phrase, decl};
ghost use Rattle.ss_parser.specs.Parses.{Parses};

use crate::fault::ParseStop;
use crate::reader::Reader;
use ss_text::Text;
use std::alloc::Global;
use view_def::{Name, RawDecl, RawRange};

impl Reader<'_> {
    /// Declarations between commas.
    pub(crate) fn declarations(&mut self, alloc: Global) -> Result<Vec<RawDecl>, ParseStop>
        ensures { Parses vec_items (some decl) self.old self.new result }
    {
        let mut all = Vec::new(alloc);
        loop {
            let one = self.declaration(alloc)?;
            all.push(one)?;
            if !self.takes_sign(b",") {
                return Ok(all);
            }
        }
    }

    // A declaration.
    fn declaration(&mut self, alloc: Global) -> Result<RawDecl, ParseStop>
        ensures { Parses (λ d. d) decl self.old self.new result }
    {
        if self.is_sign(b"->") {
            self.arrow_var(alloc, RawRange::Databases)
        } else {
            self.named(alloc)
        }
    }

    // One that begins with a name.
    fn named(&mut self, alloc: Global) -> Result<RawDecl, ParseStop>
        ensures { Parses (λ d. d) named_phrase self.old self.new result }
    {
        let name = self.name(alloc)?;
        if self.is_sign(b"->") {
            self.arrow_var(alloc, RawRange::Relations(name))
        } else {
            self.behind_name(alloc, name)
        }
    }

    // What goes on a name that no arrow follows: a quoted one is no tuple variable.
    fn behind_name(&mut self, alloc: Global, name: Name) -> Result<RawDecl, ParseStop>
        ensures { Parses (λ d. d) (behind_name_phrase name.quoted name) self.old self.new result }
    {
        if !name.quoted && self.is_sign(b".") {
            self.cell_var(alloc, name.text)
        } else {
            self.in_database(alloc, name)
        }
    }

    // A relation of a database, and what goes on it.
    fn in_database(&mut self, alloc: Global, database: Name) -> Result<RawDecl, ParseStop>
        ensures { Parses (λ d. d) (in_database_phrase database) self.old self.new result }
    {
        self.sign(b"::")?;
        let relation = self.name(alloc)?;
        self.in_relation(alloc, database, relation)
    }

    // What goes on a relation.
    fn in_relation(
        &mut self,
        alloc: Global,
        database: Name,
        relation: Name,
    ) -> Result<RawDecl, ParseStop>
        ensures { Parses (λ d. d) (in_relation_phrase database relation) self.old self.new result }
    {
        if self.is_sign(b"->") {
            self.arrow_var(alloc, RawRange::Attributes(database, relation))
        } else if self.is_sign(b".") {
            self.column_var(alloc, database, relation)
        } else {
            self.var(alloc, RawRange::Tuples(database, relation))
        }
    }

    // A variable over the values of a column.
    fn column_var(
        &mut self,
        alloc: Global,
        database: Name,
        relation: Name,
    ) -> Result<RawDecl, ParseStop>
        ensures { Parses (λ d. d) (column_var_phrase database relation) self.old self.new result }
    {
        self.sign(b".")?;
        let attribute = self.name(alloc)?;
        self.var(alloc, RawRange::Values(database, relation, attribute))
    }

    // A variable for a cell of a tuple variable.
    fn cell_var(&mut self, alloc: Global, tuple: Text) -> Result<RawDecl, ParseStop>
        ensures { Parses (λ d. d) (cell_var_phrase tuple) self.old self.new result }
    {
        self.sign(b".")?;
        let attribute = self.name(alloc)?;
        self.var(alloc, RawRange::Alias(tuple, attribute))
    }

    // An arrow, and a variable over a range.
    fn arrow_var(&mut self, alloc: Global, range: RawRange) -> Result<RawDecl, ParseStop>
        ensures { Parses (λ d. d) (arrow_var_phrase range) self.old self.new result }
    {
        self.sign(b"->")?;
        self.var(alloc, range)
    }

    // A variable over a range.
    fn var(&mut self, alloc: Global, range: RawRange) -> Result<RawDecl, ParseStop>
        ensures { Parses (λ d. d) (var_phrase range) self.old self.new result }
    {
        let var = self.ident(alloc)?;
        Ok(RawDecl { range, var })
    }
}
