//! A whole view.
ghost use Rattle.std.specs.Prelude.{◌≡◌, vec_items, option_map, IfOk, IfErr};
ghost use Rattle.view_def.specs.RawConditions.{raw_of};
ghost use Rattle.view_def.specs.Tree.{ViewTree, tree_of};
ghost use Rattle.view_def.specs.Written.{IsWritten};
ghost use Rattle.view_def.specs.Print.{print};
ghost use Rattle.ss_parser.specs.Views.{columns as columns_phrase, target as target_phrase, header as header_phrase, selection, declarations as declarations_phrase, end as end_phrase, filtered, ending as ending_phrase, view as view_phrase, most_open};
ghost use Rattle.ss_parser.specs.Heads.{head_in};
ghost use Rattle.ss_parser.specs.Refused.{IsRead, IsRefused, IsReadAs};
ghost use Rattle.ss_parser.specs.Parses.{Parses, ParsesAll};

use crate::ParseFault;
use crate::fault::ParseStop;
use crate::keyword::Keyword;
use crate::reader::Reader;
use std::alloc::Global;
use view_def::{Name, RawCond, RawDecl, RawTerm, ViewText};

// How many of NOT and parentheses may be open at once.
const MOST_OPEN: u8 = 64;

/// Reads a view text: its tree, or the refusal that stands earliest in the text.
pub fn parse(alloc: Global, bytes: &[u8]) -> Result<ViewText, ParseFault>
    ensures read { IfOk result (λ v. IsRead bytes.now (tree_of v)) }
    ensures written { IfOk result (λ v. IsWritten (tree_of v)) }
    ensures refused { IfErr result (λ e. IsRefused bytes.now e) }
    ensures whole { (t : ViewTree) → IsRead bytes.now t → IsReadAs t result }

    // The canonical text of what is read is read as the same.
    ensures printed { IfOk result (λ v. IsRead (print (tree_of v)) (tree_of v)) }
{
    let mut reader = Reader::of(alloc, bytes)?;
    match reader.view(alloc) {
        Ok(view) => Ok(view),
        Err(ParseStop::Unexpected) => Err(reader.fault()),
        Err(ParseStop::TooDeep) => Err(ParseFault::TooDeep { at: reader.place() }),
        Err(ParseStop::NoMemory) => Err(ParseFault::NoMemory),
    }
}

/// What stands before SELECT.
#[derive(Drop)]
struct Header {
    view_db: Name,
    label: Name,
    columns: Vec<Name>,
}

impl Reader<'_> {
    // A view, up to the end of the text.
    fn view(&mut self, alloc: Global) -> Result<ViewText, ParseStop>
        ensures { ParsesAll tree_of (view_phrase most_open) self.old self.new result }
    {
        let header = self.header(alloc)?;
        let select = self.select_part(alloc)?;
        let decls = self.from_part(alloc)?;
        let filter = self.ending(alloc)?;
        let Header {
            view_db,
            label,
            columns,
        } = header;
        Ok(ViewText {
            view_db,
            label,
            columns,
            select,
            decls,
            filter,
        })
    }

    // CREATE VIEW, the target and its columns, and AS.
    fn header(&mut self, alloc: Global) -> Result<Header, ParseStop>
        ensures { Parses head_in header_phrase self.old self.new result }
    {
        self.key(Keyword::Create)?;
        self.key(Keyword::View)?;
        let header = self.target(alloc)?;
        self.key(Keyword::As)?;
        Ok(header)
    }

    // The target and its columns.
    fn target(&mut self, alloc: Global) -> Result<Header, ParseStop>
        ensures { Parses head_in target_phrase self.old self.new result }
    {
        let view_db = self.name(alloc)?;
        self.sign(b"::")?;
        let label = self.name(alloc)?;
        let columns = self.columns(alloc)?;
        Ok(Header {
            view_db,
            label,
            columns,
        })
    }

    // Names in parentheses.
    fn columns(&mut self, alloc: Global) -> Result<Vec<Name>, ParseStop>
        ensures { Parses vec_items columns_phrase self.old self.new result }
    {
        self.sign(b"(")?;
        let columns = self.names(alloc)?;
        self.sign(b")")?;
        Ok(columns)
    }

    // SELECT, and terms.
    fn select_part(&mut self, alloc: Global) -> Result<Vec<RawTerm>, ParseStop>
        ensures { Parses vec_items selection self.old self.new result }
    {
        self.key(Keyword::Select)?;
        self.terms(alloc)
    }

    // FROM, and declarations.
    fn from_part(&mut self, alloc: Global) -> Result<Vec<RawDecl>, ParseStop>
        ensures { Parses vec_items declarations_phrase self.old self.new result }
    {
        self.key(Keyword::From)?;
        self.declarations(alloc)
    }

    // A condition or none, and the end.
    fn ending(&mut self, alloc: Global) -> Result<Option<RawCond>, ParseStop>
        ensures { ParsesAll (option_map raw_of) (ending_phrase most_open) self.old self.new result }
    {
        if self.is_key(Keyword::Where) {
            self.where_part(alloc)
        } else {
            self.end()?;
            Ok(None)
        }
    }

    // WHERE, a condition, and the end.
    fn where_part(&mut self, alloc: Global) -> Result<Option<RawCond>, ParseStop>
        ensures { ParsesAll (option_map raw_of) (filtered most_open) self.old self.new result }
    {
        self.key(Keyword::Where)?;
        let condition = self.any(alloc, MOST_OPEN)?;
        self.end()?;
        Ok(Some(condition))
    }

    // A semicolon or none, and the end.
    fn end(&mut self) -> Result<(), ParseStop>
        ensures { ParsesAll (λ _. tt) end_phrase self.old self.new result }
    {
        self.takes_sign(b";");
        self.finish()
    }
}
