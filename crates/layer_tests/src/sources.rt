//! What `csv` gives for texts that only a careful reader gets right, and catalogues of small stores.
ghost use Rattle.std.specs.Prelude.{◌<◌, All};

use crate::names::{Names, texts};
use csv_catalog::{LoadFault, Pair, load, record_text, records, relation_text, save_changed};
use outside::{Folders, MemFolders};
use schema_model::{Catalogue, Database, Relation};
use ss_text::{NoMemory, Row, Text};
use std::alloc::Global;
use std::test::Fail;

// The rows, with `|` after each field and `;` after each row.
fn shown(alloc: Global, rows: &[Row]) -> Result<Vec<u8>, NoMemory> {
    let mut out = Vec::new(alloc);
    for row in rows {
        for text in row.cells() {
            out.extend_from_slice(text.as_slice())?;
            out.push(b'|')?;
        }
        out.push(b';')?;
    }
    Ok(out)
}

// The records of a text.
fn read(alloc: Global, bytes: &[u8]) -> Result<Vec<u8>, NoMemory> {
    let rows = records(alloc, bytes)?;
    let told = shown(alloc, &rows);
    drop(rows);
    told
}

// Whether these bytes read as one record of one field, which they are.
fn is_one_field(alloc: Global, bytes: &[u8]) -> Result<bool, NoMemory> {
    let rows = records(alloc, bytes)?;
    let same = match rows.as_slice() {
        [row] => is_cell(row.cells(), bytes),
        _ => false,
    };
    drop(rows);
    Ok(same)
}

fn is_cell(cells: &[Text], bytes: &[u8]) -> bool {
    match cells {
        [cell] => cell.as_slice() == bytes,
        _ => false,
    }
}

#[test]
fn reads_with_care(rt: HostRuntime) -> Result<(), Fail> {
    let alloc = rt.alloc();
    let cases: [(&[u8], &[u8]); 22] = [
        (b"", b""),
        (b"\n\r\n\r", b""),
        (b"a,b\nc,d\n", b"a|b|;c|d|;"),
        (b"a,b\nc,d", b"a|b|;c|d|;"),
        (b"a\rb\r", b"a|;b|;"),
        (b"a,b\r\nc,d\r\n", b"a|b|;c|d|;"),
        (b"a\n\nb\n", b"a|;b|;"),
        (b"a,b\n1\n1,2,3\n", b"a|b|;1|;1|2|3|;"),
        (b",\n", b"||;"),
        (b" a , b\n", b" a | b|;"),
        (b"\"\"\n", b"|;"),
        (b"\"", b"|;"),
        (b"a,\"", b"a||;"),
        (b"a\"b,c\"\n", b"a\"b|c\"|;"),
        (b"\"a\"\"b\",\"c\"\n", b"a\"b|c|;"),
        (b"\"a\"b,c\n", b"ab|c|;"),
        (b"\"a\nb\r\",\"c,d\"\n", b"a\nb\r|c,d|;"),
        (b"\"a\nb", b"a\nb|;"),
        (b"\xef\xbb\xbfa,b\n", b"a|b|;"),
        (b"\xef\xbb\xbf\"a\",b\n", b"a|b|;"),
        (b"a,\xef\xbb\xbfb\n", b"a|\xef\xbb\xbfb|;"),
        (b"\xff\x00,\xc3\n", b"\xff\x00|\xc3|;"),
    ];
    for (bytes, want) in cases {
        let found = read(alloc, bytes)?;
        assert!(rt; found.as_slice() == want, "{bytes:?} reads as {found:?}");
    }
    let long = vec![in alloc; b'x'; 1_000_000]?;
    assert!(rt; is_one_field(alloc, &long)?);
    Ok(())
}

fn row_of(alloc: Global, fields: &[&[u8]]) -> Result<Row, NoMemory> {
    let mut texts = Vec::new(alloc);
    for field in fields {
        texts.push(Text::of(alloc, field)?)?;
    }
    Ok(Row::of(texts))
}

// Whether a record of these fields, of which there is one, is written as this text.
fn is_written(alloc: Global, fields: &[&[u8]], want: &[u8]) -> Result<bool, NoMemory> {
    let row = row_of(alloc, fields)?;
    if row.cells().is_empty() {
        drop(row);
        return Ok(false);
    }
    let text = record_text(alloc, &row);
    drop(row);
    let text = text?;
    let same = text.as_slice() == want;
    drop(text);
    Ok(same)
}

#[test]
fn writes_canonically(rt: HostRuntime) -> Result<(), Fail> {
    let alloc = rt.alloc();
    let cases: [(&[&[u8]], &[u8]); 8] = [
        (&[b"a", b"b"], b"a,b\n"),
        (&[b""], b"\"\"\n"),
        (&[b"", b""], b",\n"),
        (&[b"a\"b"], b"\"a\"\"b\"\n"),
        (&[b"a,b", b"c\rd", b"e\nf"], b"\"a,b\",\"c\rd\",\"e\nf\"\n"),
        (&[b" a ", b"#", b"1"], b" a ,#,1\n"),
        (&[b"\""], b"\"\"\"\"\n"),
        (&[b"\xff"], b"\xff\n"),
    ];
    for (fields, want) in cases {
        assert!(rt;
            is_written(alloc, fields, want)?,
            "{fields:?} is not written as {want:?}"
        );
    }
    Ok(())
}

// Puts a file.
fn put(
    alloc: Global,
    store: &mut MemFolders,
    folder: &str,
    file: &str,
    bytes: &str,
) -> Result<(), NoMemory> {
    let names = Names::of(alloc, folder.as_bytes(), file.as_bytes())?;
    let done = store.put(alloc, &names.outer, &names.inner, bytes.as_bytes());
    drop(names);
    done
}

fn put_all(
    alloc: Global,
    store: &mut MemFolders,
    files: &[(&str, &str, &str)],
) -> Result<(), NoMemory> {
    for (folder, file, bytes) in files {
        put(alloc, store, folder, file, bytes)?;
    }
    Ok(())
}

// A store with these files, each with its folder, whose reading calls with these numbers fail.
fn store_of(
    alloc: Global,
    fails: Vec<u64>,
    files: &[(&str, &str, &str)],
) -> Result<MemFolders, NoMemory>
    requires { All (λ k. k < 18446744073709551615) fails.items }
{
    let mut store = MemFolders::of(alloc, fails, Vec::new(alloc));
    match put_all(alloc, &mut store, files) {
        Ok(()) => Ok(store),
        Err(fault) => {
            drop(store);
            Err(fault)
        }
    }
}

// Each database with its name and its files, or the refusal.
fn outcome(alloc: Global, loaded: Result<Catalogue, LoadFault>) -> Result<Vec<u8>, NoMemory> {
    match loaded {
        Ok(catalogue) => {
            let told = contents(alloc, catalogue.databases());
            drop(catalogue);
            told
        }
        Err(fault) => {
            let told = refusal(alloc, &fault);
            drop(fault);
            told
        }
    }
}

fn put_relation(alloc: Global, out: &mut Vec<u8>, relation: &Relation) -> Result<(), NoMemory> {
    out.push(b' ')?;
    out.extend_from_slice(relation.name().as_slice())?;
    out.push(b':')?;
    let text = relation_text(alloc, relation)?;
    let done = out.extend_from_slice(text.as_slice());
    drop(text);
    Ok(done?)
}

fn contents(alloc: Global, databases: &[Database]) -> Result<Vec<u8>, NoMemory> {
    let mut out = Vec::new(alloc);
    for database in databases {
        out.extend_from_slice(database.name().as_slice())?;
        for relation in database.relations() {
            put_relation(alloc, &mut out, relation)?;
        }
        out.push(b';')?;
    }
    Ok(out)
}

fn refusal(alloc: Global, fault: &LoadFault) -> Result<Vec<u8>, NoMemory> {
    match fault {
        LoadFault::NoHeader { db, file } => joined(alloc, b"no-header", &[db, file]),
        LoadFault::NameTwice { db, file, name } => joined(alloc, b"name-twice", &[db, file, name]),
        LoadFault::Ragged {
            db,
            file,
            nth,
            want,
            got,
        } => {
            let numbers = format!(in alloc; "{nth} {want} {got}")?;
            let numbers = Text::of(alloc, numbers.as_bytes())?;
            let told = joined(alloc, b"ragged", &[db, file, &numbers]);
            drop(numbers);
            told
        }
        LoadFault::Limit { .. } => joined(alloc, b"limit", &[]),
        LoadFault::ReadFault => joined(alloc, b"read fault", &[]),
        LoadFault::NoMemory => joined(alloc, b"no memory", &[]),
    }
}

fn joined(alloc: Global, name: &[u8], fields: &[&Text]) -> Result<Vec<u8>, NoMemory> {
    let mut out = Vec::from_slice(alloc, name)?;
    for field in fields {
        out.push(b' ')?;
        out.extend_from_slice(field.as_slice())?;
    }
    Ok(out)
}

// What the catalogue is that a store of these files gives.
fn told(alloc: Global, fails: Vec<u64>, files: &[(&str, &str, &str)]) -> Result<Vec<u8>, NoMemory>
    requires { All (λ k. k < 18446744073709551615) fails.items }
{
    let mut store = store_of(alloc, fails, files)?;
    let told = outcome(alloc, load(alloc, &mut store));
    drop(store);
    told
}

#[test]
fn loads_in_order(rt: HostRuntime) -> Result<(), Fail> {
    let alloc = rt.alloc();
    let cases: [(&[(&str, &str, &str)], &str); 15] = [
        (&[], ""),
        (&[("sources", "a.csv", "x\n")], ""),
        (
            &[
                ("sources/d", "a.csv", "x\n1\n"),
                ("sources/d", "a-b.csv", "y\n2\n"),
            ],
            "d a:x\n1\n a-b:y\n2\n;",
        ),
        (
            &[("sources/d", "a.csv", ""), ("sources/d", "a-b.csv", "")],
            "no-header d a-b.csv",
        ),
        (
            &[
                ("sources/d", "a.csv", "\n\n"),
                ("sources/d", "a-b.csv", "y\n2\n"),
            ],
            "no-header d a.csv",
        ),
        (
            &[
                ("sources/d", "a.csv", "x\n1,2\n"),
                ("sources/d", "a-b.csv", "y,y\n"),
            ],
            "name-twice d a-b.csv y",
        ),
        (
            &[("sources/b", "r.csv", "x\n"), ("sources/a", "s.csv", "y\n")],
            "a s:y\n;b r:x\n;",
        ),
        (
            &[
                ("sources/b", "a.csv", ""),
                ("sources/a", "z.csv", "y\n1\n1,2\n"),
            ],
            "ragged a z.csv 3 1 2",
        ),
        (
            &[
                ("sources/.git", "a.csv", ""),
                ("sources/d", ".csv", ""),
                ("sources/d", ".x.csv", ""),
                ("sources/d", "notes.txt", ""),
                ("sources/d/e", "a.csv", ""),
            ],
            "d;",
        ),
        (&[("sources/d", "r.csv.csv", "x\n")], "d r.csv:x\n;"),
        (
            &[("sources/d", "r.csv", "a,b,b,a\n1\n")],
            "name-twice d r.csv b",
        ),
        (
            &[("sources/d", "r.csv", "a,b\n\"x\ny\",1\n\n2\n")],
            "ragged d r.csv 3 2 1",
        ),
        (
            &[("sources/d", "r.csv", "\u{feff}a,b\r\nx\"y,\"z\"")],
            "d r:a,b\n\"x\"\"y\",z\n;",
        ),
        (
            &[("sources/d", "r.csv", "\"\"\n\"\"\n")],
            "d r:\"\"\n\"\"\n;",
        ),
        (&[("sources/d", "r.csv", "a\n1\n1\n")], "d r:a\n1\n1\n;"),
    ];
    for (files, want) in cases {
        let found = told(alloc, Vec::new(alloc), files)?;
        assert!(rt;
            found.as_slice() == want.as_bytes(),
            "{files:?} gives {found:?}"
        );
    }
    for failing in 1..5 {
        let fails = Vec::from_slice(alloc, &[failing])?;
        let found = told(alloc, fails, &[("sources/d", "r.csv", "a\n")])?;
        let want = if failing < 4 {
            b"read fault".as_slice()
        } else {
            b"d r:a\n;".as_slice()
        };
        assert!(rt;
            found.as_slice() == want,
            "call {failing} fails, and gives {found:?}"
        );
    }
    Ok(())
}

// A pair of these names.
fn pair(alloc: Global, db: &str, rel: &str) -> Result<Pair, NoMemory> {
    let names = Names::of(alloc, db.as_bytes(), rel.as_bytes())?;
    let pair = Pair::of(&names.outer, &names.inner);
    drop(names);
    pair
}

fn pairs(alloc: Global, told: &[(&str, &str)]) -> Result<Vec<Pair>, NoMemory> {
    let mut pairs = Vec::new(alloc);
    for (db, rel) in told {
        pairs.push(pair(alloc, db, rel)?)?;
    }
    Ok(pairs)
}

// Writes each of the texts behind a space.
fn put_texts(out: &mut Vec<u8>, texts: &[Text]) -> Result<(), NoMemory> {
    for text in texts {
        out.push(b' ')?;
        out.extend_from_slice(text.as_slice())?;
    }
    Ok(())
}

// Writes the names of the folders under `sources`.
fn put_folders(alloc: Global, store: &mut MemFolders, out: &mut Vec<u8>) -> Result<(), NoMemory> {
    let sources = Text::of(alloc, b"sources")?;
    let names = store.subfolders(alloc, &sources);
    drop(sources);
    match names {
        Ok(names) => {
            let done = put_texts(out, &names);
            drop(names);
            done
        }
        Err(_) => Err(NoMemory),
    }
}

// What a store has under `sources` as a catalogue, and the names of the folders there.
fn saved(alloc: Global, store: &mut MemFolders) -> Result<Vec<u8>, NoMemory> {
    let mut out = outcome(alloc, load(alloc, store))?;
    put_folders(alloc, store, &mut out)?;
    Ok(out)
}

// Saves what of a catalogue has changed, and tells whether that was done.
fn save(alloc: Global, store: &mut MemFolders, catalogue: &Catalogue) -> Result<bool, NoMemory> {
    let databases = texts(alloc, b"d,x,z")?;
    let pairs = pairs(alloc, &[("d", "r"), ("d", "s"), ("x", "y")])?;
    let done = save_changed(alloc, store, catalogue, &databases, &pairs);
    drop(databases);
    drop(pairs);
    Ok(done.is_ok())
}

// What a store of these files has once a catalogue is saved there, if it is.
fn saved_over(
    alloc: Global,
    catalogue: &Catalogue,
    files: &[(&str, &str, &str)],
) -> Result<Option<Vec<u8>>, NoMemory> {
    let mut store = store_of(alloc, Vec::new(alloc), files)?;
    let found = match save(alloc, &mut store, catalogue) {
        Ok(true) => saved(alloc, &mut store).map(Some),
        Ok(false) => Ok(None),
        Err(fault) => Err(fault),
    };
    drop(store);
    found
}

// The same of the catalogue that a store of other files gives, if it gives one.
fn loaded_and_saved(
    alloc: Global,
    from: &[(&str, &str, &str)],
    files: &[(&str, &str, &str)],
) -> Result<Option<Vec<u8>>, NoMemory> {
    let mut store = store_of(alloc, Vec::new(alloc), from)?;
    let loaded = load(alloc, &mut store);
    drop(store);
    match loaded {
        Ok(catalogue) => {
            let found = saved_over(alloc, &catalogue, files);
            drop(catalogue);
            found
        }
        Err(fault) => {
            drop(fault);
            Ok(None)
        }
    }
}

#[test]
fn saves_what_has_changed(rt: HostRuntime) -> Result<(), Fail> {
    let alloc = rt.alloc();
    let files = [
        ("sources/d", "r.csv", "a\n1\n"),
        ("sources/d", "s.csv", "b\n"),
    ];
    let others = [
        ("sources/d", "r.csv", "old\n"),
        ("sources/x", "y.csv", "a\n"),
        ("sources/z", "notes", "stays"),
    ];
    let Some(found) = loaded_and_saved(alloc, &files, &others)? else {
        return Err(Fail::from("not loaded, or not saved"));
    };
    assert!(rt;
        found.as_slice() == b"d r:a\n1\n s:b\n;z; d z".as_slice(),
        "{found:?}"
    );
    Ok(())
}
