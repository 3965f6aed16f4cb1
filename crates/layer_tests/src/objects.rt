//! The objects in memory, and their calls that fail.

use crate::names::{Names, texts};
use outside::{
    Failed, Folders, MemFolders, MemSink, MemSource, Sink, Source, StoreFault, SureFolders,
    SureSink, SureSource,
};
use ss_text::{NoMemory, Text};
use std::alloc::Global;

// What two calls give, and the first byte given last.
fn read_twice<S: Source>(source: &mut S) -> ([Result<usize, Failed>; 2], u8) {
    let mut into = [0u8; 2];
    let first = source.read(&mut into);
    let second = source.read(&mut into);
    ([first, second], into[0])
}

#[test]
fn sources_give_their_pieces(rt: HostRuntime) -> Result<(), NoMemory> {
    let alloc = rt.alloc();
    let mut sure = SureSource::of(texts(alloc, b",x,")?);
    let told = read_twice(&mut sure);
    drop(sure);
    assert_eq!(rt; told, ([Ok(1), Ok(0)], b'x'));
    let mut source = MemSource::of(texts(alloc, b"abc,,d")?, vec![in alloc; 2]?);
    let told = [
        read_twice(&mut source),
        read_twice(&mut source),
        read_twice(&mut source),
    ];
    drop(source);
    assert_eq!(rt; told[0].0, [Ok(2), Err(Failed)]);
    assert_eq!(rt; told[1], ([Ok(1), Ok(1)], b'd'));
    assert_eq!(rt; told[2].0, [Ok(0), Ok(0)]);
    Ok(())
}

#[test]
fn sinks_keep_what_they_take(rt: HostRuntime) -> Result<(), NoMemory> {
    let alloc = rt.alloc();
    let mut sure = SureSink::of(alloc, 2);
    let told = sure.write(alloc, b"abc");
    let is_kept = sure.bytes() == b"ab".as_slice();
    drop(sure);
    assert_eq!(rt; (told, is_kept), (Ok(2), true));
    let mut sink = MemSink::of(alloc, 2, vec![in alloc; 2]?);
    let told = [
        sink.write(alloc, b"abc"),
        sink.write(alloc, b"abc"),
        sink.write(alloc, b"abc"),
    ];
    let is_kept = sink.bytes() == b"abab".as_slice();
    drop(sink);
    assert_eq!(rt; told, [Ok(2), Err(StoreFault::Failed), Ok(2)]);
    assert!(rt; is_kept);
    Ok(())
}

// Whether the names are this one alone, or none.
fn are(names: &[Text], name: Option<&[u8]>) -> bool {
    match (names, name) {
        ([], None) => true,
        ([found], Some(name)) => found.as_slice() == name,
        _ => false,
    }
}

fn has_subfolder<F: Folders>(
    alloc: Global,
    store: &mut F,
    folder: &Text,
    name: Option<&[u8]>,
) -> Result<bool, StoreFault> {
    let names = store.subfolders(alloc, folder)?;
    let same = are(&names, name);
    drop(names);
    Ok(same)
}

fn has_file<F: Folders>(
    alloc: Global,
    store: &mut F,
    folder: &Text,
    name: Option<&[u8]>,
) -> Result<bool, StoreFault> {
    let names = store.files(alloc, folder)?;
    let same = are(&names, name);
    drop(names);
    Ok(same)
}

// Whether a folder has this subfolder alone, or none, and so with its files.
fn has<F: Folders>(
    alloc: Global,
    store: &mut F,
    folder: &[u8],
    subfolder: Option<&[u8]>,
    file: Option<&[u8]>,
) -> Result<bool, StoreFault> {
    let folder = Text::of(alloc, folder)?;
    let subfolders = has_subfolder(alloc, store, &folder, subfolder);
    let files = has_file(alloc, store, &folder, file);
    drop(folder);
    Ok(subfolders? && files?)
}

// Writes a file, and answers how many bytes it was given.
fn written<F: Folders>(alloc: Global, store: &mut F, bytes: &[u8]) -> Result<usize, StoreFault> {
    let names = Names::of(alloc, b"a//b", b"f")?;
    let done = store.write(alloc, &names.outer, &names.inner, bytes);
    drop(names);
    done?;
    Ok(bytes.len())
}

// How many bytes the file holds, or 100 where it is missing.
fn held<F: Folders>(alloc: Global, store: &mut F) -> Result<usize, StoreFault> {
    let names = Names::of(alloc, b"a//b", b"f")?;
    let bytes = store.read(alloc, &names.outer, &names.inner);
    drop(names);
    Ok(bytes?.map_or(100, |bytes| bytes.as_slice().len()))
}

// Removes the file, and answers how many there were.
fn removed<F: Folders>(alloc: Global, store: &mut F) -> Result<usize, StoreFault> {
    let names = Names::of(alloc, b"a//b", b"f")?;
    let was = store.remove(alloc, &names.outer, &names.inner);
    drop(names);
    Ok(was? as usize)
}

fn changed<F: Folders>(alloc: Global, store: &mut F) -> [Result<usize, StoreFault>; 4] {
    let torn = written(alloc, store, b"12345");
    let half = held(alloc, store);
    let whole = written(alloc, store, b"123");
    let unread = held(alloc, store);
    [torn, half, whole, unread]
}

fn taken<F: Folders>(alloc: Global, store: &mut F) -> [Result<usize, StoreFault>; 4] {
    let kept = removed(alloc, store);
    let whole = held(alloc, store);
    let gone = removed(alloc, store);
    let missing = held(alloc, store);
    [kept, whole, gone, missing]
}

// Puts the file.
fn put(alloc: Global, store: &mut SureFolders) -> Result<(), StoreFault> {
    let names = Names::of(alloc, b"a//b", b"f")?;
    let done = store.put(alloc, &names.outer, &names.inner, b"12345");
    drop(names);
    Ok(done?)
}

// Whether a folder has no names at first, and has those of the file's folder once this is put; and whether that has the file.
fn named(alloc: Global, store: &mut SureFolders) -> Result<[bool; 3], StoreFault> {
    let none = has(alloc, store, b"a/", None, None)?;
    put(alloc, store)?;
    let above = has(alloc, store, b"a/", Some(b"b".as_slice()), None)?;
    let inside = has(alloc, store, b"a//b", None, Some(b"f".as_slice()))?;
    Ok([none, above, inside])
}

#[test]
fn folders_are_made_with_those_above(rt: HostRuntime) -> Result<(), StoreFault> {
    let alloc = rt.alloc();
    let mut store = SureFolders::of(alloc);
    let told = named(alloc, &mut store);
    drop(store);
    assert_eq!(rt; told?, [true; 3]);
    Ok(())
}

#[test]
fn calls_on_folders_fail(rt: HostRuntime) -> Result<(), StoreFault> {
    let alloc = rt.alloc();
    let fails = Err(StoreFault::Failed);
    let mut store = MemFolders::of(alloc, vec![in alloc; 2]?, vec![in alloc; 1, 3]?);
    let change = changed(alloc, &mut store);
    let taking = taken(alloc, &mut store);
    drop(store);
    assert_eq!(rt; change, [fails, Ok(2), Ok(3), fails]);
    assert_eq!(rt; taking, [fails, Ok(3), Ok(1), Ok(100)]);
    Ok(())
}

// Makes two folders, of which one is there then, and removes what is empty.
fn made_and_removed<F: Folders>(
    alloc: Global,
    store: &mut F,
) -> Result<[Result<bool, StoreFault>; 6], NoMemory> {
    let names = Names::of(alloc, b"a", b"a/b")?;
    let made = store.make_folder(alloc, &names.inner);
    let again = store.make_folder(alloc, &names.outer);
    let full = store.remove_folder(alloc, &names.outer);
    let gone = store.remove_folder(alloc, &names.inner);
    let empty = store.remove_folder(alloc, &names.outer);
    let missing = store.remove_folder(alloc, &names.outer);
    drop(names);
    Ok([made, again, full, gone, empty, missing])
}

#[test]
fn folders_come_and_go(rt: HostRuntime) -> Result<(), NoMemory> {
    let alloc = rt.alloc();
    let mut store = SureFolders::of(alloc);
    let all = [
        Ok(true),
        Ok(false),
        Ok(false),
        Ok(true),
        Ok(true),
        Ok(false),
    ];
    let told = made_and_removed(alloc, &mut store);
    drop(store);
    assert_eq!(rt; told?, all);
    let mut store = MemFolders::of(alloc, Vec::new(alloc), vec![in alloc; 4]?);
    let fails = Err(StoreFault::Failed);
    let one_fails = [Ok(true), Ok(false), Ok(false), fails, Ok(false), Ok(false)];
    let told = made_and_removed(alloc, &mut store);
    drop(store);
    assert_eq!(rt; told?, one_fails);
    Ok(())
}

// How many of the first bytes of the file there are, at most so many, or 100 where it is missing.
fn begun<F: Folders>(alloc: Global, store: &mut F, most: usize) -> Result<usize, StoreFault> {
    let names = Names::of(alloc, b"a//b", b"f")?;
    let front = store.front(alloc, &names.outer, &names.inner, most);
    drop(names);
    Ok(front?.map_or(100, |front| front.as_slice().len()))
}

fn fronts<F: Folders>(alloc: Global, store: &mut F) -> [Result<usize, StoreFault>; 5] {
    let missing = begun(alloc, store, 3);
    let whole = written(alloc, store, b"123");
    let none = begun(alloc, store, 0);
    let some = begun(alloc, store, 2);
    let all = begun(alloc, store, 4);
    [missing, whole, none, some, all]
}

#[test]
fn fronts_count_as_reads(rt: HostRuntime) -> Result<(), NoMemory> {
    let alloc = rt.alloc();
    let mut store = SureFolders::of(alloc);
    let told = fronts(alloc, &mut store);
    drop(store);
    assert_eq!(rt; told, [Ok(100), Ok(3), Ok(0), Ok(2), Ok(3)]);
    let mut store = MemFolders::of(alloc, vec![in alloc; 3]?, Vec::new(alloc));
    let fails = Err(StoreFault::Failed);
    let one_fails = [Ok(100), Ok(3), Ok(0), fails, Ok(3)];
    let told = fronts(alloc, &mut store);
    drop(store);
    assert_eq!(rt; told, one_fails);
    Ok(())
}
