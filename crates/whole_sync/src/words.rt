//! The text of a list: words that end with a 0 byte, of which no name of a file has one.
ghost use Rattle.std.specs.Prelude.{◌≡◌, List, [], ◌∷◌, ◌++◌, IfOk, OnOk, IsErrOf, true, false, codes};
ghost use Rattle.std.specs.List.{AllByRecursion};
ghost use Rattle.whole_sync.specs.declared.moves.Move.{Move};
ghost use Rattle.whole_sync.specs.Lists.{move_words, list_words, joined, IsWord, IsListOf};

use crate::Move;
use outside::StoreFault;
use ss_text::Text;
use std::alloc::Global;

const FIRST: &[u8] = b"lantsjuf list 1";

const LAST: &[u8] = b"end";

const MAKE: &[u8] = b"make";

const WRITE: &[u8] = b"write";

const REMOVE: &[u8] = b"remove";

const GONE: &[u8] = b"gone";

/// The text of these moves. A name with a 0 byte is a failure.
pub(crate) fn list_text(alloc: Global, moves: &[Move]) -> Result<Text, StoreFault>
    ensures ok { IfOk result (λ text. IsListOf moves.now text) }
    ensures failed { IsErrOf result StoreFault.Failed → AllByRecursion IsWord (list_words moves.now) → ⊥ }
{
    let mut text = Vec::new(alloc);
    put_word(&mut text, FIRST)?;
    for one in moves {
        put_move(&mut text, one)?;
    }
    put_word(&mut text, LAST)?;
    Ok(Text::of_vec(text)?)
}

#[tactic(auto, using(crate::proofs::ListLemmas::put_after))]
fn put_move(text: &mut Vec<u8>, one: &Move) -> Result<(), StoreFault>
    ensures text { OnOk result (text.new.items ≡ text.old.items ++ joined (move_words one.now)) }
    ensures words { OnOk result (AllByRecursion IsWord (move_words one.now)) }
    ensures failed { IsErrOf result StoreFault.Failed → AllByRecursion IsWord (move_words one.now) → ⊥ }
{
    match one {
        Move::MakeFolder { folder } => {
            put_word(text, MAKE)?;
            put_word(text, folder.as_slice())?;
            Ok(())
        }
        Move::TakePlace {
            beside,
            folder,
            file,
        } => {
            put_word(text, WRITE)?;
            put_word(text, beside.as_slice())?;
            put_word(text, folder.as_slice())?;
            put_word(text, file.as_slice())?;
            Ok(())
        }
        Move::Remove { folder, file } => {
            put_word(text, REMOVE)?;
            put_word(text, folder.as_slice())?;
            put_word(text, file.as_slice())?;
            Ok(())
        }
        Move::RemoveFolder { folder } => {
            put_word(text, GONE)?;
            put_word(text, folder.as_slice())?;
            Ok(())
        }
    }
}

fn put_word(text: &mut Vec<u8>, word: &[u8]) -> Result<(), StoreFault>
    ensures text { OnOk result (text.new.items ≡ text.old.items ++ joined (word.now ∷ [])) }
    ensures word { OnOk result (IsWord word.now) }
    ensures failed { IsErrOf result StoreFault.Failed → IsWord word.now → ⊥ }
{
    if word.contains(&0) {
        return Err(StoreFault::Failed);
    }
    text.extend_from_slice(word)?;
    text.push(0)?;
    Ok(())
}

/// The moves of a text. One that is not the text of a list is a failure.
pub(crate) fn read_list(alloc: Global, text: &[u8]) -> Result<Vec<Move>, StoreFault>
    ensures ok { IfOk result (λ moves. IsListOf moves.items text.now) }
    ensures failed { IsErrOf result StoreFault.Failed → (ms : List Move) → IsListOf ms text.now → ⊥ }
{
    let words = words_of(alloc, text)?;
    let mut rest = behind_first(words.as_slice())?;
    let mut moves = Vec::new(alloc);
    while !is_end(rest) {
        let (one, more) = read_move(rest)?;
        moves.push(one)?;
        rest = more;
    }
    Ok(moves)
}

// The words behind the first one, which is the same in each list.
fn behind_first(words: &[Text]) -> Result<&[Text], StoreFault>
    ensures ok { IfOk result (λ rest. words.now ≡ codes "lantsjuf list 1" ∷ rest.now) }
    ensures failed { IsErrOf result StoreFault.Failed → (rest : _) → words.now ≡ codes "lantsjuf list 1" ∷ rest → ⊥ }
{
    let (first, rest) = first_of(words)?;
    if first.as_slice() == FIRST {
        Ok(rest)
    } else {
        Err(StoreFault::Failed)
    }
}

// The first of these words, and those behind it.
fn first_of(words: &[Text]) -> Result<(&Text, &[Text]), StoreFault>
    ensures ok { IfOk result (λ read. words.now ≡ read.0.now ∷ read.1.now) }
    ensures failed { IsErrOf result StoreFault.Failed → words.now ≡ [] }
{
    match words {
        [first, rest @ ..] => Ok((first, rest)),
        [] => Err(StoreFault::Failed),
    }
}

fn is_end(words: &[Text]) -> bool
    ensures end { result ≡ true → words.now ≡ codes "end" ∷ [] }
    ensures no_end { result ≡ false → words.now ≡ codes "end" ∷ [] → ⊥ }
{
    match words {
        [last] => last.as_slice() == LAST,
        _ => false,
    }
}

// The words of a text, of which the last one ends too.
fn words_of(alloc: Global, text: &[u8]) -> Result<Vec<Text>, StoreFault>
    ensures joined { IfOk result (λ words. text.now ≡ joined words.items) }
    ensures words { IfOk result (λ words. AllByRecursion IsWord words.items) }
    ensures failed { IsErrOf result StoreFault.Failed → (ws : _) → AllByRecursion IsWord ws → text.now ≡ joined ws → ⊥ }
{
    let mut words = Vec::new(alloc);
    let mut word = Vec::new(alloc);
    for byte in text {
        read_byte(alloc, &mut words, &mut word, *byte)?;
    }
    if !word.is_empty() {
        return Err(StoreFault::Failed);
    }
    Ok(words)
}

// A 0 byte ends the word, and any other belongs to it.
#[tactic(auto, using(crate::proofs::ListLemmas::word_ends, crate::proofs::ListLemmas::words_more, crate::proofs::ListLemmas::word_more))]
fn read_byte(
    alloc: Global,
    words: &mut Vec<Text>,
    word: &mut Vec<u8>,
    byte: u8,
) -> Result<(), StoreFault>
    ensures read { OnOk result (joined words.new.items ++ word.new.items ≡ (joined words.old.items ++ word.old.items) ++ byte ∷ []) }
    ensures words { OnOk result (AllByRecursion IsWord words.old.items → IsWord word.old.items → AllByRecursion IsWord words.new.items) }
    ensures word { OnOk result (IsWord word.old.items → IsWord word.new.items) }
    ensures failed { IsErrOf result StoreFault.Failed → ⊥ }
{
    if byte == 0 {
        words.push(Text::of(alloc, word)?)?;
        word.clear();
        Ok(())
    } else {
        word.push(byte)?;
        Ok(())
    }
}

// The first move of these words, and the words behind it.
fn read_move(words: &[Text]) -> Result<(Move, &[Text]), StoreFault>
    ensures ok { IfOk result (λ read. words.now ≡ move_words read.0 ++ read.1.now) }
    ensures failed { IsErrOf result StoreFault.Failed → (m : Move) → (rest : _) → words.now ≡ move_words m ++ rest → ⊥ }
{
    let (verb, rest) = first_of(words)?;
    let verb = verb.as_slice();
    if verb == MAKE {
        let (folder, rest) = first_of(rest)?;
        let folder = folder.copy()?;
        Ok((Move::MakeFolder { folder }, rest))
    } else if verb == WRITE {
        let (beside, rest) = first_of(rest)?;
        let (folder, rest) = first_of(rest)?;
        let (file, rest) = first_of(rest)?;
        let (beside, folder, file) = (beside.copy()?, folder.copy()?, file.copy()?);
        let one = Move::TakePlace {
            beside,
            folder,
            file,
        };
        Ok((one, rest))
    } else if verb == REMOVE {
        let (folder, rest) = first_of(rest)?;
        let (file, rest) = first_of(rest)?;
        let (folder, file) = (folder.copy()?, file.copy()?);
        Ok((Move::Remove { folder, file }, rest))
    } else if verb == GONE {
        let (folder, rest) = first_of(rest)?;
        let folder = folder.copy()?;
        Ok((Move::RemoveFolder { folder }, rest))
    } else {
        Err(StoreFault::Failed)
    }
}
