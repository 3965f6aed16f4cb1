//! A text: a byte string.
ghost use Rattle.std.specs.Prelude.{◌≡◌, ◌∷◌, [], Some, refl, bytes_eq, IfOk};
ghost use Rattle.std.proofs.Common.{rules};
ghost use Rattle.std.specs.Ordering.{nat_cmp};
ghost use Rattle.std.specs.Hash as fed;
ghost use Rattle.std.specs.Cmp.{on_equiv, on_total, on_po, on_per, partial_equiv_from_equiv};
ghost use Rattle.std.specs.Cmp.Lexicographic.{slice_cmp, nat_list_eq_equiv, nat_list_cmp_total, texts_ties, texts_po};
ghost use Rattle.std.specs.Cmp.Rules.{hashing};

use crate::NoMemory;
use crate::short::{SHORT, Short};
use std::alloc::Global;
use std::cmp::Ordering;
use std::hash::{Hash, Hasher};
use std::marker::Model;

/// A byte string, which contracts see as the list of its bytes. Equality, order and hash are those of
/// the bytes, a prefix being less.
#[derive(Clone, Debug)]
pub struct Text {
    alloc: Global,
    held: Held,
}

impl Drop for Text {
    fn drop(self) {
        let Text { alloc: _, held } = self;
        drop(held);
    }
}

// The vector is boxed, so that a text takes 24 bytes: most texts are short, and there are many.
#[derive(Clone, Debug, Drop)]
enum Held {
    Few(Short),
    Many(Box<Vec<u8>>),
}

impl Model for Text {
    ghost use Rattle.std.specs.Prelude.{List, ℕ};
    ghost use Rattle.ss_text.specs.Held.{held_bytes};

    ghost Value = { List ℕ };

    ghost view = { λ t. held_bytes t.held };
}

impl Text {
    /// The text without bytes, which takes no memory.
    pub fn empty(alloc: Global) -> Text
        ensures { result ≡ [] }
    {
        Text {
            alloc,
            held: Held::Few(Short::empty()),
        }
    }

    /// The text with these bytes.
    pub fn of(alloc: Global, bytes: &[u8]) -> Result<Text, NoMemory>
        ensures { IfOk result (λ text. text ≡ bytes.now) }
    {
        let held = if bytes.len() <= SHORT {
            Held::Few(Short::of(bytes))
        } else {
            Held::Many(Box::new(alloc, Vec::from_slice(alloc, bytes)?)?)
        };
        Ok(Text { alloc, held })
    }

    /// The text with the bytes of a vector, which are not copied where they are many.
    pub fn of_vec(bytes: Vec<u8>) -> Result<Text, NoMemory>
        ensures { IfOk result (λ text. text ≡ bytes.items) }
    {
        let alloc = *bytes.allocator();
        let held = if bytes.len() <= SHORT {
            Held::Few(Short::of(&bytes))
        } else {
            Held::Many(Box::new(alloc, bytes)?)
        };
        Ok(Text { alloc, held })
    }

    /// Its bytes.
    pub fn as_slice(&self) -> &[u8]
        ensures { result.now ≡ self.now }
    {
        match &self.held {
            Held::Few(bytes) => bytes.as_slice(),
            Held::Many(bytes) => bytes.as_slice(),
        }
    }

    /// An equal text.
    pub fn copy(&self) -> Result<Text, NoMemory>
        ensures { IfOk result (λ text. text ≡ self.now) }
    {
        Text::of(self.alloc, self.as_slice())
    }
}

impl PartialEq for Text {
    ghost eq = { bytes_eq };

    ghost laws = { partial_equiv_from_equiv nat_list_eq_equiv };

    fn eq(&self, other: &Text) -> bool {
        self.as_slice() == other.as_slice()
    }
}

impl Eq for Text {
    ghost laws = { nat_list_eq_equiv };
}

impl PartialOrd for Text {
    ghost partial_cmp = { λ a b. Some (slice_cmp nat_cmp a b) };

    ghost laws = { texts_po };

    fn partial_cmp(&self, other: &Text) -> Option<Ordering> {
        Some(self.cmp(other))
    }
}

impl Ord for Text {
    ghost cmp = { slice_cmp nat_cmp };

    ghost total = { nat_list_cmp_total };

    ghost matches_partial_cmp = { λ a b. refl };

    ghost matches_eq = { texts_ties };

    fn cmp(&self, other: &Text) -> Ordering {
        self.as_slice().cmp(other.as_slice())
    }
}

impl Hash for Text {
    ghost hash_input = { fed.slice fed.u8 };

    ghost respects_eq = { Prim.search (hashing, rules) };

    fn hash<H: Hasher>(&self, state: &mut H) {
        self.as_slice().hash(state);
    }
}
