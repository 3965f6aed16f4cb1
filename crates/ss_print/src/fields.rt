//! Rows of fields.
ghost use Rattle.std.specs.Prelude.{◌≡◌, ◌∷◌, ◌++◌, [], IfOk, OnOk, decimal};

use itoa::Buffer;
use ss_text::{NoMemory, Row, Text};
use std::alloc::Global;
use std::marker::Model;

/// The fields of a row so far.
#[derive(Drop)]
pub(crate) struct Fields {
    texts: Vec<Text>,
}

impl Model for Fields {
    ghost use Rattle.std.specs.Prelude.{List, ℕ};

    ghost Value = { List (List ℕ) };

    ghost view = { λ f. f.texts.items };
}

impl Fields {
    // The row that begins with a name.
    pub(crate) fn named(alloc: Global, name: &[u8]) -> Result<Fields, NoMemory>
        ensures { IfOk result (λ fields. fields ≡ name.now ∷ []) }
    {
        let mut texts = Vec::new(alloc);
        texts.push(Text::of(alloc, name)?)?;
        Ok(Fields { texts })
    }

    // One more text.
    pub(crate) fn text(mut self, text: &Text) -> Result<Fields, NoMemory>
        ensures { IfOk result (λ fields. fields ≡ self ++ text.now ∷ []) }
    {
        self.texts.push(text.copy()?)?;
        Ok(self)
    }

    // One more word.
    pub(crate) fn word(mut self, alloc: Global, word: &[u8]) -> Result<Fields, NoMemory>
        ensures { IfOk result (λ fields. fields ≡ self ++ word.now ∷ []) }
    {
        self.texts.push(Text::of(alloc, word)?)?;
        Ok(self)
    }

    // One more number, in decimal.
    pub(crate) fn number(mut self, alloc: Global, number: u64) -> Result<Fields, NoMemory>
        ensures { IfOk result (λ fields. fields ≡ self ++ decimal number ∷ []) }
    {
        let mut buffer = Buffer::new();
        self.texts
            .push(Text::of(alloc, buffer.format(number).as_bytes())?)?;
        Ok(self)
    }

    // These texts too, in order.
    pub(crate) fn texts(mut self, texts: &[Text]) -> Result<Fields, NoMemory>
        ensures { IfOk result (λ fields. fields ≡ self ++ texts.now) }
    {
        append(&mut self.texts, texts)?;
        Ok(self)
    }

    // The row.
    pub(crate) fn row(self) -> Row
        ensures { result ≡ self }
    {
        Row::of(self.texts)
    }
}

// Puts copies of these texts last.
fn append(all: &mut Vec<Text>, texts: &[Text]) -> Result<(), NoMemory>
    ensures { OnOk result (all.new.items ≡ all.old.items ++ texts.now) }
{
    for text in texts {
        all.push(text.copy()?)?;
    }
    Ok(())
}
