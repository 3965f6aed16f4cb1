//! Places of texts.
ghost use Rattle.std.specs.Prelude.{◌≡◌, position};
ghost use Rattle.ss_text.specs.Texts.{text_eq};

use ss_text::Text;

/// The place of the first of these texts that is this one.
pub(crate) fn position_of(texts: &[Text], text: &Text) -> Option<usize>
    ensures { result ≡ position (text_eq text.now) texts.now }
{
    texts.iter().position(|t| text == t)
}
