//! A word reader, which holds a text and where it stands in it; and refusal 50, for which all words are read.

ghost use Rattle.std.specs.Prelude.{◌≡◌, ◌≤◌, length};
ghost use Rattle.definition.specs.Calls.{literal_check};
ghost use Rattle.definition.specs.declared.TheConstants.{MOST_BYTES};
ghost use Rattle.text.specs.Tokens.{tokens_at, First};

use crate::tokens;
use crate::tokens::{Cursor, Next};
use definition::Refusal;

/// A text, and where a reader stands in it.
#[derive(Clone, Copy)]
pub struct WordReader<'a> {
    /// The text.
    pub text: &'a [u8],
    /// Where it stands.
    pub cursor: Cursor,
}

impl<'a> WordReader<'a> {
    /// A reader of a text that stands there.
    pub fn at(text: &'a [u8], cursor: Cursor) -> WordReader<'a>
        ensures { (result.text ≡ text.entry) × (result.cursor ≡ cursor) }
    {
        WordReader { text, cursor }
    }

    /// The first token before the reader, which then stands behind it.
    pub fn next_token(&mut self) -> Next
        requires { (self.old.cursor.at ≤ length self.old.text.now) × (length self.old.text.now ≤ MOST_BYTES) }
        ensures { First (tokens_at self.old.text.now self.old.cursor) self.old.text.now self.old.cursor.at result
            self.new.cursor × (self.new.text ≡ self.old.text) }
    {
        tokens::next_token(self.text, &mut self.cursor)
    }
}

/// The first token of a text from there on, by a reader made for it; the place is then the one behind it.
// Not inlined: all that `next_token` needs is compiled into it, once for all who call it.
#[inline(never)]
pub fn word_at(text: &[u8], cursor: &mut Cursor) -> Next
    requires { (cursor.old.at ≤ length text.now) × (length text.now ≤ MOST_BYTES) }
    ensures { First (tokens_at text.now cursor.old) text.now cursor.old.at result cursor.new }
{
    let mut reader = WordReader::at(text, *cursor);
    let next = reader.next_token();
    *cursor = reader.cursor;
    next
}

/// 50 at the opening mark, if a literal is open where the tokens of a text end: they do at the first literal that its
/// line does not close.
pub fn open_check(text: &[u8]) -> Result<(), Refusal>
    requires { length text.now ≤ MOST_BYTES }
    ensures { result ≡ literal_check text.now }
{
    let mut cursor = Cursor::at_start();
    while let Next::Word(_) | Next::Stop = word_at(text, &mut cursor) {}
    cursor.left_open()
}
