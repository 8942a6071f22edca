ghost use Rattle.std.specs.Prelude.{◌≡◌, ◌==◌, IfOk, length};
ghost use Rattle.std.specs.String.{string_bytes};

use std::alloc::{AllocError, Allocator, Global};
use std::marker::Model;

/// A text, which contracts see as the list of its bytes in UTF-8.
#[derive(Debug, Drop)]
pub struct Text<A: Allocator = Global> {
    text: String<A>,
}

impl<A: Allocator> Model for Text<A> {
    ghost use Rattle.std.specs.Prelude.{ℕ, List};
    ghost use Rattle.std.specs.String.{string_bytes};

    ghost Value = { List ℕ };

    ghost view = { λ t. string_bytes t.text };
}

impl<A: Allocator> Text<A> {
    /// The text that a `String` holds.
    pub fn new(string: String<A>) -> Text<A>
        ensures { result ≡ string_bytes string }
    {
        Text { text: string }
    }

    /// A copy of `text`, whose memory is taken from `alloc`. The only error is out of memory.
    pub fn from_str(alloc: A, text: &str) -> Result<Text<A>, AllocError>
        ensures { IfOk result (λ copy. copy ≡ text.now) }
    {
        let text = String::from_str(alloc, text)?;
        Ok(Text { text })
    }

    /// The text itself.
    pub fn as_str(&self) -> &str
        ensures { result.now ≡ self.now }
    {
        self.text.as_str()
    }

    /// The bytes of the text in UTF-8.
    pub fn as_bytes(&self) -> &[u8]
        ensures { result.now ≡ self.now }
    {
        self.text.as_bytes()
    }

    /// The number of bytes.
    pub fn len(&self) -> usize
        ensures { result ≡ length self.now }
    {
        self.text.len()
    }

    /// Whether the text is empty.
    pub fn is_empty(&self) -> bool
        ensures { result ≡ (length self.now == 0) }
    {
        self.text.is_empty()
    }

    /// The `String` that holds the text.
    pub fn into_string(self) -> String<A>
        ensures { string_bytes result ≡ self }
    {
        let Text { text } = self;
        text
    }
}
