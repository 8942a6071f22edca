//! Fields of a message, read from the left.

ghost use Rattle.std.specs.Prelude.{◌≡◌, ◌==◌, ◌<◌, IfOk, IfSome, length};
ghost use Rattle.std.specs.List.{position};
ghost use Rattle.std.specs.Int.{w16, w32, w64};
ghost use Rattle.pgoutput_msgs.specs.Reading.{Reads, byte, some, big_endian, count16, count32, up_to_zero, string_at, text_at, utf8_text};

use crate::error::MsgError;
use byteorder::{BigEndian, ByteOrder};
use filter_tree::Text;
use std::alloc::Global;
use std::marker::Model;

/// The bytes that remain to be read.
#[derive(Drop)]
pub(crate) struct Reader<'a> {
    rest: &'a [u8],
}

impl<'a> Model for Reader<'a> {
    ghost use Rattle.std.specs.Prelude.{ℕ, List};

    ghost Value = { List ℕ };

    ghost view = { λ r. r.rest.now };
}

impl<'a> Reader<'a> {
    pub(crate) fn new(bytes: &'a [u8]) -> Reader<'a>
        ensures { result ≡ bytes.now }
    {
        Reader { rest: bytes }
    }

    pub(crate) fn is_at_end(&self) -> bool
        ensures { result ≡ (length self.now == 0) }
    {
        self.rest.is_empty()
    }

    #[tactic(auto, unfolding(crate::specs::Reading::byte))]
    pub(crate) fn byte(&mut self) -> Result<u8, MsgError>
        ensures { Reads (λ x. x) (byte self.old) result self.new }
    {
        match self.rest {
            [] => Err(MsgError::Short),
            [first, rest @ ..] => {
                self.rest = rest;
                Ok(*first)
            }
        }
    }

    #[tactic(auto, unfolding(crate::specs::Reading::some))]
    fn some(&mut self, count: usize) -> Result<&'a [u8], MsgError>
        ensures exact { Reads (λ x. x.now) (some count self.old) result self.new }
        ensures length { IfOk result (λ x. length x.now ≡ count) }
    {
        if self.rest.len() < count {
            return Err(MsgError::Short);
        }
        let (front, rest) = self.rest.split_at(count);
        self.rest = rest;
        Ok(front)
    }

    #[tactic(auto, unfolding(crate::specs::Reading::big_endian))]
    fn int16(&mut self) -> Result<u16, MsgError>
        ensures { Reads (λ x. x) (big_endian w16 self.old) result self.new }
    {
        Ok(BigEndian::read_u16(self.some(2)?))
    }

    #[tactic(auto, unfolding(crate::specs::Reading::big_endian))]
    pub(crate) fn int32(&mut self) -> Result<u32, MsgError>
        ensures { Reads (λ x. x) (big_endian w32 self.old) result self.new }
    {
        Ok(BigEndian::read_u32(self.some(4)?))
    }

    #[tactic(auto, unfolding(crate::specs::Reading::big_endian))]
    pub(crate) fn int64(&mut self) -> Result<u64, MsgError>
        ensures { Reads (λ x. x) (big_endian w64 self.old) result self.new }
    {
        Ok(BigEndian::read_u64(self.some(8)?))
    }

    /// A count of 16 bits, which has a sign.
    #[tactic(auto, unfolding(crate::specs::Reading::count16))]
    pub(crate) fn count16(&mut self) -> Result<u16, MsgError>
        ensures { Reads (λ x. x) (count16 self.old) result self.new }
    {
        let count = self.int16()?;
        if count < 32_768 {
            Ok(count)
        } else {
            Err(MsgError::BadCount)
        }
    }

    /// A count or a length of 32 bits, which has a sign.
    #[tactic(auto, unfolding(crate::specs::Reading::count32))]
    pub(crate) fn count32(&mut self) -> Result<u32, MsgError>
        ensures { Reads (λ x. x) (count32 self.old) result self.new }
    {
        let count = self.int32()?;
        if count < 2_147_483_648 {
            Ok(count)
        } else {
            Err(MsgError::BadCount)
        }
    }

    /// The bytes before a zero byte, which is read too.
    #[tactic(auto, unfolding(crate::specs::Reading::up_to_zero))]
    fn up_to_zero(&mut self) -> Result<&'a [u8], MsgError>
        ensures { Reads (λ x. x.now) (up_to_zero self.old) result self.new }
    {
        let Some(place) = zero_place(self.rest) else {
            return Err(MsgError::Short);
        };
        let before = &self.rest[..place];
        self.rest = &self.rest[place + 1..];
        Ok(before)
    }

    /// A text that ends with a zero byte.
    #[tactic(auto, unfolding(crate::specs::Reading::string_at))]
    pub(crate) fn string(&mut self, alloc: Global) -> Result<Text, MsgError>
        ensures { Reads (λ x. x) (string_at self.old) result self.new }
    {
        let bytes = self.up_to_zero()?;
        self.text_of(alloc, bytes)
    }

    /// A text after its length.
    #[tactic(auto, unfolding(crate::specs::Reading::text_at))]
    pub(crate) fn text(&mut self, alloc: Global) -> Result<Text, MsgError>
        ensures { Reads (λ x. x) (text_at self.old) result self.new }
    {
        let length = self.count32()?;
        let bytes = self.some(length as usize)?;
        self.text_of(alloc, bytes)
    }

    /// The text of these bytes, which were read.
    #[tactic(auto, unfolding(crate::specs::Reading::utf8_text))]
    fn text_of(&self, alloc: Global, bytes: &[u8]) -> Result<Text, MsgError>
        ensures { Reads (λ x. x) (utf8_text bytes.now self.now) result self.now }
    {
        match str::from_utf8(bytes) {
            Ok(text) => Ok(Text::from_str(alloc, text)?),
            Err(_) => Err(MsgError::BadText),
        }
    }
}

/// The place of the first zero byte.
fn zero_place(bytes: &[u8]) -> Option<usize>
    ensures place { result ≡ position (λ one. one == 0) bytes.now }
    ensures within { IfSome result (λ place. place < length bytes.now) }
{
    bytes.iter().position(|one| *one == 0)
}
