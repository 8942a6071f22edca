//! The tokens of a text, with one token ahead.

ghost use Rattle.std.specs.Prelude.{◌≡◌, ◌<◌, ◌^◌};
ghost use Rattle.sql_tokens.specs.Left.{text_of};
ghost use Rattle.sql_reader.specs.Magnitude.{magnitude};

use crate::error::{ErrorKind, ReadError};
use crate::item::Item;
use crate::token::{token_kind, whole, within_quotes};
use sql_tokens::{FaultKind, Tokens};

/// What is ahead of a reader.
#[derive(Clone, Copy)]
pub enum Ahead {
    End,
    Fault(FaultKind),
    Item(Item),
}

/// A reader of the tokens of a text, which looks at one token before it consumes it. No contract says where it is after
/// a name, a filter or the elements of a table were refused.
#[derive(Drop)]
pub struct Reader<'a> {
    text: &'a str,
    tokens: Tokens<'a>,
    ahead: Ahead,
    place: usize,
    written: &'a str,
    ghost same: { text_of tokens ≡ text.now },
    ghost within: { magnitude ahead < 2 ^ 63 },
}

impl<'a> Reader<'a> {
    ghost use Rattle.std.specs.Prelude.{◌≡◌, ◌≤◌, IfErr, Ok, OnErr};
    ghost use Rattle.sql_tokens.specs.Left.{text_of, left};
    ghost use Rattle.sql_reader.specs.Items.{items, items_of, size, to_read};
    ghost use Rattle.sql_reader.specs.Numbers.{number_ahead};
    ghost use Rattle.sql_reader.specs.Rows.{end};
    ghost use Rattle.sql_reader.specs.Reading as spec;
    ghost use Rattle.sql_reader.specs.Reading.{Reads, Answers, ReportsFault};
    ghost use Rattle.sql_reader.specs.ParsingContracts.{TakesSome};

    /// A reader before the first token of a text.
    #[tactic(auto, unfolding(crate::specs::Items::items_of))]
    pub fn new(text: &'a str) -> Reader<'a>
        ensures { to_read result ≡ items_of text.now }
    {
        Reader::look_at(text, Tokens::new(text))
    }

    /// A reader whose token ahead is the next of `tokens`.
    #[tactic(auto, unfolding(crate::specs::Items::to_read, crate::specs::Items::items))]
    fn look_at(text: &'a str, mut tokens: Tokens<'a>) -> Reader<'a>
        requires { text_of tokens ≡ text.now }
        ensures { to_read result ≡ items (left tokens.entry) }
    {
        match tokens.next() {
            Err(fault) => {
                return Reader {
                    text,
                    tokens,
                    ahead: Ahead::Fault(fault.kind),
                    place: fault.place,
                    written: "",
                };
            }
            Ok(None) => {
                return Reader {
                    text,
                    tokens,
                    ahead: Ahead::End,
                    place: text.len(),
                    written: "",
                };
            }
            Ok(Some(token)) => {
                return Reader {
                    text,
                    tokens,
                    ahead: Ahead::Item(Item::of(token.kind, whole(text, token))),
                    place: token.place,
                    written: within_quotes(text, token),
                };
            }
        }
    }

    /// Consumes the token ahead, if there is one that is not faulty.
    #[tactic(auto, unfolding(crate::specs::Items::to_read))]
    pub fn advance(&mut self)
        ensures { to_read self.new ≡ spec.rest_of (to_read self.old) }
    {
        if let Ahead::Item(_) = self.ahead {
            *self = Reader::look_at(self.text, self.tokens);
        }
    }

    /// The token ahead; `None` at the end of the text and at a faulty token.
    #[tactic(auto, unfolding(crate::specs::Items::to_read))]
    pub fn item(&self) -> Option<Item>
        ensures { result ≡ spec.item_ahead (to_read self.now) }
    {
        match self.ahead {
            Ahead::Item(item) => Some(item),
            Ahead::End | Ahead::Fault(_) => None,
        }
    }

    /// The place of the token ahead, in bytes from the start of the text; at its end, the text's length.
    #[tactic(auto, unfolding(crate::specs::Items::to_read))]
    pub fn place(&self) -> usize
        ensures { result ≡ spec.place_ahead (to_read self.now) }
    {
        self.place
    }

    /// The token ahead as it is written, without the quotes of a quoted name or a string; nothing at the end of the
    /// text and if the token is faulty.
    #[tactic(auto, unfolding(crate::specs::Items::to_read))]
    pub fn written(&self) -> &'a str
        ensures { result.now ≡ spec.written_ahead (to_read self.now) }
    {
        match self.ahead {
            Ahead::Item(_) => self.written,
            Ahead::End | Ahead::Fault(_) => "",
        }
    }

    /// Why the token ahead is not accepted: it is faulty, or it is not what was expected.
    #[tactic(auto, unfolding(crate::specs::Items::to_read))]
    pub fn refusal(&self, what: &'static str) -> ReadError
        ensures { ReportsFault result (spec.unexpected (to_read self.now)) }
    {
        ReadError {
            place: self.place,
            kind: match self.ahead {
                Ahead::Fault(kind) => token_kind(kind),
                Ahead::End | Ahead::Item(_) => ErrorKind::Expected(what),
            },
        }
    }

    /// Something else that is wrong at the token ahead.
    pub fn refused(&self, kind: ErrorKind) -> ReadError
        ensures place { result.place ≡ spec.place_ahead (to_read self.now) }
        ensures kind { result.kind ≡ kind }
    {
        ReadError {
            place: self.place(),
            kind,
        }
    }

    /// Whether this token is ahead; false at a faulty token.
    #[tactic(auto, unfolding(crate::specs::Reading::is_ahead))]
    pub fn is(&self, item: Item) -> bool
        ensures { result ≡ spec.is_ahead item (to_read self.now) }
    {
        match self.item() {
            Some(found) => found.is_like(item),
            None => false,
        }
    }

    /// Refuses a faulty token ahead.
    ///
    /// # Errors
    ///
    /// The fault of that token, and nothing else.
    #[tactic(auto, unfolding(crate::specs::Reading::look, crate::specs::Items::to_read))]
    pub fn look(&self) -> Result<(), ReadError>
        ensures reads { Reads (λ u. u) (spec.look (to_read self.now)) result (to_read self.now) }
        ensures err { IfErr result (λ e. ReportsFault e (spec.unexpected (to_read self.now))) }
    {
        match self.ahead {
            Ahead::Fault(kind) => Err(ReadError {
                place: self.place,
                kind: token_kind(kind),
            }),
            Ahead::End | Ahead::Item(_) => Ok(()),
        }
    }

    /// Whether this token is ahead. A faulty token is refused.
    ///
    /// # Errors
    ///
    /// The fault of that token, and nothing else.
    #[tactic(auto, unfolding(crate::specs::Reading::next_is))]
    pub fn next_is(&self, item: Item) -> Result<bool, ReadError>
        ensures reads { Reads (λ b. b) (spec.next_is item (to_read self.now)) result (to_read self.now) }
        ensures err { IfErr result (λ e. ReportsFault e (spec.unexpected (to_read self.now))) }
    {
        self.look()?;
        Ok(self.is(item))
    }

    /// Consumes this token, if it is ahead, and returns whether it was.
    #[tactic(auto, using(crate::proofs::Ahead::rest_is_no_more), unfolding(crate::specs::Reading::eat))]
    pub fn eat(&mut self, item: Item) -> bool
        ensures takes { spec.eat item (to_read self.old) ≡ Ok (result, to_read self.new) }
        ensures fewer { size (to_read self.new) ≤ size (to_read self.old) }
    {
        let is_ahead = self.is(item);
        if is_ahead {
            self.advance();
        }
        is_ahead
    }

    /// Consumes this token and returns its place, in bytes from the start of the text.
    ///
    /// # Errors
    ///
    /// The fault of the token ahead, or `Expected` if it is another token; then nothing is consumed.
    #[tactic(auto, using(crate::proofs::Ahead::rest_is_fewer), unfolding(crate::specs::Reading::expect))]
    pub fn expect(&mut self, item: Item, what: &'static str) -> Result<usize, ReadError>
        ensures takes { TakesSome (λ place. place) (spec.expect item) self.old result self.new }
        ensures err { IfErr result (λ e. ReportsFault e (spec.unexpected (to_read self.old))) }
        ensures kept { OnErr result (to_read self.new ≡ to_read self.old) }
    {
        if !self.is(item) {
            return Err(self.refusal(what));
        }
        let place = self.place();
        self.advance();
        Ok(place)
    }

    /// The number ahead, negated if `negative` says so.
    #[tactic(auto, unfolding(crate::specs::Items::to_read))]
    pub(crate) fn number(&self, negative: bool) -> Option<i64>
        ensures { result ≡ number_ahead negative (spec.item_ahead (to_read self.now)) }
    {
        match self.ahead {
            Ahead::Item(Item::Number(number)) => {
                let number = number as i64;
                Some(if negative { -number } else { number })
            }
            _ => None,
        }
    }

    /// Refuses anything but the end of the text.
    #[tactic(auto, unfolding(crate::specs::Rows::end, crate::specs::Items::to_read))]
    pub(crate) fn end(&self, what: &'static str) -> Result<(), ReadError>
        ensures { Reads (λ u. u) (end (to_read self.now)) result (to_read self.now) }
    {
        match self.ahead {
            Ahead::End => Ok(()),
            Ahead::Fault(_) | Ahead::Item(_) => Err(self.refusal(what)),
        }
    }

    /// Whether the text continues. A faulty token is refused.
    ///
    /// # Errors
    ///
    /// The fault of that token, and nothing else.
    #[tactic(auto, unfolding(crate::specs::Reading::more_ahead, crate::specs::Items::to_read))]
    pub fn more_ahead(&self) -> Result<bool, ReadError>
        ensures answer { Answers (λ b. b) (spec.more_ahead (to_read self.now)) result }
        ensures err { IfErr result (λ e. ReportsFault e (spec.unexpected (to_read self.now))) }
    {
        match self.ahead {
            Ahead::End => Ok(false),
            Ahead::Item(_) => Ok(true),
            Ahead::Fault(_) => Err(self.refusal("a token")),
        }
    }
}
