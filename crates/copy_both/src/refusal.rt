//! Why a start is refused.

ghost use Rattle.std.specs.Prelude.{◌≡◌, ◌+◌, ◌++◌, [], length};
ghost use Rattle.copy_both.specs.Refusals.{code_of, state_of, refusal_text, refusal_view};

use crate::sql_state::SqlState;

/// Why a stream is not started, with the name of the slot, the option or the publication. Each is answered with an
/// ErrorResponse ("55.8. Error and Notice Message Fields").
#[derive(Clone, Copy, Debug)]
pub enum Refusal<'a> {
    /// The first frame is not a Query, or its body is not a text with one zero byte, its last.
    ExpectedQuery,
    /// The text is not a START_REPLICATION command for a logical slot.
    Unreadable,
    /// No subscription has a slot of this name.
    NoSlot(&'a str),
    /// The option is unknown, given twice, or does not have a valid value.
    WrongOption(&'a str),
    /// The option requests another protocol version, or a feature that is not supported.
    UnsupportedOption(&'a str),
    /// `proto_version` or `publication_names` is not given.
    MissingOption(&'a str),
    /// The catalog has no publication of this name.
    NoPublication(&'a str),
    /// The publications are not those of the subscription whose slot this is.
    OtherPublications(&'a str),
    /// The position is after the log's end.
    Ahead,
    /// Another connection streams from the slot.
    InUse(&'a str),
}

/// The text of a refusal: the name, and what comes before it and after it.
#[derive(Clone, Copy, Debug)]
pub struct Words<'a> {
    pub before: &'static str,
    pub name: &'a str,
    pub after: &'static str,
}

impl<'a> Refusal<'a> {
    /// What kind of error it is.
    pub fn state(&self) -> SqlState
        ensures { result ≡ state_of (refusal_view self.now) }
    {
        match self {
            Refusal::ExpectedQuery => SqlState::ProtocolViolation,
            Refusal::Unreadable => SqlState::SyntaxError,
            Refusal::NoSlot(_) | Refusal::NoPublication(_) => SqlState::UndefinedObject,
            Refusal::WrongOption(_)
            | Refusal::MissingOption(_)
            | Refusal::OtherPublications(_)
            | Refusal::Ahead => SqlState::InvalidParameterValue,
            Refusal::UnsupportedOption(_) => SqlState::FeatureNotSupported,
            Refusal::InUse(_) => SqlState::ObjectInUse,
        }
    }

    /// The code of the error, of five characters ("Appendix A. PostgreSQL Error Codes").
    pub fn code(&self) -> &'static str
        ensures code { result.now ≡ code_of (refusal_view self.now) }
        ensures five { length result.now ≡ 5 }
    {
        self.state().code()
    }

    /// The text: what is wrong, with the name of the slot, the option or the publication.
    pub fn words(&self) -> Words<'a>
        ensures text { result.before.now ++ result.name.now ++ result.after.now ≡ refusal_text (refusal_view self.now) }
        ensures length { length result.before.now + length result.name.now + length result.after.now
            ≡ length (refusal_text (refusal_view self.now)) }
    {
        match self {
            Refusal::ExpectedQuery => plain("expected a query"),
            Refusal::Unreadable => plain("cannot read the replication command"),
            Refusal::NoSlot(slot) => naming("replication slot \"", slot, "\" does not exist"),
            Refusal::WrongOption(option) => naming("option \"", option, "\" is wrong"),
            Refusal::UnsupportedOption(option) => naming(
                "option \"",
                option,
                "\" is not supported",
            ),
            Refusal::MissingOption(option) => naming("option \"", option, "\" is missing"),
            Refusal::NoPublication(publication) => {
                naming("publication \"", publication, "\" does not exist")
            }
            Refusal::OtherPublications(slot) => {
                naming("publications differ from those of slot \"", slot, "\"")
            }
            Refusal::Ahead => plain("start position is ahead of the log"),
            Refusal::InUse(slot) => naming("replication slot \"", slot, "\" is active"),
        }
    }
}

fn plain(text: &'static str) -> Words<'static>
    ensures before { result.before.now ≡ text.now }
    ensures name { result.name.now ≡ [] }
    ensures after { result.after.now ≡ [] }
{
    naming(text, "", "")
}

fn naming<'a>(before: &'static str, name: &'a str, after: &'static str) -> Words<'a>
    ensures before { result.before.now ≡ before.now }
    ensures name { result.name.now ≡ name.now }
    ensures after { result.after.now ≡ after.now }
{
    Words {
        before,
        name,
        after,
    }
}
