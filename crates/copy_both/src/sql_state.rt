//! The codes of errors.

ghost use Rattle.std.specs.Prelude.{◌≡◌, length};
ghost use Rattle.copy_both.specs.Refusals.{code_text};

/// The kind of error that refuses a start ("Appendix A. PostgreSQL Error Codes").
#[derive(Clone, Copy, Debug, PartialEq, Eq)]
pub enum SqlState {
    /// 08P01
    ProtocolViolation,
    /// 42601
    SyntaxError,
    /// 42704
    UndefinedObject,
    /// 22023
    InvalidParameterValue,
    /// 0A000
    FeatureNotSupported,
    /// 55006
    ObjectInUse,
}

impl SqlState {
    /// The code, of five characters.
    pub fn code(self) -> &'static str
        ensures code { result.now ≡ code_text self }
        ensures five { length result.now ≡ 5 }
    {
        match self {
            SqlState::ProtocolViolation => "08P01",
            SqlState::SyntaxError => "42601",
            SqlState::UndefinedObject => "42704",
            SqlState::InvalidParameterValue => "22023",
            SqlState::FeatureNotSupported => "0A000",
            SqlState::ObjectInUse => "55006",
        }
    }
}
