//! Why a sharding is refused because of the texts of its certificates.

ghost use Rattle.std.specs.Prelude.{◌≡◌};
ghost use Rattle.shard_checker.specs.declared.text_error.TextError.TheVariants.{Check};

use crate::error::CheckError;
use split_cert::CertError;
use thiserror::Error;

/// Why a sharding is refused because of the texts of its certificates.
#[derive(Clone, Copy, Debug, PartialEq, Eq, Error)]
pub enum TextError {
    /// The text of this line, counted from 1, is not a certificate.
    #[error("line {0} is not a certificate: {1}")]
    Text(usize, CertError),
    /// All texts are certificates, and the sharding is refused.
    #[error("{0}")]
    Check(CheckError),
}

impl From<CheckError> for TextError {
    ghost from_gives = { λ error given. given ≡ Check error };

    fn from(error: CheckError) -> TextError {
        TextError::Check(error)
    }
}
