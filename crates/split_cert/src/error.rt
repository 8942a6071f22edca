//! Why a text is not a certificate.

ghost use Rattle.std.specs.Prelude.{◌≡◌};
ghost use Rattle.split_cert.specs.declared.error.CertError.TheVariants.{OutOfMemory};

use std::alloc::{AllocError, AllocFailed};
use thiserror::Error;

/// Why a text is not read as a certificate: the first fault from the left. Places are counted in bytes from the start
/// of the text.
#[derive(Clone, Copy, Debug, PartialEq, Eq, Error)]
pub enum CertError {
    /// A word or a space that does not fit begins here.
    #[error("syntax error in the certificate, at byte {0}")]
    BadToken(usize),
    /// The text ends where a word or a space is expected.
    #[error("the certificate is incomplete")]
    Ended,
    /// The certificate ends here, and something comes after it.
    #[error("there is text after the certificate, at byte {0}")]
    Trailing(usize),
    /// There are more than 1,000,000 nodes.
    #[error("the certificate has more than 1,000,000 nodes")]
    TooLarge,
    /// There are more than 64 splits on a path from the root.
    #[error("the certificate has more than 64 splits on a path")]
    TooDeep,
    #[error("out of memory")]
    OutOfMemory,
}

impl CertError {
    ghost use Rattle.split_cert.specs.ErrorNames.{error_name};

    /// The name of the error, without the place that it carries.
    pub fn name(&self) -> &'static str
        ensures { result.now ≡ error_name self.now }
    {
        match self {
            CertError::BadToken(_) => "BadToken",
            CertError::Ended => "Ended",
            CertError::Trailing(_) => "Trailing",
            CertError::TooLarge => "TooLarge",
            CertError::TooDeep => "TooDeep",
            CertError::OutOfMemory => "OutOfMemory",
        }
    }
}

impl From<AllocError> for CertError {
    ghost from_gives = { λ _ e. e ≡ OutOfMemory };

    fn from(_: AllocError) -> CertError {
        CertError::OutOfMemory
    }
}

impl<T: Drop> From<AllocFailed<T>> for CertError {
    ghost from_gives = { λ _ e. e ≡ OutOfMemory };

    fn from(_: AllocFailed<T>) -> CertError {
        CertError::OutOfMemory
    }
}
