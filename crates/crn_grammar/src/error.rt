//! Why a text is refused.

ghost use Rattle.std.specs.Prelude.{◌≡◌};

use crn_token::Counted;
use std::alloc::{AllocError, AllocFailed};
use thiserror::Error;

/// Why a text has no value that can be answered. Of several causes the one of the earliest line counts, and a malformed line before
/// a limit.
#[derive(Clone, Copy, Debug, PartialEq, Eq, Error)]
pub enum TextError {
    /// The first line up to which the lines begin no text, or the line past the last where the text is too short.
    #[error("line {line} is malformed")]
    Malformed { line: usize },
    /// The first line that passes a limit.
    #[error("limit {what:?} {count}")]
    Limit { what: Counted, count: u64 },
    /// Memory ran out.
    #[error("out of memory")]
    Memory,
}

impl From<AllocError> for TextError {
    ghost use Rattle.crn_grammar.specs.declared.error.TextError.TheVariants.{Memory};

    ghost from_gives = { λ _ e. e ≡ Memory };

    fn from(_e: AllocError) -> TextError {
        TextError::Memory
    }
}

impl<T: Drop> From<AllocFailed<T>> for TextError {
    ghost use Rattle.crn_grammar.specs.declared.error.TextError.TheVariants.{Memory};

    ghost from_gives = { λ _ e. e ≡ Memory };

    fn from(_e: AllocFailed<T>) -> TextError {
        TextError::Memory
    }
}
