//! The errors of constructors and of the calls on a document.

ghost use Rattle.std.specs.Prelude.{◌≡◌};
ghost use Rattle.libyaml_types.specs.Numbers.{refusal_number};
ghost use Rattle.libyaml_types.specs.declared.refusal.yaml_refusal_t.TheVariants.{Memory};

use std::alloc::AllocError;
use thiserror::Error;

/// Why a constructor or a call on a document failed.
///
/// libyaml: none; its calls return `FAIL`, or an id of 0, without a cause.
#[derive(PartialEq, Eq, Debug, Drop, Error)]
pub enum yaml_refusal_t {
    /// A text that isn't UTF-8.
    #[error("text is not UTF-8")]
    NotUtf8,
    /// An allocation failed.
    #[error("out of memory")]
    Memory,
    /// A document with as many nodes as an `i32` can number.
    #[error("too many nodes")]
    TooManyNodes,
}

impl yaml_refusal_t {
    /// Returns the number of this variant, counted from 1.
    pub fn number(&self) -> u32
        ensures { result ≡ refusal_number self.now }
    {
        match self {
            yaml_refusal_t::NotUtf8 => 1,
            yaml_refusal_t::Memory => 2,
            yaml_refusal_t::TooManyNodes => 3,
        }
    }
}

impl From<AllocError> for yaml_refusal_t {
    ghost from_gives = { λ _ refusal. refusal ≡ Memory };

    fn from(_: AllocError) -> Self {
        yaml_refusal_t::Memory
    }
}
