//! Why a document has no expanded size within a bound.

ghost use Rattle.std.specs.Prelude.{◌≡◌};
ghost use Rattle.yaml_expansion.specs.declared.error.yaml_expansion_error_t.TheVariants.{Memory};

use std::alloc::AllocError;
use thiserror::Error;

/// Why a document has no expanded size within a bound.
#[derive(PartialEq, Eq, Debug, Drop, Error)]
pub enum yaml_expansion_error_t {
    /// A collection contains itself, so that the tree has no end.
    #[error("node {0} contains itself")]
    Cyclic(i32),
    /// The tree has an end, and more nodes than the bound.
    #[error("too many nodes, with aliases written out")]
    TooLarge,
    /// An allocation failed.
    #[error("out of memory")]
    Memory,
}

impl From<AllocError> for yaml_expansion_error_t {
    ghost from_gives = { λ _ error. error ≡ Memory };

    fn from(_: AllocError) -> Self {
        yaml_expansion_error_t::Memory
    }
}
