//! Why a line was not written.
ghost use Rattle.std.specs.Prelude.{◌≡◌, Some};
ghost use Rattle.line_writing.specs.Refusal.{line_refusal_number, refusal_text};

use std::alloc::AllocError;
use std::error::Error;
use std::fmt;

/// Why a line was not written.
#[derive(Copy, Clone, PartialEq, Eq, Debug)]
pub enum line_refusal_t {
    /// An allocation for the line's text failed. No byte of the line was written.
    Memory,
    /// The writer failed. How much of the line was written is not known.
    Output,
}

impl line_refusal_t {
    /// Returns 1 for `Memory`, 2 for `Output`.
    pub fn number(self) -> u32
        ensures { result ≡ line_refusal_number self }
    {
        match self {
            line_refusal_t::Memory => 1,
            line_refusal_t::Output => 2,
        }
    }
}

impl fmt::Display for line_refusal_t {
    ghost output = { λ refusal. Some (refusal_text refusal) };

    fn fmt<W: fmt::Write>(&self, f: &mut fmt::Formatter<W>) -> fmt::Result {
        f.write_str(match self {
            line_refusal_t::Memory => "out of memory",
            line_refusal_t::Output => "output failed",
        })
    }
}

impl Error for line_refusal_t {}

impl From<AllocError> for line_refusal_t {
    ghost use Rattle.line_writing.specs.declared.refusal.line_refusal_t.TheVariants.{Memory};

    ghost from_gives = { λ _ refusal. refusal ≡ Memory };

    fn from(_: AllocError) -> line_refusal_t {
        line_refusal_t::Memory
    }
}
