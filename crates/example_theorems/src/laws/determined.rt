//! Contracts that leave nothing open: two runs over the same bytes are alike.

ghost use Rattle.std.specs.Prelude.{◌≡◌};
ghost use Rattle.token_lines.specs.lines.OneInMemory.{OneInMemory};

use std::alloc::Global;
use token_lines::laws::determined::one_run_in_memory;
use token_lines::memory::{events_in_memory, memory_run_t, nodes_in_memory};

/// Runs twice over these token lines, for their events: both runs tell the same and leave the same bytes,
/// unless memory ran out in one of them.
pub fn events_twice(
    alloc: Global,
    tokens: &[u8],
    max_tokens: u64,
    first: &mut [u8],
    second: &mut [u8],
) -> (memory_run_t, memory_run_t)
    requires { second.old ≡ first.old }
    ensures { OneInMemory result.0 result.1 first.new second.new }
{
    one_run_in_memory();
    let one = events_in_memory(alloc, tokens, first, max_tokens);
    let other = events_in_memory(alloc, tokens, second, max_tokens);
    (one, other)
}

/// Likewise for their documents.
pub fn documents_twice(
    alloc: Global,
    tokens: &[u8],
    max_tokens: u64,
    first: &mut [u8],
    second: &mut [u8],
) -> (memory_run_t, memory_run_t)
    requires { second.old ≡ first.old }
    ensures { OneInMemory result.0 result.1 first.new second.new }
{
    one_run_in_memory();
    let one = nodes_in_memory(alloc, tokens, first, max_tokens);
    let other = nodes_in_memory(alloc, tokens, second, max_tokens);
    (one, other)
}
