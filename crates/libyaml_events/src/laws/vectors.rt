//! Test vectors: those of the grammar, and of the stacks.

ghost use Rattle.libyaml_events.specs.vectors.StackVectors.{NeverByNoMark, NeverHoldsFirst};
ghost use Rattle.libyaml_events.specs.vectors.StackVectors.{NeverWithoutMark, NeverWithoutState};
ghost use Rattle.libyaml_events.specs.vectors.StackVectors.{VectorEntryMissing, VectorHoldsNone};
ghost use Rattle.libyaml_events.specs.vectors.StackVectors.{VectorHoldsSecond, VectorSequenceEnds};

pub use libyaml_grammar::laws::vectors::{
    beginnings, block_collections, empty_places, faults, flow_collections, properties, streams,
};

/// What a call pops, and which token is held.
pub fn stacks()
    ensures sequence_ends { VectorSequenceEnds }
    ensures without_state { NeverWithoutState }
    ensures without_mark { NeverWithoutMark }
    ensures entry_missing { VectorEntryMissing }
    ensures by_no_mark { NeverByNoMark }
    ensures holds_none { VectorHoldsNone }
    ensures holds_second { VectorHoldsSecond }
    ensures holds_first { NeverHoldsFirst }
{}
