//! The laws of the grammar and of the parser, and that whole runs leave nothing open.

pub mod determined;

pub use libyaml_events::laws::{
    calls, cut_begins, determined_events, events_nest, headline, items, next_is_open, one_cut,
    one_prefix, one_run, one_tree, own_directives, productions, pushes, run_ends, run_nests,
    run_of_tree, tag_places, tree_or_cut, vectors,
};
