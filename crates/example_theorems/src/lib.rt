//! Theorems that a user's crate states by citing the public ones: each is the contract of a small function,
//! over the words that `unsafe_libyaml` and `token_lines` pass on, and is proved by a call of the public one.
//! `Letters` is an example of your own token source: an `impl yaml_token_source_t` that says which tokens
//! come and which error ends them, so the contracts of a parser over it say which events come.
#![tactic(auto)]

mod laws;
mod letters;
mod lines;
mod lists;
mod loading;
mod parsing;
mod runs;

pub use laws::determined::{documents_twice, events_twice};
pub use laws::{headline, of_every_history, one_tree};
pub use letters::Letters;
pub use lines::{lines_of_reader, texts_of_reader};
pub use lists::{collected_events, documents_of, events_of};
pub use loading::{load_fails_after_parse, next_document, next_load_fails};
pub use parsing::next_event;
pub use runs::{all_documents, all_events};
