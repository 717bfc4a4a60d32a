//! The works, and rounds of them.

use crate::copying::{Afresh, Copying, copy_into, no_token};
use crate::reusing::Reusing;
use crate::tally::{Checksum, Count, Tally};
use libyaml_events::{
    is_stream_end, no_event, yaml_event_t, yaml_list_source_t, yaml_parser_between_documents,
    yaml_parser_initialize, yaml_parser_parse, yaml_parser_parse_into, yaml_parser_t,
    yaml_push_parser_t, yaml_token_source_t, yaml_token_t,
};
use libyaml_loader::{yaml_parser_documents, yaml_parser_load};
use std::alloc::{AllocError, Global};

/// What is done with a list of tokens. In each, a copy of every token is made.
#[derive(Copy, Clone)]
pub enum Work {
    /// Events, each copy made in the parser's slot.
    PlaceEvents,
    /// Nodes, each copy made in the parser's slot.
    PlaceNodes,
    /// Events, each copy made in the parser's variable, its texts in the memory of earlier ones.
    ReuseEvents,
    /// Nodes, each copy made so.
    ReuseNodes,
    /// Events, over a list of copies.
    ListEvents,
    /// Nodes, over a list of copies.
    ListNodes,
    /// Events, each copy pushed.
    PushEvents,
    /// Events, each returned by value, each copy made in the parser's slot.
    ValueEvents,
    /// Events, by the parser as an iterator, each copy made in the parser's slot.
    IterateEvents,
    /// Nodes, by an iterator over the documents, each copy made in the parser's slot.
    IterateNodes,
    /// The list of copies alone.
    ListTokens,
}

impl Work {
    /// All of them.
    pub const ALL: [Work; 11] = [
        Work::PlaceEvents,
        Work::PlaceNodes,
        Work::ReuseEvents,
        Work::ReuseNodes,
        Work::ListEvents,
        Work::ListNodes,
        Work::PushEvents,
        Work::ValueEvents,
        Work::IterateEvents,
        Work::IterateNodes,
        Work::ListTokens,
    ];

    /// Its word on the command line.
    pub fn word(self) -> &'static str {
        match self {
            Work::PlaceEvents => "place-events",
            Work::PlaceNodes => "place-nodes",
            Work::ReuseEvents => "reuse-events",
            Work::ReuseNodes => "reuse-nodes",
            Work::ListEvents => "list-events",
            Work::ListNodes => "list-nodes",
            Work::PushEvents => "push-events",
            Work::ValueEvents => "value-events",
            Work::IterateEvents => "iterate-events",
            Work::IterateNodes => "iterate-nodes",
            Work::ListTokens => "list-tokens",
        }
    }

    /// The work of a word.
    pub fn of(word: &str) -> Option<Work> {
        for work in Work::ALL {
            if work.word() == word {
                return Some(work);
            }
        }
        None
    }
}

/// What the rounds of a work came to.
#[derive(Copy, Clone)]
pub struct Ran {
    /// How many events or nodes a round has.
    pub items: u64,
    /// Their checksum.
    pub checksum: u64,
    /// How many the rounds had that were only counted.
    pub counted: u64,
}

/// Does a work once for its checksum, and n times. Returns `None` where a round met a fault.
pub fn run_rounds(alloc: Global, work: Work, n: u32, tokens: &[yaml_token_t]) -> Option<Ran> {
    let mut sum = Checksum { items: 0, sum: 0 };
    run(alloc, work, tokens, &mut sum)?;
    let mut count = Count { items: 0 };
    for _ in 0..n {
        run(alloc, work, tokens, &mut count)?;
    }
    Some(Ran {
        items: sum.items,
        checksum: sum.sum,
        counted: count.items,
    })
}

/// One round. Returns `None` where it met a fault.
fn run<T: Tally>(alloc: Global, work: Work, tokens: &[yaml_token_t], tally: &mut T) -> Option<()> {
    match work {
        Work::PlaceEvents => parse(alloc, Copying::new(tokens, Afresh), tally),
        Work::PlaceNodes => load(alloc, Copying::new(tokens, Afresh), tally),
        Work::ReuseEvents => parse(alloc, Copying::new(tokens, Reusing::new(alloc)), tally),
        Work::ReuseNodes => load(alloc, Copying::new(tokens, Reusing::new(alloc)), tally),
        Work::ListEvents => parse(alloc, list_of_copies(alloc, tokens).ok()?, tally),
        Work::ListNodes => load(alloc, list_of_copies(alloc, tokens).ok()?, tally),
        Work::PushEvents => push(alloc, tokens, tally),
        Work::ValueEvents => parse_by_value(alloc, Copying::new(tokens, Afresh), tally),
        Work::IterateEvents => iterate(alloc, Copying::new(tokens, Afresh), tally),
        Work::IterateNodes => iterate_documents(alloc, Copying::new(tokens, Afresh), tally),
        Work::ListTokens => list_of_copies(alloc, tokens).ok().map(|_| ()),
    }
}

/// A list source of copies of these tokens.
#[inline(never)]
fn list_of_copies(
    alloc: Global,
    tokens: &[yaml_token_t],
) -> Result<yaml_list_source_t, AllocError> {
    let mut copies = Vec::with_capacity(alloc, tokens.len())?;
    for token in tokens {
        let mut copy = no_token();
        copy_into(token, &mut copy)?;
        copies.push(copy)?;
    }
    Ok(yaml_list_source_t::from(copies))
}

/// Parses to the end of the stream.
fn parse<S: yaml_token_source_t + Drop, T: Tally>(
    alloc: Global,
    source: S,
    tally: &mut T,
) -> Option<()> {
    let mut parser = yaml_parser_initialize(alloc, source);
    let mut event = no_event();
    for _ in 0..u64::MAX {
        if !parse_next(&mut parser, &mut event) {
            return None;
        }
        tally.event(&event);
        if is_stream_end(&event) {
            break;
        }
    }
    Some(())
}

#[inline(always)]
fn parse_next<S: yaml_token_source_t>(
    parser: &mut yaml_parser_t<S>,
    event: &mut yaml_event_t,
) -> bool {
    yaml_parser_parse_into(parser, event).is_ok()
}

/// Parses to the end of the stream, each event returned by value.
fn parse_by_value<S: yaml_token_source_t + Drop, T: Tally>(
    alloc: Global,
    source: S,
    tally: &mut T,
) -> Option<()> {
    let mut parser = yaml_parser_initialize(alloc, source);
    for _ in 0..u64::MAX {
        match &yaml_parser_parse(&mut parser) {
            Ok(event) => {
                tally.event(event);
                if is_stream_end(event) {
                    break;
                }
            }
            Err(_) => return None,
        }
    }
    Some(())
}

/// Iterates over the events of the stream.
fn iterate<S: yaml_token_source_t + Drop, T: Tally>(
    alloc: Global,
    source: S,
    tally: &mut T,
) -> Option<()> {
    let mut parser = yaml_parser_initialize(alloc, source);
    for event in parser.by_ref() {
        match &event {
            Ok(event) => tally.event(event),
            Err(_) => return None,
        }
    }
    Some(())
}

/// Iterates over the documents of the stream.
fn iterate_documents<S: yaml_token_source_t + Drop, T: Tally>(
    alloc: Global,
    source: S,
    tally: &mut T,
) -> Option<()> {
    let mut parser = yaml_parser_initialize(alloc, source);
    for document in yaml_parser_documents(&mut parser) {
        match &document {
            Ok(document) => tally.nodes(document.nodes()),
            Err(_) => return None,
        }
    }
    Some(())
}

/// Loads all documents of the stream.
fn load<S: yaml_token_source_t + Drop, T: Tally>(
    alloc: Global,
    source: S,
    tally: &mut T,
) -> Option<()> {
    let mut parser = yaml_parser_initialize(alloc, source);
    for _ in 0..u64::MAX {
        if load_next(&mut parser, tally)? == 0 {
            break;
        }
    }
    Some(())
}

/// Loads a document, and returns how many nodes it has: none at the end of the stream.
#[inline(never)]
fn load_next<S: yaml_token_source_t, T: Tally>(
    parser: &mut yaml_parser_t<S>,
    tally: &mut T,
) -> Option<usize> {
    if !yaml_parser_between_documents(parser) {
        return None;
    }
    match &yaml_parser_load(parser) {
        Ok(document) => {
            tally.nodes(document.nodes());
            Some(document.nodes().len())
        }
        Err(_) => None,
    }
}

/// Pushes a copy of each token.
fn push<T: Tally>(alloc: Global, tokens: &[yaml_token_t], tally: &mut T) -> Option<()> {
    let mut parser = yaml_push_parser_t::new(alloc);
    let mut token = no_token();
    let mut events = Vec::new(alloc);
    for pushed in tokens {
        copy_into(pushed, &mut token).ok()?;
        push_next(&mut parser, &mut token, &mut events, tally)?;
    }
    Some(())
}

/// Pushes the token of a slot.
#[inline(never)]
fn push_next<T: Tally>(
    parser: &mut yaml_push_parser_t,
    token: &mut yaml_token_t,
    events: &mut Vec<yaml_event_t>,
    tally: &mut T,
) -> Option<()> {
    events.clear();
    parser.push_from(token, events).ok()?;
    for event in events.iter() {
        tally.event(event);
    }
    Some(())
}
