//! That the contracts of runs over lines leave no byte open: two outcomes that they allow wrote the same.

ghost use Rattle.std.specs.Prelude.{◌≡◌, ℕ, List, Option, Some};
ghost use Rattle.libyaml_types.specs.declared.event.yaml_event_t.{yaml_event_t};
ghost use Rattle.libyaml_types.specs.declared.token.yaml_token_t.{yaml_token_t};
ghost use Rattle.libyaml_events.specs.machine.Config.{Parser};
ghost use Rattle.libyaml_events.specs.sources.Determined.{OneBegins};
ghost use Rattle.line_reading.specs.sources.LineSource.{BreaksOff};
ghost use Rattle.token_lines.specs.declared.run.Outcome.{Outcome};
ghost use Rattle.token_lines.specs.declared.run.run_end_t.{run_end_t};
ghost use Rattle.token_lines.specs.events.LastCall.{LastCall, NothingLeft, RunsOver};
ghost use Rattle.token_lines.specs.declared.memory.memory_run_t.{memory_run_t};
ghost use Rattle.token_lines.specs.lines.InMemory.{EventsInMemory, NodesInMemory};
ghost use Rattle.token_lines.specs.lines.LineRun.{outcome_of};
ghost use Rattle.token_lines.specs.lines.OneInMemory.{OneInMemory};
ghost use Rattle.token_lines.specs.lines.OneOutput.{OneOutput};
ghost use Rattle.token_lines.specs.lines.OneWriting.{BreaksOffByNone, writing_results_of, results_of_nodes};
ghost use Rattle.token_lines.specs.nodes.LastLoad.{LastLoad, NodesOver};

use libyaml_events::yaml_token_source_t;
use std::io::{BufRead, Write};

/// Two runs over readers of the same bytes, with a writer that has written the same: unless an allocation or
/// a read failed in one of them, or its output, both end alike and have written the same bytes.
pub fn one_output<R: BufRead, W: Write>()
    ensures events { (one other : R) (first second : Outcome) (bytes written : List ℕ)
        (after later : Option (List ℕ))
        → R.remaining one ≡ Some bytes → R.remaining other ≡ Some bytes
        → (a : RunsOver R.remaining W.contents one first (Some written) after)
        → (b : RunsOver R.remaining W.contents other second (Some written) later)
        → OneOutput (BreaksOff a.last.source) (BreaksOff b.last.source) first second (Some written)
        after later }
    ensures nodes { (one other : R) (first second : Outcome) (bytes written : List ℕ)
        (after later : Option (List ℕ))
        → R.remaining one ≡ Some bytes → R.remaining other ≡ Some bytes
        → (a : NodesOver R.remaining W.contents one first (Some written) after)
        → (b : NodesOver R.remaining W.contents other second (Some written) later)
        → OneOutput (BreaksOff a.last.source) (BreaksOff b.last.source) first second (Some written)
        after later }
{}

/// Two outcomes of one `write_events`, both of which its contract allows, with a writer that has written the
/// same: if the source gave the same results as far as both asked, both end alike and have written the same
/// bytes, unless memory ran out in one of them, or its output failed.
pub fn one_writing_of_events<S: yaml_token_source_t, W: Write>()
    ensures running { (old p q : Parser S) (first second : run_end_t) (written : List ℕ)
        (after later : Option (List ℕ)) (asked : List yaml_token_t) (given : List yaml_event_t)
        → (a : LastCall S.gives W.contents first old p (Some written) after asked given)
        → (b : LastCall S.gives W.contents second old q (Some written) later asked given)
        → OneBegins (writing_results_of first a) (writing_results_of second b)
        → OneOutput BreaksOffByNone BreaksOffByNone (outcome_of first) (outcome_of second)
        (Some written) after later }
    ensures nothing_left { (old p q : Parser S) (first second : run_end_t) (written : List ℕ)
        (after later : Option (List ℕ)) → NothingLeft first old p (Some written) after
        → NothingLeft second old q (Some written) later
        → OneOutput BreaksOffByNone BreaksOffByNone (outcome_of first) (outcome_of second)
        (Some written) after later }
{}

/// Likewise two outcomes of one `write_nodes`. n is the parser's bound.
pub fn one_writing_of_nodes<S: yaml_token_source_t, W: Write>()
    ensures { (old p q : Parser S) (first second : run_end_t) (n : ℕ) (written : List ℕ)
        (after later : Option (List ℕ)) (asked : List yaml_token_t) (given : List yaml_event_t)
        → (a : LastLoad S.yaml_token_source_t W.contents n first old p (Some written) after asked given)
        → (b : LastLoad S.yaml_token_source_t W.contents n second old q (Some written) later asked given)
        → OneBegins (results_of_nodes a) (results_of_nodes b)
        → OneOutput BreaksOffByNone BreaksOffByNone (outcome_of first) (outcome_of second)
        (Some written) after later }
{}

/// Two runs in memory over the same token lines, of which at most so many are read, into the same buffer:
/// what is told and the buffer are the same, unless memory ran out in one of them.
pub fn one_run_in_memory()
    ensures events { (tokens old after later : List ℕ) (max : ℕ) (first second : memory_run_t)
        → EventsInMemory tokens max old after first → EventsInMemory tokens max old later second
        → OneInMemory first second after later }
    ensures nodes { (tokens old after later : List ℕ) (max : ℕ) (first second : memory_run_t)
        → NodesInMemory tokens max old after first → NodesInMemory tokens max old later second
        → OneInMemory first second after later }
{}
