//! What holds of a run that counts. Each function does nothing when it runs: its contract is the law.
ghost use Rattle.std.specs.Prelude.{◌≡◌, ◌++◌, List};
ghost use Rattle.libyaml_types.specs.Fault.{Fault};
ghost use Rattle.libyaml_grammar.specs.grammar.Events.{Event};
ghost use Rattle.libyaml_grammar.specs.grammar.Nesting.{NestsSoFar};
ghost use Rattle.libyaml_grammar.specs.grammar.Tokens.{Token};
ghost use Rattle.libyaml_grammar.specs.runs.Runs.{Ending, IsRun};
ghost use Rattle.document_sizes.specs.ParserLaws.{EndsWithItsSize, NothingIsLost, StopsAtACycle};
ghost use Rattle.document_sizes.specs.ParserLaws.{StopsAtTheBound, WholeContinues};
ghost use Rattle.document_sizes.specs.RunLaws.{EndlessIsRight, TooLargeIsRight, TotalIsSize};

/// The total of a document whose events were all counted is its expanded size, and at most the bound.
pub fn total_is_size()
    ensures { TotalIsSize }
{}

/// If an event is too large, the document has an expanded size above the bound, or none, however it goes on.
pub fn too_large_is_right()
    ensures { TooLargeIsRight }
{}

/// If an alias makes the tree endless, the node that it names lies on a cycle, however the document goes on.
pub fn endless_is_right()
    ensures { EndlessIsRight }
{}

/// The laws of a caller who hands in a parser's events from the stream's start on: no such event is
/// lost, so nothing is left to suppose. A parser's events nest so far: those with which a run over tokens
/// begins do, those of any parser (`nests` of `laws::calls` and `laws::pushes` of `libyaml_events`), and
/// those of steps.
pub fn parser_is_counted()
    ensures of_runs { (l : List Token) (f : Fault) (events : List Event) (ending : Ending)
        → IsRun l f events ending → (given later : List Event) → events ≡ given ++ later → NestsSoFar given }
    ensures nothing_is_lost { NothingIsLost }
    ensures ends_with_its_size { EndsWithItsSize }
    ensures stops_at_the_bound { StopsAtTheBound }
    ensures stops_at_a_cycle { StopsAtACycle }
    // so no document that comes of it is within the bound
    ensures whole_continues { WholeContinues }
{}
