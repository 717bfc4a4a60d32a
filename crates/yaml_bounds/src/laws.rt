//! The law of a loop over events within bounds. The function does nothing when it runs: its contract is the
//! law.
ghost use Rattle.std.specs.Prelude.{◌≡◌, ℕ, List, [], Option, Some};
ghost use Rattle.libyaml_types.specs.Fault.{Fault};
ghost use Rattle.libyaml_types.specs.Source.{coming};
ghost use Rattle.libyaml_grammar.specs.grammar.Events.{Event};
ghost use Rattle.libyaml_grammar.specs.grammar.Tokens.{Token};
ghost use Rattle.libyaml_grammar.specs.runs.Runs.{Ending, IsRun};
ghost use Rattle.libyaml_events.specs.sources.History.{History};
ghost use Rattle.libyaml_loader.specs.composed.EventComposer.{new_event_composer};
ghost use Rattle.yaml_bounds.specs.Bounds.{size_before};
ghost use Rattle.yaml_bounds.specs.BoundedEvents.{BoundedEvents};
ghost use Rattle.yaml_bounds.specs.BoundedLoops.{AreBoundedOf, LoopBounded};

use libyaml_events::yaml_token_source_t;

/// What a whole loop over the events of a parser within bounds yielded, over a list of tokens from the
/// start: exactly the run's events up to the first with which a load fails, or a document has too many
/// nodes, whatever comes after it, and each document that ended is within the bounds; or memory ran out, or
/// the source failed early, after a prefix of these events.
pub fn bounded_events_are_loads<S: yaml_token_source_t>()
    ensures of_list { (n : ℕ) (max : Option ℕ) (old new : BoundedEvents S) (yielded : List Event)
        (ending : Ending) (l : List Token) (f : Fault) (e : List Event) (x : Ending)
        → old.composer.composer ≡ new_event_composer n → old.composer.size ≡ size_before max
        → History old.parser [] [] → S.known old.parser.source ≡ Some (coming l f) → IsRun l f e x
        → LoopBounded S.yaml_token_source_t old yielded ending new
        → AreBoundedOf S.may_break new.parser n max yielded ending e x }
{}
