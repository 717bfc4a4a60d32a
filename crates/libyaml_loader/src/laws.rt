//! The laws of a loop over documents, and of pushes to a loader. Each function does nothing when it runs: its
//! contract is the law.

pub mod determined;

ghost use Rattle.std.specs.Prelude.{◌≡◌, ◌≤◌, ◌*◌, ◌+◌, ◌++◌, ℕ, pos, List, [], Ok, Err, Option, Some, length};
ghost use Rattle.std.specs.Prelude.{◌∷◌, false, true};
ghost use Rattle.libyaml_types.specs.Fault.{Fault};
ghost use Rattle.libyaml_types.specs.Source.{coming};
ghost use Rattle.libyaml_grammar.specs.runs.Runs.{Ending, Ends, IsRun};
ghost use Rattle.libyaml_grammar.specs.grammar.Events.{Event};
ghost use Rattle.libyaml_grammar.specs.grammar.Nesting.{NestsSoFar};
ghost use Rattle.libyaml_grammar.specs.grammar.ValidLists.{has_end};
ghost use Rattle.libyaml_grammar.specs.grammar.Tokens.{Mark, Token};
ghost use Rattle.libyaml_documents.specs.Documents.{Document};
ghost use Rattle.libyaml_documents.specs.Nodes.{node_at};
ghost use Rattle.libyaml_documents.specs.declared.node.yaml_node_t.{yaml_node_t};
ghost use Rattle.libyaml_events.specs.machine.Config.{Parser};
ghost use Rattle.libyaml_events.specs.sources.History.{History};
ghost use Rattle.libyaml_events.specs.sources.RunToCome.{RunToCome};
ghost use Rattle.libyaml_composer.specs.Represents.{IsNode};
ghost use Rattle.libyaml_graphs.specs.graphs.GraphParts.{opening_of, part_of};
ghost use Rattle.libyaml_graphs.specs.machine.Loader.{State, between};
ghost use Rattle.libyaml_graphs.specs.loads.Leads.{Leads};
ghost use Rattle.libyaml_graphs.specs.loads.Bounds.{IsBoundedLoads, bounded_loads, next_bounded};
ghost use Rattle.libyaml_graphs.specs.loads.Linear.{documents_size};
ghost use Rattle.libyaml_graphs.specs.loads.Loads.{Load, last_load, left_over};
ghost use Rattle.libyaml_loader.specs.composed.ComposedEvents.{ComposedEvents};
ghost use Rattle.libyaml_loader.specs.composed.ComposedLoops.{AreComposedOf, LoopComposes};
ghost use Rattle.libyaml_loader.specs.composed.EventComposer.{EventComposer, StandsAt, new_event_composer};
ghost use Rattle.libyaml_loader.specs.composed.Places.{PlacesEvent};
ghost use Rattle.libyaml_loader.specs.declared.places.yaml_place_t.{yaml_place_t};
ghost use Rattle.libyaml_loader.specs.composed.PlacedDocuments.{ForPlaced, HoldsOnceLoaded, held_item};
ghost use Rattle.libyaml_loader.specs.composed.PlacedDocuments.{held_pair};
ghost use Rattle.libyaml_loader.specs.composed.PlacedLoops.{ArePlacesIn, LoopPlaces, events_in};
ghost use Rattle.libyaml_loader.specs.declared.places.yaml_role_t.TheVariants.{Item, Key, Root, Value};
ghost use Rattle.libyaml_documents.specs.declared.pairs.yaml_node_pair_t.{yaml_node_pair_t};
ghost use Rattle.libyaml_loader.specs.composed.Written.{IsWrittenOf, Written, written_after};
ghost use Rattle.libyaml_loader.specs.document.Ids.{magnitude};
ghost use Rattle.libyaml_loader.specs.loads.Loading.{DocumentOrError, LoadsFrom};
ghost use Rattle.libyaml_loader.specs.loads.LoadsInTurn.{AreLoadsOf, LoopYields};
ghost use Rattle.libyaml_loader.specs.loads.HalfDocument.{IsHalf};
ghost use Rattle.libyaml_loader.specs.loads.NextLoad.{LoadOfRun};
ghost use Rattle.libyaml_loader.specs.loads.SharedNodes.{NodesBegin, nodes_so_far};
ghost use Rattle.libyaml_loader.specs.pushes.Loaded.{ForLoaded, PushLoader, loader_has_stopped};
ghost use Rattle.libyaml_loader.specs.pushes.Loaded.{loader_keeps_fault};
ghost use Rattle.libyaml_loader.specs.pushes.PushesLoads.{AreThen, BeginsEachLoads};

use libyaml_events::yaml_token_source_t;

/// What a whole loop over the documents of a parser yielded: over a list of tokens from the start, or over
/// events that are to come and nest, exactly the loads within the parser's bound; or memory ran out, or the
/// source failed early, and the documents are a prefix of these.
pub fn loop_yields_loads<S: yaml_token_source_t>()
    ensures of_list { (old new : Parser S) (documents : List Document) (ending : Ending) (l : List Token)
        (f : Fault) (loads : List Load) → History old [] [] → S.known old.source ≡ Some (coming l f)
        → IsBoundedLoads (magnitude old.max_entries) l f loads
        → LoopYields S.yaml_token_source_t old documents ending new
        → AreLoadsOf S.may_break new documents ending loads }
    ensures of_run { (old new : Parser S) (documents : List Document) (ending : Ending) (e : List Event)
        (x : Ending) → RunToCome S.known old e x → NestsSoFar e
        → LoopYields S.yaml_token_source_t old documents ending new
        → AreLoadsOf S.may_break new documents ending (bounded_loads (magnitude old.max_entries) e x) }
{}

/// The nodes so far, where a load failed, have the same ids in the half of the document and in the document that
/// each load gives which goes on from there: with the same tags, starts, texts and styles, and with the same
/// entries, and maybe more after these.
pub fn half_is_of_each_load()
    ensures half { (n : ℕ) (m : Mark) (here : State) (d : Document) → IsHalf n m here (Some d)
        → NodesBegin (nodes_so_far here) d.nodes }
    ensures whole { (n : ℕ) (taken rest : List Event) (here : State) (x : Ending) (d : Document)
        (others : List Load) → Leads n between taken [] here
        → bounded_loads n (taken ++ rest) x ≡ Ok d ∷ others → (d.nodes ≡ [] → ⊥)
        → NodesBegin (nodes_so_far here) d.nodes }
{}

/// What a whole loop over the composed events of a parser yielded, over a list of tokens from the start, or
/// over events that are to come: exactly the run's events up to the first with which a load fails, and an
/// error only if the run's loads end with it; or memory ran out, or the source failed early, after a prefix
/// of these events.
pub fn composed_events_are_loads<S: yaml_token_source_t>()
    ensures of_list { (n : ℕ) (old new : ComposedEvents S) (yielded : List Event) (ending : Ending)
        (l : List Token) (f : Fault) (e : List Event) (x : Ending) → old.composer ≡ new_event_composer n
        → History old.parser [] [] → S.known old.parser.source ≡ Some (coming l f) → IsRun l f e x
        → LoopComposes S.yaml_token_source_t old yielded ending new
        → AreComposedOf S.may_break new.parser n yielded ending e x }
    ensures of_run { (n : ℕ) (old new : ComposedEvents S) (yielded : List Event) (ending : Ending)
        (e : List Event) (x : Ending) → old.composer ≡ new_event_composer n
        → RunToCome S.known old.parser e x → LoopComposes S.yaml_token_source_t old yielded ending new
        → AreComposedOf S.may_break new.parser n yielded ending e x }
{}

/// What an event's place says of the document that the load gives, if that is whole, whatever events come
/// after it: the node, the item and the value are there, and the key, if its pair is. The first place of a
/// document is its root's. An event has one place.
pub fn placed_events_are_loaded()
    ensures one { (old new other : EventComposer) (e : Event) (p q : Option yaml_place_t)
        → PlacesEvent old e p new → PlacesEvent old e q other → p ≡ q }
    ensures nodes { (old new : EventComposer) (e : Event) (p : yaml_place_t) (here : State)
        → PlacesEvent old e (Some p) new → IsNode (part_of e) → StandsAt old here
        → HoldsOnceLoaded old here e (λ nodes. (node : yaml_node_t) × (node_at nodes p.id ≡ Some node)
        × (node.start_mark ≡ e.start_mark)) }
    ensures items { ForPlaced Item (λ p nodes. held_item nodes p.parent p.index ≡ Some p.id) }
    ensures values { ForPlaced Value (λ p nodes. (pair : yaml_node_pair_t)
        × (held_pair nodes p.parent p.index ≡ Some pair) × (pair.value ≡ p.id)) }
    ensures keys { ForPlaced Key (λ p nodes. (pair : yaml_node_pair_t)
        → held_pair nodes p.parent p.index ≡ Some pair → pair.key ≡ p.id) }
    ensures roots { (old new : EventComposer) (e : Event) (p : yaml_place_t)
        → PlacesEvent old e (Some p) new → p.role ≡ Root
        → (p.parent ≡ pos 0) × (p.index ≡ 0) × (p.depth ≡ 0) }
    ensures first { (old new : EventComposer) (e : Event) (p : yaml_place_t) (here : State)
        → PlacesEvent old e (Some p) new → StandsAt old here → old.collections.nodes ≡ 0
        → p ≡ record { id = pos 1; parent = pos 0; role = Root; index = 0; depth = 0 } }
{}

/// What a whole loop over the placed events of a parser yielded: the events that one over its composed events
/// does; and over events that were to come the place of each, which is in its document.
pub fn placed_loops_are_loaded<S: yaml_token_source_t>()
    ensures events { (old new : ComposedEvents S) (items : List (Event × Option yaml_place_t))
        (ending : Ending) → LoopPlaces S.yaml_token_source_t old items ending new
        → LoopComposes S.yaml_token_source_t old (events_in items) ending new }
    ensures places { (n : ℕ) (old new : ComposedEvents S) (items : List (Event × Option yaml_place_t))
        (ending : Ending) (e : List Event) (x : Ending) → old.composer ≡ new_event_composer n
        → RunToCome S.known old.parser e x → LoopPlaces S.yaml_token_source_t old items ending new
        → ArePlacesIn n items (bounded_loads n e x) }
{}

/// What is kept of placed events beside their document is there by the ids of its nodes: if it has as many
/// nodes as the composer counts, it has them after the event, too, and that of the event's node is the
/// last. No parser begins a document within another.
pub fn written_is_by_id()
    ensures counts { (old new : EventComposer) (e : Event) (place : Option yaml_place_t) (w : Written)
        → PlacesEvent old e place new → (old.collections.is_within ≡ true → opening_of e ≡ None)
        → IsWrittenOf old w → IsWrittenOf new (written_after e place w) }
    ensures ids { (old new : EventComposer) (e : Event) (p : yaml_place_t) (w : Written)
        → PlacesEvent old e (Some p) new → IsNode (part_of e) → IsWrittenOf old w
        → p.id ≡ pos (length w.nodes + 1) }
{}

/// What a load says of each run that its parser had to come: a document is the run's first load, and the
/// events that it leaves are to come; an error is the run's first load, or an allocation failed, or the
/// source failed early.
pub fn load_of_run<S: yaml_token_source_t>()
    ensures { (n : ℕ) (old new : Parser S) (r : DocumentOrError) (events : List Event) (ending : Ending)
        → RunToCome S.known old events ending
        → LoadsFrom S.yaml_token_source_t (next_bounded n) left_over old r new
        → LoadOfRun S.yaml_token_source_t (next_bounded n) left_over r new events ending }
{}

/// What a loader was handed and gave says, whichever push led there.
pub fn of_loaded()
    ensures so_far { (l : PushLoader) → ForLoaded l (λ tokens documents. has_end tokens ≡ false
        → (source : Fault) → AreThen l.max_entries tokens source documents (Err source)) }
    ensures whole { (l : PushLoader) → ForLoaded l (λ tokens documents. has_end tokens ≡ true
        → (more : List Token) (source : Fault)
        → AreThen l.max_entries (tokens ++ more) source documents (last_load Ends)) }
    ensures ended { (l : PushLoader) → ForLoaded l (λ tokens _. loader_has_stopped l ≡ has_end tokens) }
    ensures faultless { (l : PushLoader) → ForLoaded l (λ _ _. loader_keeps_fault l ≡ false) }
    ensures begins { (l : PushLoader) → ForLoaded l (BeginsEachLoads l.max_entries) }
    ensures linear { (l : PushLoader) → ForLoaded l (λ tokens documents. documents_size documents
        ≤ 8 * length tokens) }
{}
