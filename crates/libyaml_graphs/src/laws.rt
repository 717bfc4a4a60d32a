//! The laws of graphs and loads, over their definitions alone. Each function does nothing when it runs: its
//! contract is the law.

pub mod machine;
pub mod vectors;

ghost use Rattle.libyaml_graphs.specs.loads.Linear.{documents_size, size, total_size};
ghost use Rattle.std.specs.Prelude.{◌≤◌, ◌*◌, length, map};
ghost use Rattle.std.specs.Prelude.{◌≡◌, ◌≢◌, ◌++◌, ◌↔◌, ◌⊎◌, ℕ, suc, List, [], ◌∷◌, None, true};
ghost use Rattle.std.specs.Prelude.{Option, Some, codes};
ghost use Rattle.std.specs.Prelude.{false, Ok, Err};
ghost use Rattle.libyaml_grammar.specs.partial.PartialEvents.{partial_events};
ghost use Rattle.libyaml_grammar.specs.partial.PartialFaults.{fault};
ghost use Rattle.libyaml_grammar.specs.partial.PartialTrees.{PartialTree};
ghost use Rattle.libyaml_grammar.specs.grammar.Events.{Event, events};
ghost use Rattle.libyaml_types.specs.Fault.{Fault, memory_fault};
ghost use Rattle.libyaml_grammar.specs.partial.Fits.{Fits};
ghost use Rattle.libyaml_grammar.specs.grammar.Nesting.{HasPairs, IsNested, NestsSoFar, DocumentTexts};
ghost use Rattle.libyaml_grammar.specs.grammar.Nesting.{TextsHavePairs, Value, scalar_value, value_events};
ghost use Rattle.libyaml_grammar.specs.grammar.Order.{in_order};
ghost use Rattle.libyaml_grammar.specs.runs.Runs.{Ending, Ends, Fails, is_after_properties};
ghost use Rattle.libyaml_grammar.specs.grammar.ValidLists.{IsViablePrefix, has_end};
ghost use Rattle.libyaml_grammar.specs.partial.DeterminedEvents.{Determines};
ghost use Rattle.libyaml_grammar.specs.grammar.Tokens.{Mark, Marks, StreamEnd, Token, tok};
ghost use Rattle.libyaml_grammar.specs.grammar.Trees.{Stream, tokens};
ghost use Rattle.libyaml_documents.specs.Documents.{Document};
ghost use Rattle.libyaml_documents.specs.Nodes.{EveryIdNamesANode};
ghost use Rattle.libyaml_graphs.specs.loads.Bounds.{HasRoom, NoneLacksMemory, StaysWithin, bounded_loads};
ghost use Rattle.libyaml_graphs.specs.loads.Bounds.{first_stop, next_bounded};
ghost use Rattle.libyaml_graphs.specs.graphs.ComposerFaults.{composer_fault, heads};
ghost use Rattle.libyaml_graphs.specs.loads.GraphLaws.{ChildrenAreLater, EachHoldsItsChildren};
ghost use Rattle.libyaml_graphs.specs.loads.GraphLaws.{EachIdNames, EachIsLater, HoldsItsChildren};
ghost use Rattle.libyaml_graphs.specs.loads.GraphLaws.{LoadsWhole};
ghost use Rattle.libyaml_graphs.specs.loads.GraphLaws.{NestedLoads, RootsFollow, load_at, unless_fault};
ghost use Rattle.libyaml_graphs.specs.graphs.Graphs.{Start, nodes_of, starts_after};
ghost use Rattle.libyaml_graphs.specs.loads.Loads.{IsLoads, Load, last_load, left_over};
ghost use Rattle.libyaml_graphs.specs.loads.Loads.{loads, loads_of, next_load};
ghost use Rattle.libyaml_graphs.specs.graphs.GraphParts.{Part, graph, parts};

use libyaml_types::{unnamed_yaml_event_t_data_scalar, yaml_error_type_t};

/// The headline of loads: over a list whose only STREAM-END is its last token, the loads are the graphs of
/// its one tree's documents, up to the first composer error, and then the document without root; or those
/// of the one partial tree that fits, and then the composer error of the document that is open in it, or
/// the partial tree's own error.
pub fn headline()
    ensures { (l : List Token) (m : Marks) (f : Fault) → has_end l ≡ false
        → LoadsWhole (l ++ tok StreamEnd m ∷ []) f }
{}

/// The nodes of a document and the entries of all their lists together are at most twice its events, and so
/// are those of all documents of a run: an alias adds at most an entry, and no node. The bytes of texts are
/// not counted: each tag holds a copy of its directive's prefix.
pub fn linear_size()
    ensures of_document { (e : List Event) → size (graph [] (parts e)) ≤ 2 * length e }
    ensures of_loads { (e : List Event) (x : Ending) → total_size (loads e x) ≤ 2 * length e }
    ensures of_one { (n : ℕ) (e : List Event) (x : Ending) (d : Document) → next_bounded n e x ≡ Ok d
        → size d.nodes ≤ 2 * length e }
    ensures within_bound { (n : ℕ) (e : List Event) (x : Ending) → total_size (bounded_loads n e x)
        ≤ 2 * length e }
    // the first documents among them
    ensures first_of_loads { (e : List Event) (x : Ending) (ds : List Document) (l : List Load)
        → loads e x ≡ map Ok ds ++ l → documents_size ds ≤ 2 * length e }
    ensures first_within_bound { (n : ℕ) (e : List Event) (x : Ending) (ds : List Document) (l : List Load)
        → bounded_loads n e x ≡ map Ok ds ++ l → documents_size ds ≤ 2 * length e }
{}

/// An error that a load of events has whatever follows them, or if the stream ends after them, is out of
/// memory, at the bound, or a composer error: none of the parser or the source.
pub fn faults_of_loads()
    ensures whatever_follows { (n : ℕ) (e : List Event) (f : Fault)
        → ((rest : List Event) (x : Ending) → next_bounded n (e ++ rest) x ≡ Err f)
        → (f ≡ memory_fault) ⊎ (f.error ≡ yaml_error_type_t.YAML_COMPOSER_ERROR) }
    ensures in_stream { (n : ℕ) (e : List Event) (f : Fault) → next_bounded n e Ends ≡ Err f
        → (f ≡ memory_fault) ⊎ (f.error ≡ yaml_error_type_t.YAML_COMPOSER_ERROR) }
{}

/// For each list of tokens and each error after it there is exactly one list of loads.
pub fn one_loads()
    ensures some { (l : List Token) (f : Fault) → (a : List Load) × IsLoads l f a }
    ensures one { (l : List Token) (f : Fault) (a b : List Load) → IsLoads l f a → IsLoads l f b → a ≡ b }
{}

/// The loads of a run, whatever cuts it off: the graphs of its whole documents, up to the first composer
/// error, and then the composer error of the document that is open, if it has one, and else how the run
/// ends.
pub fn loads_of_run()
    ensures of_run { (l : List Token) (f : Fault) (a : List Load) (h : IsLoads l f a)
        → NestedLoads h.events h.ending a }
    ensures of_events { (l : List Event) (x : Ending) → NestsSoFar l → NestedLoads l x (loads l x) }
{}

/// The loads over a list that begins with a known tree's tokens: a valid list's with anything after it, a
/// partial tree's that fits with the token after it and anything after that, or a viable prefix's with
/// nothing after it.
pub fn loads_of_tree()
    ensures valid_list { (t : Stream) (r : List Token) (f : Fault) → in_order t ≡ true
        → (n : IsNested (events t)) × IsLoads (tokens t ++ r) f (loads_of n.texts (last_load Ends ∷ [])) }
    ensures partial_tree { (l : List Token) (b : Token) (r : List Token) (c : PartialTree) (f : Fault) → Fits l b c
        → is_after_properties c r ≡ true → (a : List Load) × IsLoads (l ++ b ∷ r) f a
        × NestedLoads (partial_events c b) (Fails (fault c b.content b.start_mark)) a }
    ensures amid_properties { (l : List Token) (b : Token) (r : List Token) (c : PartialTree) (f : Fault) → Fits l b c
        → is_after_properties c r ≡ false → (a : List Load) × IsLoads (l ++ b ∷ r) f a
        × NestedLoads (partial_events c b) (Fails f) a }
    ensures viable_prefix { (l : List Token) (e : List Event) (f : Fault) → IsViablePrefix l → has_end l ≡ false
        → Determines l e → (a : List Load) × IsLoads l f a × NestedLoads e (Fails f) a }
{}

/// The graph of a value by its parts is its graph by its tree.
pub fn graph_of_tree()
    ensures { (v : Value) (es : List Start) (r : List Event)
        → graph es (parts (value_events v r)) ≡ nodes_of v es (graph (starts_after v es) (parts r)) }
{}

/// A document's graph doesn't determine its events, not even up to marks and styles: of a scalar it forgets
/// the anchor, which only aliases name, and whether the tag is missing or `!`.
pub fn graph_forgets()
    ensures anchor { (s : unnamed_yaml_event_t_data_scalar) (a : Option (List ℕ)) (m n : Mark)
        (es : List Start) → nodes_of (scalar_value (record s { anchor = a }) m n) es []
        ≡ nodes_of (scalar_value s m n) es [] }
    ensures tag { (s : unnamed_yaml_event_t_data_scalar) (m n : Mark) (es : List Start)
        → nodes_of (scalar_value (record s { tag = Some (codes "!") }) m n) es []
        ≡ nodes_of (scalar_value (record s { tag = None }) m n) es [] }
{}

/// A document's composer error is one of an alias, a scalar or a start: the ends of collections have none.
pub fn fault_of_heads()
    ensures { (l : List Part) (es : List Start) → composer_fault es l ≡ composer_fault es (heads l) }
{}

/// Every id in the items and pairs of a loaded document names one of its nodes.
pub fn every_id()
    ensures of_value { (v : Value) → composer_fault [] (parts (value_events v [])) ≡ None
        → EveryIdNamesANode (nodes_of v [] []) }
    ensures of_run { (l : List Token) (f : Fault) (a : List Load) → IsLoads l f a → EachIdNames a }
{}

/// If each mapping has an even number of values, which it has in every run, each node holds the ids of all its
/// children in their order: no pair lacks its value.
pub fn no_value_lacks()
    ensures of_value { (v : Value) (es : List Start) → HasPairs v → HoldsItsChildren v es }
    ensures of_documents { (ts : DocumentTexts) → TextsHavePairs ts → EachHoldsItsChildren ts }
{}

/// A child that is no alias has a greater id than its parent, and an alias's id is that of an earlier or
/// enclosing node.
pub fn children_later()
    ensures of_value { (v : Value) (es : List Start) → ChildrenAreLater v es }
    ensures of_documents { (ts : DocumentTexts) → EachIsLater ts }
{}

/// Events nest in one way: those of a value are of no other, whatever comes after them, and events that nest
/// to the end are those of one list of documents. So each document has one graph.
pub fn one_nesting()
    ensures of_value { (v w : Value) (r s : List Event) → value_events v r ≡ value_events w s
        → (v ≡ w) × (r ≡ s) }
    ensures of_documents { (l : List Event) (a b : IsNested l) → a.texts ≡ b.texts }
{}

/// The first load is the next load's result, and those after it are its error again and again, or the
/// loads of the events that it leaves; the same holds within a bound.
pub fn load_by_load()
    ensures first { (r : List Event) (x : Ending) (z : Load) → load_at z 0 (loads r x) ≡ next_load r x }
    ensures later { (r : List Event) (x : Ending) (z : Load) (n : ℕ)
        → load_at z (suc n) (loads r x)
        ≡ unless_fault (next_load r x) (load_at (next_load r x) n (loads (left_over r) x)) }
    ensures first_bounded { (r : List Event) (x : Ending) (z : Load) (m : ℕ)
        → load_at z 0 (bounded_loads m r x) ≡ next_bounded m r x }
    ensures later_bounded { (r : List Event) (x : Ending) (z : Load) (m n : ℕ)
        → load_at z (suc n) (bounded_loads m r x)
        ≡ unless_fault (next_bounded m r x)
        (load_at (next_bounded m r x) n (bounded_loads m (left_over r) x)) }
{}

/// In a run each document's root begins after its start, and so it is in the events that a load leaves. So
/// a document without nodes is the last load, at the run's end; after one with nodes come the loads of
/// the events that it leaves; and an error is the last load.
pub fn whole_documents_have_roots()
    ensures roots_follow { (l : List Event) → NestsSoFar l → RootsFollow l }
    ensures left_over { (l : List Event) → RootsFollow l → RootsFollow (left_over l) }
    ensures without_nodes { (l : List Event) (x : Ending) (n : ℕ) (d : Document) → RootsFollow l
        → next_bounded n l x ≡ Ok d → d.nodes ≡ [] → (bounded_loads n l x ≡ Ok d ∷ [])
        × (last_load x ≡ Ok d) }
    ensures with_nodes { (l : List Event) (x : Ending) (n : ℕ) (d : Document) → next_bounded n l x ≡ Ok d
        → d.nodes ≢ [] → bounded_loads n l x ≡ Ok d ∷ bounded_loads n (left_over l) x }
    ensures fault { (l : List Event) (x : Ending) (n : ℕ) (f : Fault) → next_bounded n l x ≡ Err f
        → bounded_loads n l x ≡ Err f ∷ [] }
{}

/// If no list of a document that a load begins needs more than n entries, the bound n changes nothing; nor
/// does it if none of the loads within it is out of memory.
pub fn enough_room()
    ensures all { (r : List Event) (x : Ending) (n : ℕ) → HasRoom n r → bounded_loads n r x ≡ loads r x }
    ensures next { (r : List Event) (x : Ending) (n : ℕ) → HasRoom n r → next_bounded n r x ≡ next_load r x }
    ensures unmet { (r : List Event) (x : Ending) (n : ℕ) → NoneLacksMemory (bounded_loads n r x)
        → bounded_loads n r x ≡ loads r x }
{}

/// The bound is exact: nothing stops a load within the bound n exactly if its document has no composer error
/// and none of its lists needs more than n entries.
pub fn bound_is_exact()
    ensures { (l : List Part) (n : ℕ)
        → (first_stop n [] [] l ≡ None) ↔ ((composer_fault [] l ≡ None) × StaysWithin n l) }
{}
