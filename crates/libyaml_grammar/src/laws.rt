//! The laws of the grammar, over its definitions alone. Each function does nothing when it runs: its
//! contract is the law.

pub mod productions;
pub mod vectors;

ghost use Rattle.std.specs.Prelude.{◌≡◌, ◌++◌, ◌↔◌, ℕ, List, [], ◌∷◌, true, false};
ghost use Rattle.libyaml_types.specs.declared.enums.yaml_error_type_t.TheVariants.{YAML_PARSER_ERROR};
ghost use Rattle.libyaml_grammar.specs.partial.PartialEvents.{partial_events};
ghost use Rattle.libyaml_grammar.specs.partial.PartialFaults.{fault};
ghost use Rattle.libyaml_grammar.specs.partial.PartialTrees.{PartialTree, Place, partial_tokens};
ghost use Rattle.libyaml_grammar.specs.partial.PartialTrees.{partial_in_order};
ghost use Rattle.libyaml_types.specs.Errors.{IsSourceError};
ghost use Rattle.libyaml_grammar.specs.grammar.Events.{Event, before_events, block_slot_events};
ghost use Rattle.libyaml_grammar.specs.grammar.Events.{document_start_at, documents_events};
ghost use Rattle.libyaml_grammar.specs.grammar.Events.{events, first_block, first_directive};
ghost use Rattle.libyaml_grammar.specs.grammar.Events.{free_events, prefix_of};
ghost use Rattle.libyaml_types.specs.Fault.{Fault};
ghost use Rattle.libyaml_grammar.specs.partial.Fits.{Fits, HasPartialTree, NodeBegins};
ghost use Rattle.libyaml_grammar.specs.grammar.Nesting.{IsNested, NestsSoFar};
ghost use Rattle.libyaml_grammar.specs.grammar.Order.{in_order};
ghost use Rattle.libyaml_grammar.specs.partial.Rest.{rest};
ghost use Rattle.libyaml_grammar.specs.runs.Runs.{Ending, Ends, Fails, HasFault, IsRun, RunsWhole};
ghost use Rattle.libyaml_grammar.specs.runs.Runs.{is_after_properties};
ghost use Rattle.libyaml_grammar.specs.grammar.ValidLists.{IsValidList, IsViablePrefix, IsBadToken};
ghost use Rattle.libyaml_grammar.specs.grammar.ValidLists.{EitherNotBoth, has_end};
ghost use Rattle.libyaml_grammar.specs.partial.DeterminedEvents.{IsPrefixTree, IsOpen, Determines, sure};
ghost use Rattle.libyaml_grammar.specs.runs.StreamEnds.{up_to_end};
ghost use Rattle.libyaml_grammar.specs.grammar.Tokens.{Mark, Marks, Token, StreamEnd, Tag, tok, zero_marks};
ghost use Rattle.libyaml_grammar.specs.grammar.Trees.{Before, BlockNode, BlockSlot, Directives};
ghost use Rattle.libyaml_grammar.specs.grammar.Trees.{Free, Stream, explicit, implicit};
ghost use Rattle.libyaml_grammar.specs.grammar.Trees.{no_directives, tokens};

/// Two stream trees with equal tokens are equal.
#[tactic(auto, using(crate::proofs::exported::Completion::one_tree_proof))]
pub fn one_tree()
    ensures { (s t : Stream) → tokens s ≡ tokens t → s ≡ t }
{}

/// At most one partial tree fits a list with the token after it.
#[tactic(auto, using(crate::proofs::exported::OnePartialTree::one_partial_proof))]
pub fn one_cut()
    ensures { (l : List Token) (b : Token) (c d : PartialTree) → Fits l b c → Fits l b d → c ≡ d }
{}

/// A list whose only STREAM-END is its last token is valid, or a partial tree fits a prefix of it, and not
/// both. A list without STREAM-END is a viable prefix, or has such a partial tree, and not both.
#[tactic(auto, using(crate::proofs::trees::TreeOrPartialTree::trees_and_cuts))]
pub fn tree_or_cut()
    ensures with_end { (l : List Token) (m : Marks) → has_end l ≡ false
        → EitherNotBoth (IsValidList (l ++ tok StreamEnd m ∷ [])) (HasPartialTree (l ++ tok StreamEnd m ∷ [])) }
    ensures without_end { (l : List Token) → has_end l ≡ false → EitherNotBoth (IsViablePrefix l) (HasPartialTree l) }
{}

/// The tokens of a partial tree in order, with its rest after them, are a valid list; so the token of a
/// partial tree that fits is the first that no valid list has at its place.
#[tactic(auto, using(crate::proofs::trees::TreeOrPartialTree::cuts_begin))]
pub fn cut_begins()
    ensures completed { (c : PartialTree) → partial_in_order c true ≡ true
        → IsValidList (partial_tokens c [] ++ rest zero_marks c) }
    ensures bad_token { (l : List Token) (b : Token) (c : PartialTree) → Fits l b c → IsBadToken l b }
{}

/// Each viable prefix without STREAM-END has one prefix tree, and only viable prefixes without STREAM-END
/// have one.
pub fn one_prefix()
    ensures some { (l : List Token) → IsViablePrefix l → has_end l ≡ false → (c : PartialTree) × IsPrefixTree l c }
    ensures one { (l : List Token) (c d : PartialTree) → IsPrefixTree l c → IsPrefixTree l d → c ≡ d }
    ensures begins { (l : List Token) (c : PartialTree) → IsPrefixTree l c → IsViablePrefix l × (has_end l ≡ false) }
{}

/// What a viable prefix determines is what its prefix tree shows. A valid list determines all events of
/// its tree, and no tokens determine nothing.
pub fn determined_events()
    ensures of_prefix { (l : List Token) (c : PartialTree) (e : List Event) → IsPrefixTree l c
        → (Determines l e ↔ (e ≡ sure c)) }
    ensures of_valid_list { (t : Stream) (e : List Event) → in_order t ≡ true
        → (Determines (tokens t) e ↔ (e ≡ events t)) }
    ensures of_nothing { (e : List Event) → Determines [] e ↔ (e ≡ []) }
{}

/// After a viable prefix without STREAM-END the next event depends on tokens still to come: two valid
/// lists begin with it whose events begin with those that it determines and differ in the next.
#[tactic(auto, using(crate::proofs::exported::Determining::determined_open))]
pub fn next_is_open()
    ensures { (l : List Token) (e : List Event) → IsViablePrefix l → has_end l ≡ false → Determines l e
        → IsOpen l e }
{}

/// Each list of tokens has one run for each error after it.
pub fn one_run()
    ensures some { (l : List Token) (f : Fault) → (e : List Event) × (x : Ending) × IsRun l f e x }
    ensures one { (l : List Token) (f : Fault) (d e : List Event) (x y : Ending) → IsRun l f d x
        → IsRun l f e y → (d ≡ e) × (x ≡ y) }
{}

/// The run over a list that begins with a known tree's tokens: a valid list's with anything after it, a
/// partial tree's that fits with the token after it and anything after that, or a viable prefix's with
/// nothing after it.
pub fn run_of_tree()
    ensures valid_list { (t : Stream) (r : List Token) (f : Fault) → in_order t ≡ true
        → IsRun (tokens t ++ r) f (events t) Ends }
    ensures partial_tree { (l : List Token) (b : Token) (r : List Token) (c : PartialTree) (f : Fault) → Fits l b c
        → is_after_properties c r ≡ true
        → IsRun (l ++ b ∷ r) f (partial_events c b) (Fails (fault c b.content b.start_mark)) }
    ensures amid_properties { (l : List Token) (b : Token) (r : List Token) (c : PartialTree) (f : Fault) → Fits l b c
        → is_after_properties c r ≡ false → IsRun (l ++ b ∷ r) f (partial_events c b) (Fails f) }
    ensures viable_prefix { (l : List Token) (e : List Event) (f : Fault) → IsViablePrefix l → has_end l ≡ false
        → Determines l e → IsRun l f e (Fails f) }
{}

/// A run ends only over a valid list, with its tree's events. If the error after the list is a source's, a
/// run fails with a parser's error only if a partial tree fits, with its events and its error.
pub fn run_ends()
    ensures ended { (l : List Token) (f : Fault) (e : List Event) → IsRun l f e Ends → (t : Stream)
        × (in_order t ≡ true) × (up_to_end l ≡ tokens t) × (e ≡ events t) }
    ensures parser_fault { (l : List Token) (f : Fault) (e : List Event) (g : Fault) → IsSourceError f.error
        → g.error ≡ YAML_PARSER_ERROR → IsRun l f e (Fails g) → HasFault (up_to_end l) e g }
{}

/// The events of a tree nest: the starts and ends of documents and collections match, and each mapping has an
/// even number of nodes between its start and its end.
#[tactic(auto, using(crate::proofs::exported::Nesting::events_nest_proof))]
pub fn events_nest()
    ensures { (t : Stream) → IsNested (events t) }
{}

/// The events of each run nest as far as they go, whatever cuts it off: whole documents, then at most one
/// that is open, and each mapping that is closed has an even number of nodes. Those of a run that ends nest
/// to the end.
pub fn run_nests()
    ensures so_far { (l : List Token) (f : Fault) (e : List Event) (x : Ending) → IsRun l f e x
        → NestsSoFar e }
    ensures ended { (l : List Token) (f : Fault) (e : List Event) → IsRun l f e Ends → IsNested e }
    ensures fronts { (l rest : List Event) → IsNested (l ++ rest) → NestsSoFar l }
{}

/// The events of a document's content depend on its own directives alone, whatever stands before it, and on
/// these only by the prefixes that they give.
#[tactic(auto, using(crate::proofs::runs::OwnDirectives::own_directives))]
pub fn own_directives()
    ensures explicit { (ds : Directives) (s : Marks) (x : BlockSlot) (m : Mark) → (e : List Event)
        × ((b : Before) (r : List Event)
        → documents_events (explicit b ds s x) m r
        ≡ before_events b (first_directive ds s.start)
        (document_start_at ds false (first_directive ds s.start) s.end ∷ (e ++ r))) }
    ensures implicit { (n : BlockNode) → (e : List Event)
        × ((f : Free) (m : Mark) (r : List Event)
        → documents_events (implicit f n) m r
        ≡ free_events f (document_start_at no_directives true (first_block n) (first_block n) ∷ (e ++ r))) }
    ensures by_prefixes { (ds es : Directives) → ((h : List ℕ) → prefix_of ds h ≡ prefix_of es h)
        → (x : BlockSlot) (m : Mark) (r : List Event)
        → block_slot_events ds x m r ≡ block_slot_events es x m r }
{}

/// A TAG that needs no handle goes on from a list exactly if a node may begin after it, or after the ANCHOR
/// that ends it: there a TAG is bad for its handle alone.
pub fn tag_places()
    ensures { (l : List Token) (m : Marks) (s : List ℕ)
        → IsViablePrefix (l ++ tok (Tag (record { handle = []; suffix = s })) m ∷ []) ↔ ((p : Place)
        × NodeBegins l p) }
{}

/// The headline: a list whose only STREAM-END is its last token runs to the events of its one tree, or to
/// the events and the error of the one partial tree that fits. Never both: no partial tree fits a prefix of a
/// valid list. No other tree has the same tokens, and no other partial tree fits, at this place or another.
pub fn headline()
    ensures runs { (l : List Token) (m : Marks) (f : Fault) → has_end l ≡ false
        → RunsWhole (l ++ tok StreamEnd m ∷ []) f }
    ensures one_case { (l : List Token) → IsValidList l → HasPartialTree l → ⊥ }
    ensures one_tree { (s t : Stream) → tokens s ≡ tokens t → s ≡ t }
    ensures one_partial_tree { (l : List Token) (x y : HasPartialTree l) → (x.before ≡ y.before)
        × (x.token ≡ y.token) × (x.cut ≡ y.cut) }
{}
