//! What holds of a caller's run of calls. Each function does nothing when it runs: its contract is the law.
ghost use Rattle.std.specs.Prelude.{◌≡◌, ◌++◌, ◌∷◌, ℕ, pos, List, [], None, Err, true, false};
ghost use Rattle.std.specs.FinMap.{get, insert};
ghost use Rattle.libyaml_graphs.specs.graphs.Graphs.{AnchoredNode, id_or};
ghost use Rattle.libyaml_graphs.specs.machine.Loader.{Anchors, no_anchors};
ghost use Rattle.document_steps.specs.declared.anchors.anchor_t.{anchor_t};
ghost use Rattle.document_steps.specs.Anchors.{AreAnchorsWithin, Tabled, bytes_of, node_in};
ghost use Rattle.document_steps.specs.RunLaws.{FullWhereOpen, RunFails, RunIsLoads, RunIsMachine};
ghost use Rattle.document_steps.specs.RunLaws.{RunPlaces, StackFits};
ghost use Rattle.document_steps.specs.TokenLaws.{TokensLoadAs, BetweenBoth, FailedTokens, RefusedEvents};
ghost use Rattle.libyaml_types.specs.Fault.{Fault};
ghost use Rattle.libyaml_grammar.specs.runs.Runs.{Ends};
ghost use Rattle.libyaml_grammar.specs.grammar.ValidLists.{has_end};
ghost use Rattle.libyaml_grammar.specs.grammar.Tokens.{Token};
ghost use Rattle.libyaml_graphs.specs.loads.Loads.{last_load};

/// The loader's machine, at the same events, stands where the caller does: with the same nodes, open
/// collections and anchors; and it gave the same documents.
pub fn run_is_machine()
    ensures { RunIsMachine }
{}

/// The documents are all loads of the events so far, each given as soon as its DOCUMENT-END came.
pub fn run_is_loads()
    ensures { RunIsLoads }
{}

/// If a call refuses an event, the loads end there with its error, whatever comes after it.
pub fn run_fails()
    ensures { RunFails }
{}

/// If a call puts a node or an alias, or ends a collection, the fields of the place that its deed has no use
/// for are 0.
pub fn places_are_whole()
    ensures { RunPlaces }
{}

/// How large the stack gets: within a document the record counts at most the open collections. A stack
/// with an entry for each is never full.
pub fn stack_fits()
    ensures depth { StackFits }
    ensures full { FullWhereOpen }
{}

/// The function over a table of anchors returns the fact of an event, if the table has the anchored nodes
/// that are held. An empty table does at a document's start. Adding an entry for each node that is put with
/// an anchor, with its text after the others, keeps it so.
pub fn tables_follow()
    ensures found { (texts : List ℕ) (table : List anchor_t) (anchors : Anchors) (anchor : List ℕ)
        → Tabled texts table anchors → node_in texts table anchor ≡ pos (id_or (get anchors anchor)) }
    ensures begins { (texts : List ℕ) → Tabled texts [] no_anchors }
    ensures adds { (texts more : List ℕ) (table : List anchor_t) (entry : anchor_t) (anchors : Anchors)
        (anchor : List ℕ) (carrier : AnchoredNode) → Tabled texts table anchors → AreAnchorsWithin texts table
        → get anchors anchor ≡ None → bytes_of (texts ++ more) entry ≡ anchor → entry.node ≡ pos carrier.id
        → Tabled (texts ++ more) (table ++ entry ∷ []) (insert anchors anchor carrier) }
{}

/// Steps from tokens to events and from these to documents: before STREAM-END the documents are all loads of
/// the tokens so far, whatever the source's error after them; with it they are those of all lists that begin
/// so. An error of the parser ends the loads, whatever comes after it.
pub fn documents_of_tokens()
    ensures so_far { BetweenBoth (λ most tokens documents. has_end tokens ≡ false → (source : Fault)
        → TokensLoadAs most tokens source documents (Err source)) }
    ensures whole { BetweenBoth (λ most tokens documents. has_end tokens ≡ true
        → (more : List Token) (source : Fault) → TokensLoadAs most (tokens ++ more) source documents
        (last_load Ends)) }
    ensures parser_fails { FailedTokens (λ most tokens documents fault. (more : List Token) (source : Fault)
        → TokensLoadAs most (tokens ++ more) source documents (Err fault)) }
    ensures composer_fails { RefusedEvents (λ most tokens documents fault. has_end tokens ≡ false
        → (source : Fault) → TokensLoadAs most tokens source documents (Err fault)) }
    ensures composer_fails_at_end { RefusedEvents (λ most tokens documents fault. has_end tokens ≡ true
        → (more : List Token) (source : Fault) → TokensLoadAs most (tokens ++ more) source documents (Err
        fault)) }
{}
