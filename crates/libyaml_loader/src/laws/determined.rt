//! That the contracts of a load and of a push leave their results open nowhere: two outcomes that they allow
//! are one.

ghost use Rattle.std.specs.Prelude.{◌≡◌, ◌≤◌, ◌⊎◌, ◌++◌, ◌∷◌, ℕ, List, [], true, false};
ghost use Rattle.libyaml_documents.specs.Documents.{Document};
ghost use Rattle.libyaml_events.specs.machine.Config.{Parser};
ghost use Rattle.libyaml_events.specs.sources.Determined.{AnswersOneWay};
ghost use Rattle.libyaml_events.specs.sources.History.{History};
ghost use Rattle.libyaml_events.specs.sources.Pushes.{Done};
ghost use Rattle.libyaml_grammar.specs.grammar.Events.{Event};
ghost use Rattle.libyaml_grammar.specs.grammar.Tokens.{Token};
ghost use Rattle.libyaml_graphs.specs.loads.Bounds.{next_bounded};
ghost use Rattle.libyaml_graphs.specs.loads.Loads.{left_over};
ghost use Rattle.libyaml_loader.specs.loads.Loading.{DocumentOrError};
ghost use Rattle.libyaml_loader.specs.loads.OneLoad.{LoadOutcome, LoadRunsOut, LoadsAlike};
ghost use Rattle.libyaml_loader.specs.loads.OneLoad.{OneLoadByAnswers, load_results_of};
ghost use Rattle.libyaml_loader.specs.pushes.Loaded.{Loaded, PushLoader, loader_has_stopped};
ghost use Rattle.libyaml_loader.specs.pushes.OnePushLoads.{OnePushLoads};
ghost use Rattle.libyaml_loader.specs.pushes.PushesLoads.{PushesLoads};

use libyaml_events::yaml_token_source_t;

/// Two outcomes of one load, both of which the clauses `loads`, `fails` and `bound` of `yaml_parser_load`
/// allow: if the source gave the same results as far as both asked, they are one, unless memory ran out in
/// one of them, where memory may be taken. n is the parser's bound.
pub fn one_load<S: yaml_token_source_t>()
    ensures running { (old p q : Parser S) (r s : DocumentOrError) (n : ℕ) (asked : List Token)
        (given : List Event) → (h : History old asked given)
        → (a : LoadOutcome S.yaml_token_source_t (next_bounded n) left_over old r p)
        → (b : LoadOutcome S.yaml_token_source_t (next_bounded n) left_over old s q)
        → OneLoadByAnswers S.gives (next_bounded n) old asked given (load_results_of h a)
        (load_results_of h b) r p s q }
    // so over a source that returns in one way there is one outcome, except for memory
    ensures one_way { (old p q : Parser S) (r s : DocumentOrError) (n : ℕ) (asked : List Token)
        (given : List Event) → History old asked given → AnswersOneWay S.gives old.source
        → LoadOutcome S.yaml_token_source_t (next_bounded n) left_over old r p
        → LoadOutcome S.yaml_token_source_t (next_bounded n) left_over old s q
        → (LoadRunsOut S.gives (next_bounded n) old r p asked given
        ⊎ LoadRunsOut S.gives (next_bounded n) old s q asked given)
        ⊎ (LoadsAlike r p s q × (p.source ≡ q.source)) }
{}

/// Loaders with one bound that were handed the same tokens, without an error, gave the same documents and
/// stand the same.
pub fn one_loaded()
    ensures { (p q : PushLoader) (tokens : List Token) (documents given : List Document)
        → p.max_entries ≡ q.max_entries → Loaded p tokens documents → Loaded q tokens given
        → (p ≡ q) × (documents ≡ given) }
{}

/// Two outcomes of one push to a loader, both of which the contract of `push` allows, of a list of documents
/// with this room: they are one, unless memory ran out in one of them, where memory may be taken or the list
/// of documents has no room. A loader that has stopped has one outcome.
pub fn one_push()
    ensures running { (room m n : ℕ) (old p q : PushLoader) (t : Token) (before after later : List Document)
        (r s : Done) (tokens : List Token) (documents : List Document) → (l : Loaded old tokens documents)
        → loader_has_stopped old ≡ false → PushesLoads (room ≤ m) old t before r p after
        → PushesLoads (room ≤ n) old t before s q later
        → OnePushLoads (room ≤ m) (room ≤ n) (tokens ++ t ∷ []) l.events documents
        before r p after s q later }
    ensures stopped { (room m n : ℕ) (old p q : PushLoader) (t : Token) (before after later : List Document)
        (r s : Done) → loader_has_stopped old ≡ true → PushesLoads (room ≤ m) old t before r p after
        → PushesLoads (room ≤ n) old t before s q later → (r ≡ s) × (p ≡ q) × (after ≡ later) }
{}
