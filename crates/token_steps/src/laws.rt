//! What holds of a caller's run of calls. Each function does nothing when it runs: its contract is the law.
ghost use Rattle.std.specs.Prelude.{◌≡◌, ◌≤◌, ◌+◌, ◌*◌, ◌++◌, ◌∷◌, List, [], ℕ, Option};
ghost use Rattle.std.specs.Prelude.{length, is_some, true, false};
ghost use Rattle.std.specs.FinMap.{get};
ghost use Rattle.libyaml_types.specs.declared.token.unnamed_yaml_token_t_data.TheVariants as tok;
ghost use Rattle.libyaml_types.specs.declared.token.unnamed_yaml_token_t_data_version_directive as version;
ghost use Rattle.libyaml_types.specs.Models.{TagDirectiveToken, TagToken};
ghost use Rattle.libyaml_types.specs.Fault.{Fault};
ghost use Rattle.libyaml_grammar.specs.partial.DeterminedEvents.{BeginsEach};
ghost use Rattle.libyaml_grammar.specs.runs.Runs.{Ends, Fails, IsRun};
ghost use Rattle.libyaml_grammar.specs.grammar.Nesting.{NestsSoFar};
ghost use Rattle.libyaml_grammar.specs.grammar.Order.{is_accepted};
ghost use Rattle.libyaml_grammar.specs.grammar.ValidLists.{has_end};
ghost use Rattle.libyaml_grammar.specs.grammar.TokenNesting.{IsNestingOfTaken};
ghost use Rattle.libyaml_grammar.specs.grammar.Tokens.{Token};
ghost use Rattle.libyaml_automaton.specs.Config.{Within};
ghost use Rattle.libyaml_events.specs.machine.Config.{Handles, Machine, no_handles};
ghost use Rattle.libyaml_events.specs.machine.Machine.{declared_by, resolve};
ghost use Rattle.libyaml_events.specs.parsers.Stages.{open_collections, stage_of};
ghost use Rattle.libyaml_events.specs.sources.Parsing.{IsWhole, StopsShort};
ghost use Rattle.token_steps.specs.Texts.{bit, fact_of, tag_fact};
ghost use Rattle.token_steps.specs.declared.tags.handles.handle_t.{handle_t};
ghost use Rattle.token_steps.specs.Handles.{AreHandlesWithin, bytes_at, handles_at};
ghost use Rattle.token_steps.specs.RunLaws.{BetweenTokens, FailsInHand, ForFailed, ForRuns, ForStacks};
ghost use Rattle.token_steps.specs.RunLaws.{ForExactRuns, ForExactStacks, NextTypes, RunIsFed};
ghost use Rattle.token_steps.specs.Runs.{ExactRun, Run};
ghost use Rattle.token_steps.specs.SeenRuns.{SeenRun, seen_in_hand};
ghost use Rattle.token_steps.specs.declared.steps.steps_t.{steps_t};
ghost use Rattle.libyaml_types.specs.declared.mark.yaml_mark_t.{yaml_mark_t};
ghost use Rattle.libyaml_events.specs.machine.Want.{Texts, Want};
ghost use Rattle.libyaml_events.specs.sources.Pushed.{Fed};
ghost use Rattle.libyaml_grammar.specs.grammar.Events.{Event};

/// Some parser was handed what a caller passed in, and gave what the caller was given, with the texts that it
/// kept by the kinds of tokens alone. So what is proved of pushes holds of a caller's calls.
pub fn run_is_fed()
    ensures { RunIsFed }
{}

/// Before STREAM-END the events are those that the tokens determine, each given as soon as its token came;
/// with it they are those of the whole tree, and of the run of all lists that begin so. They nest, and are at
/// most four for each token.
pub fn run_is_right()
    ensures next_at_or { BetweenTokens (λ tokens events. has_end tokens ≡ false → StopsShort tokens events) }
    ensures whole { BetweenTokens (λ tokens events. has_end tokens ≡ true → IsWhole tokens events) }
    ensures run_so_far { BetweenTokens (λ tokens events. has_end tokens ≡ false
        → (source : Fault) → IsRun tokens source events (Fails source)) }
    ensures run { BetweenTokens (λ tokens events. has_end tokens ≡ true
        → (more : List Token) (source : Fault) → IsRun (tokens ++ more) source events Ends) }
    ensures begins { BetweenTokens BeginsEach }
    ensures nests { ForRuns (λ _ events. NestsSoFar events) }
    ensures at_most_four { ForRuns (λ tokens events. length events ≤ 4 * length tokens) }
{}

/// Between two tokens, before STREAM-END, the types that `steps_t::expected` returns are those of a token
/// with which the tokens handed in still begin a valid list, if they begin one.
pub fn next_types()
    ensures { NextTypes }
{}

/// How large the stacks get: the record counts at most one state more than collections are open, and at most
/// as many marks.
pub fn stacks_fit()
    ensures states { ForStacks (λ states _ events. states ≤ open_collections (stage_of events) + 1) }
    ensures marks { ForStacks (λ _ marks events. marks ≤ open_collections (stage_of events)) }
{}

/// An error is that of a parser which was handed the same tokens, with its text and its marks, and so that of
/// the run, whatever comes after.
pub fn run_fails()
    ensures parser { ForFailed FailsInHand }
    ensures run { ForFailed (λ tokens events fault. (more : List Token) (source : Fault)
        → IsRun (tokens ++ more) source events (Fails fault)) }
{}

/// A run of exact calls is one of the other calls over tokens in which an empty plain scalar stands for
/// each that is lost, at its end. So its events nest, and are at most four for each token, and its stacks
/// get no larger.
pub fn exact_runs()
    ensures seen { (d : steps_t) (ss : List ℕ) (ms : List yaml_mark_t) (hs : Handles) (kept : Texts)
        (o : Option Token) (l : List Token) (g : List Event) → ExactRun d ss ms hs kept o l g
        → SeenRun d ss ms hs kept o l g }
    ensures nests { ForExactRuns (λ _ events. NestsSoFar events) }
    ensures at_most_four { ForExactRuns (λ tokens events. length events ≤ 4 * length tokens) }
    ensures states { ForExactStacks (λ states _ events. states ≤ open_collections (stage_of events) + 1) }
    ensures marks { ForExactStacks (λ _ marks events. marks ≤ open_collections (stage_of events)) }
{}

/// The stack of marks of a machine, which is a parser's or that of a caller's steps, holds as many as the
/// tokens that it took nest deep. So a bound on their nesting is one on the size of that stack. Of exact
/// steps these are the tokens as they are seen, with an empty scalar in the place of one that is lost.
pub fn marks_are_nesting()
    ensures machine { (w : Want) (c : Machine) (o : Option Token) (l : List Token) (g : List Event)
        → Fed w c o l g → IsNestingOfTaken o l (length c.marks) }
    ensures steps { (d : steps_t) (ss : List ℕ) (ms : List yaml_mark_t) (hs : Handles) (kept : Texts)
        (o : Option Token) (l : List Token) (g : List Event) → Run d ss ms hs kept o l g
        → Within d.machine ss ms → IsNestingOfTaken o l d.machine.marks_count }
    ensures exact_steps { (d : steps_t) (ss : List ℕ) (ms : List yaml_mark_t) (hs : Handles) (kept : Texts)
        (o : Option Token) (l : List Token) (g : List Event) → ExactRun d ss ms hs kept o l g
        → Within d.machine ss ms → (seen : SeenRun d ss ms hs kept o l g)
        × IsNestingOfTaken (seen_in_hand d o) seen.tokens d.machine.marks_count }
{}

/// The functions over a table of handles return the facts of tokens, if the table stands for the document's
/// handles. An empty table does at a document's start. Adding an entry for each TAG-DIRECTIVE that is taken,
/// with its texts after the others, keeps it so.
pub fn tables_follow()
    ensures tag { (texts : List ℕ) (table : List handle_t) (tag : TagToken)
        → tag_fact (resolve (handles_at texts table) tag.handle tag.suffix)
        ≡ fact_of (handles_at texts table) (tok.Tag tag) }
    ensures directive { (texts : List ℕ) (table : List handle_t) (directive : TagDirectiveToken)
        → bit (is_some (get (handles_at texts table) directive.handle))
        ≡ fact_of (handles_at texts table) (tok.TagDirective directive) }
    ensures version { (handles : Handles) (directive : version.unnamed_yaml_token_t_data_version_directive)
        → bit (is_accepted directive.major directive.minor)
        ≡ fact_of handles (tok.VersionDirective directive) }
    ensures begins { (texts : List ℕ) → handles_at texts [] ≡ no_handles }
    ensures declares { (texts more : List ℕ) (table : List handle_t) (entry : handle_t) (handles : Handles)
        (directive : TagDirectiveToken) → handles ≡ handles_at texts table → AreHandlesWithin texts table
        → fact_of handles (tok.TagDirective directive) ≡ 0
        → bytes_at (texts ++ more) entry.handle ≡ directive.handle
        → bytes_at (texts ++ more) entry.prefix ≡ directive.prefix
        → declared_by handles (tok.TagDirective directive)
        ≡ handles_at (texts ++ more) (table ++ entry ∷ []) }
{}
