//! The laws of the original. Each function does nothing when it runs: its contract is the law.

ghost use Rattle.std.specs.Prelude.{◌≡◌, ◌⊎◌, ℕ, List, Some, Bool, true, false, map};
ghost use Rattle.libyaml_types.specs.Events.{empty_event};
ghost use Rattle.libyaml_types.specs.Fault.{Fault};
ghost use Rattle.libyaml_grammar.specs.runs.Runs.{Ending, Ends, Fails, IsRun};
ghost use Rattle.libyaml_grammar.specs.grammar.Events.{Event};
ghost use Rattle.libyaml_grammar.specs.grammar.Nesting.{IsNested, NestsSoFar};
ghost use Rattle.libyaml_grammar.specs.grammar.ValidLists.{has_end};
ghost use Rattle.libyaml_grammar.specs.grammar.Tokens.{Token};
ghost use Rattle.libyaml_graphs.specs.loads.Bounds.{IsBoundedLoads, bounded_loads};
ghost use Rattle.libyaml_graphs.specs.loads.Loads.{Load};
ghost use Rattle.libyaml_events.specs.machine.Config.{is_fault};
ghost use Rattle.rust_original.specs.loader.Loader.{loads_there};
ghost use Rattle.rust_original.specs.loader.LoadsThere.{LoadsCompare, LoadsThere};
ghost use Rattle.rust_original.specs.parser.Differences.{Compares, Differs, call_here, call_there};
ghost use Rattle.rust_original.specs.parser.ExactCalls.{BetweenExact, ForExactFailed, RunThere};
ghost use Rattle.rust_original.specs.parser.Parser.{Fixes, OK, OriginalParser, ParserResult};
ghost use Rattle.rust_original.specs.parser.Parser.{yaml_parser_parse};
ghost use Rattle.rust_original.specs.parser.Runs.{Runs, RunsThere, as_here, as_there, call};
ghost use Rattle.rust_original.specs.parser.Runs.{new_original_parser, run_within};
ghost use Rattle.rust_original.specs.parser.Texts.{NoneHoldsZero, as_held};

/// The Rust crate has one run over each list of tokens and error of a source after it. Its events nest, and
/// to the end only if it ends. A run that is computed within so many calls is a run.
pub fn runs_there()
    ensures some { (l : List Token) (f : Fault) → (e : List Event) × (x : Ending) × RunsThere l f e x }
    ensures one { (l : List Token) (f : Fault) (e d : List Event) (x y : Ending) → RunsThere l f e x
        → RunsThere l f d y → (e ≡ d) × (x ≡ y) }
    ensures nests { (l : List Token) (f : Fault) (e : List Event) (x : Ending) → RunsThere l f e x
        → NestsSoFar e }
    ensures whole { (l : List Token) (f : Fault) (e : List Event) (x : Ending) → RunsThere l f e x
        → IsNested e → x ≡ Ends }
    ensures computed { (m : Fixes) (n : ℕ) (p : OriginalParser) (e : List Event) (x : Ending)
        → run_within m n p ≡ (e, Some x) → Runs m p e x }
{}

/// With its three fixes, the run is that of the grammar, whose events too nest to the end only if it ends.
pub fn runs_here()
    ensures run { (l : List Token) (f : Fault) (e : List Event) (x : Ending) → IsRun l f e x
        → Runs as_here (new_original_parser l f) e x }
    ensures whole { (l : List Token) (f : Fault) (e : List Event) (x : Ending) → IsRun l f e x
        → IsNested e → x ≡ Ends }
{}

/// A call of any parser does the same with the fixes and without, but at three places; what it does there,
/// which is never the same. After the stream's end, and after an error, it returns the empty event and
/// changes nothing.
pub fn calls()
    ensures places { (p : OriginalParser) → (call_there p ≡ call_here p) ⊎ Differs p (call_there p)
        (call_here p) }
    ensures apart { (p : OriginalParser) (a b : ParserResult) → Differs p a b → a ≡ b → ⊥ }
    ensures after_the_end { (m : Fixes) (kept : Fault) (p : OriginalParser) → p.stream_end_produced ≡ true
        → yaml_parser_parse m kept p ≡ OK empty_event p }
    ensures after_a_fault { (m : Fixes) (kept : Fault) (p : OriginalParser) → is_fault kept.error ≡ true
        → yaml_parser_parse m kept p ≡ OK empty_event p }
{}

/// So the Rust crate's run over a list is the run of the grammar; or it is up to a call at one of these
/// places. In both, texts that end at a zero byte end there; if none holds one, that changes nothing.
pub fn compared()
    ensures runs { (l : List Token) (f : Fault) (e d : List Event) (x y : Ending) → RunsThere l f e x
        → IsRun (map as_held l) f d y → Compares (new_original_parser (map as_held l) f) e x d y }
    ensures texts { (l : List Token) → NoneHoldsZero l → map as_held l ≡ l }
{}

/// A caller of exact steps (`steps_t::step_exact`) that hands in a list's tokens as the Rust crate holds them
/// (`as_held`: texts end at a zero byte, but those of scalars) has the Rust crate's run over that list,
/// whatever it is: after each token the same events, at the stream's end the whole run, and its errors at the
/// same tokens, with the same words and marks.
pub fn exact_calls()
    ensures so_far { BetweenExact (λ l g. has_end l ≡ false → (f : Fault) → RunsThere l f g (Fails f)) }
    ensures ended { BetweenExact (λ l g. has_end l ≡ true → RunThere l g Ends) }
    ensures failed { ForExactFailed (λ l g f. RunThere l g (Fails f)) }
{}

/// What the original's loader makes of events that nest, whole ones with the stream's end alone, and with any
/// bound on its lists, are the loads of this repository within that bound. The events of a run nest so, here
/// and there.
pub fn loads_alike()
    ensures of_events { (n : ℕ) (e : List Event) (x : Ending) → NestsSoFar e → (IsNested e → x ≡ Ends)
        → loads_there n e x ≡ bounded_loads n e x }
    ensures of_run { (n : ℕ) (l : List Token) (f : Fault) (e : List Event) (x : Ending) → IsRun l f e x
        → loads_there n e x ≡ bounded_loads n e x }
    ensures of_run_there { (n : ℕ) (l : List Token) (f : Fault) (e : List Event) (x : Ending)
        → RunsThere l f e x → loads_there n e x ≡ bounded_loads n e x }
{}

/// So what the original's parser and loader make of a list of tokens is what this repository's make; or it is
/// up to a call at one of the three places, and both begin with the loads of the events before it. Texts are
/// held as in `compared`.
pub fn documents_compared()
    ensures { (n : ℕ) (l : List Token) (f : Fault) (a b : List Load) → LoadsThere n l f a
        → IsBoundedLoads n (map as_held l) f b → LoadsCompare n (new_original_parser (map as_held l) f) a b }
{}
