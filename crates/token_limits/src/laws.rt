//! What a bound on depth says of whole lists. The function does nothing when it runs: its contract is the law.
ghost use Rattle.std.specs.Prelude.{◌≡◌, ◌≤◌, ◌<◌, ◌+◌, ◌++◌, ◌∷◌, ℕ, List, []};
ghost use Rattle.libyaml_types.specs.Fault.{Fault};
ghost use Rattle.libyaml_types.specs.Source.{coming};
ghost use Rattle.libyaml_types.specs.declared.token.yaml_token_t.{yaml_token_t};
ghost use Rattle.libyaml_grammar.specs.grammar.TokenNesting.{nesting};
ghost use Rattle.token_limits.specs.Limited.{NestsWithin, depth_fault, limited};

/// Over a list that nests within the bound nothing changes. Of another the tokens come up to the first that opens a
/// collection more than there may be, and then its error. It is one too many.
#[tactic(auto, using(crate::proofs::Lists::lists))]
pub fn depth()
    ensures within { (max : ℕ) (l : List yaml_token_t) (f : Fault) → NestsWithin max l
        → limited max 0 l f ≡ coming l f }
    ensures beyond { (max : ℕ) (before after : List yaml_token_t) (t : yaml_token_t) (f : Fault)
        → NestsWithin max before → max < nesting (before ++ t ∷ [])
        → limited max 0 (before ++ t ∷ after) f ≡ coming before (depth_fault t.start_mark) }
    ensures one_too_many { (max : ℕ) (before : List yaml_token_t) (t : yaml_token_t) → nesting before ≤ max
        → max < nesting (before ++ t ∷ []) → (nesting before ≡ max) × (nesting (before ++ t ∷ []) ≡ max + 1) }
{}
