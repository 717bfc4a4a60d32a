//! A set of types of tokens.
ghost use Rattle.std.specs.Prelude.{◌≡◌, ◌||◌, false};
ghost use Rattle.libyaml_types.specs.declared.enums.yaml_token_type_t.{yaml_token_type_t};
ghost use Rattle.libyaml_automaton.specs.Acceptable.{has, is_same};

use libyaml_types::yaml_token_type_t;

/// A set of types of tokens.
#[derive(Copy, Clone, PartialEq, Eq, Debug)]
pub struct TokenTypes {
    /// The bit of a type is that of its number (`yaml_token_type_t::number`).
    pub bits: u32,
}

impl TokenTypes {
    /// Returns the empty set.
    #[inline]
    pub fn none() -> Self
        ensures { (k : yaml_token_type_t) → has result k ≡ false }
    {
        TokenTypes { bits: 0 }
    }

    /// Returns whether the set has this type.
    #[inline]
    #[tactic(auto, using(crate::proofs::Bits::test_is))]
    pub fn contains(self, kind: yaml_token_type_t) -> bool
        ensures { result ≡ has self kind }
    {
        (self.bits >> kind.number()) & 1 == 1
    }

    /// Returns the set with this type too.
    #[inline]
    #[tactic(auto, using(crate::proofs::Bits::with_has))]
    pub fn with(self, kind: yaml_token_type_t) -> Self
        ensures { (k : yaml_token_type_t) → has result k ≡ (is_same kind k || has self k) }
    {
        TokenTypes {
            bits: self.bits | (1 << kind.number()),
        }
    }

    /// Returns the types of both sets.
    #[inline]
    #[tactic(auto, using(crate::proofs::Bits::union_has))]
    pub fn union(self, other: Self) -> Self
        ensures { (k : yaml_token_type_t) → has result k ≡ (has self k || has other k) }
    {
        TokenTypes {
            bits: self.bits | other.bits,
        }
    }
}
