//! Laws: the headline of runs and of loads, one tree, and what a history says.

pub mod determined;

ghost use Rattle.std.specs.Prelude.{◌≡◌, ◌++◌, ◌∷◌, List, [], false};
ghost use Rattle.unsafe_libyaml.specs.Config.{Parser};
ghost use Rattle.unsafe_libyaml.specs.Fault.{Fault};
ghost use Rattle.unsafe_libyaml.specs.GraphLaws.{LoadsWhole};
ghost use Rattle.unsafe_libyaml.specs.History.{ForHistory};
ghost use Rattle.unsafe_libyaml.specs.Nesting.{NestsSoFar};
ghost use Rattle.unsafe_libyaml.specs.Needs.{EachWasNeeded};
ghost use Rattle.unsafe_libyaml.specs.Runs.{RunsWhole};
ghost use Rattle.unsafe_libyaml.specs.ValidLists.{has_end};
ghost use Rattle.unsafe_libyaml.specs.Tokens.{Marks, StreamEnd, Token, tok};
ghost use Rattle.unsafe_libyaml.specs.Trees.{Stream, tokens};

use unsafe_libyaml::laws::calls::of_history;
use unsafe_libyaml::{graph_laws, laws, yaml_token_source_t};

/// Each list whose only STREAM-END is its last token has its run and its loads.
pub fn headline()
    ensures runs { (l : List Token) (m : Marks) (f : Fault) → has_end l ≡ false
        → RunsWhole (l ++ tok StreamEnd m ∷ []) f }
    ensures loads { (l : List Token) (m : Marks) (f : Fault) → has_end l ≡ false
        → LoadsWhole (l ++ tok StreamEnd m ∷ []) f }
{
    laws::headline();
    graph_laws::headline();
}

/// Two trees with equal tokens are equal.
pub fn one_tree()
    ensures { (s t : Stream) → tokens s ≡ tokens t → s ≡ t }
{
    laws::one_tree();
}

/// A parser's events nest, and each token that it asked for was needed.
pub fn of_every_history<S: yaml_token_source_t>()
    ensures nests { (p : Parser S) → ForHistory p (λ _ given. NestsSoFar given) }
    ensures needed { (p : Parser S) → ForHistory p (λ asked given. EachWasNeeded [] asked [] given) }
{
    of_history::<S>();
}
