//! The parser without texts, with its stacks.
ghost use Rattle.std.specs.Prelude.{◌≡◌, ◌++◌, All, List, ℕ, [], true};
ghost use Rattle.libyaml_types.specs.declared.mark.yaml_mark_t.{yaml_mark_t};
ghost use Rattle.libyaml_types.specs.declared.enums.yaml_token_type_t.{yaml_token_type_t};
ghost use Rattle.libyaml_automaton.specs.Acceptable.{acceptable, has};
ghost use Rattle.libyaml_automaton.specs.Config.{first_stacks};
ghost use Rattle.libyaml_automaton.specs.Purposes.{purpose_of};
ghost use Rattle.libyaml_automaton.specs.Numbers.{flag, IsBackByte};
ghost use Rattle.libyaml_automaton.specs.Fits.{FitsAtDirective};
ghost use Rattle.libyaml_automaton.specs.Automaton.{KindAndMarks};
ghost use Rattle.libyaml_automaton.specs.Automaton as automaton;
ghost use Rattle.libyaml_automaton.specs.Outcomes.{IsOutcome, outcome};

use libyaml_automaton::{Action, Automaton, Reading, TokenTypes, state_of_number};
use libyaml_types::{ZERO_MARK, yaml_mark_t, yaml_parser_state_t};
use std::alloc::Global;
use std::marker::Model;

/// The parser without texts, with its stacks.
#[derive(Drop)]
pub(crate) struct AutomatonWithStacks {
    pub(crate) automaton: Automaton,
    pub(crate) states: Vec<u8>,
    pub(crate) marks: Vec<yaml_mark_t>,
}

impl Model for AutomatonWithStacks {
    ghost use Rattle.std.specs.Prelude.{All};
    ghost use Rattle.libyaml_automaton.specs.Config.{Stacks, stacks_of, Within};
    ghost use Rattle.libyaml_automaton.specs.Numbers.{IsBackByte};

    ghost Value = { Stacks };

    ghost view = { λ a. stacks_of a.automaton a.states.items a.marks.items };

    // each byte on the stack is the number of a state to which the parser goes back after a node
    ghost invariant = { λ a. Within a.automaton a.states.items a.marks.items
        × All IsBackByte a.states.items };
}

/// The byte at places where no state was put yet: the number of the state after a document's root.
const NO_STATE: u8 = 4;

/// Lengthens the stack of states to the capacity that it has once there is room for one more, and returns
/// whether there was memory.
fn lengthen_states(states: &mut Vec<u8>) -> bool
    ensures { (more : List ℕ) × (states.new.items ≡ states.old.items ++ more) × All IsBackByte more }
{
    if states.push(NO_STATE).is_err() {
        return false;
    }
    let _ = states.resize(states.capacity(), NO_STATE);
    true
}

/// Likewise the stack of marks.
fn lengthen_marks(marks: &mut Vec<yaml_mark_t>) -> bool
    ensures { (more : List yaml_mark_t) × (marks.new.items ≡ marks.old.items ++ more) }
{
    if marks.push(ZERO_MARK).is_err() {
        return false;
    }
    let _ = marks.resize(marks.capacity(), ZERO_MARK);
    true
}

impl AutomatonWithStacks {
    /// Returns an automaton at a stream's start, without an allocation.
    #[inline(always)]
    pub(crate) fn new(alloc: Global) -> Self
        ensures { result ≡ first_stacks }
    {
        AutomatonWithStacks {
            automaton: Automaton::new(),
            states: Vec::new(alloc),
            marks: Vec::new(alloc),
        }
    }

    /// Goes on after `document_step` returned `AsksVersion`.
    #[inline(always)]
    pub(crate) fn version_directive(&mut self, read: &mut Reading, is_accepted: bool) -> Action
        ensures steps { (t : KindAndMarks) → IsOutcome (automaton.first_version is_accepted
            read.old.start_mark self.old t) (outcome result (automaton.no_properties t) t read.new self.new) }
        ensures fits { FitsAtDirective result read.new }
        ensures kept { self.new ≡ self.old }
    {
        self.automaton.version_directive(read, is_accepted)
    }

    /// Goes on after `document_step` returned `AsksHandle`.
    #[inline(always)]
    pub(crate) fn tag_directive(&mut self, read: &mut Reading, was_declared: bool) -> Action
        ensures steps { (t : KindAndMarks) → IsOutcome (automaton.tag_directive was_declared
            read.old.start_mark (flag read.old.has_version) self.old t) (outcome result
            (automaton.no_properties t) t read.new self.new) }
        ensures fits { FitsAtDirective result read.new }
        ensures kept { self.new ≡ self.old }
    {
        self.automaton.tag_directive(read, was_declared)
    }

    /// Returns the state.
    #[inline(always)]
    pub(crate) fn state(&self) -> yaml_parser_state_t
        ensures { result ≡ self.now.state }
    {
        state_of_number(self.automaton.state)
    }

    /// Returns which types of token may come next.
    #[inline(always)]
    pub(crate) fn expected(&self, read: &Reading) -> TokenTypes
        ensures { (k : yaml_token_type_t) → has result k ≡ acceptable (purpose_of read.now) self.now k }
    {
        self.automaton.expected(read, self.states.as_slice())
    }

    /// Makes room after a step returned this, and returns whether there was memory. A step that pushes a mark
    /// may push a state as well.
    #[cold]
    #[inline(never)]
    #[tactic(auto, using(crate::proofs::layer::Stacks::grown))]
    pub(crate) fn grow(&mut self, full: Action) -> bool
        ensures { self.new ≡ self.old }
    {
        match full {
            Action::FullMarks => {
                lengthen_marks(&mut self.marks)
                    && (self.automaton.states_count < self.states.len()
                        || lengthen_states(&mut self.states))
            }
            _ => lengthen_states(&mut self.states),
        }
    }

    /// Forgets what is on the stacks.
    #[cold]
    #[inline(never)]
    #[tactic(auto, using(crate::proofs::layer::Stacks::cleared))]
    pub(crate) fn clear(&mut self)
        ensures { self.new ≡ record self.old { states = []; marks = [] } }
    {
        self.automaton.states_count = 0;
        self.automaton.marks_count = 0;
    }
}
