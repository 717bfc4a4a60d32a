//! The call that does what libyaml does, also where `step` does something else (docs/DIFFERENCES.md).
ghost use Rattle.std.specs.Prelude.{◌≡◌, ◌↔◌};
ghost use Rattle.libyaml_automaton.specs.Automaton.{AtState};
ghost use Rattle.libyaml_automaton.specs.Config.{stacks_of, Within};
ghost use Rattle.libyaml_automaton.specs.Growth.{HasNoRoom};
ghost use Rattle.libyaml_automaton.specs.Purposes.{purpose_of};
ghost use Rattle.token_steps.specs.Exact.{exact_step_by_fact, exactly_grows_marks};
ghost use Rattle.token_steps.specs.Exact.{exactly_grows_states};
ghost use Rattle.token_steps.specs.Records.{AreFlags, AreUnused, span_token};
ghost use Rattle.token_steps.specs.Numbers.{IsEventNumber, IsFaultNumber};
ghost use Rattle.token_steps.specs.Tells.{Tells, want_in, IsGiven, IsUntold};

use crate::did::Did;
use crate::handed::Handed;
use crate::out::Out;
use crate::records::{step_event_t, step_fault_t, step_span_t};
use crate::steps::steps_t;
use libyaml_types::{yaml_mark_t, yaml_token_type_t};

impl steps_t {
    /// Takes a token like `step`, but does what libyaml does where that does something else: after the KEY of
    /// a flow sequence's pair VALUE, FLOW-ENTRY or FLOW-SEQUENCE-END is lost, and the key is an empty scalar
    /// at that token's end; at the two other places there is libyaml's error.
    ///
    /// libyaml: `yaml_parser_parse`, for one token.
    #[inline(always)]
    pub fn step_exact(
        &mut self,
        states: &mut [u8],
        marks: &mut [yaml_mark_t],
        kind: yaml_token_type_t,
        fact: u8,
        at: &step_span_t,
        event: &mut step_event_t,
        fault: &mut step_fault_t,
    ) -> Did
        ensures tells { Tells result (exact_step_by_fact (want_in self.old)
            (stacks_of self.old.machine states.old marks.old) (span_token kind fact at.now))
            self.new event.new fault.new (stacks_of self.new.machine states.new marks.new) }
        ensures within { Within self.old.machine states.old marks.old
            → Within self.new.machine states.new marks.new }
        ensures bad { (result ≡ Did.Bad) ↔ (Within self.old.machine states.old marks.old → ⊥) }
        ensures full_states { Within self.old.machine states.old marks.old → (result ≡ Did.FullStates)
            ↔ (HasNoRoom (exactly_grows_states self.old kind) states.old self.old.machine.states_count
            × (HasNoRoom (exactly_grows_marks self.old kind) marks.old self.old.machine.marks_count → ⊥)) }
        ensures full_marks { Within self.old.machine states.old marks.old → (result ≡ Did.FullMarks)
            ↔ HasNoRoom (exactly_grows_marks self.old kind) marks.old self.old.machine.marks_count }
        ensures undone { IsUntold result → (self.new.machine ≡ self.old.machine) × ((states.new ≡ states.old)
            × ((marks.new ≡ marks.old) × (want_in self.new ≡ want_in self.old))) }
        ensures holds_nothing { IsGiven result → purpose_of self.new.read ≡ AtState }
        ensures event_number { IsGiven result → IsEventNumber event.new.kind }
        ensures event_flags { IsGiven result → AreFlags event.new }
        ensures event_unused { IsGiven result → AreUnused event.new }
        ensures fault_number { result ≡ Did.Failed → IsFaultNumber fault.new.problem }
        ensures event_kept { (IsGiven result → ⊥) → event.new ≡ event.old }
        ensures fault_kept { (result ≡ Did.Failed → ⊥) → fault.new ≡ fault.old }
    {
        self.step_as::<true>(
            states,
            marks,
            &Handed { kind, fact, at },
            &mut Out { event, fault },
        )
    }
}
