//! The tokens of documents, and those after a node's properties: where a step asks for a text's fact.
ghost use Rattle.std.specs.Prelude.{◌≡◌, ◌≤◌, ◌↔◌, ℕ, List, length, true};
ghost use Rattle.libyaml_types.specs.declared.mark.yaml_mark_t.{yaml_mark_t};
ghost use Rattle.libyaml_automaton.specs.Config.{stacks_of, Within};
ghost use Rattle.libyaml_automaton.specs.Fits.{Documents};
ghost use Rattle.libyaml_automaton.specs.Growth.{HasNoRoom, stack_part_of, pushes_in_documents};
ghost use Rattle.libyaml_automaton.specs.Numbers.{flag, next_of, state_of, place_of};
ghost use Rattle.libyaml_automaton.specs.Purposes.{IsAt, properties};
ghost use Rattle.token_steps.specs.Differing.{differs_in};
ghost use Rattle.token_steps.specs.Exact.{step_by_fact_if, where_same_if};
ghost use Rattle.token_steps.specs.Facts as facts;
ghost use Rattle.token_steps.specs.Handed.{handed_token};
ghost use Rattle.token_steps.specs.Facts.{tag_if};
ghost use Rattle.token_steps.specs.Growth.{content_opens};
ghost use Rattle.token_steps.specs.Records.{AreFlags, AreUnused};
ghost use Rattle.token_steps.specs.Numbers.{IsEventNumber};
ghost use Rattle.token_steps.specs.Tells.{Tells, want_in, IsDone, IsGiven};

use crate::did::Did;
use crate::handed::Handed;
use crate::head::{Head, Properties};
use crate::out::Out;
use crate::records::{step_event_t, step_fault_t};
use crate::steps::steps_t;
use libyaml_automaton::{Action, Token, UNDEFINED_HANDLE};
use libyaml_types::yaml_mark_t;

impl steps_t {
    /// Takes a token that is the stream's or a document's.
    #[inline(never)]
    pub(crate) fn document<const IS_EXACT: bool>(
        &mut self,
        states: &mut [u8],
        token: &Handed,
        event: &mut step_event_t,
        fault: &mut step_fault_t,
    ) -> Did
        requires within { self.old.machine.states_count ≤ length states.old }
        requires at { IsAt (next_of self.old.read.next) (state_of self.old.machine.state) }
        requires documents { stack_part_of (next_of self.old.read.next) ≡ Documents }
        ensures tells { (marks : List yaml_mark_t) → Tells result (step_by_fact_if IS_EXACT (want_in self.old)
            (stacks_of self.old.machine states.old marks) (handed_token token.now))
            self.new event.new fault.new (stacks_of self.new.machine states.new marks) }
        ensures within { self.new.machine.states_count ≤ length states.new }
        ensures marks { self.new.machine.marks_count ≡ self.old.machine.marks_count }
        ensures full { (result ≡ Did.FullStates) ↔ HasNoRoom (where_same_if IS_EXACT
            (differs_in self.old token.now.kind) (pushes_in_documents (next_of self.old.read.next)
            (flag self.old.machine.behind_document_end) token.now.kind)) states.old
            self.old.machine.states_count }
        ensures undone { result ≡ Did.FullStates → (self.new.machine ≡ self.old.machine)
            × ((states.new ≡ states.old) × (want_in self.new ≡ want_in self.old)) }
        ensures done { (result ≡ Did.FullStates → ⊥) → IsDone result }
        ensures event_number { IsGiven result → IsEventNumber event.new.kind }
        ensures event_flags { IsGiven result → AreFlags event.new }
        ensures event_unused { IsGiven result → AreUnused event.new }
        ensures event_kept { (IsGiven result → ⊥) → event.new ≡ event.old }
        ensures fault_kept { (result ≡ Did.Failed → ⊥) → fault.new ≡ fault.old }
    {
        match self
            .machine
            .document_step::<IS_EXACT>(&mut self.read, states, token.kind, &token.at.start_mark)
        {
            Action::FullStates => Did::FullStates,
            Action::AsksVersion => {
                let led = self
                    .machine
                    .version_directive(&mut self.read, token.fact != 0);
                self.tell_bare(led, token, event, fault)
            }
            Action::AsksHandle => {
                let led = self.machine.tag_directive(&mut self.read, token.fact != 0);
                self.tell_bare(led, token, event, fault)
            }
            led => self.tell_bare(led, token, event, fault),
        }
    }

    /// Takes a token that follows a node's properties.
    #[inline(always)]
    pub(crate) fn content(
        &mut self,
        states: &[u8],
        marks: &mut [yaml_mark_t],
        token: &Handed,
        out: &mut Out,
    ) -> Did
        requires within { Within self.old.machine states.now marks.old }
        ensures tells { Tells result (facts.content_by_fact (tag_if (flag self.old.read.has_tag) self.old.tag)
            self.old.tag (place_of self.old.read.place) (properties self.old.read)
            (stacks_of self.old.machine states.now marks.old) (handed_token token.now))
            self.new out.new.event.now out.new.fault.now (stacks_of self.new.machine states.now marks.new) }
        ensures within { Within self.new.machine states.now marks.new }
        ensures full { (result ≡ Did.FullMarks) ↔ HasNoRoom (content_opens
            (tag_if (flag self.old.read.has_tag) self.old.tag) (place_of self.old.read.place) token.now.kind)
            marks.old self.old.machine.marks_count }
        ensures undone { result ≡ Did.FullMarks → (self.new ≡ self.old) × (marks.new ≡ marks.old) }
        ensures done { (result ≡ Did.FullMarks → ⊥) → IsDone result }
        ensures event_number { IsGiven result → IsEventNumber out.new.event.now.kind }
        ensures event_flags { IsGiven result → AreFlags out.new.event.now }
        ensures event_unused { IsGiven result → AreUnused out.new.event.now }
        ensures event_kept { (IsGiven result → ⊥) → out.new.event.now ≡ out.old.event.now }
        ensures fault_kept { (result ≡ Did.Failed → ⊥) → out.new.fault.now ≡ out.old.fault.now }
        ensures same_event { out.new.event.ghost_name ≡ out.old.event.ghost_name }
        ensures same_fault { out.new.fault.ghost_name ≡ out.old.fault.ghost_name }
    {
        let head = Head {
            has_anchor: self.read.has_anchor,
            has_tag: self.read.has_tag,
            tag: self.tag,
        };
        let start = self.read.start_mark;
        let end = self.read.end_mark;
        if head.is_undefined() {
            return self.fail(&start, &self.read.tag_mark, UNDEFINED_HANDLE, out.fault);
        }
        match self.machine.content_after(
            &mut self.read,
            states,
            marks,
            &Token {
                kind: token.kind,
                start_mark: &token.at.start_mark,
                end_mark: &token.at.end_mark,
            },
        ) {
            Action::FullMarks => Did::FullMarks,
            led => {
                let read = Properties {
                    head: &head,
                    start_mark: &start,
                    end_mark: &end,
                };
                self.tell(led, &read, token, out)
            }
        }
    }
}
