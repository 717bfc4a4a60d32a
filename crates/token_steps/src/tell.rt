//! Tells the caller what a step led to.
ghost use Rattle.std.specs.Prelude.{◌≡◌, ◌≤◌, ℕ, List, Bool, true, false};
ghost use Rattle.libyaml_types.specs.declared.mark.yaml_mark_t.{yaml_mark_t};
ghost use Rattle.libyaml_automaton.specs.Outcomes.{IsOutcome, IsStep, outcome};
ghost use Rattle.libyaml_automaton.specs.Automaton.{AtState, Step};
ghost use Rattle.libyaml_automaton.specs.Config.{stacks_of};
ghost use Rattle.libyaml_automaton.specs.Numbers.{flag};
ghost use Rattle.libyaml_automaton.specs.Purposes.{kind_and_marks, purpose_of};
ghost use Rattle.token_steps.specs.Facts as facts;
ghost use Rattle.token_steps.specs.Facts.{NoTag};
ghost use Rattle.token_steps.specs.Handed.{handed_token};
ghost use Rattle.token_steps.specs.Records.{AreFlags, AreUnused, head_of, head_tag};
ghost use Rattle.token_steps.specs.Numbers.{IsEventNumber};
ghost use Rattle.token_steps.specs.Tells.{FitsTold, Tells, IsTold, IsDone, IsGiven};

use crate::did::Did;
use crate::handed::Handed;
use crate::head::{Head, NO_HEAD, Properties};
use crate::out::Out;
use crate::records::{step_event_t, step_fault_t};
use crate::steps::steps_t;
use libyaml_automaton::Action;
use libyaml_types::{ZERO_MARK, yaml_mark_t};

/// Returns 1 if this is set, and else 0.
#[inline(always)]
fn byte(set: bool) -> u8
    ensures flag { flag result ≡ set }
    ensures bit { result ≤ 1 }
    ensures unset { set ≡ false → result ≡ 0 }
{
    if set { 1 } else { 0 }
}

/// Puts an event that isn't a node's.
#[inline(never)]
pub(crate) fn put_event(
    event: &mut step_event_t,
    kind: u8,
    is_implicit: bool,
    start: &yaml_mark_t,
    end: &yaml_mark_t,
)
    ensures kind { event.new.kind ≡ kind }
    ensures implicit { flag event.new.implicit ≡ is_implicit }
    ensures explicit { is_implicit ≡ false → event.new.implicit ≡ 0 }
    ensures anchor { event.new.has_anchor ≡ 0 }
    ensures tag { event.new.has_tag ≡ 0 }
    ensures quoted { event.new.quoted_implicit ≡ 0 }
    ensures flow { event.new.is_flow ≡ 0 }
    ensures flags { AreFlags event.new }
    ensures start { event.new.start_mark ≡ start.now }
    ensures end { event.new.end_mark ≡ end.now }
{
    event.kind = kind;
    event.has_anchor = 0;
    event.has_tag = 0;
    event.implicit = byte(is_implicit);
    event.quoted_implicit = 0;
    event.is_flow = 0;
    event.start_mark = *start;
    event.end_mark = *end;
}

/// What the event of a node says beside its properties and marks.
#[derive(Copy, Clone)]
struct Node {
    kind: u8,
    is_implicit: bool,
    is_quoted_implicit: bool,
    is_flow: bool,
}

/// Returns what the event of a scalar says.
#[inline(always)]
fn scalar(is_implicit: bool, is_quoted_implicit: bool) -> Node
    ensures { result ≡ record {
      kind = SCALAR;
      is_implicit = is_implicit;
      is_quoted_implicit = is_quoted_implicit;
      is_flow = false;
    } }
{
    Node {
        kind: SCALAR,
        is_implicit,
        is_quoted_implicit,
        is_flow: false,
    }
}

/// Returns what the event of a collection's start says.
#[inline(always)]
fn collection(kind: u8, is_implicit: bool, is_flow: bool) -> Node
    ensures { result ≡ record {
      kind = kind;
      is_implicit = is_implicit;
      is_quoted_implicit = false;
      is_flow = is_flow;
    } }
{
    Node {
        kind,
        is_implicit,
        is_quoted_implicit: false,
        is_flow,
    }
}

/// Puts the event of a node with these properties.
#[inline(always)]
fn put_node(
    event: &mut step_event_t,
    node: Node,
    head: &Head,
    start: &yaml_mark_t,
    end: &yaml_mark_t,
)
    ensures kind { event.new.kind ≡ node.kind }
    ensures anchor { flag event.new.has_anchor ≡ flag head.now.has_anchor }
    ensures tag { flag event.new.has_tag ≡ flag head.now.has_tag }
    ensures implicit { flag event.new.implicit ≡ node.is_implicit }
    ensures quoted { flag event.new.quoted_implicit ≡ node.is_quoted_implicit }
    ensures flow { flag event.new.is_flow ≡ node.is_flow }
    ensures unquoted { node.is_quoted_implicit ≡ false → event.new.quoted_implicit ≡ 0 }
    ensures block { node.is_flow ≡ false → event.new.is_flow ≡ 0 }
    ensures flags { AreFlags event.new }
    ensures start { event.new.start_mark ≡ start.now }
    ensures end { event.new.end_mark ≡ end.now }
{
    event.kind = node.kind;
    event.has_anchor = byte(head.has_anchor != 0);
    event.has_tag = byte(head.has_tag != 0);
    event.implicit = byte(node.is_implicit);
    event.quoted_implicit = byte(node.is_quoted_implicit);
    event.is_flow = byte(node.is_flow);
    event.start_mark = *start;
    event.end_mark = *end;
}

const STREAM_START: u8 = 1;

const STREAM_END: u8 = 2;

const DOCUMENT_START: u8 = 3;

const DOCUMENT_END: u8 = 4;

const ALIAS: u8 = 5;

pub(crate) const SCALAR: u8 = 6;

const SEQUENCE_START: u8 = 7;

const SEQUENCE_END: u8 = 8;

const MAPPING_START: u8 = 9;

const MAPPING_END: u8 = 10;

impl steps_t {
    /// The parser's state says what the next token is wanted for. Returns what the call did.
    #[inline(always)]
    pub(crate) fn rest(&mut self, did: Did) -> Did
        ensures did { result ≡ did }
        ensures wanted { purpose_of self.new.read ≡ AtState }
        ensures kept { self.new ≡ record self.old { read = record self.old.read { next = 0 } } }
    {
        self.read.next = 0;
        did
    }

    /// Puts an error.
    #[cold]
    #[inline(never)]
    pub(crate) fn fail(
        &self,
        context: &yaml_mark_t,
        mark: &yaml_mark_t,
        problem: u8,
        fault: &mut step_fault_t,
    ) -> Did
        ensures did { result ≡ Did.Failed }
        ensures fault { fault.new ≡ record {
          problem = problem;
          context_mark = context.now;
          problem_mark = mark.now;
        } }
    {
        *fault = step_fault_t {
            problem,
            context_mark: *context,
            problem_mark: *mark,
        };
        Did::Failed
    }

    /// Puts the event or the error of a step that asks nothing further, of a node without properties or of
    /// none. Returns what the call did.
    #[inline(always)]
    pub(crate) fn tell_bare(
        &mut self,
        led: Action,
        token: &Handed,
        event: &mut step_event_t,
        fault: &mut step_fault_t,
    ) -> Did
        requires fits { FitsTold led token.now.kind self.old.read NoTag }
        ensures tells { (p : Step) (states : List ℕ) (marks : List yaml_mark_t) → IsStep p (kind_and_marks
            token.now.kind token.now.at.now.start_mark token.now.at.now.end_mark) led self.old.machine
            self.old.read states marks → Tells result (facts.put_by_fact NoTag self.old.tag (handed_token
            token.now) p) self.new event.new fault.new (stacks_of self.new.machine states marks) }
        ensures machine { self.new.machine ≡ self.old.machine }
        ensures done { IsTold led → IsDone result }
        ensures event_number { IsGiven result → IsEventNumber event.new.kind }
        ensures event_flags { IsGiven result → AreFlags event.new }
        ensures event_unused { IsGiven result → AreUnused event.new }
        ensures event_kept { (IsGiven result → ⊥) → event.new ≡ event.old }
        ensures fault_kept { (result ≡ Did.Failed → ⊥) → fault.new ≡ fault.old }
    {
        let none = Properties {
            head: &NO_HEAD,
            start_mark: &token.at.start_mark,
            end_mark: &token.at.end_mark,
        };
        self.tell(led, &none, token, &mut Out { event, fault })
    }

    /// Puts the event or the error of a step that asks nothing further, of a node with these
    /// properties. Returns what the call did.
    #[inline(always)]
    pub(crate) fn tell(
        &mut self,
        led: Action,
        properties: &Properties,
        token: &Handed,
        out: &mut Out,
    ) -> Did
        requires fits { FitsTold led token.now.kind self.old.read (head_tag properties.now.head.now) }
        ensures tells { (p : Step) (g : yaml_mark_t) (states : List ℕ) (marks : List yaml_mark_t)
            → IsOutcome p (outcome led (head_of properties.now.head.now properties.now.start_mark.now
            properties.now.end_mark.now g) (kind_and_marks token.now.kind token.now.at.now.start_mark
            token.now.at.now.end_mark) self.old.read (stacks_of self.old.machine states marks))
            → Tells result (facts.put_by_fact (head_tag properties.now.head.now)
            self.old.tag (handed_token token.now) p) self.new out.new.event.now out.new.fault.now (stacks_of
            self.new.machine states marks) }
        ensures machine { self.new.machine ≡ self.old.machine }
        ensures done { IsTold led → IsDone result }
        ensures event_number { IsGiven result → IsEventNumber out.new.event.now.kind }
        ensures event_flags { IsGiven result → AreFlags out.new.event.now }
        ensures event_unused { IsGiven result → AreUnused out.new.event.now }
        ensures event_kept { (IsGiven result → ⊥) → out.new.event.now ≡ out.old.event.now }
        ensures fault_kept { (result ≡ Did.Failed → ⊥) → out.new.fault.now ≡ out.old.fault.now }
        ensures same_event { out.new.event.ghost_name ≡ out.old.event.ghost_name }
        ensures same_fault { out.new.fault.ghost_name ≡ out.old.fault.ghost_name }
    {
        let at = token.at;
        let head = properties.head;
        let event = &mut *out.event;
        match led {
            Action::Wants => Did::Wants,
            Action::WantsAnchor => Did::Wants,
            Action::WantsTag => {
                self.tag = token.fact;
                Did::Wants
            }
            Action::StreamStart => {
                put_event(event, STREAM_START, false, &at.start_mark, &at.start_mark);
                self.rest(Did::Gave)
            }
            Action::StreamEnd => {
                put_event(event, STREAM_END, false, &at.start_mark, &at.end_mark);
                self.rest(Did::Gave)
            }
            Action::ImplicitDocument => {
                put_event(event, DOCUMENT_START, true, &at.start_mark, &at.start_mark);
                self.rest(Did::Stays)
            }
            Action::ExplicitDocument => {
                put_event(
                    event,
                    DOCUMENT_START,
                    false,
                    &self.read.start_mark,
                    &at.end_mark,
                );
                self.rest(Did::Gave)
            }
            Action::DocumentEnd => {
                put_event(event, DOCUMENT_END, false, &at.start_mark, &at.end_mark);
                self.rest(Did::Gave)
            }
            Action::ImplicitDocumentEnd => {
                put_event(event, DOCUMENT_END, true, &at.start_mark, &at.start_mark);
                self.rest(Did::Stays)
            }
            Action::Alias => {
                put_event(event, ALIAS, false, &at.start_mark, &at.end_mark);
                self.rest(Did::Gave)
            }
            Action::Scalar => {
                let is_plain = token.fact != 0;
                let is_implicit = head.plain_flag(is_plain);
                let is_quoted_implicit = head.quoted_flag(is_plain);
                put_node(
                    event,
                    scalar(is_implicit, is_quoted_implicit),
                    head,
                    properties.start_mark,
                    &at.end_mark,
                );
                self.rest(Did::Gave)
            }
            Action::Empty => {
                put_event(event, SCALAR, true, &at.start_mark, &at.start_mark);
                self.rest(Did::Stays)
            }
            Action::EmptyAfter => {
                put_event(event, SCALAR, true, &self.read.mark, &self.read.mark);
                self.rest(Did::Stays)
            }
            Action::EmptyAtEnd => {
                put_event(event, SCALAR, true, &at.end_mark, &at.end_mark);
                self.rest(Did::Gave)
            }
            Action::EmptyHead => {
                put_node(
                    event,
                    scalar(head.is_missing(), false),
                    head,
                    properties.start_mark,
                    properties.end_mark,
                );
                self.rest(Did::Stays)
            }
            Action::BlockSequence => {
                put_node(
                    event,
                    collection(SEQUENCE_START, head.is_missing(), false),
                    head,
                    properties.start_mark,
                    &at.end_mark,
                );
                self.rest(Did::Gave)
            }
            Action::BlockMapping => {
                put_node(
                    event,
                    collection(MAPPING_START, head.is_missing(), false),
                    head,
                    properties.start_mark,
                    &at.end_mark,
                );
                self.rest(Did::Gave)
            }
            Action::FlowSequence => {
                put_node(
                    event,
                    collection(SEQUENCE_START, head.is_missing(), true),
                    head,
                    properties.start_mark,
                    &at.end_mark,
                );
                self.rest(Did::Gave)
            }
            Action::FlowMapping => {
                put_node(
                    event,
                    collection(MAPPING_START, head.is_missing(), true),
                    head,
                    properties.start_mark,
                    &at.end_mark,
                );
                self.rest(Did::Gave)
            }
            Action::IndentlessSequence => {
                put_node(
                    event,
                    collection(SEQUENCE_START, head.is_missing(), false),
                    head,
                    properties.start_mark,
                    &at.end_mark,
                );
                self.rest(Did::Stays)
            }
            Action::Pair => {
                put_node(
                    event,
                    collection(MAPPING_START, true, true),
                    &NO_HEAD,
                    &at.start_mark,
                    &at.end_mark,
                );
                self.rest(Did::Gave)
            }
            Action::SequenceEnd => {
                put_event(event, SEQUENCE_END, false, &at.start_mark, &at.end_mark);
                self.rest(Did::Gave)
            }
            Action::IndentlessEnd => {
                put_event(event, SEQUENCE_END, false, &at.start_mark, &at.start_mark);
                self.rest(Did::Stays)
            }
            Action::MappingEnd => {
                put_event(event, MAPPING_END, false, &at.start_mark, &at.end_mark);
                self.rest(Did::Gave)
            }
            Action::PairEnd => {
                put_event(event, MAPPING_END, false, &at.start_mark, &at.start_mark);
                self.rest(Did::Stays)
            }
            Action::Failed => self.fail(
                &at.start_mark,
                &at.start_mark,
                self.read.problem,
                out.fault,
            ),
            Action::FailedDocument => self.fail(
                &ZERO_MARK,
                &at.start_mark,
                self.read.problem,
                out.fault,
            ),
            Action::FailedWithin => self.fail(
                &self.read.mark,
                &at.start_mark,
                self.read.problem,
                out.fault,
            ),
            _ => Did::Bad,
        }
    }
}
