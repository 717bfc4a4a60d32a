//! The calls of `token_steps` for C, which `bindings/c/include/pokhvizi/steps.h` declares.
ghost use Rattle.std.specs.Prelude.{◌≡◌, ◌≤◌, ◌↔◌, ℕ, List, length, true, false};
ghost use Rattle.libyaml_types.specs.declared.mark.yaml_mark_t.{yaml_mark_t};
ghost use Rattle.libyaml_types.specs.declared.enums.yaml_token_type_t.{yaml_token_type_t};
ghost use Rattle.libyaml_automaton.specs.Acceptable.{acceptable, has};
ghost use Rattle.libyaml_automaton.specs.Automaton.{AtState};
ghost use Rattle.libyaml_automaton.specs.Config.{stacks_of, first_stacks, Within};
ghost use Rattle.libyaml_automaton.specs.Differing.{difference_number};
ghost use Rattle.libyaml_automaton.specs.Growth.{HasNoRoom};
ghost use Rattle.libyaml_automaton.specs.Purposes.{purpose_of};
ghost use Rattle.token_steps.specs.Differing.{differs_in};
ghost use Rattle.token_steps.specs.Exact.{exact_step_by_fact, exactly_grows_marks};
ghost use Rattle.token_steps.specs.Exact.{exactly_grows_states};
ghost use Rattle.token_steps.specs.Facts as facts;
ghost use Rattle.token_steps.specs.Growth.{grows_states, grows_marks};
ghost use Rattle.token_steps.specs.Records.{AreFlags, AreUnused, kind_of, span_token};
ghost use Rattle.token_steps.specs.Numbers.{is_given, is_nothing_done, IsEventNumber, IsFaultNumber};
ghost use Rattle.token_steps.specs.Tells.{TellsNumber, want_in};

use libyaml_types::yaml_mark_t;
use token_steps::{step_event_t, step_fault_t, step_span_t, steps_t, token_kind};

/// Puts what is kept before a stream's first token.
#[unsafe(no_mangle)]
pub extern "C" fn pokhvizi_steps_new(steps: &mut steps_t)
    ensures config { (states : List ℕ) (marks : List yaml_mark_t)
        → stacks_of steps.new.machine states marks ≡ first_stacks }
    ensures wanted { purpose_of steps.new.read ≡ AtState }
    ensures within { (states : List ℕ) (marks : List yaml_mark_t) → Within steps.new.machine states marks }
{
    *steps = steps_t::new();
}

/// Returns whether libyaml does something else with a token of this kind, if it is handed in next, like
/// `steps_t::differs`: 0 if it does the same; 1 after the KEY of a flow sequence's pair, where it loses the
/// token; and if it has an error, 2 where a block mapping's KEY is due, and 3 after a document's explicit
/// end.
#[unsafe(no_mangle)]
pub extern "C" fn pokhvizi_differs(steps: &steps_t, kind: u8) -> u8
    ensures { result ≡ difference_number (differs_in steps.now (kind_of kind)) }
{
    steps.differs(token_kind(kind)).number()
}

/// Returns which types of token may be handed in next, like `steps_t::expected`: a bit for each, that of its
/// number.
#[unsafe(no_mangle)]
pub extern "C" fn pokhvizi_expected(steps: &steps_t, states: &[u8]) -> u32
    ensures { steps.now.machine.states_count ≤ length states.now → (marks : List yaml_mark_t)
        (k : yaml_token_type_t) → has (record { bits = result }) k
        ≡ acceptable (purpose_of steps.now.read) (stacks_of steps.now.machine states.now marks) k }
{
    steps.expected(states).bits
}

/// Takes a token by its kind, fact and marks, like `steps_t::step`. Returns 0 if the next token is wanted; 1
/// if an event was put, and 2 if one was put and the same token is to be handed in again; 3 and 4 if the
/// stack of states, or that of marks, has no room, and nothing was done; 5 if an error was put; and 6 if the
/// record counts more than the stacks have room for, and nothing was done.
#[unsafe(no_mangle)]
pub extern "C" fn pokhvizi_step(
    steps: &mut steps_t,
    states: &mut [u8],
    marks: &mut [yaml_mark_t],
    kind: u8,
    fact: u8,
    at: &step_span_t,
    event: &mut step_event_t,
    fault: &mut step_fault_t,
) -> u32
    ensures tells { TellsNumber result (facts.step_by_fact (want_in steps.old)
        (stacks_of steps.old.machine states.old marks.old) (span_token (kind_of kind) fact at.now))
        steps.new event.new fault.new (stacks_of steps.new.machine states.new marks.new) }
    ensures numbers { result ≤ 6 }
    ensures within { Within steps.old.machine states.old marks.old
        → Within steps.new.machine states.new marks.new }
    ensures bad { (result ≡ 6) ↔ (Within steps.old.machine states.old marks.old → ⊥) }
    ensures full_states { Within steps.old.machine states.old marks.old → (result ≡ 3)
        ↔ (HasNoRoom (grows_states steps.old (kind_of kind)) states.old steps.old.machine.states_count
        × (HasNoRoom (grows_marks steps.old (kind_of kind)) marks.old steps.old.machine.marks_count → ⊥)) }
    ensures full_marks { Within steps.old.machine states.old marks.old → (result ≡ 4)
        ↔ HasNoRoom (grows_marks steps.old (kind_of kind)) marks.old steps.old.machine.marks_count }
    ensures undone { is_nothing_done result ≡ true → (steps.new.machine ≡ steps.old.machine)
        × ((states.new ≡ states.old) × ((marks.new ≡ marks.old) × (want_in steps.new ≡ want_in steps.old))) }
    ensures holds_nothing { is_given result ≡ true → purpose_of steps.new.read ≡ AtState }
    ensures event_number { is_given result ≡ true → IsEventNumber event.new.kind }
    ensures event_flags { is_given result ≡ true → AreFlags event.new }
    ensures event_unused { is_given result ≡ true → AreUnused event.new }
    ensures event_kept { is_given result ≡ false → event.new ≡ event.old }
    ensures fault_number { result ≡ 5 → IsFaultNumber fault.new.problem }
    ensures fault_kept { (result ≡ 5 → ⊥) → fault.new ≡ fault.old }
{
    steps
        .step(states, marks, token_kind(kind), fact, at, event, fault)
        .number()
}

/// Takes a token like `steps_t::step_exact`, which does what libyaml does. Returns what `pokhvizi_step` does.
#[unsafe(no_mangle)]
pub extern "C" fn pokhvizi_step_exact(
    steps: &mut steps_t,
    states: &mut [u8],
    marks: &mut [yaml_mark_t],
    kind: u8,
    fact: u8,
    at: &step_span_t,
    event: &mut step_event_t,
    fault: &mut step_fault_t,
) -> u32
    ensures tells { TellsNumber result (exact_step_by_fact (want_in steps.old)
        (stacks_of steps.old.machine states.old marks.old) (span_token (kind_of kind) fact at.now))
        steps.new event.new fault.new (stacks_of steps.new.machine states.new marks.new) }
    ensures numbers { result ≤ 6 }
    ensures within { Within steps.old.machine states.old marks.old
        → Within steps.new.machine states.new marks.new }
    ensures bad { (result ≡ 6) ↔ (Within steps.old.machine states.old marks.old → ⊥) }
    ensures full_states { Within steps.old.machine states.old marks.old → (result ≡ 3)
        ↔ (HasNoRoom (exactly_grows_states steps.old (kind_of kind)) states.old steps.old.machine.states_count
        × (HasNoRoom (exactly_grows_marks steps.old (kind_of kind)) marks.old
        steps.old.machine.marks_count → ⊥)) }
    ensures full_marks { Within steps.old.machine states.old marks.old → (result ≡ 4)
        ↔ HasNoRoom (exactly_grows_marks steps.old (kind_of kind)) marks.old steps.old.machine.marks_count }
    ensures undone { is_nothing_done result ≡ true → (steps.new.machine ≡ steps.old.machine)
        × ((states.new ≡ states.old) × ((marks.new ≡ marks.old) × (want_in steps.new ≡ want_in steps.old))) }
    ensures holds_nothing { is_given result ≡ true → purpose_of steps.new.read ≡ AtState }
    ensures event_number { is_given result ≡ true → IsEventNumber event.new.kind }
    ensures event_flags { is_given result ≡ true → AreFlags event.new }
    ensures event_unused { is_given result ≡ true → AreUnused event.new }
    ensures event_kept { is_given result ≡ false → event.new ≡ event.old }
    ensures fault_number { result ≡ 5 → IsFaultNumber fault.new.problem }
    ensures fault_kept { (result ≡ 5 → ⊥) → fault.new ≡ fault.old }
{
    steps
        .step_exact(states, marks, token_kind(kind), fact, at, event, fault)
        .number()
}
