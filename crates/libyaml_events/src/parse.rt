//! One call of the parser.
ghost use Rattle.std.specs.Prelude.{◌≡◌, ℤ, Ok, Err, None, true, false, IfErr, MatchResult, option_map};
ghost use Rattle.std.specs.Prelude.{string_bytes};
ghost use Rattle.libyaml_types.specs.Events.{empty_event};
ghost use Rattle.libyaml_events.specs.machine.Config.{ended_or_failed, is_fault, parser, with_lookahead};
ghost use Rattle.libyaml_events.specs.parsers.Left.{Left};
ghost use Rattle.libyaml_events.specs.sources.Calls.{Call, event_result};
ghost use Rattle.libyaml_events.specs.sources.Naming.{HoldsHandle, NamesHandle, is_undefined_handle};
ghost use Rattle.libyaml_events.specs.sources.Naming.{without_name};
ghost use Rattle.libyaml_events.specs.automaton.View.{Ready};
ghost use Rattle.libyaml_events.specs.machine.Outcomes.{held_handle, result_of, wanted};
ghost use Rattle.libyaml_events.specs.sources.History.{Remembers, has_failed};
ghost use Rattle.libyaml_events.specs.sources.ParsesNext.{ParsesNext};
ghost use Rattle.libyaml_events.specs.machine.Machine.{step};
ghost use Rattle.libyaml_events.specs.machine.Steps.{Steps};
ghost use Rattle.libyaml_events.specs.machine.Growth.{may_grow};

use crate::event_kinds::no_event;
use crate::lookahead::Lookahead;
use crate::parser::{TokenParser, yaml_parser_t};
use crate::pending::Pending;
use crate::step::Step;
use libyaml_types::{
    unnamed_yaml_token_t_data_tag, yaml_error_type_t, yaml_event_t, yaml_token_source_t,
    yaml_token_t,
};

impl TokenParser {
    /// Puts the next event into `event`: takes tokens until one gives it. If the run is over, it is the empty
    /// event.
    fn parse_event<S: yaml_token_source_t>(
        &mut self,
        source: &mut S,
        lookahead: &mut Lookahead,
        pending: &mut Pending,
        event: &mut yaml_event_t,
    ) -> Result<(), yaml_error_type_t>
        ensures kept { IfErr (event_result result event.new) (λ e. (e ≡ self.new.fault.error)
            × (ended_or_failed self.new ≡ true)) }
        ensures failed { IfErr (event_result result event.new) (λ _. is_fault self.new.fault.error ≡ true) }
        ensures over { ended_or_failed self.old ≡ true → (self.new ≡ self.old) × (source.new ≡ source.old)
            × (lookahead.new ≡ lookahead.old) }
        ensures call { (max : ℤ) → Call S.gives
            (parser max source.old (with_lookahead lookahead.old self.old)) (event_result result event.new)
            (parser max source.new (with_lookahead lookahead.new self.new)) }
        ensures left { IfErr (event_result result event.new)
            (λ e. Left (with_lookahead lookahead.old self.old) e (with_lookahead lookahead.new self.new)) }
        ensures handle { (max : ℤ) → IfErr (event_result result event.new) (λ e. HoldsHandle S.gives
            (parser max source.old (with_lookahead lookahead.old self.old)) e
            (parser max source.new (with_lookahead lookahead.new self.new)) (held_handle pending.new)) }
    {
        if self.is_over() {
            clear(event);
            return Ok(());
        }
        self.begin_call(pending);
        self.next_token(source, lookahead)?;
        loop {
            match self.step::<S>(&mut lookahead.token, pending, event) {
                Step::Given => return Ok(()),
                Step::GivenBefore => {
                    lookahead.stays = true;
                    return Ok(());
                }
                Step::Wants => self.ask_source(source, &mut lookahead.token)?,
                Step::Failed => return Err(self.fail()),
            }
        }
    }
}

/// Puts an error in place of an event.
#[cold]
fn fail(error: yaml_error_type_t, led: &mut Result<yaml_event_t, yaml_error_type_t>)
    ensures { led.new ≡ Err error }
{
    *led = Err(error);
}

/// Puts the empty event into `event`.
#[cold]
fn clear(event: &mut yaml_event_t)
    ensures { event.new ≡ empty_event }
{
    *event = no_event();
}

/// Moves out the handle that is not defined, if that is the error of this parser, which failed.
#[cold]
fn take_undefined(token_parser: &TokenParser, pending: &mut Pending) -> Option<String>
    ensures undefined { is_undefined_handle token_parser.now.fault ≡ true
        → option_map string_bytes result ≡ held_handle pending.old }
    ensures other { is_undefined_handle token_parser.now.fault ≡ false → result ≡ None }
{
    if !token_parser.has_undefined_handle() {
        return None;
    }
    let unnamed_yaml_token_t_data_tag { handle, .. } = pending.properties.tag.take()?;
    Some(handle)
}

/// Returns the next event of the stream. After the stream's end or an error it is the empty event: nothing
/// changes, and the source is asked for nothing.
///
/// # Errors
///
/// The kind of the error, which the parser keeps for good: an allocation that failed, an error of the source,
/// or an error of the grammar.
///
/// libyaml: `yaml_parser_parse`.
#[inline(always)]
pub fn yaml_parser_parse<S: yaml_token_source_t>(
    parser: &mut yaml_parser_t<S>,
) -> Result<yaml_event_t, yaml_error_type_t>
    ensures { ParsesNext S.yaml_token_source_t parser.old result parser.new }
{
    let mut led = Ok(no_event());
    if let Ok(event) = &mut led {
        if let Err(error) = yaml_parser_parse_into(parser, event) {
            fail(error, &mut led);
        }
    }
    led
}

/// Puts the event that `yaml_parser_parse` would return into `event`, and drops the event that was there, so
/// a loop can reuse one variable. After an error its value is unspecified.
///
/// # Errors
///
/// Those of `yaml_parser_parse`.
pub fn yaml_parser_parse_into<S: yaml_token_source_t>(
    parser: &mut yaml_parser_t<S>,
    event: &mut yaml_event_t,
) -> Result<(), yaml_error_type_t>
    ensures { ParsesNext S.yaml_token_source_t parser.old (event_result result event.new) parser.new }
{
    parser.token_parser.parse_event(
        &mut parser.source,
        &mut parser.lookahead,
        &mut parser.pending,
        event,
    )
}

/// An error of a parse, with the tag handle that it is about.
#[derive(Drop)]
pub struct yaml_named_error_t {
    /// The kind of the error, which the parser keeps.
    pub error: yaml_error_type_t,
    /// The handle, if the error is that it is not defined.
    pub handle: Option<String>,
}

/// Puts the event that `yaml_parser_parse` would return into `event`, as `yaml_parser_parse_into` does.
///
/// # Errors
///
/// Those of `yaml_parser_parse`, each with the tag handle that it is about, which is moved and not copied.
pub fn yaml_parser_parse_named<S: yaml_token_source_t>(
    parser: &mut yaml_parser_t<S>,
    event: &mut yaml_event_t,
) -> Result<(), yaml_named_error_t>
    ensures parses { ParsesNext S.yaml_token_source_t parser.old
        (event_result (without_name result) event.new) parser.new }
    ensures names { IfErr result (λ n. NamesHandle S.gives parser.old n.error parser.new
        (option_map string_bytes n.handle)) }
{
    match parser.token_parser.parse_event(
        &mut parser.source,
        &mut parser.lookahead,
        &mut parser.pending,
        event,
    ) {
        Ok(()) => Ok(()),
        Err(error) => Err(yaml_named_error_t {
            error,
            handle: take_undefined(&parser.token_parser, &mut parser.pending),
        }),
    }
}
