//! Why a load stops, and how the parser keeps it.

ghost use Rattle.std.specs.Prelude.{◌≡◌, ◌⊎◌, true, false};
ghost use Rattle.libyaml_events.specs.sources.History.{is_over, has_failed, kept_fault, keeping};
ghost use Rattle.libyaml_types.specs.Fault.{fault_of};
ghost use Rattle.libyaml_loader.specs.document.Refusals.{fault_by};

use libyaml_events::{MEMORY_FAULT, NO_FAULT, yaml_parser_t, yaml_parser_t_prefix};
use libyaml_types::{yaml_error_type_t, yaml_mark_t, yaml_refusal_t};
use std::alloc::AllocError;

/// Why an event can't be composed. It is one byte, since each step of a load returns it.
#[derive(Copy, Clone)]
pub(crate) enum Refusal {
    /// An allocation failed, or a list has as many entries as it may.
    Memory,
    /// No node before this alias carries its anchor.
    UndefinedAlias,
    /// An earlier node, which starts at `loader_ctx::first_mark`, has the anchor of this one.
    RepeatedAnchor,
}

impl From<AllocError> for Refusal {
    ghost use Rattle.libyaml_loader.specs.declared.refusal.Refusal.TheVariants.{Memory};

    ghost from_gives = { λ error result. result ≡ Memory };

    fn from(_: AllocError) -> Self {
        Refusal::Memory
    }
}

impl From<yaml_refusal_t> for Refusal {
    ghost use Rattle.libyaml_loader.specs.declared.refusal.Refusal.TheVariants.{Memory};

    ghost from_gives = { λ refusal result. result ≡ Memory };

    fn from(_: yaml_refusal_t) -> Self {
        Refusal::Memory
    }
}

/// Returns whether the parser keeps an error.
pub(crate) fn has_failed<S>(parser: &yaml_parser_t<S>) -> bool
    ensures { result ≡ has_failed parser.now }
{
    !matches!(parser.prefix().error, yaml_error_type_t::YAML_NO_ERROR)
}

/// Keeps this error of a load for good, and returns its kind.
#[cold]
pub(crate) fn keep_fault<S>(
    parser: &mut yaml_parser_t<S>,
    fault: yaml_parser_t_prefix,
) -> yaml_error_type_t
    requires first { has_failed parser.old ≡ false }
    requires of_loader { (fault.error ≡ yaml_error_type_t.YAML_MEMORY_ERROR)
        ⊎ (fault.error ≡ yaml_error_type_t.YAML_COMPOSER_ERROR) }
    ensures kept { parser.new ≡ keeping (fault_of fault) parser.old }
    ensures error { result ≡ (kept_fault parser.new).error }
    ensures failed { has_failed parser.new ≡ true }
    ensures ended { is_over parser.new ≡ true }
    ensures bound { parser.new.max_entries ≡ parser.old.max_entries }
{
    parser.keep_fault(fault);
    fault.error
}

/// Returns this error as it is kept: out of memory, or a composer error.
///
/// libyaml: `yaml_parser_set_composer_error` and `yaml_parser_set_composer_error_context`.
pub(crate) fn fault_by(
    refusal: Refusal,
    first_mark: yaml_mark_t,
    mark: yaml_mark_t,
) -> yaml_parser_t_prefix
    ensures fault { fault_of result ≡ fault_by refusal first_mark mark }
    ensures of_loader { (result.error ≡ yaml_error_type_t.YAML_MEMORY_ERROR)
        ⊎ (result.error ≡ yaml_error_type_t.YAML_COMPOSER_ERROR) }
{
    match refusal {
        Refusal::Memory => MEMORY_FAULT,
        Refusal::UndefinedAlias => yaml_parser_t_prefix {
            error: yaml_error_type_t::YAML_COMPOSER_ERROR,
            problem: Some("found undefined alias"),
            problem_mark: mark,
            ..NO_FAULT
        },
        Refusal::RepeatedAnchor => yaml_parser_t_prefix {
            error: yaml_error_type_t::YAML_COMPOSER_ERROR,
            problem: Some("second occurrence"),
            problem_mark: mark,
            context: Some("found duplicate anchor; first occurrence"),
            context_mark: first_mark,
            ..NO_FAULT
        },
    }
}
