//! Where a call begins, and what one that failed leaves.
ghost use Rattle.std.specs.Prelude.{◌≡◌};
ghost use Rattle.libyaml_events.specs.machine.Outcomes.{wanted};
ghost use Rattle.libyaml_events.specs.machine.Want.{AtState};
ghost use Rattle.libyaml_events.specs.automaton.View.{Ready};
ghost use Rattle.libyaml_events.specs.parsers.Left.{without_stacks};

use crate::parser::TokenParser;
use crate::pending::Pending;
use libyaml_types::yaml_error_type_t;

impl TokenParser {
    /// Has the function of the parser's state take the next token.
    #[inline(always)]
    pub(crate) fn begin_call(&self, pending: &mut Pending)
        ensures wanted { wanted pending.new ≡ AtState }
        ensures ready { Ready pending.new self.now }
    {
        pending.reading.at_state_of(&self.automaton.automaton);
    }

    /// Drops the stacks, since after an error nothing asks for them. Returns the kind of the error.
    #[cold]
    #[inline(never)]
    pub(crate) fn fail(&mut self) -> yaml_error_type_t
        ensures error { result ≡ self.old.fault.error }
        ensures left { self.new ≡ without_stacks self.old }
    {
        self.automaton.clear();
        self.kept_prefix().error
    }
}
