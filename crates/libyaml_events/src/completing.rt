//! The types of token that complete what was taken.
ghost use Rattle.std.specs.Prelude.{◌≡◌, ◌≤◌, ◌++◌, IfOk, OnOk, length};
ghost use Rattle.std.specs.Option.{option_to_list};
ghost use Rattle.libyaml_automaton.specs.Completing.{closings, completing};
ghost use Rattle.libyaml_automaton.specs.Config.{states_of};
ghost use Rattle.libyaml_automaton.specs.Purposes.{purpose_of};
ghost use Rattle.libyaml_events.specs.machine.Config.{config_of};
ghost use Rattle.libyaml_events.specs.machine.Outcomes.{wanted};

use crate::automaton::AutomatonWithStacks;
use crate::parser::TokenParser;
use crate::pending::Pending;
use libyaml_automaton::{Reading, closing_token, top_state};
use libyaml_types::yaml_token_type_t;
use std::alloc::{AllocError, Global};

impl AutomatonWithStacks {
    /// Returns the types of token that complete the tokens taken so far, in order.
    pub(crate) fn completion(
        &self,
        alloc: Global,
        read: &Reading,
    ) -> Result<Vec<yaml_token_type_t>, AllocError>
        ensures { IfOk result (λ types. types.items ≡ completing (purpose_of read.now) self.now) }
    {
        let mut types = Vec::new(alloc);
        append(&mut types, self.automaton.due_first(read))?;
        append(&mut types, self.automaton.closing_here(read))?;
        append_closings(
            &mut types,
            self.states.as_slice(),
            self.automaton.states_count,
        )?;
        Ok(types)
    }
}

impl TokenParser {
    /// Returns the types of token that complete the tokens taken so far, in order.
    pub(crate) fn completion(
        &self,
        alloc: Global,
        pending: &Pending,
    ) -> Result<Vec<yaml_token_type_t>, AllocError>
        ensures { IfOk result (λ types. types.items
            ≡ completing (wanted pending.now).next (config_of self.now)) }
    {
        self.automaton.completion(alloc, &pending.reading)
    }
}

/// Appends a type, if there is one.
fn append(
    types: &mut Vec<yaml_token_type_t>,
    kind: Option<yaml_token_type_t>,
) -> Result<(), AllocError>
    ensures { OnOk result (types.new.items ≡ types.old.items ++ option_to_list kind) }
{
    if let Some(kind) = kind {
        types.push(kind)?;
    }
    Ok(())
}

/// Appends what ends all in which so many states stand, the last one first.
fn append_closings(
    types: &mut Vec<yaml_token_type_t>,
    states: &[u8],
    count: usize,
) -> Result<(), AllocError>
    requires { count ≤ length states.now }
    ensures { OnOk result (types.new.items ≡ types.old.items ++ closings (states_of count states.now)) }
{
    let mut left = count;
    while left > 0 {
        append(types, closing_token(top_state(states, left)))?;
        left -= 1;
    }
    Ok(())
}
