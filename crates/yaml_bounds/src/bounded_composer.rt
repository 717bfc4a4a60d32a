//! What composes events within bounds, and makes no documents.
ghost use Rattle.std.specs.Prelude.{◌≡◌, ◌≢◌, ◌⊎◌, ◌++◌, ◌<ℤ◌, List, [], ℕ, pos, IfErr, IfOk};
ghost use Rattle.std.specs.Prelude.{IfSome, None, OnErr, OnOk};
ghost use Rattle.libyaml_types.specs.Fault.{fault_of};
ghost use Rattle.libyaml_composer.specs.Composing.{most_of};
ghost use Rattle.libyaml_loader.specs.composed.EventComposer.{new_event_composer};
ghost use Rattle.libyaml_composer.specs.DocumentSoFar.{IsRefused};
ghost use Rattle.yaml_bounds.specs.Bounds.{AnswersTo, RefusesNode, TakesNode, worded_fault, count_fault};
ghost use Rattle.yaml_bounds.specs.Bounds.{refused_fault, size_before};

use document_sizes::{Counted, sizes_t};
use libyaml_composer::{Deed, place_t};
use libyaml_loader::event_composer_t;
use libyaml_types::{
    MEMORY_FAULT, NO_FAULT, yaml_error_type_t, yaml_event_t, yaml_event_type_t, yaml_mark_t,
    yaml_parser_t_prefix,
};
use std::alloc::{AllocError, Global};

/// What `yaml_parser_bounded_events` keeps between two events: what composes them, and the size of each node of
/// the document that is open, if its expanded size is bounded.
#[derive(Drop)]
pub struct bounded_composer_t {
    composer: event_composer_t,
    /// The total and the bound, if there is one.
    size: Option<sizes_t>,
    sizes: Vec<u64>,
}

/// No place.
const NO_PLACE: place_t = place_t {
    node: 0,
    child: 0,
    parent: 0,
    key: 0,
};

/// Returns the composer error with this problem, at this mark.
#[cold]
fn worded_fault(problem: &'static str, mark: yaml_mark_t) -> yaml_parser_t_prefix
    ensures fault { fault_of result ≡ worded_fault problem.now mark }
    ensures kind { result.error ≡ yaml_error_type_t.YAML_COMPOSER_ERROR }
{
    yaml_parser_t_prefix {
        error: yaml_error_type_t::YAML_COMPOSER_ERROR,
        problem: Some(problem),
        problem_mark: mark,
        ..NO_FAULT
    }
}

/// Returns the error of a count at an event that starts here, and `None` if it is within the bound.
fn count_fault(counted: Counted, mark: yaml_mark_t) -> Option<yaml_parser_t_prefix>
    ensures out { IfSome result (λ f. (counted ≡ Counted.Within → ⊥)
        × (fault_of f ≡ count_fault counted mark)) }
    ensures within { result ≡ None → counted ≡ Counted.Within }
    ensures of_loader { IfSome result (λ f. (f.error ≡ yaml_error_type_t.YAML_MEMORY_ERROR)
        ⊎ (f.error ≡ yaml_error_type_t.YAML_COMPOSER_ERROR)) }
{
    match counted {
        Counted::Within => None,
        Counted::TooLarge => {
            let problem = "found too many nodes, with aliases written out";
            Some(worded_fault(problem, mark))
        }
        Counted::Endless => {
            let problem = "found an alias within the node that it names";
            Some(worded_fault(problem, mark))
        }
        Counted::Bad | Counted::Full => Some(MEMORY_FAULT),
    }
}

impl bounded_composer_t {
    /// Returns what is kept before a stream's first event, without an allocation. Each list of a document may
    /// have `max_entries` entries, and the document `max_expanded` nodes with its aliases written out.
    pub(crate) fn new(alloc: Global, max_entries: u32, max_expanded: Option<u64>) -> Self
        ensures composer { result.composer ≡ new_event_composer (most_of max_entries) }
        ensures size { result.size ≡ size_before max_expanded }
        ensures sizes { result.sizes.items ≡ [] }
    {
        bounded_composer_t {
            composer: event_composer_t::new(alloc, max_entries),
            size: match max_expanded {
                Some(max) => Some(sizes_t::new(max)),
                None => None,
            },
            sizes: Vec::new(alloc),
        }
    }

    /// Composes an event, and counts it. After an error the value is unspecified.
    ///
    /// # Errors
    ///
    /// The error of a load or of a bound, or out of memory: at the start of a collection or a node with an anchor
    /// that none before has, or, if the expanded size is bounded, at a node that is taken.
    pub(crate) fn take(&mut self, event: &yaml_event_t) -> Result<(), yaml_parser_t_prefix>
        ensures takes { OnOk result (TakesNode self.old event.now self.new) }
        ensures refuses { IfErr result (λ f. RefusesNode self.old event.now (fault_of f)) }
        ensures of_loader { IfErr result (λ f. (f.error ≡ yaml_error_type_t.YAML_MEMORY_ERROR)
            ⊎ (f.error ≡ yaml_error_type_t.YAML_COMPOSER_ERROR)) }
    {
        let mut place = NO_PLACE;
        let Ok(deed) = self.composer.compose(event, &mut place) else {
            return Err(MEMORY_FAULT);
        };
        if let Some(fault) = self.refusal(deed, event) {
            return Err(fault);
        }
        let Ok(counted) = self.count(deed, event.type_(), &place) else {
            return Err(MEMORY_FAULT);
        };
        match count_fault(counted, event.start_mark) {
            Some(fault) => Err(fault),
            None => Ok(()),
        }
    }

    /// Returns the error at an event that a deed refuses, and `None` if the deed takes it.
    fn refusal(&self, deed: Deed, event: &yaml_event_t) -> Option<yaml_parser_t_prefix>
        ensures refused { IfSome result (λ f. IsRefused deed
            × (fault_of f ≡ refused_fault deed self.now.composer event.now)) }
        ensures taken { result ≡ None → IsRefused deed → ⊥ }
        ensures of_loader { IfSome result (λ f. (f.error ≡ yaml_error_type_t.YAML_MEMORY_ERROR)
            ⊎ (f.error ≡ yaml_error_type_t.YAML_COMPOSER_ERROR)) }
    {
        if let Deed::FullList = deed {
            return Some(worded_fault("found too many nodes", event.start_mark));
        }
        self.composer.refusal(deed, event)
    }

    /// Counts what a deed does, if the expanded size is bounded.
    ///
    /// # Errors
    ///
    /// An allocation failed, at a node, where there is a bound.
    fn count(
        &mut self,
        deed: Deed,
        kind: yaml_event_type_t,
        place: &place_t,
    ) -> Result<Counted, AllocError>
        ensures answers { IfOk result (λ answer. AnswersTo answer deed kind place.now self.old self.new) }
        ensures composer { self.new.composer ≡ self.old.composer }
        ensures err { OnErr result (pos 0 <ℤ place.now.node) }
        ensures bounded { OnErr result (self.old.size ≢ None) }
    {
        let Some(size) = &mut self.size else {
            return Ok(Counted::Within);
        };
        make_room(&mut self.sizes, place.node)?;
        Ok(size.count(self.sizes.as_mut_slice(), deed, kind, place))
    }
}

/// Makes an entry for the node of this id, which comes after the nodes that have one.
///
/// # Errors
///
/// An allocation failed.
fn make_room(sizes: &mut Vec<u64>, node: i32) -> Result<(), AllocError>
    ensures roomy { OnOk result ((more : List ℕ) × (sizes.new.items ≡ sizes.old.items ++ more)) }
    ensures err { OnErr result (pos 0 <ℤ node) }
{
    if node > 0 && node as usize > sizes.len() {
        sizes.push(0)?;
    }
    Ok(())
}
