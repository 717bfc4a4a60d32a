//! The open collections of a document on the way: the composer, with a stack of its own.

ghost use Rattle.std.specs.Prelude.{◌≡◌, ℕ, suc, length, nat_le, nat_lt, true, false, IfOk, OnErr, OnOk};
ghost use Rattle.libyaml_composer.specs.Composing.{composer_step, is_list_full, is_start, most_of};
ghost use Rattle.libyaml_composer.specs.Composing.{told};
ghost use Rattle.libyaml_composer.specs.Numbers.{is_id};
ghost use Rattle.libyaml_loader.specs.composed.Places.{innermost_of};
ghost use Rattle.libyaml_loader.specs.document.Stack.{with_document_begun, first_composer, roomy};
ghost use Rattle.libyaml_loader.specs.document.Stack.{waits_in};

use libyaml_composer::{Deed, composer_t, open_t, place_t};
use libyaml_types::yaml_event_type_t;
use std::alloc::{AllocError, Global};
use std::marker::Model;

/// The composer, and its stack, which grows as it needs.
///
/// libyaml: `loader_ctx`.
#[derive(Drop)]
pub(crate) struct OpenCollections {
    composer: composer_t,
    entries: Vec<open_t>,
}

impl Model for OpenCollections {
    ghost use Rattle.std.specs.Prelude.{◌≤◌, length};
    ghost use Rattle.libyaml_composer.specs.Composing.{Composer, composer_of};

    ghost Value = { Composer };

    ghost view = { λ s. composer_of s.composer s.entries.items };

    ghost invariant = { λ s. s.composer.depth ≤ length s.entries.items };
}

/// No place.
pub(crate) const NO_PLACE: place_t = place_t {
    node: 0,
    child: 0,
    parent: 0,
    key: 0,
};

/// An entry that is written before it is read.
const BLANK: open_t = open_t {
    node: 0,
    key: 0,
    children: 0,
    is_mapping: 0,
};

/// Returns whether an event of this kind opens a collection.
#[inline(always)]
fn is_start(kind: yaml_event_type_t) -> bool
    ensures { result ≡ is_start kind }
{
    matches!(
        kind,
        yaml_event_type_t::YAML_SEQUENCE_START_EVENT | yaml_event_type_t::YAML_MAPPING_START_EVENT
    )
}

impl OpenCollections {
    /// Returns what is kept before a stream's first document, without an allocation.
    pub(crate) fn new(alloc: Global, max_entries: u32) -> Self
        ensures { result ≡ first_composer (most_of max_entries) }
    {
        OpenCollections {
            composer: composer_t::new(max_entries),
            entries: Vec::new(alloc),
        }
    }

    /// Returns whether a key waits in the innermost open collection, if one is open.
    pub(crate) fn waits(&self) -> Option<bool>
        ensures { result ≡ waits_in self.now.stack }
    {
        match self.innermost() {
            Some(open) => Some(open.key != 0),
            None => None,
        }
    }

    /// Returns the innermost open collection, if one is open.
    #[tactic(auto, using(libyaml_composer::proofs::exported::Stacks::tops))]
    pub(crate) fn innermost(&self) -> Option<open_t>
        ensures { result ≡ innermost_of self.now.stack }
    {
        if self.composer.depth == 0 {
            return None;
        }
        Some(self.entries[self.composer.depth - 1])
    }

    /// Returns how many collections are open.
    #[tactic(auto, using(libyaml_composer::proofs::exported::Stacks::depth_is))]
    pub(crate) fn depth(&self) -> usize
        ensures { result ≡ length self.now.stack }
    {
        self.composer.depth
    }

    /// Returns how many entries each list of a document may have.
    fn most(&self) -> u32
        ensures { result ≡ self.now.most }
    {
        if self.composer.max_entries < 2147483647 {
            self.composer.max_entries
        } else {
            2147483647
        }
    }

    /// Returns whether the list of nodes has room for one more.
    pub(crate) fn has_room(&self) -> bool
        ensures { result ≡ nat_lt self.now.nodes self.now.most }
    {
        self.composer.nodes < self.most()
    }

    /// Returns whether the list of the innermost open collection has no room for what a child needs.
    pub(crate) fn is_list_full(&self) -> bool
        ensures { result ≡ is_list_full self.now.most self.now.stack }
    {
        match self.innermost() {
            Some(open) => {
                open.children >= self.most() && (open.is_mapping == 0 || open.key == 0)
            }
            None => false,
        }
    }

    /// Begins a document.
    pub(crate) fn enter_document(&mut self)
        requires { self.old.is_within ≡ false }
        ensures { self.new ≡ with_document_begun self.old }
    {
        let mut place = NO_PLACE;
        let _ = self.composer.compose(
            self.entries.as_mut_slice(),
            yaml_event_type_t::YAML_DOCUMENT_START_EVENT,
            0,
            &mut place,
        );
    }

    /// Takes an event within a document, by its kind and fact. Returns what is to be done, never `FullStack`.
    ///
    /// # Errors
    ///
    /// An allocation failed, at the start of a collection whose anchor, if it has one, is new.
    #[inline(always)]
    #[tactic(auto, using(libyaml_composer::proofs::exported::Reasons::full_starts))]
    pub(crate) fn take(
        &mut self,
        kind: yaml_event_type_t,
        fact: i32,
        place: &mut place_t,
    ) -> Result<Deed, AllocError>
        requires { self.old.is_within ≡ true }
        ensures ok { IfOk result (λ d. (room : ℕ) × (told d place.new self.new
            ≡ composer_step kind fact place.old (roomy room self.old))) }
        ensures roomy { IfOk result (λ d. d ≡ Deed.FullStack → ⊥) }
        ensures err { OnErr result ((is_start kind ≡ true) × (is_id fact ≡ false)) }
    {
        self.make_room(kind, fact)?;
        Ok(self.step(kind, fact, place))
    }

    /// Takes any event, also one between documents, by its kind and fact. Returns what is to be done, never
    /// `FullStack`.
    ///
    /// # Errors
    ///
    /// An allocation failed, at the start of a collection whose anchor, if it has one, is new.
    #[tactic(auto, using(libyaml_composer::proofs::exported::Reasons::full_starts))]
    pub(crate) fn take_any(
        &mut self,
        kind: yaml_event_type_t,
        fact: i32,
        place: &mut place_t,
    ) -> Result<Deed, AllocError>
        ensures ok { IfOk result (λ d. (room : ℕ) × (told d place.new self.new
            ≡ composer_step kind fact place.old (roomy room self.old))) }
        ensures roomy { IfOk result (λ d. d ≡ Deed.FullStack → ⊥) }
        ensures err { OnErr result ((is_start kind ≡ true) × (is_id fact ≡ false)) }
    {
        self.make_room(kind, fact)?;
        Ok(self.step_any(kind, fact, place))
    }

    /// Takes any event, if the stack has room for what it opens.
    fn step_any(&mut self, kind: yaml_event_type_t, fact: i32, place: &mut place_t) -> Deed
        ensures tells { told result place.new self.new ≡ composer_step kind fact place.old self.old }
    {
        let stack = self.entries.as_mut_slice();
        self.composer.compose(stack, kind, fact, place)
    }

    /// Returns whether the stack has no room for one more.
    #[inline(always)]
    #[tactic(auto, using(libyaml_composer::proofs::exported::Stacks::depth_is))]
    fn is_full(&self) -> bool
        ensures { result ≡ nat_le self.now.room (length self.now.stack) }
    {
        self.composer.depth == self.entries.len()
    }

    /// Makes room for the collection that an event of this kind and fact opens, if it opens one. A repeated
    /// anchor is refused, so it needs none.
    ///
    /// # Errors
    ///
    /// An allocation failed, at the start of a collection whose anchor, if it has one, is new.
    #[inline(always)]
    fn make_room(&mut self, kind: yaml_event_type_t, fact: i32) -> Result<(), AllocError>
        ensures roomy { OnOk result (self.new ≡ roomy self.new.room self.old) }
        ensures left { OnOk result (is_start kind ≡ true → is_id fact ≡ false
            → nat_le self.new.room (length self.new.stack) ≡ false) }
        ensures err { OnErr result ((is_start kind ≡ true) × (is_id fact ≡ false)) }
    {
        if is_start(kind) && fact == 0 && self.is_full() {
            return self.grow();
        }
        Ok(())
    }

    /// Takes an event within a document, if the stack has room for what it opens.
    #[inline(always)]
    pub(crate) fn step(&mut self, kind: yaml_event_type_t, fact: i32, place: &mut place_t) -> Deed
        requires { self.old.is_within ≡ true }
        ensures tells { told result place.new self.new ≡ composer_step kind fact place.old self.old }
    {
        let stack = self.entries.as_mut_slice();
        match kind {
            yaml_event_type_t::YAML_ALIAS_EVENT => self.composer.alias(stack, fact, place),
            yaml_event_type_t::YAML_SCALAR_EVENT => self.composer.scalar(stack, fact, place),
            yaml_event_type_t::YAML_SEQUENCE_START_EVENT => {
                self.composer.start(stack, 0, fact, place)
            }
            yaml_event_type_t::YAML_MAPPING_START_EVENT => {
                self.composer.start(stack, 1, fact, place)
            }
            yaml_event_type_t::YAML_SEQUENCE_END_EVENT => self.composer.end(stack, place),
            _ => self.composer.compose(stack, kind, fact, place),
        }
    }

    /// Makes room for some collections more.
    ///
    /// # Errors
    ///
    /// An allocation failed.
    #[cold]
    fn grow(&mut self) -> Result<(), AllocError>
        ensures roomy { OnOk result (self.new ≡ roomy self.new.room self.old) }
        ensures within { OnOk result (nat_le self.new.room (length self.new.stack) ≡ false) }
    {
        self.lengthen()?;
        self.lengthen()?;
        self.lengthen()?;
        self.lengthen()
    }

    /// Makes room for one collection more.
    ///
    /// # Errors
    ///
    /// An allocation failed.
    #[inline(always)]
    #[tactic(auto, using(libyaml_composer::proofs::exported::Stacks::lengthened))]
    fn lengthen(&mut self) -> Result<(), AllocError>
        ensures roomy { OnOk result (self.new ≡ roomy (suc self.old.room) self.old) }
        ensures within { OnOk result (nat_le (suc self.old.room) (length self.old.stack) ≡ false) }
    {
        self.entries.push(BLANK)?;
        Ok(())
    }
}
