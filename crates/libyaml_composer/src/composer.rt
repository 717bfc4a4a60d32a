//! The call.
ghost use Rattle.std.specs.Prelude.{◌≡◌, ◌≤◌, ◌<◌, ◌-◌, ◌∷◌, ◌↔◌, length, true, false, List, [], IfSome};
ghost use Rattle.std.specs.Prelude.{None, nat_le};
ghost use Rattle.libyaml_composer.specs.declared.records.open_t.{open_t};
ghost use Rattle.libyaml_composer.specs.declared.records.place_t.{place_t};
ghost use Rattle.libyaml_composer.specs.Composing.{Told, at_start, between_step, composer_of, deed_for};
ghost use Rattle.libyaml_composer.specs.Composing.{collection_ended, holding_top, if_free, if_placed};
ghost use Rattle.libyaml_composer.specs.Composing.{does_nothing, is_list_full};
ghost use Rattle.libyaml_composer.specs.Composing.{adding, at_anchored_node, most_of, place_in, stack_of};
ghost use Rattle.libyaml_composer.specs.Composing.{composer_step, told};
ghost use Rattle.libyaml_composer.specs.Numbers.{is_id, event_kind};

use crate::collection::is_id;
use crate::deed::Deed;
use crate::records::{open_t, place_t};
use libyaml_types::yaml_event_type_t;

/// What is kept between two calls, beside the stack: plain numbers, each with any value.
///
/// libyaml keeps the stack alone, `loader_ctx`.
#[repr(C)]
#[derive(Copy, Clone)]
pub struct composer_t {
    /// How many collections are open.
    pub depth: usize,
    /// How many nodes the document has.
    pub nodes: u32,
    /// How many entries each list of a document may have.
    pub max_entries: u32,
    /// Not 0 within a document.
    pub is_within: u8,
}

/// Returns the kind of event with libyaml's number, and `YAML_NO_EVENT` for any other number.
#[inline(always)]
pub fn event_kind(number: u8) -> yaml_event_type_t
    ensures { result ≡ event_kind number }
{
    match number {
        1 => yaml_event_type_t::YAML_STREAM_START_EVENT,
        2 => yaml_event_type_t::YAML_STREAM_END_EVENT,
        3 => yaml_event_type_t::YAML_DOCUMENT_START_EVENT,
        4 => yaml_event_type_t::YAML_DOCUMENT_END_EVENT,
        5 => yaml_event_type_t::YAML_ALIAS_EVENT,
        6 => yaml_event_type_t::YAML_SCALAR_EVENT,
        7 => yaml_event_type_t::YAML_SEQUENCE_START_EVENT,
        8 => yaml_event_type_t::YAML_SEQUENCE_END_EVENT,
        9 => yaml_event_type_t::YAML_MAPPING_START_EVENT,
        10 => yaml_event_type_t::YAML_MAPPING_END_EVENT,
        _ => yaml_event_type_t::YAML_NO_EVENT,
    }
}

/// Puts where a child goes.
#[inline(always)]
fn put(place: &mut place_t, node: i32, child: i32, parent: i32, key: i32)
    ensures { place.new ≡ record { node = node; child = child; parent = parent; key = key } }
{
    *place = place_t {
        node,
        child,
        parent,
        key,
    };
}

impl composer_t {
    /// Returns what is kept before a stream's first event. Each list of a document may have `max_entries`
    /// entries, and never more than 2,147,483,647.
    #[tactic(auto, using(crate::proofs::Tops::none_open))]
    pub fn new(max_entries: u32) -> Self
        ensures depth { result.depth ≡ 0 }
        ensures composer { (entries : List open_t) → composer_of result entries ≡ record {
          is_within = false;
          nodes = 0;
          most = most_of max_entries;
          room = length entries;
          stack = [];
        } }
    {
        composer_t {
            depth: 0,
            nodes: 0,
            max_entries,
            is_within: 0,
        }
    }

    /// Takes an event by its kind and fact, and returns what to do.
    ///
    /// The open collections that the record counts lie at the start of `stack`. The fact of an ALIAS is the
    /// id of the node that has its anchor, and that of a node with an anchor the id of the earlier node that
    /// has it; each is 0 if there is none. For any other event it is ignored.
    ///
    /// libyaml: `yaml_parser_load_nodes`, for one event.
    #[inline(always)]
    pub fn compose(
        &mut self,
        stack: &mut [open_t],
        kind: yaml_event_type_t,
        fact: i32,
        place: &mut place_t,
    ) -> Deed
        ensures tells { self.old.depth ≤ length stack.old
            → told result place.new (composer_of self.new stack.new)
            ≡ composer_step kind fact place.old (composer_of self.old stack.old) }
        ensures within { self.old.depth ≤ length stack.old → self.new.depth ≤ length stack.new }
        ensures bad { (result ≡ Deed.Bad) ↔ (self.old.depth ≤ length stack.old → ⊥) }
        ensures undone { does_nothing result ≡ true → (self.new ≡ self.old) × ((stack.new ≡ stack.old)
            × (place.new ≡ place.old)) }
        ensures bound { self.new.max_entries ≡ self.old.max_entries }
    {
        if self.depth > stack.len() {
            return Deed::Bad;
        }
        if self.is_within == 0 {
            return self.between(kind);
        }
        match kind {
            yaml_event_type_t::YAML_DOCUMENT_END_EVENT => {
                self.is_within = 0;
                Deed::Ends
            }
            yaml_event_type_t::YAML_ALIAS_EVENT => self.alias(stack, fact, place),
            yaml_event_type_t::YAML_SCALAR_EVENT => self.scalar(stack, fact, place),
            yaml_event_type_t::YAML_SEQUENCE_START_EVENT => self.start(stack, 0, fact, place),
            yaml_event_type_t::YAML_MAPPING_START_EVENT => self.start(stack, 1, fact, place),
            yaml_event_type_t::YAML_SEQUENCE_END_EVENT
            | yaml_event_type_t::YAML_MAPPING_END_EVENT => { self.end(stack, place) }
            _ => Deed::Passes,
        }
    }

    /// Takes an event between documents.
    #[inline(always)]
    #[tactic(auto, using(crate::proofs::Tops::none_open))]
    fn between(&mut self, kind: yaml_event_type_t) -> Deed
        ensures tells { (p : place_t) (entries : List open_t) → told result p (composer_of self.new entries)
            ≡ between_step kind p (composer_of self.old entries) }
        ensures within { (entries : List open_t) → self.old.depth ≤ length entries
            → self.new.depth ≤ length entries }
        ensures good { result ≡ Deed.Bad → ⊥ }
        ensures undone { does_nothing result ≡ true → self.new ≡ self.old }
        ensures bound { self.new.max_entries ≡ self.old.max_entries }
    {
        match kind {
            yaml_event_type_t::YAML_DOCUMENT_START_EVENT => {
                self.is_within = 1;
                self.nodes = 0;
                self.depth = 0;
                Deed::Begins
            }
            _ => Deed::Passes,
        }
    }

    /// Returns how many entries each list may have.
    #[inline(always)]
    fn most(&self) -> u32
        ensures { result ≡ most_of self.now.max_entries }
    {
        if self.max_entries < 2147483647 {
            self.max_entries
        } else {
            2147483647
        }
    }

    /// Returns the innermost open collection.
    #[inline(always)]
    #[tactic(auto, using(crate::proofs::Tops::top_below))]
    fn top(&self, stack: &[open_t]) -> open_t
        requires some { 0 < self.now.depth }
        requires within { self.now.depth ≤ length stack.now }
        ensures { stack_of self.now.depth stack.now ≡ result ∷ stack_of (self.now.depth - 1) stack.now }
    {
        stack[self.depth - 1]
    }

    /// Returns whether the list of the innermost open collection has no room for what a child needs.
    #[inline(always)]
    #[tactic(auto, using(crate::proofs::Tops::none_open))]
    fn is_list_full(&self, stack: &[open_t]) -> bool
        requires { self.now.depth ≤ length stack.now }
        ensures { result ≡ is_list_full (most_of self.now.max_entries) (stack_of self.now.depth stack.now) }
    {
        if self.depth == 0 {
            return false;
        }
        self.top(stack).is_full(self.most())
    }

    /// Hands a child to the innermost open collection, unless that has no room for it, and puts where it
    /// goes.
    #[inline(always)]
    #[tactic(auto, using(crate::proofs::Tops::none_open, crate::proofs::Tops::top_below))]
    fn place_child(&self, stack: &mut [open_t], node: i32, child: i32, place: &mut place_t) -> Deed
        requires within { self.now.depth ≤ length stack.old }
        ensures full { (result ≡ Deed.FullList)
            ↔ (is_list_full (most_of self.now.max_entries) (stack_of self.now.depth stack.old) ≡ true) }
        ensures undone { result ≡ Deed.FullList → (stack.new ≡ stack.old) × (place.new ≡ place.old) }
        ensures handed { (result ≡ Deed.FullList → ⊥) → (result ≡ deed_for (stack_of self.now.depth
            stack.old)) × ((place.new ≡ place_in node child (stack_of self.now.depth stack.old))
            × (stack_of self.now.depth stack.new ≡ holding_top child (stack_of self.now.depth stack.old))) }
    {
        if self.depth == 0 {
            put(place, node, child, 0, 0);
            return Deed::Root;
        }
        let top = &mut stack[self.depth - 1];
        let parent = top.node;
        let key = top.key;
        let deed = top.hold(child, self.most());
        if let Deed::FullList = deed {
            return deed;
        }
        put(place, node, child, parent, key);
        deed
    }

    /// Returns whether the stack has no room for one more.
    #[inline(always)]
    #[tactic(auto, using(crate::proofs::Tops::depth_is))]
    fn is_stack_full(&self, stack: &[open_t]) -> bool
        requires { self.now.depth ≤ length stack.now }
        ensures full { result ≡ nat_le (length stack.now) (length (stack_of self.now.depth stack.now)) }
        ensures room { result ≡ false → self.now.depth < length stack.now }
    {
        self.depth == stack.len()
    }

    /// Opens a collection, for which there is room.
    #[inline(always)]
    #[tactic(auto, using(crate::proofs::Tops::top_more))]
    fn push(&mut self, stack: &mut [open_t], collection: open_t)
        requires { self.old.depth < length stack.old }
        ensures pushed { stack_of self.new.depth stack.new ≡ collection ∷ stack_of self.old.depth stack.old }
        ensures kept { self.new ≡ record self.old { depth = self.new.depth } }
        ensures within { self.new.depth ≤ length stack.new }
    {
        stack[self.depth] = collection;
        self.depth += 1;
    }

    /// Takes an alias within a document, by the id of the node that has its anchor.
    #[inline(always)]
    pub fn alias(&mut self, stack: &mut [open_t], anchored_node: i32, place: &mut place_t) -> Deed
        requires { self.old.depth ≤ length stack.old }
        ensures tells { told result place.new (composer_of self.new stack.new)
            ≡ at_anchored_node (is_id anchored_node) anchored_node place.old (composer_of self.old stack.old) }
        ensures kept { self.new ≡ self.old }
        ensures undone { does_nothing result ≡ true → (stack.new ≡ stack.old) × (place.new ≡ place.old) }
        ensures good { result ≡ Deed.Bad → ⊥ }
    {
        if !is_id(anchored_node) {
            return Deed::UndefinedAlias;
        }
        self.place_child(stack, 0, anchored_node, place)
    }

    /// Returns why a node has no id or no anchor of its own, or `None` if it has them.
    #[inline(always)]
    fn refusal(&self, stack: &[open_t], anchored_node: i32) -> Option<Deed>
        requires { self.now.depth ≤ length stack.now }
        ensures some { IfSome result (λ d. (does_nothing d ≡ true) × ((d ≡ Deed.Bad → ⊥)
            × ((p : place_t) (t : Told) → if_free anchored_node p (composer_of self.now stack.now) t
            ≡ told d p (composer_of self.now stack.now)))) }
        ensures none { result ≡ None → (p : place_t) (t : Told)
            → if_free anchored_node p (composer_of self.now stack.now) t ≡ t }
        ensures nodes { result ≡ None → self.now.nodes < 2147483647 }
    {
        if self.nodes >= self.most() {
            return Some(Deed::FullList);
        }
        if is_id(anchored_node) {
            return Some(Deed::RepeatedAnchor);
        }
        None
    }

    /// Takes a scalar within a document.
    #[inline(always)]
    pub fn scalar(&mut self, stack: &mut [open_t], anchored_node: i32, place: &mut place_t) -> Deed
        requires { self.old.depth ≤ length stack.old }
        ensures tells { told result place.new (composer_of self.new stack.new)
            ≡ if_placed anchored_node place.old (composer_of self.old stack.old)
            (adding (composer_of self.old stack.old)) }
        ensures within { self.new.depth ≤ length stack.new }
        ensures undone { does_nothing result ≡ true → (self.new ≡ self.old) × ((stack.new ≡ stack.old)
            × (place.new ≡ place.old)) }
        ensures good { result ≡ Deed.Bad → ⊥ }
        ensures bound { self.new.max_entries ≡ self.old.max_entries }
    {
        if let Some(refusal) = self.refusal(stack, anchored_node) {
            return refusal;
        }
        let id = self.nodes as i32 + 1;
        let deed = self.place_child(stack, id, id, place);
        if let Deed::FullList = deed {
            return deed;
        }
        self.nodes += 1;
        deed
    }

    /// Takes the start of a collection within a document.
    #[inline(always)]
    pub fn start(
        &mut self,
        stack: &mut [open_t],
        is_mapping: u32,
        anchored_node: i32,
        place: &mut place_t,
    ) -> Deed
        requires { self.old.depth ≤ length stack.old }
        ensures tells { told result place.new (composer_of self.new stack.new)
            ≡ at_start is_mapping anchored_node place.old (composer_of self.old stack.old) }
        ensures within { self.new.depth ≤ length stack.new }
        ensures undone { does_nothing result ≡ true → (self.new ≡ self.old) × ((stack.new ≡ stack.old)
            × (place.new ≡ place.old)) }
        ensures good { result ≡ Deed.Bad → ⊥ }
        ensures bound { self.new.max_entries ≡ self.old.max_entries }
    {
        if let Some(refusal) = self.refusal(stack, anchored_node) {
            return refusal;
        }
        if self.is_stack_full(stack) {
            return if self.is_list_full(stack) {
                Deed::FullList
            } else {
                Deed::FullStack
            };
        }
        let id = self.nodes as i32 + 1;
        let deed = self.place_child(stack, id, id, place);
        if let Deed::FullList = deed {
            return deed;
        }
        self.nodes += 1;
        self.push(
            stack,
            open_t {
                node: id,
                key: 0,
                children: 0,
                is_mapping,
            },
        );
        deed
    }

    /// Ends the innermost open collection of a document, if one is open.
    #[inline(always)]
    #[tactic(auto, using(crate::proofs::Tops::none_open))]
    pub fn end(&mut self, stack: &[open_t], place: &mut place_t) -> Deed
        requires { self.old.depth ≤ length stack.now }
        ensures tells { told result place.new (composer_of self.new stack.now)
            ≡ collection_ended (stack_of self.old.depth stack.now) place.old (composer_of self.old
            stack.now) }
        ensures within { self.new.depth ≤ length stack.now }
        ensures undone { does_nothing result ≡ true → (self.new ≡ self.old) × (place.new ≡ place.old) }
        ensures good { result ≡ Deed.Bad → ⊥ }
        ensures bound { self.new.max_entries ≡ self.old.max_entries }
    {
        if self.depth == 0 {
            return Deed::Passes;
        }
        let top = self.top(stack);
        self.depth -= 1;
        put(place, 0, 0, top.node, 0);
        Deed::Closes
    }
}
