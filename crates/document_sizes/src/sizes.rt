//! The count.
ghost use Rattle.std.specs.Prelude.{◌≡◌, ◌≤◌, ◌<◌, ◌+◌, ◌^◌, ◌≤ℤ◌, ◌<ℤ◌, ◌↔◌};
ghost use Rattle.std.specs.Prelude.{ℕ, pos, List, IfSome, Some, length};
ghost use Rattle.libyaml_composer.specs.Composing.{is_start};
ghost use Rattle.libyaml_composer.specs.Numbers.{is_id};
ghost use Rattle.libyaml_composer.specs.Represents.{PutsNode};
ghost use Rattle.document_sizes.specs.Counting.{at_alias, at_child, at_end, at_node, bound_of, count_of};
ghost use Rattle.document_sizes.specs.Counting.{IsBad, counting, is_open, more_of, new_number};
ghost use Rattle.document_sizes.specs.Counting.{place_among, size_at, with_more};

use crate::counted::Counted;
use libyaml_composer::{Deed, place_t};
use libyaml_types::yaml_event_type_t;

/// What is kept between two calls, beside a number for each node: plain numbers, each with any value.
#[repr(C)]
#[derive(Copy, Clone)]
pub struct sizes_t {
    /// How many nodes the document so far has with its aliases written out.
    pub total: u64,
    /// How many it may have; more than 9,223,372,036,854,775,807 stands for that.
    pub max: u64,
}

/// Returns whether an event of this kind starts a collection.
#[inline(always)]
fn is_start(kind: yaml_event_type_t) -> bool
    ensures { result ≡ is_start kind }
{
    match kind {
        yaml_event_type_t::YAML_SEQUENCE_START_EVENT
        | yaml_event_type_t::YAML_MAPPING_START_EVENT => true,
        _ => false,
    }
}

/// Returns the place of an id in a list of so many, from 0, or `None` if the list has no such place.
#[inline(always)]
fn place_of(room: usize, id: i32) -> Option<usize>
    ensures place { result ≡ place_among room id }
    ensures within { IfSome result (λ place. place < room) }
{
    if id <= 0 {
        return None;
    }
    let place = id as usize - 1;
    if place < room { Some(place) } else { None }
}

/// Returns whether this is the number of an open collection.
#[inline(always)]
fn is_open(size: u64) -> bool
    ensures { result ≡ is_open size }
{
    size >= 9223372036854775808
}

impl sizes_t {
    /// Returns what is kept before a stream's first event. A document may have `max` nodes with its aliases
    /// written out, and never more than 9,223,372,036,854,775,807.
    pub fn new(max: u64) -> Self
        ensures total { result.total ≡ 0 }
        ensures bound { result.max ≡ max }
    {
        sizes_t { total: 0, max }
    }

    /// Counts what a deed does, at an event of this kind and with the place that the composer put.
    #[inline(always)]
    pub fn count(
        &mut self,
        sizes: &mut [u64],
        deed: Deed,
        kind: yaml_event_type_t,
        place: &place_t,
    ) -> Counted
        ensures counts { count_of result self.new.total sizes.new
            ≡ counting (bound_of self.old.max) deed (is_start kind) place.now self.old.total sizes.old }
        ensures bound { self.new.max ≡ self.old.max }
        ensures undone { (result ≡ Counted.Within → ⊥) → (self.new ≡ self.old) × (sizes.new ≡ sizes.old) }
        ensures endless { (result ≡ Counted.Endless) ↔ (PutsNode deed × (place.now.node ≡ pos 0)
            × ((size : ℕ) × (size_at sizes.old place.now.child ≡ Some size) × (2 ^ 63 ≤ size))) }
        ensures too_large { (result ≡ Counted.TooLarge) ↔ (PutsNode deed × ((more : ℕ)
            × (more_of place.now.node (size_at sizes.old place.now.child) ≡ Some more)
            × (bound_of self.old.max < self.old.total + more))) }
        ensures full { (result ≡ Counted.Full) ↔ (PutsNode deed × (pos (length sizes.old) <ℤ place.now.node)
            × (self.old.total < bound_of self.old.max)) }
        ensures bad { (result ≡ Counted.Bad) ↔ IsBad deed place.now self.old.total sizes.old }
    {
        match deed {
            Deed::Begins => {
                self.total = 0;
                Counted::Within
            }
            Deed::Root | Deed::Item | Deed::Key | Deed::Value => self.child(sizes, kind, place),
            Deed::Closes => self.end(sizes, place.parent),
            Deed::Bad => Counted::Bad,
            _ => Counted::Within,
        }
    }

    /// Returns how large the total may be.
    #[inline(always)]
    fn bound(&self) -> u64
        ensures { result ≡ bound_of self.now.max }
    {
        if self.max < 9223372036854775807 {
            self.max
        } else {
            9223372036854775807
        }
    }

    /// Counts a node or an alias.
    #[inline(always)]
    fn child(&mut self, sizes: &mut [u64], kind: yaml_event_type_t, place: &place_t) -> Counted
        ensures counts { count_of result self.new.total sizes.new
            ≡ at_child (bound_of self.old.max) (is_id place.now.node) (is_start kind) place.now self.old.total
            sizes.old }
        ensures bound { self.new.max ≡ self.old.max }
        ensures undone { (result ≡ Counted.Within → ⊥) → (self.new ≡ self.old) × (sizes.new ≡ sizes.old) }
    {
        if place.node == 0 {
            return self.alias(sizes, place.child);
        }
        self.node(sizes, is_start(kind), place.node)
    }

    /// Counts so many nodes more.
    #[inline(always)]
    fn add(&mut self, more: u64) -> Counted
        requires { more < 2 ^ 63 }
        ensures counts { (sizes : List ℕ) → count_of result self.new.total sizes
            ≡ with_more (bound_of self.old.max) more self.old.total sizes }
        ensures bound { self.new.max ≡ self.old.max }
        ensures undone { (result ≡ Counted.Within → ⊥) → self.new ≡ self.old }
    {
        let bound = self.bound();
        if self.total > bound || more > bound - self.total {
            return Counted::TooLarge;
        }
        self.total += more;
        Counted::Within
    }

    /// Counts an alias of the node of this id.
    #[inline(always)]
    fn alias(&mut self, sizes: &[u64], id: i32) -> Counted
        ensures counts { count_of result self.new.total sizes.now
            ≡ at_alias (bound_of self.old.max) (size_at sizes.now id) self.old.total sizes.now }
        ensures bound { self.new.max ≡ self.old.max }
        ensures undone { (result ≡ Counted.Within → ⊥) → self.new ≡ self.old }
    {
        let Some(place) = place_of(sizes.len(), id) else {
            return Counted::Bad;
        };
        let size = sizes[place];
        if is_open(size) {
            return Counted::Endless;
        }
        self.add(size)
    }

    /// Counts a node of this id.
    #[inline(always)]
    fn node(&mut self, sizes: &mut [u64], is_start: bool, id: i32) -> Counted
        ensures counts { count_of result self.new.total sizes.new
            ≡ at_node (bound_of self.old.max) is_start id self.old.total sizes.old }
        ensures bound { self.new.max ≡ self.old.max }
        ensures undone { (result ≡ Counted.Within → ⊥) → (self.new ≡ self.old) × (sizes.new ≡ sizes.old) }
    {
        if id <= 0 {
            return Counted::Bad;
        }
        if self.total >= self.bound() {
            return Counted::TooLarge;
        }
        let Some(place) = place_of(sizes.len(), id) else {
            return Counted::Full;
        };
        sizes[place] = if is_start {
            9223372036854775808 + self.total
        } else {
            1
        };
        self.total += 1;
        Counted::Within
    }

    /// Counts the end of the collection of this id.
    #[inline(always)]
    fn end(&self, sizes: &mut [u64], id: i32) -> Counted
        ensures counts { count_of result self.now.total sizes.new
            ≡ at_end (place_among (length sizes.old) id) self.now.total sizes.old }
        ensures undone { (result ≡ Counted.Within → ⊥) → sizes.new ≡ sizes.old }
    {
        let Some(place) = place_of(sizes.len(), id) else {
            return Counted::Bad;
        };
        let size = sizes[place];
        if !is_open(size) {
            return Counted::Bad;
        }
        let before = size - 9223372036854775808;
        if before > self.total {
            return Counted::Bad;
        }
        sizes[place] = self.total - before;
        Counted::Within
    }
}
