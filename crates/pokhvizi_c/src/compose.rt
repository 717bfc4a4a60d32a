//! The calls of `libyaml_composer`, `document_steps` and `document_sizes` for C, which
//! `bindings/c/include/pokhvizi/compose.h` declares.
ghost use Rattle.std.specs.Prelude.{◌≡◌, ◌≤◌, ◌<◌, ◌+◌, ◌^◌, ◌<ℤ◌, ◌↔◌, ℕ, pos, List, [], length};
ghost use Rattle.std.specs.Prelude.{Some, true, false};
ghost use Rattle.libyaml_composer.specs.declared.deed.Deed.{Deed};
ghost use Rattle.libyaml_composer.specs.declared.records.open_t.{open_t};
ghost use Rattle.libyaml_composer.specs.Composing.{composer_of, is_start, most_of, composer_step, told};
ghost use Rattle.libyaml_composer.specs.Numbers.{is_undone_number, event_kind, deed_number};
ghost use Rattle.libyaml_composer.specs.Represents.{PutsNode};
ghost use Rattle.document_steps.specs.Anchors.{node_in};
ghost use Rattle.document_sizes.specs.Counting.{IsBad, bound_of, count_of, counting, more_of, size_at};
ghost use Rattle.document_sizes.specs.Numbers.{counted_number, deed_of};
ghost use Rattle.document_sizes.specs.declared.counted.Counted.{Counted};

use document_sizes::{deed_of, sizes_t};
use document_steps::{anchor_t, carrier};
use libyaml_composer::{composer_t, event_kind, open_t, place_t};

/// Puts what is kept before a stream's first event. Each list of a document may have `max_entries`
/// entries, and never more than 2,147,483,647.
#[unsafe(no_mangle)]
pub extern "C" fn pokhvizi_composer_new(composer: &mut composer_t, max_entries: u32)
    ensures depth { composer.new.depth ≡ 0 }
    ensures composer { (entries : List open_t) → composer_of composer.new entries ≡ record {
      is_within = false;
      nodes = 0;
      most = most_of max_entries;
      room = length entries;
      stack = [];
    } }
{
    *composer = composer_t::new(max_entries);
}

/// Takes an event by its kind and fact, like `composer_t::compose`. Returns 0 if the event is no part of a
/// document; 1 and 2 if a document begins and ends; 3 to 6 if a node or an alias was put: a root, an item, a
/// key or a value; 7 if a collection ends; 8 if the stack has no room, and nothing was done; 9 and 10 if an
/// alias is undefined, and if an anchor comes twice; 11 if a list is full; and 12 if the record counts more
/// than the stack has room for, and nothing was done.
#[unsafe(no_mangle)]
pub extern "C" fn pokhvizi_compose(
    composer: &mut composer_t,
    stack: &mut [open_t],
    kind: u8,
    fact: i32,
    place: &mut place_t,
) -> u32
    ensures tells { composer.old.depth ≤ length stack.old → (deed : Deed) × (result ≡ deed_number deed)
        × (told deed place.new (composer_of composer.new stack.new)
        ≡ composer_step (event_kind kind) fact place.old (composer_of composer.old stack.old)) }
    ensures numbers { result ≤ 12 }
    ensures within { composer.old.depth ≤ length stack.old → composer.new.depth ≤ length stack.new }
    ensures bad { (result ≡ 12) ↔ (composer.old.depth ≤ length stack.old → ⊥) }
    ensures undone { is_undone_number result ≡ true → (composer.new ≡ composer.old)
        × ((stack.new ≡ stack.old) × (place.new ≡ place.old)) }
    ensures bound { composer.new.max_entries ≡ composer.old.max_entries }
{
    composer
        .compose(stack, event_kind(kind), fact, place)
        .number()
}

/// Returns the fact of an event that names or has an anchor, like `document_steps::carrier`: the id of the
/// node that the table has for it, and else 0.
#[unsafe(no_mangle)]
pub extern "C" fn pokhvizi_carrier(anchors: &[anchor_t], texts: &[u8], anchor: &[u8]) -> i32
    ensures { result ≡ node_in texts.now anchors.now anchor.now }
{
    carrier(anchors, texts, anchor)
}

/// Puts what is kept before a stream's first event. A document may have `max` nodes with its aliases written
/// out, and never more than 9,223,372,036,854,775,807.
#[unsafe(no_mangle)]
pub extern "C" fn pokhvizi_size_new(size: &mut sizes_t, max: u64)
    ensures total { size.new.total ≡ 0 }
    ensures bound { size.new.max ≡ max }
{
    *size = sizes_t::new(max);
}

/// Counts a deed at an event of this kind, like `sizes_t::count`. Returns 0 if it was counted; 13 if the
/// document is too large with it; 14 if an alias stands within the node that it names; 15 if a number is one
/// that no composer gives; and 16 if `sizes` has no entry for the node. Except for 0, nothing was done.
#[unsafe(no_mangle)]
pub extern "C" fn pokhvizi_count(
    size: &mut sizes_t,
    sizes: &mut [u64],
    deed: u32,
    kind: u8,
    place: &place_t,
) -> u32
    ensures counts { (answer : Counted) × (result ≡ counted_number answer)
        × (count_of answer size.new.total sizes.new ≡ counting (bound_of size.old.max) (deed_of deed)
        (is_start (event_kind kind)) place.now size.old.total sizes.old) }
    ensures numbers { result ≤ 16 }
    ensures undone { (result ≡ 0 → ⊥) → (size.new ≡ size.old) × (sizes.new ≡ sizes.old) }
    ensures too_large { (result ≡ 13) ↔ (PutsNode (deed_of deed) × ((more : ℕ)
        × (more_of place.now.node (size_at sizes.old place.now.child) ≡ Some more)
        × (bound_of size.old.max < size.old.total + more))) }
    ensures endless { (result ≡ 14) ↔ (PutsNode (deed_of deed) × (place.now.node ≡ pos 0)
        × ((number : ℕ) × (size_at sizes.old place.now.child ≡ Some number) × (2 ^ 63 ≤ number))) }
    ensures bad { (result ≡ 15) ↔ IsBad (deed_of deed) place.now size.old.total sizes.old }
    ensures full { (result ≡ 16) ↔ (PutsNode (deed_of deed) × (pos (length sizes.old) <ℤ place.now.node)
        × (size.old.total < bound_of size.old.max)) }
    ensures bound { size.new.max ≡ size.old.max }
{
    size.count(sizes, deed_of(deed), event_kind(kind), place)
        .number()
}
