//! A collection that is open.
ghost use Rattle.std.specs.Prelude.{◌≡◌, ◌↔◌, true};
ghost use Rattle.libyaml_composer.specs.Composing.{deed_in, full_in, open_with_child};
ghost use Rattle.libyaml_composer.specs.Numbers.{is_set, is_id};

use crate::deed::Deed;
use crate::records::open_t;

/// Returns whether the number is that of an id, and not 0.
#[inline(always)]
pub(crate) fn is_id(number: i32) -> bool
    ensures { result ≡ is_id number }
{
    number != 0
}

impl open_t {
    /// Returns whether its list, which may have `most` entries, has no room for what a child needs.
    #[inline(always)]
    pub(crate) fn is_full(&self, most: u32) -> bool
        ensures { result ≡ full_in most self.now.children (is_set self.now.is_mapping) (is_id self.now.key) }
    {
        let is_waiting = self.is_mapping != 0 && is_id(self.key);
        !is_waiting && self.children >= most
    }

    /// Takes a child, unless its list has no room for what the child needs. Returns what that is to it.
    #[inline(always)]
    pub(crate) fn hold(&mut self, child: i32, most: u32) -> Deed
        ensures full { (result ≡ Deed.FullList)
            ↔ (full_in most self.old.children (is_set self.old.is_mapping) (is_id self.old.key) ≡ true) }
        ensures undone { result ≡ Deed.FullList → self.new ≡ self.old }
        ensures held { (result ≡ Deed.FullList → ⊥) → (self.new ≡ open_with_child child self.old)
            × (result ≡ deed_in (is_set self.old.is_mapping) (is_id self.old.key)) }
    {
        if self.is_mapping == 0 {
            if self.children >= most {
                return Deed::FullList;
            }
            self.children += 1;
            return Deed::Item;
        }
        if is_id(self.key) {
            self.key = 0;
            return Deed::Value;
        }
        if self.children >= most {
            return Deed::FullList;
        }
        self.children += 1;
        self.key = child;
        Deed::Key
    }
}
