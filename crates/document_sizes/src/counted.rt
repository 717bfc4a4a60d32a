//! What a call returns, and numbers of deeds.
ghost use Rattle.std.specs.Prelude.{◌≡◌};
ghost use Rattle.document_sizes.specs.Numbers.{counted_number, deed_of};

use libyaml_composer::Deed;

/// Whether the deed was counted, or why nothing was done.
#[derive(Copy, Clone)]
pub enum Counted {
    /// It was counted: the total is at most the bound.
    Within,
    /// Nothing was done: with the deed the total is more than the bound.
    TooLarge,
    /// Nothing was done: the alias stands within the node that it names, so the tree has no end.
    Endless,
    /// Nothing was done: a number is one that no composer gives.
    Bad,
    /// Nothing was done: there is no entry for the node.
    Full,
}

impl Counted {
    /// Returns the number that C sees. Those of deeds go up to 12.
    #[inline(always)]
    pub fn number(self) -> u32
        ensures { result ≡ counted_number self }
    {
        match self {
            Counted::Within => 0,
            Counted::TooLarge => 13,
            Counted::Endless => 14,
            Counted::Bad => 15,
            Counted::Full => 16,
        }
    }
}

/// Returns the deed with the number that C sees, and `Bad` for any other number.
#[inline(always)]
pub fn deed_of(number: u32) -> Deed
    ensures { result ≡ deed_of number }
{
    match number {
        0 => Deed::Passes,
        1 => Deed::Begins,
        2 => Deed::Ends,
        3 => Deed::Root,
        4 => Deed::Item,
        5 => Deed::Key,
        6 => Deed::Value,
        7 => Deed::Closes,
        8 => Deed::FullStack,
        9 => Deed::UndefinedAlias,
        10 => Deed::RepeatedAnchor,
        11 => Deed::FullList,
        _ => Deed::Bad,
    }
}
