//! What a call returns.
ghost use Rattle.std.specs.Prelude.{◌≡◌};
ghost use Rattle.libyaml_composer.specs.Numbers.{deed_number};

/// What is to be done to the document, or why nothing was done.
#[derive(Copy, Clone)]
pub enum Deed {
    /// Nothing: the event is no part of a document.
    Passes,
    /// A document begins.
    Begins,
    /// The document ends.
    Ends,
    /// The node has no parent.
    Root,
    /// The child is the next item of its parent.
    Item,
    /// The child is the key of its parent's next pair, and waits for its value.
    Key,
    /// The child is the value of the key that waited: the pair is the next of its parent.
    Value,
    /// A collection ends.
    Closes,
    /// Nothing was done: the stack has no room for one more.
    FullStack,
    /// Nothing was done: no earlier node has the anchor of this alias.
    UndefinedAlias,
    /// Nothing was done: an earlier node has the anchor of this one.
    RepeatedAnchor,
    /// Nothing was done: a list has as many entries as it may.
    FullList,
    /// Nothing was done: the record counts more open collections than the stack has room for.
    Bad,
}

impl Deed {
    /// Returns the number that C sees.
    #[inline(always)]
    pub fn number(self) -> u32
        ensures { result ≡ deed_number self }
    {
        match self {
            Deed::Passes => 0,
            Deed::Begins => 1,
            Deed::Ends => 2,
            Deed::Root => 3,
            Deed::Item => 4,
            Deed::Key => 5,
            Deed::Value => 6,
            Deed::Closes => 7,
            Deed::FullStack => 8,
            Deed::UndefinedAlias => 9,
            Deed::RepeatedAnchor => 10,
            Deed::FullList => 11,
            Deed::Bad => 12,
        }
    }
}
