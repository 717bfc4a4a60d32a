//! Sizes up to a bound.
ghost use Rattle.std.specs.Prelude.{◌≡◌, ℕ, ◌+◌};
ghost use Rattle.yaml_expansion.specs.Sizes.{bounded};

/// A number of nodes.
#[derive(Copy, Clone)]
pub(crate) enum Size {
    /// So many.
    Within(u64),
    /// More than the bound.
    TooLarge,
}

/// Returns this many nodes.
pub(crate) fn size_of(nodes: u64, max: u64) -> Size
    ensures { result ≡ bounded max nodes }
{
    if nodes <= max {
        Size::Within(nodes)
    } else {
        Size::TooLarge
    }
}

/// Returns as many nodes as both together.
pub(crate) fn sum_of(some: Size, more: Size, max: u64) -> Size
    ensures { (m n : ℕ) → some ≡ bounded max m → more ≡ bounded max n → result ≡ bounded max (m + n) }
{
    let Size::Within(some) = some else {
        return Size::TooLarge;
    };
    let Size::Within(more) = more else {
        return Size::TooLarge;
    };
    match some.checked_add(more) {
        Some(sum) => size_of(sum, max),
        None => Size::TooLarge,
    }
}
