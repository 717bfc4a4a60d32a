//! What a step of the parser led to.

/// What a step of the parser led to.
#[derive(Copy, Clone)]
pub(crate) enum Step {
    /// Its event stands in `out`.
    Given,
    /// Likewise, and the event comes before the token, which stays: the next step takes it again.
    GivenBefore,
    /// A further token is wanted. `Pending` says for what, and has what was read before it.
    Wants,
    /// The parser keeps the error.
    Failed,
}
