//! What a call returns.
ghost use Rattle.std.specs.Prelude.{◌≡◌};
ghost use Rattle.token_steps.specs.Numbers.{number};

/// What a call did.
#[derive(Copy, Clone)]
pub enum Did {
    /// The token was taken, and the next one is wanted.
    Wants,
    /// An event was put, and the token was taken.
    Gave,
    /// An event was put. The same token is to be handed in again.
    Stays,
    /// Nothing was done: the stack of states has no room for one more.
    FullStates,
    /// Nothing was done: the stack of marks has no room for one more.
    FullMarks,
    /// An error was put. No token is to be handed in after it.
    Failed,
    /// Nothing was done: the record counts more states or marks than their stacks have room for.
    Bad,
}

impl Did {
    /// Returns the number that C sees.
    #[inline(always)]
    pub fn number(self) -> u32
        ensures { result ≡ number self }
    {
        match self {
            Did::Wants => 0,
            Did::Gave => 1,
            Did::Stays => 2,
            Did::FullStates => 3,
            Did::FullMarks => 4,
            Did::Failed => 5,
            Did::Bad => 6,
        }
    }
}
