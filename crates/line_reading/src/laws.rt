//! The law of a line source. The function does nothing when it runs: its contract is the law.

pub mod determined;
