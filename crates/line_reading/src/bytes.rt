//! Bytes looked at four or eight at a time.

mod begins;
mod clean;
mod same;
mod word;

pub(crate) use begins::begins_with;
pub(crate) use clean::clean_end;
pub use clean::is_clean;
pub(crate) use same::end_alike;
