//! Where a call puts what it leads to.

use crate::records::{step_event_t, step_fault_t};

/// Where a call puts an event, and where an error: the caller's.
#[derive(Drop)]
pub(crate) struct Out<'a> {
    pub(crate) event: &'a mut step_event_t,
    pub(crate) fault: &'a mut step_fault_t,
}
