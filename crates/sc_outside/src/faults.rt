//! Calls that fail.

/// A call on a source or a sink failed, and that object's count of faults rose.
#[derive(Debug, Clone, Copy, PartialEq, Eq)]
pub struct Failed;
