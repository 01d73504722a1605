//! What a step of the symbolic machine did.

use crate::ending::IdealEnd;

/// What a step did.
#[derive(Clone, Copy, PartialEq, Eq, Debug)]
pub enum IdealTick {
    /// The run goes on.
    Went,
    /// The run has ended, in this step or before it.
    Ended(IdealEnd),
}
