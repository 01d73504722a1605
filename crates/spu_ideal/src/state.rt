//! Parts of the states of symbolic runs.

/// A call that has not returned: the place to return to, and the stack pointer at the callee's entry,
/// where that is a number.
#[derive(Clone, Copy, PartialEq, Eq, Debug)]
pub struct OpenCall {
    /// The caller, by its number.
    pub f: u32,
    /// The index of the word to return to.
    pub i: u32,
    /// Word 0 of the stack pointer as the callee was entered.
    pub pointer: Option<u32>,
}

/// The update of the tag status that is asked for and not answered.
#[derive(Clone, Copy, PartialEq, Eq, Debug)]
pub enum Update {
    /// There is none.
    NoUpdate,
    /// The one of this word, as it was written.
    Pending(u32),
    /// It isn't known.
    UnknownUpdate,
}
