//! Bytes of a run whose code has no addresses.

use crate::program::Label;

/// A byte of a register or of the store.
#[derive(Clone, Copy, PartialEq, Eq, Debug)]
pub enum SymByte {
    /// A number.
    Num(u8),
    /// A byte of what a label stands for, by its index there.
    Part(Label, u8),
    /// Any byte.
    Unknown,
}
