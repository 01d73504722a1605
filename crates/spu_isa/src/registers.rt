//! Which source registers an operation names.

ghost use Rattle.std.specs.Prelude.{◌≡◌};
ghost use Rattle.spu_isa.specs.Table.{row_of};
ghost use Rattle.spu_isa.specs.Registers.{has_ra as has_ra_of, has_rb as has_rb_of, has_rc as has_rc_of};

use crate::operation::{Layout, Op, Register};
use crate::table::{row, zero_fields};

/// Whether it has the field ra, and one that need not be zero.
pub fn has_ra(op: Op) -> bool
    ensures { result ≡ has_ra_of (row_of op).layout (row_of op).zero_fields }
{
    match row(op).layout {
        Layout::Rr => match zero_fields(op) {
            [Register::Rb, Register::Ra, ..] => false,
            _ => true,
        },
        Layout::Rrr | Layout::Ri7 | Layout::Ri10 | Layout::HintA => true,
        Layout::Ri16 | Layout::Ri18 | Layout::HintB | Layout::StopForm => false,
    }
}

/// Whether it has the field rb, and one that need not be zero.
pub fn has_rb(op: Op) -> bool
    ensures { result ≡ has_rb_of (row_of op).layout (row_of op).zero_fields }
{
    match row(op).layout {
        Layout::Rr => match zero_fields(op) {
            [] => true,
            [_, ..] => false,
        },
        Layout::Rrr => true,
        Layout::Ri7
        | Layout::Ri10
        | Layout::Ri16
        | Layout::Ri18
        | Layout::HintA
        | Layout::HintB
        | Layout::StopForm => false,
    }
}

/// Whether it has the field rc.
pub fn has_rc(op: Op) -> bool
    ensures { result ≡ has_rc_of (row_of op).layout }
{
    match row(op).layout {
        Layout::Rrr => true,
        _ => false,
    }
}
