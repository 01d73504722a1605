//! The quadwords of named areas.

ghost use Rattle.std.specs.Prelude.{◌≡◌, ◌/◌, ◌%◌, ◌^◌, IfSome, IsNone, []};
ghost use Rattle.spu_word.specs.Bytes.{quad_of};
ghost use Rattle.spu_exec.specs.Entries.{area_quad, quad_for};

use crate::areas::is_named;
use spu_word::{Area, Quad, put32};

/// The quadword of two words of an address and a length.
pub fn address_quad(ea: u64, len: u32) -> Quad
    ensures { result.0 ≡ quad_of (ea / 2 ^ 32) (ea % 2 ^ 32) len 0 }
{
    let mut bytes = [0; 16];
    put32(&mut bytes, 0, (ea >> 32) as u32);
    put32(&mut bytes, 4, (ea & 0xffff_ffff) as u32);
    put32(&mut bytes, 8, len);
    Quad(bytes)
}

/// An area's quadword, which has the low word of the length.
fn area_quad(a: &Area) -> Quad
    ensures { result.0 ≡ area_quad a.now }
{
    address_quad(a.ea, (a.bytes.len() % 0x1_0000_0000) as u32)
}

/// The quadword of the first area of a name, if there is one.
pub fn quad_for(areas: &[Area], name: &[u8]) -> Option<Quad>
    ensures some { IfSome result (λ q. q.0 ≡ quad_for areas.now name.now) }
    ensures none { IsNone result → quad_for areas.now name.now ≡ [] }
{
    match areas {
        [] => None,
        [a, rest @ ..] => {
            if is_named(a, name) {
                Some(area_quad(a))
            } else {
                quad_for(rest, name)
            }
        }
    }
}
