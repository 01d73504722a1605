//! The symbols whose quadwords a load fills in.

ghost use Rattle.std.specs.Prelude.{◌≡◌, ◌≤◌, ◌&&◌, length, take, codes, nat_lt};
ghost use Rattle.std.specs.Str.{bytes_eq};
ghost use Rattle.spu_ls.specs.Entries.{is_object, is_entry, is_image_ea, image_place, area_name};
ghost use Rattle.spu_ls.specs.Start.{image_quad};

use spu_elf::{SymKind, Symbol};
use spu_exec::address_quad;
use spu_word::Quad;

/// The length of `_EAR_`, with which the names of entries begin.
pub const PREFIX_SIZE: usize = 5;

fn is_object(kind: SymKind) -> bool
    ensures { result ≡ is_object kind }
{
    matches!(kind, SymKind::Object)
}

/// Whether a name begins with `_EAR_`, and goes on.
fn is_entry_name(name: &[u8]) -> bool
    ensures { result ≡ (nat_lt PREFIX_SIZE (length name.now) && bytes_eq (take PREFIX_SIZE name.now) (codes "_EAR_")) }
{
    name.len() > PREFIX_SIZE && name.starts_with(b"_EAR_")
}

/// Whether a symbol is an entry.
pub fn is_entry(s: &Symbol) -> bool
    ensures { result ≡ is_entry s.now }
{
    s.global && is_object(s.kind) && is_entry_name(s.name.as_slice())
}

/// The name of an entry's area.
pub fn area_name(s: &Symbol) -> &[u8]
    requires { PREFIX_SIZE ≤ length s.now.name }
    ensures { result.now ≡ area_name s.now }
{
    s.name.as_slice().split_at(PREFIX_SIZE).1
}

fn is_image_name(name: &[u8]) -> bool
    ensures { result ≡ bytes_eq name.now (codes "__image_ea") }
{
    name == b"__image_ea".as_slice()
}

/// Whether a symbol's quadword tells where the executable's file lies.
fn is_image_ea(s: &Symbol) -> bool
    ensures { result ≡ is_image_ea s.now }
{
    s.global && is_object(s.kind) && is_image_name(s.name.as_slice())
}

/// Where the quadword of the first such symbol lies.
pub fn image_place(symbols: &[Symbol]) -> Option<u32>
    ensures { result ≡ image_place symbols.now }
{
    for s in symbols {
        if is_image_ea(s) {
            return Some(s.value);
        }
    }
    None
}

/// The file's quadword.
pub fn image_quad(ea: u64) -> Quad
    ensures { result.0 ≡ image_quad ea }
{
    address_quad(ea, 0)
}
