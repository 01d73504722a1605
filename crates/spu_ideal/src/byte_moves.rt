//! Symbolic bytes, and moves of them.

ghost use Rattle.std.specs.Prelude.{◌≡◌, ◌<◌, ◌+◌, ◌-◌, ◌*◌, ◌/◌, ◌%◌, ◌^◌, ◌==◌, if◌then◌else◌, true, Option, Some, None};
ghost use Rattle.spu_exec.specs.Moves.{
  ByteType,
  turned_byte,
  left_byte,
  right_byte,
  chosen_byte,
  selected_byte,
  or_byte as or_byte_of,
  first_word as first_word_of,
  word_number as word_number_of,
  given,
  moved as moved_of,
};
ghost use Rattle.spu_lift.specs.declared.symbolic.SymByte.TheVariants.{Num};
ghost use Rattle.spu_ideal.specs.Bytes.{
  sym_at,
  is_number as is_number_of,
  number_of,
  number_in,
  same_label as same_label_of,
  is_part as is_part_of,
  is_zero as is_zero_of,
  same_part as same_part_of,
  joined as joined_of,
  sym_bytes,
};

use spu_isa::Op;
use spu_lift::{Label, SymByte};

/// Whether a byte is a number.
pub fn is_number(s: SymByte) -> bool
    ensures { result ≡ is_number_of s }
{
    match s {
        SymByte::Num(_) => true,
        SymByte::Part(_, _) => false,
        SymByte::Unknown => false,
    }
}

/// The number that a byte is, 0 where it is none.
pub fn number_or_zero(s: SymByte) -> u8
    ensures { result ≡ number_of s }
{
    match s {
        SymByte::Num(v) => v,
        SymByte::Part(_, _) => 0,
        SymByte::Unknown => 0,
    }
}

/// The number that a byte is.
pub fn number(s: SymByte) -> Option<u8>
    ensures { result ≡ number_in s }
{
    match s {
        SymByte::Num(v) => Some(v),
        SymByte::Part(_, _) => None,
        SymByte::Unknown => None,
    }
}

/// Whether two labels are one.
fn same_label(l: Label, m: Label) -> bool
    ensures { result ≡ same_label_of l m }
{
    match (l, m) {
        (Label::Fun(f), Label::Fun(g)) => f == g,
        (Label::Place(f, i), Label::Place(g, j)) => f == g && i == j,
        (Label::Link(f, i), Label::Link(g, j)) => f == g && i == j,
        _ => false,
    }
}

/// Whether a byte is this part of a label.
pub fn is_part(l: Label, k: u8, s: SymByte) -> bool
    ensures { result ≡ is_part_of l k s }
{
    match s {
        SymByte::Num(_) => false,
        SymByte::Part(m, j) => same_label(l, m) && k == j,
        SymByte::Unknown => false,
    }
}

/// Whether a byte is the number 0.
fn is_zero(s: SymByte) -> bool
    ensures { result ≡ is_zero_of s }
{
    match s {
        SymByte::Num(v) => v == 0,
        SymByte::Part(_, _) => false,
        SymByte::Unknown => false,
    }
}

/// Whether two bytes are one part of a label.
fn same_part(s: SymByte, u: SymByte) -> bool
    ensures { result ≡ same_part_of s u }
{
    match (s, u) {
        (SymByte::Part(l, k), SymByte::Part(m, j)) => same_label(l, m) && k == j,
        _ => false,
    }
}

/// The or of two bytes, where it is one of them.
fn joined(s: SymByte, u: SymByte) -> Option<SymByte>
    ensures { result ≡ joined_of s u }
{
    if is_zero(s) {
        Some(u)
    } else if is_zero(u) {
        Some(s)
    } else if same_part(s, u) {
        Some(s)
    } else {
        None
    }
}

/// The or of two bytes, where it is a byte.
fn or_byte(s: SymByte, u: SymByte) -> Option<SymByte>
    ensures { result ≡ or_byte_of sym_bytes s u }
{
    match number(s) {
        Some(v) => match number(u) {
            Some(w) => Some(SymByte::Num(v | w)),
            None => joined(s, u),
        },
        None => joined(s, u),
    }
}

/// The word of four bytes that are numbers.
fn word_of_numbers(a: u8, b: u8, c: u8, d: u8) -> u32
    ensures { result ≡ a * 256 ^ 3 + b * 256 ^ 2 + c * 256 + d }
{
    u32::from_be_bytes([a, b, c, d])
}

/// The word of four bytes, where each is a number.
fn word_number(a: Option<u8>, b: Option<u8>, c: Option<u8>, d: Option<u8>) -> Option<u32>
    ensures { result ≡ word_number_of a b c d }
{
    match (a, b, c, d) {
        (Some(a), Some(b), Some(c), Some(d)) => Some(word_of_numbers(a, b, c, d)),
        _ => None,
    }
}

/// Word 0 of a quad, where each byte of it is a number.
pub fn first_word(b: &[SymByte; 16]) -> Option<u32>
    ensures { result ≡ first_word_of sym_bytes (sym_at b.now) }
{
    word_number(number(b[0]), number(b[1]), number(b[2]), number(b[3]))
}

/// Byte k of a quad rotated left by bytes.
fn turned(a: &[SymByte; 16], n: u32, k: usize) -> SymByte
    requires { (n < 16) × (k < 16) }
    ensures { result ≡ turned_byte (sym_at a.now) n k }
{
    a[(k + n as usize) % 16]
}

/// Byte k of a quad shifted left by bytes.
fn left(a: &[SymByte; 16], n: u32, k: usize) -> SymByte
    requires { (n < 32) × (k < 16) }
    ensures { result ≡ left_byte (Num 0) (sym_at a.now) n k }
{
    let from = k + n as usize;
    if from < 16 { a[from] } else { SymByte::Num(0) }
}

/// Byte k of a quad shifted right by bytes.
fn right(a: &[SymByte; 16], n: u32, k: usize) -> SymByte
    requires { (n < 32) × (k < 16) }
    ensures { result ≡ right_byte (Num 0) (sym_at a.now) n k }
{
    let by = n as usize;
    if k < by { SymByte::Num(0) } else { a[k - by] }
}

/// The byte that a control byte chooses.
fn chosen(a: &[SymByte; 16], b: &[SymByte; 16], control: u8) -> SymByte
    ensures { result ≡ chosen_byte Num (sym_at a.now) (sym_at b.now) control }
{
    match control {
        0..=0x7f => {
            let k = (control % 32) as usize;
            if k < 16 { a[k] } else { b[k - 16] }
        }
        0x80..=0xbf => SymByte::Num(0),
        0xc0..=0xdf => SymByte::Num(0xff),
        _ => SymByte::Num(0x80),
    }
}

/// The byte that a mask byte selects.
fn selected(a: SymByte, b: SymByte, mask: u8) -> Option<SymByte>
    ensures { result ≡ selected_byte a b mask }
{
    if mask == 0 {
        Some(a)
    } else if mask == 255 {
        Some(b)
    } else {
        None
    }
}

/// How far to the right bytes go where the count is n.
fn right_count(n: u32) -> u32
    ensures { result ≡ (32 - n % 32) % 32 }
{
    n.wrapping_neg() & 31
}

/// Byte k of a quad rotated left by a count of bytes.
fn turned_by(count: Option<u32>, a: &[SymByte; 16], k: usize) -> Option<SymByte>
    requires { k < 16 }
    ensures { result ≡ given count (λ m. Some (turned_byte (sym_at a.now) (m % 16) k)) }
{
    match count {
        Some(m) => Some(turned(a, m & 15, k)),
        None => None,
    }
}

/// The same, by a count of bits.
fn turned_by_bits(count: Option<u32>, a: &[SymByte; 16], k: usize) -> Option<SymByte>
    requires { k < 16 }
    ensures { result ≡ given count (λ m. Some (turned_byte (sym_at a.now) (m / 8 % 16) k)) }
{
    match count {
        Some(m) => Some(turned(a, (m >> 3) & 15, k)),
        None => None,
    }
}

/// Byte k of a quad shifted left by a count of bytes.
fn left_by(count: Option<u32>, a: &[SymByte; 16], k: usize) -> Option<SymByte>
    requires { k < 16 }
    ensures { result ≡ given count (λ m. Some (left_byte (Num 0) (sym_at a.now) (m % 32) k)) }
{
    match count {
        Some(m) => Some(left(a, m & 31, k)),
        None => None,
    }
}

/// The same, by a count of bits.
fn left_by_bits(count: Option<u32>, a: &[SymByte; 16], k: usize) -> Option<SymByte>
    requires { k < 16 }
    ensures { result ≡ given count (λ m. Some (left_byte (Num 0) (sym_at a.now) (m / 8 % 32) k)) }
{
    match count {
        Some(m) => Some(left(a, (m >> 3) & 31, k)),
        None => None,
    }
}

/// Byte k of a quad shifted right by a count of bytes.
fn right_by(count: Option<u32>, a: &[SymByte; 16], k: usize) -> Option<SymByte>
    requires { k < 16 }
    ensures { result ≡ given count (λ m. Some (right_byte (Num 0) (sym_at a.now) ((32 - m % 32) % 32) k)) }
{
    match count {
        Some(m) => Some(right(a, right_count(m), k)),
        None => None,
    }
}

/// The byte that a control byte chooses, where it is a number.
fn chosen_by(control: Option<u8>, a: &[SymByte; 16], b: &[SymByte; 16]) -> Option<SymByte>
    ensures { result ≡ given control (λ m. Some (chosen_byte Num (sym_at a.now) (sym_at b.now) m)) }
{
    match control {
        Some(m) => Some(chosen(a, b, m)),
        None => None,
    }
}

/// The byte that a mask byte selects, where it is a number.
fn selected_by(mask: Option<u8>, a: SymByte, b: SymByte) -> Option<SymByte>
    ensures { result ≡ given mask (selected_byte a b) }
{
    match mask {
        Some(m) => selected(a, b, m),
        None => None,
    }
}

/// Byte k of what an operation gives, None where it is no move. n is the immediate as a word, i are the four bytes of the
/// word that it stands for, and a, b, c and t are the quads of ra, rb, rc and the old rt.
pub fn moved(
    op: Op,
    n: u32,
    i: &[SymByte; 4],
    a: &[SymByte; 16],
    b: &[SymByte; 16],
    c: &[SymByte; 16],
    t: &[SymByte; 16],
    k: usize,
) -> Option<SymByte>
    requires { k < 16 }
    ensures { result ≡ moved_of sym_bytes op n (sym_at i.now) (sym_at a.now) (sym_at b.now) (sym_at c.now) (sym_at t.now) k }
{
    match op {
        Op::Shufb => chosen_by(number(c[k]), a, b),
        Op::Selb => selected_by(number(c[k]), a[k], b[k]),
        Op::Rotqby => turned_by(first_word(b), a, k),
        Op::Rotqbyi => Some(turned(a, n & 15, k)),
        Op::Rotqbybi => turned_by_bits(first_word(b), a, k),
        Op::Shlqby => left_by(first_word(b), a, k),
        Op::Shlqbyi => Some(left(a, n & 31, k)),
        Op::Shlqbybi => left_by_bits(first_word(b), a, k),
        Op::Rotqmby => right_by(first_word(b), a, k),
        Op::Rotqmbyi => Some(right(a, right_count(n), k)),
        Op::Or => or_byte(a[k], b[k]),
        Op::Ori => or_byte(a[k], i[k % 4]),
        Op::Orhi => or_byte(a[k], i[2 + k % 2]),
        Op::Orbi => or_byte(a[k], i[3]),
        Op::Iohl => or_byte(t[k], i[k % 4]),
        Op::Ila => Some(i[k % 4]),
        Op::Ilhu => Some(i[k % 4]),
        _ => None,
    }
}
