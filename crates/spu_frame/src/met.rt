//! The depths with which walks come to a node.

ghost use Rattle.std.specs.Prelude.{◌≡◌, ◌^◌, ◌<◌, ℤ, length, Some, slice_get};
ghost use Rattle.spu_frame.specs.Surveys.{Keeps, IsWithin, less, met_at, met_behind};

/// The different depths with which walks come to a node. Two different ones tell as much as more.
#[derive(Clone, Copy, Debug)]
pub enum Met {
    Never,
    Once(i64),
    Twice(i64, i64),
}

/// The depths of a node.
pub fn met_at(met: &[Met], i: usize) -> Met
    requires { i < length met.now }
    ensures { result ≡ met_at met.now i }
{
    met[i]
}

/// What the instruction at a place adds to the stack pointer.
pub fn amount(known: &[Option<i32>], i: usize) -> Option<i32>
    requires { i < length known.now }
    ensures { slice_get known.now i ≡ Some result }
{
    known[i]
}

/// The depths less what is added to the stack pointer.
fn less(met: Met, added: i64) -> Met
    requires met { (n : ℤ) → Keeps met n → IsWithin n (2 ^ 40) }
    requires added { IsWithin added (2 ^ 31) }
    ensures { result ≡ less met added }
{
    match met {
        Met::Never => Met::Never,
        Met::Once(d) => Met::Once(d - added),
        Met::Twice(d, e) => Met::Twice(d - added, e - added),
    }
}

/// The depths behind an instruction.
pub fn behind(met: Met, known: Option<i32>) -> Met
    requires { (n : ℤ) → Keeps met n → IsWithin n (2 ^ 40) }
    ensures { result ≡ met_behind met known }
{
    match known {
        Some(added) => less(met, i64::from(added)),
        None => met,
    }
}
