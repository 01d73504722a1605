//! The stack that functions need.

ghost use Rattle.std.specs.Prelude.{◌≡◌, ℕ, None, nat_lt, if◌then◌else◌};

/// The stack that each function needs which paths from an entry reach.
#[derive(Drop)]
pub struct Needs {
    pub(crate) known: Vec<Option<u64>>,
    pub(crate) marks: Vec<bool>,
}

impl Needs {
    ghost use Rattle.spu_graph.specs.Known.{need_of};

    /// The bytes of stack that a function needs with all that it calls, None exactly where no path
    /// from the entry reaches it.
    pub fn need(&self, f: u32) -> Option<u64>
        ensures { result ≡ need_of self.now f }
    {
        match self.marks.get(f as usize) {
            Some(true) => match self.known.get(f as usize) {
                Some(need) => *need,
                None => None,
            },
            Some(false) => None,
            None => None,
        }
    }

    /// Forgets the needs of all functions but the first so many.
    pub fn keep_first(&mut self, count: u32)
        ensures { (f : ℕ) → need_of self.new f ≡ (if nat_lt f count then need_of self.old f else None) }
    {
        self.marks.truncate(count as usize);
        self.known.truncate(count as usize);
    }
}
