//! What can be wrong with the frames of a program.

ghost use Rattle.std.specs.Prelude.{◌≡◌};
ghost use Rattle.spu_frame.specs.Faults.{number_of};

/// What is wrong at a place.
#[derive(Clone, Copy, PartialEq, Eq, Debug)]
pub enum FrameKind {
    /// The stack pointer is written in another way than by a known addition.
    StackWrite,
    /// Two walks reach the place with different depths.
    DepthDisagrees,
    /// The depth isn't 0 where the function is left.
    DepthAtExit,
    /// A depth, before or after the place, isn't in 0 to `MAX_STACK_LIMIT`.
    DepthRange,
}

impl FrameKind {
    /// The fault's number, 14 to 17.
    pub fn number(&self) -> u8
        ensures { result ≡ number_of self.now }
    {
        match self {
            FrameKind::StackWrite => 14,
            FrameKind::DepthDisagrees => 15,
            FrameKind::DepthAtExit => 16,
            FrameKind::DepthRange => 17,
        }
    }
}
