//! What the loader does.

ghost use Rattle.spu_loader.specs.Samples.{FirstIsReady, SecondIsReady};
ghost use Rattle.spu_loader.specs.Entries.{KeepsBelow, LoadEntry, LoadsAsMissed, ReadyAgain, ReturnEntry, Settles};

/// From a function's stub the loader goes to the function, with its region mapped and its caller's link in the link register.
#[tactic(auto, using(crate::proofs::Arriving::load_entry))]
pub fn load_entry()
    ensures { LoadEntry }
{}

/// From the return entry the loader goes to the place of the link in the link register, with its region mapped.
#[tactic(auto, using(crate::proofs::Arriving::return_entry))]
pub fn return_entry()
    ensures { ReturnEntry }
{}

/// Afterwards the loader can run again.
pub fn ready_again()
    ensures { ReadyAgain }
{}

/// Below the buffers it changes mapped quadwords alone.
#[tactic(auto, using(crate::proofs::Again::keeps_below))]
pub fn keeps_below()
    ensures { KeepsBelow }
{}

/// As a part of a hop its run ends where it arrives.
pub fn settles()
    ensures { Settles }
{}

/// Its run loads a region exactly where the region is missed, and then once.
pub fn loads_as_missed()
    ensures { LoadsAsMissed }
{}

/// What the load entry asks for holds together, at an image with one buffer.
#[tactic(auto, using(crate::proofs::Sampling::first_is_ready))]
pub fn first_is_ready()
    ensures { FirstIsReady }
{}

/// What both entries ask for holds together, at an image with two buffers, where a region is mapped and calls another.
#[tactic(auto, using(crate::proofs::Sampling::second_is_ready))]
pub fn second_is_ready()
    ensures { SecondIsReady }
{}
