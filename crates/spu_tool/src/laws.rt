//! Laws of what commands make.

ghost use Rattle.spu_tool.specs.Makes.{AreRunAlike};

/// `run` makes the same of an executable and of an object that embeds it, whatever its options, and whatever the files of its areas hold.
pub fn embedded_runs_alike()
    ensures { AreRunAlike }
{}
