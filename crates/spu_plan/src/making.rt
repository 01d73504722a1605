//! Making plans.

ghost use Rattle.std.specs.Prelude.{◌≡◌, ◌≤◌, IfErr, IfOk};
ghost use Rattle.spu_plan.specs.declared.making.PlanFault.TheVariants as faults;
ghost use Rattle.spu_plan.specs.Choices.{IsFault, IsInput, IsPlan};
ghost use Rattle.spu_plan.specs.Choosing.{IsChoice, IsLeastEnd};

use crate::cutting::cut;
use crate::input::PlanInput;
use crate::plan::{Plan, flat_plan};
use spu_word::OutOfMemory;
use spu_word::limits::{BUFFER_SIZES, MIN_BUFFER_SIZE};
use std::alloc::Global;

/// Why there is no plan.
#[derive(Clone, Copy, PartialEq, Eq, Debug)]
pub enum PlanFault {
    /// L20: no image that the mode permits ends in the room. The least of their ends, and the room.
    TooLarge { least: u64, room: u32 },
    /// Memory ran out.
    OutOfMemory,
}

impl From<OutOfMemory> for PlanFault {
    ghost from_gives = { λ _ e. e ≡ faults.OutOfMemory };

    fn from(_e: OutOfMemory) -> PlanFault {
        PlanFault::OutOfMemory
    }
}

/// The size of the buffers of an overlay image.
#[derive(Clone, Copy)]
enum Choice {
    /// The greatest size with which the image ends in the room, and that end.
    Fits { buffer: u32, end: u32 },
    /// There is none; the least of the ends.
    TooLarge { least: u64 },
}

/// The size of the buffers, if there are to be overlays.
fn choose_buffer(input: &PlanInput) -> Choice
    requires { IsInput input.now }
    ensures { IsChoice input.now result }
{
    let mut least = input.overlay_end(MIN_BUFFER_SIZE);
    for buffer in BUFFER_SIZES {
        if buffer <= input.largest {
            let end = input.overlay_end(buffer);
            if end <= u64::from(input.room) {
                return Choice::Fits {
                    buffer,
                    end: end as u32,
                };
            }
            least = least.min(end);
        }
    }
    Choice::TooLarge { least }
}

/// The least of the ends that the mode permits, where overlays are permitted: of that of a flat image and the least of
/// overlay images.
fn least_end(input: &PlanInput, flat_end: u64, overlay_end: u64) -> u64
    ensures { IsLeastEnd input.now.mode flat_end overlay_end result }
{
    if input.mode.permits_flat() {
        flat_end.min(overlay_end)
    } else {
        overlay_end
    }
}

/// The plan of a program: flat, where the mode permits it and the image ends in the room; else, where the mode permits it, with
/// overlays, for the greatest size of a buffer that was asked for and with which the image ends in the room. L20 where there is no
/// such plan.
pub fn make_plan(alloc: Global, input: &PlanInput) -> Result<Plan, PlanFault>
    requires { IsInput input.now }
    ensures value { IfOk result (IsPlan input.now) }
    ensures fault { IfErr result (IsFault input.now) }
{
    let flat_end = input.flat_end();
    if input.is_flat(flat_end) {
        return Ok(flat_plan(alloc, input.data_end as u32, input.sizes.as_slice())?);
    }
    if !input.mode.permits_overlays() {
        return Err(PlanFault::TooLarge {
            least: flat_end,
            room: input.room,
        });
    }
    match choose_buffer(input) {
        Choice::Fits { buffer, end } => {
            let division = cut(
                alloc,
                input.sizes.as_slice(),
                input.rooted.as_slice(),
                buffer,
            )?;
            Ok(Plan {
                overlay: true,
                buffer,
                regions: division.regions,
                region_of: division.region_of,
                end,
                buffers: input.buffers,
            })
        }
        Choice::TooLarge { least } => Err(PlanFault::TooLarge {
            least: least_end(input, flat_end, least),
            room: input.room,
        }),
    }
}
