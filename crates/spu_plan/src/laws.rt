//! Laws of plans.

ghost use Rattle.spu_plan.specs.Laws.{AnswersAreOne, CutsAreOne};

/// Sections that a buffer takes one by one have one cut into regions.
#[tactic(auto, using(crate::proofs::Answered::cuts_are_one))]
pub fn cuts_are_one()
    ensures { CutsAreOne }
{}

/// What a plan may be asked for has one plan or one least end beyond the room, and not both.
#[tactic(auto, using(crate::proofs::Answered::answers_are_one))]
pub fn answers_are_one()
    ensures { AnswersAreOne }
{}
