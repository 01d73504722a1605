//! Runs of sample programs on the symbolic machine.

ghost use Rattle.std.specs.Prelude.{◌≡◌, ◌∷◌, ◌-◌, ◌^◌, [], None, Some, codes, map};
ghost use Rattle.spu_word.specs.declared.load.Area.{Area};
ghost use Rattle.spu_word.specs.declared.load.LoadFault.TheVariants as faults;
ghost use Rattle.spu_ideal.specs.Loading.{load_fault};
ghost use Rattle.spu_ideal.specs.Machine.{run};
ghost use Rattle.spu_ideal.specs.MoreSamples.{
  visits,
  tests_link,
  halts_by_link,
  loads_by_link,
  describes_by_link,
  commands_forgotten,
  counts_status,
  calls_number,
  gets_below,
  gets_elsewhere,
  fills_queue,
  puts_link,
  jumps_without_link,
  updates_wrongly,
  asks_now,
  asks_twice,
  counts_last,
  counts_wrongly,
  finds_area,
  jumps_by_number,
  keeps_frame,
  loads_behind,
  stores_by_link,
  takes_tag,
  with_areas,
  zeros,
};
ghost use Rattle.spu_ideal.specs.Samples.{
  nothing,
  one_area,
  sends_five,
  copies_link,
  compares,
  turns_within,
  tours,
  tour_frames,
  transfers,
  sends_link,
  stores_below,
  commands_nothing,
  runs_out,
  loses_link,
  spoils_link,
  reads_status,
  halts,
  misuses_channel,
  starves,
};
ghost use Rattle.spu_ideal.specs.declared.ending.IdealEnd.TheVariants as ending;
ghost use Rattle.spu_ideal.specs.declared.ending.Reason.TheVariants as reason;

/// Programs that stay inside up to their stop: one that sends 5, one that copies its link away and back, one that compares a
/// register with an immediate, one that goes to a place of its own function by an address, one with an instruction of each kind,
/// and one with a transfer.
#[tactic(auto, using(crate::proofs::Samples::five_stops, crate::proofs::Samples::copy_stops, crate::proofs::Samples::comparison_stops, crate::proofs::Samples::turn_stops, crate::proofs::Samples::tour_stops, crate::proofs::Samples::transfers_stop, crate::proofs::Samples::five_is_sent, crate::proofs::Samples::turn_sends, crate::proofs::Samples::tour_sends, crate::proofs::Samples::transfers_send))]
pub fn programs_stay_inside()
    ensures sends_five_stops { (run sends_five (λ f. 0) 16384 nothing 5).ended ≡ Some (ending.Stop 8192) }
    ensures copies_link_stops { (run copies_link (λ f. 0) 16384 nothing 5).ended ≡ Some (ending.Stop 8192) }
    ensures compares_stops { (run compares (λ f. 0) 16384 nothing 5).ended ≡ Some (ending.Stop 8192) }
    ensures turns_within_stops { (run turns_within (λ f. 0) 16384 nothing 9).ended ≡ Some (ending.Stop 8192) }
    ensures tours_stops { (run tours tour_frames 16384 nothing 23).ended ≡ Some (ending.Stop 8192) }
    ensures transfers_stops { (run transfers (λ f. 0) 16384 one_area 26).ended ≡ Some (ending.Stop 8192) }
    ensures sends_five_output { (run sends_five (λ f. 0) 16384 nothing 5).output ≡ 5 ∷ [] }
    ensures turns_within_output { (run turns_within (λ f. 0) 16384 nothing 9).output ≡ 5 ∷ [] }
    ensures tours_output { (run tours tour_frames 16384 nothing 23).output ≡ 14 ∷ 1 ∷ [] }
    ensures transfers_output { (run transfers (λ f. 0) 16384 one_area 26).output ≡ 15 ∷ 1 ∷ 16909060 ∷ 9 ∷ [] }
{}

/// Programs that leave, one for each reason, and that end otherwise.
#[tactic(auto, using(crate::proofs::Samples::link_is_no_number, crate::proofs::Samples::store_below_leaves, crate::proofs::Samples::no_command_leaves, crate::proofs::Samples::end_leaves, crate::proofs::Samples::lost_link_leaves, crate::proofs::Samples::spoilt_link_leaves, crate::proofs::Samples::status_leaves, crate::proofs::Samples::halt_ends, crate::proofs::Samples::misuse_ends, crate::proofs::Samples::starving_ends))]
pub fn programs_end()
    ensures sends_link { (run sends_link (λ f. 0) 16384 nothing 2).ended ≡ Some (ending.Outside reason.NotNumber 1 0) }
    ensures stores_below { (run stores_below (λ f. 0) 16384 nothing 2).ended ≡ Some (ending.Outside reason.Store 1 0) }
    ensures commands_nothing { (run commands_nothing (λ f. 0) 16384 nothing 7).ended ≡ Some (ending.Outside reason.Transfer 1 5) }
    ensures runs_out { (run runs_out (λ f. 0) 16384 nothing 2).ended ≡ Some (ending.Outside reason.EndOfCode 1 0) }
    ensures loses_link { (run loses_link (λ f. 0) 16384 nothing 3).ended ≡ Some (ending.Outside reason.Target 1 1) }
    ensures spoils_link { (run spoils_link (λ f. 0) 16384 nothing 4).ended ≡ Some (ending.Outside reason.Target 1 2) }
    ensures reads_status { (run reads_status (λ f. 0) 16384 nothing 2).ended ≡ Some (ending.Outside reason.Update 1 0) }
    ensures halts { (run halts (λ f. 0) 16384 nothing 2).ended ≡ Some (ending.Halt 1 0) }
    ensures misuses_channel { (run misuses_channel (λ f. 0) 16384 nothing 2).ended ≡ Some (ending.BadChannel 1) }
    ensures starves { (run starves (λ f. 0) 16384 nothing 2).ended ≡ Some ending.Starved }
{}

/// A program that stays inside, whose put lands in the area that it is given.
#[tactic(auto, using(crate::proofs::MoreSamples::visits_stop, crate::proofs::MoreSamples::visits_send, crate::proofs::MoreSamples::visits_put))]
pub fn visits_stay_inside()
    ensures visits_is { (run visits (λ f. 0) 16384 one_area 32).ended ≡ Some (ending.Stop 8192) }
    ensures visits_output_is { (run visits (λ f. 0) 16384 one_area 32).output ≡ 7 ∷ 1 ∷ 2 ∷ 2 ∷ 1 ∷ [] }
    ensures visits_area_is { map (λ (a : Area). a.bytes) (run visits (λ f. 0) 16384 one_area 32).areas ≡ (0 ∷ 0 ∷ 0 ∷ 7 ∷ 0 ∷ 0 ∷ 0 ∷ 7 ∷ 0 ∷ 0 ∷ 0 ∷ 7 ∷ 0 ∷ 0 ∷ 0 ∷ 7 ∷ []) ∷ [] }
{}

/// Small programs that leave by the other branches of each reason, and one that ends.
#[tactic(auto, using(crate::proofs::MoreSamples::tests_link_leaves, crate::proofs::MoreSamples::halts_by_link_leaves, crate::proofs::MoreSamples::loads_by_link_leaves, crate::proofs::MoreSamples::describes_by_link_leaves, crate::proofs::MoreSamples::commands_forgotten_leaves, crate::proofs::MoreSamples::counts_status_leaves, crate::proofs::MoreSamples::calls_number_leaves, crate::proofs::MoreSamples::gets_below_leaves, crate::proofs::MoreSamples::gets_elsewhere_leaves, crate::proofs::MoreSamples::fills_queue_leaves, crate::proofs::MoreSamples::puts_link_leaves, crate::proofs::MoreSamples::jumps_without_link_leaves, crate::proofs::MoreSamples::wrong_update_ends))]
pub fn programs_leave()
    ensures tests_link_ends { (run tests_link (λ f. 0) 16384 nothing 2).ended ≡ Some (ending.Outside reason.NotNumber 1 0) }
    ensures halts_by_link_ends { (run halts_by_link (λ f. 0) 16384 nothing 2).ended ≡ Some (ending.Outside reason.NotNumber 1 0) }
    ensures loads_by_link_ends { (run loads_by_link (λ f. 0) 16384 nothing 2).ended ≡ Some (ending.Outside reason.NotNumber 1 0) }
    ensures describes_by_link_ends { (run describes_by_link (λ f. 0) 16384 nothing 2).ended ≡ Some (ending.Outside reason.NotNumber 1 0) }
    ensures commands_forgotten_ends { (run commands_forgotten (λ f. 0) 16384 nothing 2).ended ≡ Some (ending.Outside reason.NotNumber 1 0) }
    ensures counts_status_ends { (run counts_status (λ f. 0) 16384 nothing 2).ended ≡ Some (ending.Outside reason.Update 1 0) }
    ensures calls_number_ends { (run calls_number (λ f. 0) 16384 nothing 2).ended ≡ Some (ending.Outside reason.Target 1 0) }
    ensures gets_below_ends { (run gets_below (λ f. 0) 16384 one_area 9).ended ≡ Some (ending.Outside reason.Store 1 7) }
    ensures gets_elsewhere_ends { (run gets_elsewhere (λ f. 0) 16384 one_area 10).ended ≡ Some (ending.Outside reason.Transfer 1 8) }
    ensures fills_queue_ends { (run fills_queue (λ f. 0) 16384 one_area 23).ended ≡ Some (ending.Outside reason.Transfer 1 21) }
    ensures puts_link_ends { (run puts_link (λ f. 0) 16384 one_area 17).ended ≡ Some (ending.Outside reason.NotNumber 1 15) }
    ensures jumps_without_link_ends { (run jumps_without_link (λ f. 0) 16384 nothing 3).ended ≡ Some (ending.Outside reason.Target 1 1) }
    ensures updates_wrongly_ends { (run updates_wrongly (λ f. 0) 16384 nothing 3).ended ≡ Some (ending.BadChannel 23) }
{}

/// Programs that stay inside: one whose frame lies below its entry pointer, one that reads the quadword of a named area, and
/// one that asks for the status of tags while a transfer waits.
#[tactic(auto, using(crate::proofs::LastSamples::keeps_frame_stops, crate::proofs::LastSamples::keeps_frame_sends, crate::proofs::LastSamples::finds_area_stops, crate::proofs::LastSamples::finds_area_sends, crate::proofs::LastSamples::asks_now_stops, crate::proofs::LastSamples::asks_now_sends))]
pub fn frames_and_areas_are_reached()
    ensures keeps_frame_is { (run keeps_frame tour_frames 16384 nothing 9).ended ≡ Some (ending.Stop 8192) }
    ensures keeps_frame_output_is { (run keeps_frame tour_frames 16384 nothing 9).output ≡ 7 ∷ [] }
    ensures finds_area_is { (run finds_area (λ f. 0) 16384 one_area 9).ended ≡ Some (ending.Stop 8192) }
    ensures finds_area_output_is { (run finds_area (λ f. 0) 16384 one_area 9).output ≡ 0 ∷ 4096 ∷ 16 ∷ [] }
    ensures asks_now_is { (run asks_now (λ f. 0) 16384 one_area 22).ended ≡ Some (ending.Stop 8192) }
    ensures asks_now_output_is { (run asks_now (λ f. 0) 16384 one_area 22).output ≡ 2 ∷ 15 ∷ 0 ∷ [] }
{}

/// Programs that leave by what no other sample has: the first of those above where its frame is not known, the loader's tag, an address
/// of a store that is no number, a load behind the data, a jump to no function, the end of the code before an update; and ends of
/// channels.
#[tactic(auto, using(crate::proofs::LastSamples::keeps_frame_leaves, crate::proofs::LastSamples::takes_tag_leaves, crate::proofs::LastSamples::stores_by_link_leaves, crate::proofs::LastSamples::loads_behind_leaves, crate::proofs::LastSamples::jumps_by_number_leaves, crate::proofs::LastSamples::counts_last_leaves, crate::proofs::LastSamples::asks_twice_leaves, crate::proofs::LastSamples::counts_wrongly_leaves))]
pub fn programs_leave_otherwise()
    ensures keeps_frame_ends { (run keeps_frame (λ f. 0) 16384 nothing 4).ended ≡ Some (ending.Outside reason.Store 1 2) }
    ensures takes_tag_ends { (run takes_tag (λ f. 0) 16384 one_area 12).ended ≡ Some (ending.Outside reason.Transfer 1 10) }
    ensures stores_by_link_ends { (run stores_by_link (λ f. 0) 16384 nothing 2).ended ≡ Some (ending.Outside reason.NotNumber 1 0) }
    ensures loads_behind_ends { (run loads_behind (λ f. 0) 16384 nothing 2).ended ≡ Some (ending.Outside reason.Store 1 0) }
    ensures jumps_by_number_ends { (run jumps_by_number (λ f. 0) 16384 nothing 2).ended ≡ Some (ending.Outside reason.Target 1 0) }
    ensures counts_last_ends { (run counts_last (λ f. 0) 16384 nothing 2).ended ≡ Some (ending.Outside reason.EndOfCode 1 0) }
    ensures asks_twice_ends { (run asks_twice (λ f. 0) 16384 nothing 5).ended ≡ Some (ending.BadChannel 24) }
    ensures counts_wrongly_ends { (run counts_wrongly (λ f. 0) 16384 nothing 2).ended ≡ Some (ending.BadChannel 1) }
{}

/// Loads of a program with the quadword of an area `a`: with such an area, and with what is refused, which the least of the faults
/// names at its first quadword or area. An empty area shares no byte with another.
#[tactic(auto, using(crate::proofs::LastSamples::one_area_fits, crate::proofs::LastSamples::last_bytes_fit, crate::proofs::LastSamples::no_area_is_unresolved, crate::proofs::LastSamples::other_area_is_unresolved, crate::proofs::LastSamples::shared_byte_overlaps, crate::proofs::LastSamples::empty_area_is_no_range, crate::proofs::LastSamples::odd_address_is_no_range, crate::proofs::LastSamples::end_is_no_range))]
pub fn loads_are_refused()
    ensures one_area_is { load_fault finds_area one_area ≡ None }
    ensures last_bytes_is { load_fault finds_area (with_areas (zeros (codes "b") 4096 32 ∷ zeros (codes "a") (2 ^ 64 - 16) 16 ∷ [])) ≡ None }
    ensures no_area_is { load_fault finds_area nothing ≡ Some (faults.UnresolvedName (codes "a")) }
    ensures other_area_is { load_fault finds_area (with_areas (zeros (codes "b") 4096 16 ∷ zeros (codes "c") 4096 0 ∷ [])) ≡ Some (faults.UnresolvedName (codes "a")) }
    ensures shared_byte_is { load_fault finds_area (with_areas (zeros (codes "a") 4096 33 ∷ zeros (codes "b") 4128 0 ∷ zeros (codes "c") 4128 16 ∷ [])) ≡ Some (faults.AreasOverlap (codes "c")) }
    ensures empty_area_is { load_fault finds_area (with_areas (zeros (codes "a") 4096 32 ∷ zeros (codes "b") 4096 0 ∷ [])) ≡ Some (faults.AreaRange (codes "b")) }
    ensures odd_address_is { load_fault finds_area (with_areas (zeros (codes "a") 4096 32 ∷ zeros (codes "b") 4136 8 ∷ [])) ≡ Some (faults.AreaRange (codes "b")) }
    ensures end_is { load_fault finds_area (with_areas (zeros (codes "a") (2 ^ 64 - 16) 17 ∷ [])) ≡ Some (faults.AreaRange (codes "a")) }
{}
