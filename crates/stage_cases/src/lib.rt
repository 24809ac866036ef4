//! Small scripts, played turn by turn: what each turn answers, which events the turns stand for, and
//! the logs that these leave. Each function does nothing: its contract is the case, and the proof
//! computes it. The scripts stand in `specs`, and what they are to give beside them, worked out by hand.
#![tactic(auto)]

ghost use Rattle.std.specs.Prelude.{◌≡◌, [], ◌∷◌};
ghost use Rattle.abstract_log.specs.declared.script.Step.TheVariants.{Send, Upgrade};
ghost use Rattle.abstract_log.specs.Runs.{IsRun};
ghost use Rattle.stage_world.specs.Idle.{IsIdleTurn};
ghost use Rattle.stage_cases.specs.Fitting.{IsInRange};
ghost use Rattle.stage_cases.specs.Idling.{idle_answers, idle_script};
ghost use Rattle.stage_cases.specs.Joining.{filter_answers, filter_script, join_answers, join_script};
ghost use Rattle.stage_cases.specs.Limits.{full_and_upgraded, full_link_answers, full_link_script, full_of_equals, no_commands, sixteen_answers, sixteen_script};
ghost use Rattle.stage_cases.specs.Linking.{cause_answers, cause_events, cause_script, lose_answers, lose_events, lose_script, put_of_x, put_of_y, repeat_answers, repeat_events, repeat_script, told_log};
ghost use Rattle.stage_cases.specs.Pieces.{answers_of, dc_a, dc_b, dc_c, events_in, gone_after, log_after};
ghost use Rattle.stage_cases.specs.Reading.{asked_answers, asked_events, asked_script, behind_answers, behind_events, behind_script, collect_answers, collect_events, collect_log, collect_script, floor_answers, floor_events, floor_script, gap_answers, gap_events, gap_script};
ghost use Rattle.stage_cases.specs.Sharing.{handed_answers, handed_script, late_answers, late_script};

/// A read is answered only once the head has passed what its session wrote: while a position below is
/// empty it waits, though the position that it asks for is filled.
pub fn a_read_waits_for_its_gap()
    ensures in_range { IsInRange gap_script }
    ensures answers { answers_of gap_script ≡ gap_answers }
    ensures events { events_in gap_script ≡ gap_events }
{}

/// A record that comes before one that its writer was shown is deferred until that one is there: each
/// log has the cause before the effect.
pub fn a_record_waits_for_its_cause()
    ensures in_range { IsInRange cause_script }
    ensures answers { answers_of cause_script ≡ cause_answers }
    ensures events { events_in cause_script ≡ cause_events }
    ensures log_a { log_after cause_script dc_a ≡ put_of_x ∷ [] }
    ensures log_b { log_after cause_script dc_b ≡ put_of_x ∷ put_of_y ∷ [] }
    ensures log_c { log_after cause_script dc_c ≡ put_of_x ∷ put_of_y ∷ [] }
{}

/// A message that comes three times is received three times, and its record is added once.
pub fn a_link_that_repeats()
    ensures in_range { IsInRange repeat_script }
    ensures answers { answers_of repeat_script ≡ repeat_answers }
    ensures events { events_in repeat_script ≡ repeat_events }
    ensures log_b { log_after repeat_script dc_b ≡ told_log }
{}

/// A record that the link loses is sent again, until it has arrived.
pub fn a_link_that_loses()
    ensures in_range { IsInRange lose_script }
    ensures answers { answers_of lose_script ≡ lose_answers }
    ensures events { events_in lose_script ≡ lose_events }
    ensures log_a { log_after lose_script dc_a ≡ told_log }
    ensures log_b { log_after lose_script dc_b ≡ told_log }
{}

/// A look-up waits for the head to reach what its session wrote, and then for the indexer to reach the head.
pub fn an_indexer_is_behind()
    ensures in_range { IsInRange behind_script }
    ensures answers { answers_of behind_script ≡ behind_answers }
    ensures events { events_in behind_script ≡ behind_events }
{}

/// A get-transaction reads all keys at one position. What it may still read is not collected; an older
/// put of a key goes once the newer one is at or below the floor.
pub fn two_keys_at_one_position_and_what_is_collected()
    ensures in_range { IsInRange collect_script }
    ensures answers { answers_of collect_script ≡ collect_answers }
    ensures events { events_in collect_script ≡ collect_events }
    ensures log { log_after collect_script dc_a ≡ collect_log }
    ensures gone { gone_after collect_script dc_a ≡ 1 ∷ [] }
{}

/// Maintainers and a queue join; a mark that is not above the last start is late.
pub fn members_join()
    ensures in_range { IsInRange join_script }
    ensures answers { answers_of join_script ≡ join_answers }
    ensures events { events_in join_script ≡ [] }
{}

/// One filter more serves a host, once every filter has accepted the mark.
pub fn one_filter_more()
    ensures in_range { IsInRange filter_script }
    ensures answers { answers_of filter_script ≡ filter_answers }
    ensures events { events_in filter_script ≡ [] }
{}

/// A session whose vector is below the collection floor does not read until it has heard more.
pub fn the_floor_and_a_head_below_it()
    ensures in_range { IsInRange floor_script }
    ensures answers { answers_of floor_script ≡ floor_answers }
    ensures events { events_in floor_script ≡ floor_events }
{}

/// A session is told of tags, keys and positions that are there, and of those that are not: beyond the
/// head, never put, or collected.
pub fn a_session_asks_for_what_is_not_there()
    ensures in_range { IsInRange asked_script }
    ensures answers { answers_of asked_script ≡ asked_answers }
    ensures events { events_in asked_script ≡ asked_events }
{}

/// While filters are asked, what the announced filter may come to pass waits. A filter that has passed
/// the mark calls it off, and what waited goes on.
pub fn a_mark_that_is_late()
    ensures in_range { IsInRange late_script }
    ensures answers { answers_of late_script ≡ late_answers }
{}

/// A filter more takes over the records that waited and are its own by the grown map.
pub fn a_new_filter_takes_over()
    ensures in_range { IsInRange handed_script }
    ensures answers { answers_of handed_script ≡ handed_answers }
{}

/// A turn with nothing to do says so, and so does a turn of a member that is not there.
pub fn members_with_nothing_to_do()
    ensures in_range { IsInRange idle_script }
    ensures answers { answers_of idle_script ≡ idle_answers }
{}

/// No stage has a seventeenth member.
pub fn sixteen_members_at_most()
    ensures answers { answers_of sixteen_script ≡ sixteen_answers }
{}

/// Of 65 messages in a link the oldest is lost.
pub fn a_full_link_loses_its_oldest()
    ensures answers { answers_of full_link_script ≡ full_link_answers }
{}

/// Where the link is full of messages that equal the new one, a send is idle: nothing is another than it was. So it is where
/// the new one is written in another form, since messages are compared and not bytes.
pub fn a_send_that_changes_nothing_is_idle()
    ensures same { IsIdleTurn no_commands full_of_equals (Send dc_b 0 dc_a) }
    ensures upgraded { IsIdleTurn no_commands full_and_upgraded (Send dc_b 0 dc_a) }
{}

/// A datacentre is upgraded once; to upgrade it again is idle.
pub fn a_second_upgrade_is_idle()
    ensures { IsIdleTurn no_commands full_and_upgraded (Upgrade dc_b) }
{}

/// The events of these cases are runs of the log, by the law of schedules.
pub fn the_cases_are_runs()
    ensures gap { IsRun gap_script.workload gap_events }
    ensures cause { IsRun cause_script.workload cause_events }
    ensures repeat { IsRun repeat_script.workload repeat_events }
    ensures lose { IsRun lose_script.workload lose_events }
    ensures behind { IsRun behind_script.workload behind_events }
    ensures collect { IsRun collect_script.workload collect_events }
    ensures floor { IsRun floor_script.workload floor_events }
    ensures asked { IsRun asked_script.workload asked_events }
{}
