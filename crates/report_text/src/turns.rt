//! The lines of stage turns.

ghost use Rattle.std.specs.Prelude.{◌≡◌, ◌∷◌, [], ◌++◌, OnOk};
ghost use Rattle.abstract_log.specs.declared.script.Outcome.TheVariants.{Behind, Below, EpochAdded, Key, LateAt, Sent, Stamped, Unacknowledged, Waiting};
ghost use Rattle.report_text.specs.Lines.{line_text, lines_text, spaced, with_space};
ghost use Rattle.report_text.specs.Turns.{flush_words, flushes_words, item_word, link_words, outcome_words, stage_lines, stage_words, step_arguments, step_keyword, way_word};
ghost use Rattle.std.specs.List.{flat_map};
ghost use Rattle.std.specs.Fmt.{decimal};
ghost use Rattle.report_text.specs.Values.{letter};

use crate::text::Text;
use crate::values::{
    counts_after, letter_word, put_draft, put_lids, put_name, put_names, put_places,
};
use abstract_log::{FlushItem, ItemName, Outcome, StageLine, StageLog, Step, Way};
use causal_deps::Place;
use cz_base::{DcId, Lid, NoMemory, Seq, Toid};

/// A line for each turn of settling, or for each of the script's steps, as is asked. It fails only where memory runs
/// out.
pub fn put_stages(text: &mut Text, stages: &StageLog, settling: bool) -> Result<(), NoMemory>
    ensures { OnOk result (text.new ≡ text.old ++ lines_text (flat_map (stage_lines settling) stages.now)) }
{
    for line in stages.as_slice() {
        put_stage_if(text, line, settling)?;
    }
    Ok(())
}

// The line of a turn, where it is one of those.
fn put_stage_if(text: &mut Text, line: &StageLine, settling: bool) -> Result<(), NoMemory>
    ensures { OnOk result (text.new ≡ text.old ++ lines_text (stage_lines settling line.now)) }
{
    if line.settling == settling {
        put_stage(text, line)?;
    }
    Ok(())
}

// The line of a turn: its step line, an arrow, and what it answered.
fn put_stage(text: &mut Text, line: &StageLine) -> Result<(), NoMemory>
    ensures { OnOk result (text.new ≡ text.old ++ line_text (stage_words line.now)) }
{
    text.put(keyword(&line.step))?;
    put_arguments(text, &line.step)?;
    text.word(b"->")?;
    put_outcome(text, &line.outcome)?;
    text.end_line()
}

// The first word of a step line.
fn keyword(step: &Step) -> &'static [u8]
    ensures { result.now ≡ step_keyword step.now }
{
    match step {
        Step::Client { .. } => b"client",
        Step::Flush { .. } => b"flush",
        Step::Pass { .. } => b"pass",
        Step::Stamp { .. } => b"stamp",
        Step::Token { .. } => b"token",
        Step::Place { .. } => b"place",
        Step::Gossip { .. } => b"gossip",
        Step::Post { .. } => b"post",
        Step::Learn { .. } => b"learn",
        Step::Send { .. } => b"send",
        Step::Deliver { .. } => b"deliver",
        Step::Lose { .. } => b"lose",
        Step::Copy { .. } => b"copy",
        Step::Floor { .. } => b"floor",
        Step::Collect { .. } => b"collect",
        Step::Announce { .. } => b"announce",
        Step::Mark { .. } => b"mark",
        Step::AddMaintainer { .. } => b"addmaintainer",
        Step::AddBatcher { .. } => b"addbatcher",
        Step::AddQueue { .. } => b"addqueue",
        Step::AddSender { .. } => b"addsender",
        Step::AddReceiver { .. } => b"addreceiver",
        Step::Upgrade { .. } => b"upgrade",
    }
}

// The words behind it: datacentres by letter, members and packets by number.
fn put_arguments(text: &mut Text, step: &Step) -> Result<(), NoMemory>
    ensures { OnOk result (text.new ≡ text.old ++ spaced (step_arguments step.now)) }
{
    match step {
        Step::Client { s } => text.number(u64::from(*s)),
        Step::Flush { d, b } => put_member(text, *d, *b),
        Step::Pass { d, f, q } => put_two(text, *d, *f, *q),
        Step::Stamp { d, q } => put_member(text, *d, *q),
        Step::Token { d } => letter_word(text, *d),
        Step::Place { d, q, m } => put_two(text, *d, *q, *m),
        Step::Gossip { d, m, k } => put_two(text, *d, *m, *k),
        Step::Post { d, m, i } => put_two(text, *d, *m, *i),
        Step::Learn { d } => letter_word(text, *d),
        Step::Send { d, k, e } => put_sender(text, *d, *k, *e),
        Step::Deliver { d, e, k, r } => put_delivery(text, *d, *e, *k, *r),
        Step::Lose { d, e, k } => put_packet(text, *d, *e, u64::from(*k)),
        Step::Copy { d, e, k } => put_packet(text, *d, *e, u64::from(*k)),
        Step::Floor { d, p } => put_position(text, *d, *p),
        Step::Collect { d, m } => put_member(text, *d, *m),
        Step::Announce { d, h, t } => put_packet(text, *d, *h, *t),
        Step::Mark { d } => letter_word(text, *d),
        Step::AddMaintainer { d, p } => put_position(text, *d, *p),
        Step::AddBatcher { d } => letter_word(text, *d),
        Step::AddQueue { d } => letter_word(text, *d),
        Step::AddSender { d } => letter_word(text, *d),
        Step::AddReceiver { d } => letter_word(text, *d),
        Step::Upgrade { d } => letter_word(text, *d),
    }
}

// A datacentre and a number.
fn put_position(text: &mut Text, d: DcId, p: Lid) -> Result<(), NoMemory>
    ensures { OnOk result (text.new ≡ text.old ++ spaced (letter d ∷ decimal p ∷ [])) }
{
    letter_word(text, d)?;
    text.number(p)
}

// A datacentre and a member.
fn put_member(text: &mut Text, d: DcId, member: u32) -> Result<(), NoMemory>
    ensures { OnOk result (text.new ≡ text.old ++ spaced (letter d ∷ decimal member ∷ [])) }
{
    put_position(text, d, u64::from(member))
}

// A datacentre and two members.
fn put_two(text: &mut Text, d: DcId, member: u32, other: u32) -> Result<(), NoMemory>
    ensures { OnOk result (text.new ≡ text.old ++ spaced (letter d ∷ decimal member ∷ decimal other ∷ [])) }
{
    put_member(text, d, member)?;
    text.number(u64::from(other))
}

// A datacentre, a sender, and the datacentre that it sends to.
fn put_sender(text: &mut Text, d: DcId, sender: u32, e: DcId) -> Result<(), NoMemory>
    ensures { OnOk result (text.new ≡ text.old ++ spaced (letter d ∷ decimal sender ∷ letter e ∷ [])) }
{
    put_member(text, d, sender)?;
    letter_word(text, e)
}

// Two datacentres and a number.
fn put_packet(text: &mut Text, d: DcId, e: DcId, k: u64) -> Result<(), NoMemory>
    ensures { OnOk result (text.new ≡ text.old ++ spaced (letter d ∷ letter e ∷ decimal k ∷ [])) }
{
    letter_word(text, d)?;
    letter_word(text, e)?;
    text.number(k)
}

// Two datacentres, a packet and a receiver.
fn put_delivery(text: &mut Text, d: DcId, e: DcId, k: u32, r: u32) -> Result<(), NoMemory>
    ensures { OnOk result (text.new ≡ text.old ++ spaced (letter d ∷ letter e ∷ decimal k ∷ decimal r ∷ [])) }
{
    put_packet(text, d, e, u64::from(k))?;
    text.number(u64::from(r))
}

// What a turn answered.
fn put_outcome(text: &mut Text, outcome: &Outcome) -> Result<(), NoMemory>
    ensures { OnOk result (text.new ≡ text.old ++ spaced (outcome_words outcome.now)) }
{
    match outcome {
        Outcome::Absent => text.word(b"none"),
        Outcome::Unacknowledged { k } => put_unacknowledged(text, *k),
        Outcome::Finished => text.word(b"finished"),
        Outcome::Submitted { k } => text.labelled(b"submitted", u64::from(*k)),
        Outcome::Replied { k } => text.labelled(b"replied", u64::from(*k)),
        Outcome::Waiting { k, floor, head } => put_waiting(text, *k, *floor, *head),
        Outcome::Below { k, floor } => put_below(text, *k, *floor),
        Outcome::Behind { k, covered } => put_behind(text, *k, *covered),
        Outcome::Key { k, done, of, at } => put_key(text, *k, *done, *of, *at),
        Outcome::Empty => text.word(b"empty"),
        Outcome::Flushed { items } => put_flushed(text, items),
        Outcome::PassedOn { count } => text.number(*count),
        Outcome::NoToken => text.word(b"no token"),
        Outcome::Stamped { places, deferred } => put_stamped(text, places, *deferred),
        Outcome::At { queue } => text.labelled(b"at", u64::from(*queue)),
        Outcome::Placed { lids } => put_lids(text, lids),
        Outcome::Head { at } => text.labelled(b"head", *at),
        Outcome::Covered { at } => text.labelled(b"covered", *at),
        Outcome::Learnt { row } => counts_after(text, &row.get()),
        Outcome::Sent { names, link, lost } => put_sent(text, names, *link, *lost),
        Outcome::NoRecords => text.word(b"no records"),
        Outcome::Received { names } => put_names(text, names),
        Outcome::Lost => text.word(b"lost"),
        Outcome::Copied { link, lost } => put_link(text, *link, *lost),
        Outcome::FloorAt { floor } => text.labelled(b"floor", *floor),
        Outcome::Nothing => text.word(b"nothing"),
        Outcome::Collected { lids } => put_lids(text, lids),
        Outcome::Announced => text.word(b"announced"),
        Outcome::Busy => text.word(b"busy"),
        Outcome::LateStart { start } => text.labelled(b"late", *start),
        Outcome::Idle => text.word(b"idle"),
        Outcome::AcceptedBy { filter } => text.labelled(b"accepted", u64::from(*filter)),
        Outcome::LateAt { filter, passed } => put_late(text, *filter, *passed),
        Outcome::Active { filters } => text.labelled(b"active", u64::from(*filters)),
        Outcome::LateMark { bound } => text.labelled(b"late", *bound),
        Outcome::EpochAdded { start, members } => put_epoch(text, *start, *members),
        Outcome::Member { number } => text.labelled(b"member", u64::from(*number)),
        Outcome::Form2 => text.labelled(b"form", 2),
    }
}

// The command is a write that has no place yet.
fn put_unacknowledged(text: &mut Text, k: u32) -> Result<(), NoMemory>
    ensures { OnOk result (text.new ≡ text.old ++ spaced (outcome_words (Unacknowledged k))) }
{
    text.labelled(b"unacknowledged", u64::from(k))
}

// The head is below what the session has seen.
fn put_waiting(text: &mut Text, k: u32, floor: Lid, head: Lid) -> Result<(), NoMemory>
    ensures { OnOk result (text.new ≡ text.old ++ spaced (outcome_words (Waiting k floor head))) }
{
    text.labelled(b"waiting", u64::from(k))?;
    text.labelled(b"floor", floor)?;
    text.labelled(b"head", head)
}

// The head is below the floor.
fn put_below(text: &mut Text, k: u32, floor: Lid) -> Result<(), NoMemory>
    ensures { OnOk result (text.new ≡ text.old ++ spaced (outcome_words (Below k floor))) }
{
    text.labelled(b"below", u64::from(k))?;
    text.labelled(b"floor", floor)
}

// The indexer does not reach so far.
fn put_behind(text: &mut Text, k: u32, covered: Lid) -> Result<(), NoMemory>
    ensures { OnOk result (text.new ≡ text.old ++ spaced (outcome_words (Behind k covered))) }
{
    text.labelled(b"behind", u64::from(k))?;
    text.labelled(b"covered", covered)
}

// So many keys are answered.
fn put_key(text: &mut Text, k: u32, done: u32, of: u32, at: Lid) -> Result<(), NoMemory>
    ensures { OnOk result (text.new ≡ text.old ++ spaced (outcome_words (Key k done of at))) }
{
    text.labelled(b"key", u64::from(k))?;
    text.number(u64::from(done))?;
    text.labelled(b"of", u64::from(of))?;
    text.labelled(b"at", at)
}

// The places of what was stamped, and how many items wait on.
fn put_stamped(text: &mut Text, places: &Seq<Place>, deferred: u64) -> Result<(), NoMemory>
    ensures { OnOk result (text.new ≡ text.old ++ spaced (outcome_words (Stamped places.now deferred))) }
{
    put_places(text, places)?;
    text.labelled(b"deferred", deferred)
}

// The names of what was sent, and the packets of the link.
fn put_sent(
    text: &mut Text,
    names: &Seq<(DcId, Toid)>,
    link: u32,
    lost: bool,
) -> Result<(), NoMemory>
    ensures { OnOk result (text.new ≡ text.old ++ spaced (outcome_words (Sent names.now link lost))) }
{
    put_names(text, names)?;
    put_link(text, link, lost)
}

// A filter has passed a later record.
fn put_late(text: &mut Text, filter: u32, passed: Lid) -> Result<(), NoMemory>
    ensures { OnOk result (text.new ≡ text.old ++ spaced (outcome_words (LateAt filter passed))) }
{
    text.labelled(b"late", u64::from(filter))?;
    text.number(passed)
}

// So many maintainers own positions from there on.
fn put_epoch(text: &mut Text, start: Lid, members: u32) -> Result<(), NoMemory>
    ensures { OnOk result (text.new ≡ text.old ++ spaced (outcome_words (EpochAdded start members))) }
{
    text.labelled(b"epoch", start)?;
    text.number(u64::from(members))
}

// The packets of a link, and whether the oldest was lost.
fn put_link(text: &mut Text, link: u32, lost: bool) -> Result<(), NoMemory>
    ensures { OnOk result (text.new ≡ text.old ++ spaced (link_words link lost)) }
{
    text.labelled(b"link", u64::from(link))?;
    if lost { text.word(b"lost") } else { Ok(()) }
}

// The words of each item that was handed to a filter.
fn put_flushed(text: &mut Text, items: &Seq<FlushItem>) -> Result<(), NoMemory>
    ensures { OnOk result (text.new ≡ text.old ++ spaced (flushes_words items.now)) }
{
    for item in items.as_slice() {
        put_flush(text, item)?;
    }
    Ok(())
}

// An item, its filter, and what became of it there.
fn put_flush(text: &mut Text, item: &FlushItem) -> Result<(), NoMemory>
    ensures { OnOk result (text.new ≡ text.old ++ spaced (flush_words item.now)) }
{
    put_item(text, &item.name)?;
    text.number(u64::from(item.filter))?;
    text.word(way_name(item.way))
}

// What an item is called.
fn put_item(text: &mut Text, name: &ItemName) -> Result<(), NoMemory>
    ensures { OnOk result (text.new ≡ text.old ++ with_space (item_word name.now)) }
{
    match name {
        ItemName::Draft { session, index } => put_draft(text, *session, *index),
        ItemName::External { host, toid } => put_name(text, *host, *toid),
    }
}

// What became of an item.
fn way_name(way: Way) -> &'static [u8]
    ensures { result.now ≡ way_word way }
{
    match way {
        Way::Passed => b"passed",
        Way::Held => b"held",
        Way::Dropped => b"dropped",
    }
}
