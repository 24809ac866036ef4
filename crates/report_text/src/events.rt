//! The lines of commands, events and replies.

ghost use Rattle.std.specs.Prelude.{◌≡◌, ◌∷◌, [], ◌++◌, codes, OnOk};
ghost use Rattle.std.specs.List.{flat_map};
ghost use Rattle.abstract_log.specs.declared.event.Event.TheVariants.{Append, Collect, Learn, Submit};
ghost use Rattle.std.specs.Fmt.{decimal};
ghost use Rattle.report_text.specs.Lines.{line_text, lines_text, spaced, words_text};
ghost use Rattle.report_text.specs.Values.{letter, name_word, names_words, table_word};
ghost use Rattle.report_text.specs.Report.{answer_words, command_lines, command_words, event_lines, event_words, found_words, index_words, plan_lines, read_words, replies_of, reply_lines, shown_at_words, shown_words, written_words};

use crate::text::Text;
use crate::values::{
    counts_after, kind_name, letter_word, put_body, put_keys, put_name, put_names, put_place,
    put_places, table_after,
};
use abstract_log::{Answer, Command, Event, Found, ReadAnswer, SessionPlan};
use causal_deps::{BoxedCounts, BoxedTable, Place, Table};
use cz_base::{Body, DcId, Lid, Name, NoMemory, Seq, Toid};

/// The line of each session, and those of its commands. It fails only where memory runs out.
pub fn put_plans(text: &mut Text, plans: &Seq<SessionPlan>) -> Result<(), NoMemory>
    ensures { OnOk result (text.new ≡ text.old ++ lines_text (flat_map plan_lines plans.now)) }
{
    for plan in plans.as_slice() {
        put_plan(text, plan)?;
    }
    Ok(())
}

// The line of a session, and those of its commands.
fn put_plan(text: &mut Text, plan: &SessionPlan) -> Result<(), NoMemory>
    ensures { OnOk result (text.new ≡ text.old ++ lines_text (plan_lines plan.now)) }
{
    text.put(b"session")?;
    letter_word(text, plan.home)?;
    text.end_line()?;
    put_commands(text, &plan.commands)
}

// A line for each command.
fn put_commands(text: &mut Text, commands: &Seq<Command>) -> Result<(), NoMemory>
    ensures { OnOk result (text.new ≡ text.old ++ lines_text (flat_map command_lines commands.now)) }
{
    for command in commands.as_slice() {
        put_command_line(text, command)?;
    }
    Ok(())
}

// The line of a command.
fn put_command_line(text: &mut Text, command: &Command) -> Result<(), NoMemory>
    ensures { OnOk result (text.new ≡ text.old ++ line_text (command_words command.now)) }
{
    put_command(text, command)?;
    text.end_line()
}

// The line of a command, without its end.
fn put_command(text: &mut Text, command: &Command) -> Result<(), NoMemory>
    ensures { OnOk result (text.new ≡ text.old ++ words_text (command_words command.now)) }
{
    match command {
        Command::Append { tags, body } => {
            text.put(b"append")?;
            put_shown(text, body, tags)
        }
        Command::Put { key, body } => {
            text.put(b"put")?;
            text.word(key.as_bytes())?;
            put_body(text, body)
        }
        Command::Del { key } => {
            text.put(b"del")?;
            text.word(key.as_bytes())
        }
        Command::Get { key } => {
            text.put(b"get")?;
            text.word(key.as_bytes())
        }
        Command::Tx { keys } => {
            text.put(b"tx")?;
            put_keys(text, keys)
        }
        Command::Read { lid } => {
            text.put(b"read")?;
            text.number(*lid)
        }
        Command::Last { tag, count } => {
            text.put(b"last")?;
            text.word(tag.as_bytes())?;
            text.number(u64::from(*count))
        }
    }
}

/// A line for each event. It fails only where memory runs out.
pub fn put_events(text: &mut Text, events: &Seq<Event>) -> Result<(), NoMemory>
    ensures { OnOk result (text.new ≡ text.old ++ lines_text (flat_map event_lines events.now)) }
{
    for event in events.as_slice() {
        put_event_line(text, event)?;
    }
    Ok(())
}

// The line of an event.
fn put_event_line(text: &mut Text, event: &Event) -> Result<(), NoMemory>
    ensures { OnOk result (text.new ≡ text.old ++ line_text (event_words event.now)) }
{
    put_event(text, event)?;
    text.end_line()
}

// The line of an event, without its end.
fn put_event(text: &mut Text, event: &Event) -> Result<(), NoMemory>
    ensures { OnOk result (text.new ≡ text.old ++ words_text (event_words event.now)) }
{
    match event {
        Event::Submit { session, index } => put_begun(text, *session, *index),
        Event::Append {
            dc,
            session,
            index,
            lid,
            toid,
        } => put_appended(text, *dc, *session, *index, *lid, *toid),
        Event::Receive {
            dc,
            from,
            table,
            names,
        } => put_received(text, b"receive", *dc, *from, table, names),
        Event::Add {
            dc,
            lid,
            host,
            toid,
        } => put_added(text, b"add", *dc, *lid, *host, *toid),
        Event::Learn { dc, row } => put_learnt(text, *dc, row),
        Event::Reply {
            dc,
            session,
            index,
            at,
            answer,
        } => put_replied(text, *dc, *session, *index, *at, answer.get()),
        Event::Collect { dc, lid } => put_collected(text, *dc, *lid),
    }
}

// A session began a command.
fn put_begun(text: &mut Text, session: u32, index: u32) -> Result<(), NoMemory>
    ensures { OnOk result (text.new ≡ text.old ++ words_text (event_words (Submit session index))) }
{
    text.put(b"submit")?;
    put_index(text, session, index)
}

// A command's record came into the log of its datacentre.
fn put_appended(
    text: &mut Text,
    dc: DcId,
    session: u32,
    index: u32,
    lid: Lid,
    toid: Toid,
) -> Result<(), NoMemory>
    ensures { OnOk result (text.new ≡ text.old ++ words_text (event_words (Append dc session index lid toid))) }
{
    put_added(text, b"append", dc, lid, dc, toid)?;
    put_index(text, session, index)
}

// A datacentre learnt what its log has.
fn put_learnt(text: &mut Text, dc: DcId, row: &BoxedCounts) -> Result<(), NoMemory>
    ensures { OnOk result (text.new ≡ text.old ++ words_text (event_words (Learn dc row.now))) }
{
    text.put(b"learn")?;
    letter_word(text, dc)?;
    counts_after(text, &row.get())
}

// A command was answered at a position.
fn put_replied(
    text: &mut Text,
    dc: DcId,
    session: u32,
    index: u32,
    at: Lid,
    answer: &Answer,
) -> Result<(), NoMemory>
    ensures { OnOk result (text.new ≡ text.old ++ words_text (codes "reply" ∷ letter dc ∷ (index_words session index ++ decimal at ∷ answer_words answer.now))) }
{
    text.put(b"reply")?;
    letter_word(text, dc)?;
    put_index(text, session, index)?;
    text.number(at)?;
    put_answer(text, answer)
}

// A record was collected at a datacentre.
fn put_collected(text: &mut Text, dc: DcId, lid: Lid) -> Result<(), NoMemory>
    ensures { OnOk result (text.new ≡ text.old ++ words_text (event_words (Collect dc lid))) }
{
    text.put(b"collect")?;
    letter_word(text, dc)?;
    text.number(lid)
}

// A record that came into the log of a datacentre.
fn put_added(
    text: &mut Text,
    word: &[u8],
    dc: DcId,
    lid: Lid,
    host: DcId,
    toid: Toid,
) -> Result<(), NoMemory>
    ensures { OnOk result (text.new ≡ text.old ++ words_text (word.now ∷ letter dc ∷ decimal lid ∷ name_word host toid ∷ [])) }
{
    text.put(word)?;
    letter_word(text, dc)?;
    text.number(lid)?;
    put_name(text, host, toid)
}

// What a datacentre heard from another: what that one knows, and the names of the records that came.
fn put_received(
    text: &mut Text,
    word: &[u8],
    dc: DcId,
    from: DcId,
    table: &BoxedTable,
    names: &Seq<(DcId, Toid)>,
) -> Result<(), NoMemory>
    ensures { OnOk result (text.new ≡ text.old ++ words_text (word.now ∷ letter dc ∷ letter from ∷ table_word table.now ∷ names_words names.now)) }
{
    put_heard(text, word, dc, from, &table.get())?;
    put_names(text, names)
}

// A datacentre, another that it hears from, and what that one knows.
fn put_heard(
    text: &mut Text,
    word: &[u8],
    dc: DcId,
    from: DcId,
    table: &Table,
) -> Result<(), NoMemory>
    ensures { OnOk result (text.new ≡ text.old ++ words_text (word.now ∷ letter dc ∷ letter from ∷ table_word table.now ∷ [])) }
{
    text.put(word)?;
    letter_word(text, dc)?;
    letter_word(text, from)?;
    table_after(text, table)
}

// A command, by its session and its number there.
fn put_index(text: &mut Text, session: u32, index: u32) -> Result<(), NoMemory>
    ensures { OnOk result (text.new ≡ text.old ++ spaced (index_words session index)) }
{
    text.number(u64::from(session))?;
    text.number(u64::from(index))
}

/// The words of an answer, with a space before each.
pub fn put_answer(text: &mut Text, answer: &Answer) -> Result<(), NoMemory>
    ensures { OnOk result (text.new ≡ text.old ++ spaced (answer_words answer.now)) }
{
    match answer {
        Answer::Written(place) => {
            text.word(b"written")?;
            put_place(text, place)
        }
        Answer::Items(items) => put_items(text, items),
        Answer::Read(shown) => put_read(text, shown),
        Answer::Last(places) => {
            text.word(b"last")?;
            put_places(text, places)
        }
    }
}

// The words of each value that was found.
fn put_items(text: &mut Text, items: &Seq<Found>) -> Result<(), NoMemory>
    ensures { OnOk result (text.new ≡ text.old ++ spaced (flat_map found_words items.now)) }
{
    for item in items.as_slice() {
        put_found(text, item)?;
    }
    Ok(())
}

// The words of one.
fn put_found(text: &mut Text, found: &Found) -> Result<(), NoMemory>
    ensures { OnOk result (text.new ≡ text.old ++ spaced (found_words found.now)) }
{
    match found {
        Found::Absent => text.word(b"absent"),
        Found::At { place, body } => {
            text.word(b"found")?;
            put_place(text, place)?;
            put_body(text, body)
        }
        Found::Deleted { place } => {
            text.word(b"deleted")?;
            put_place(text, place)
        }
    }
}

// The words of what stands at a position.
fn put_read(text: &mut Text, shown: &ReadAnswer) -> Result<(), NoMemory>
    ensures { OnOk result (text.new ≡ text.old ++ spaced (read_words shown.now)) }
{
    match shown {
        ReadAnswer::Beyond => text.word(b"beyond"),
        ReadAnswer::Gone => text.word(b"gone"),
        ReadAnswer::Shown {
            place,
            kind,
            body,
            tags,
        } => {
            text.word(b"record")?;
            put_place(text, place)?;
            text.word(kind_name(*kind))?;
            put_shown(text, body, tags)
        }
    }
}

/// A body and tags, with a space before each.
pub fn put_shown(text: &mut Text, body: &Body, tags: &Seq<Name>) -> Result<(), NoMemory>
    ensures { OnOk result (text.new ≡ text.old ++ spaced (shown_words body.now tags.now)) }
{
    put_body(text, body)?;
    put_keys(text, tags)
}

/// A line for each reply of a session, in the order of its commands.
pub fn put_replies(text: &mut Text, session: u32, events: &Seq<Event>) -> Result<(), NoMemory>
    ensures { OnOk result (text.new ≡ text.old ++ lines_text (replies_of events.now session)) }
{
    for event in events.as_slice() {
        put_reply(text, session, event)?;
    }
    Ok(())
}

// The line of a reply of the session, where the event is one.
fn put_reply(text: &mut Text, session: u32, event: &Event) -> Result<(), NoMemory>
    ensures { OnOk result (text.new ≡ text.old ++ lines_text (reply_lines session event.now)) }
{
    match event {
        Event::Append {
            dc,
            session: of,
            index,
            lid,
            toid,
        } if *of == session => put_written(text, *dc, session, *index, *lid, *toid),
        Event::Reply {
            session: of,
            index,
            at,
            answer,
            ..
        } if *of == session => put_shown_at(text, session, *index, *at, answer.get()),
        _ => Ok(()),
    }
}

// The line of a write: where its record stands.
fn put_written(
    text: &mut Text,
    dc: DcId,
    session: u32,
    index: u32,
    lid: Lid,
    toid: Toid,
) -> Result<(), NoMemory>
    ensures { OnOk result (text.new ≡ text.old ++ line_text (written_words dc session index lid toid)) }
{
    text.put_number(u64::from(session))?;
    text.number(u64::from(index))?;
    text.word(b"written")?;
    put_place(
        text,
        &Place {
            lid,
            host: dc,
            toid,
        },
    )?;
    text.end_line()
}

// The line of another command: what it was shown, and at which position.
fn put_shown_at(
    text: &mut Text,
    session: u32,
    index: u32,
    at: Lid,
    answer: &Answer,
) -> Result<(), NoMemory>
    ensures { OnOk result (text.new ≡ text.old ++ line_text (shown_at_words session index at answer.now)) }
{
    text.put_number(u64::from(session))?;
    text.number(u64::from(index))?;
    text.labelled(b"at", at)?;
    put_answer(text, answer)?;
    text.end_line()
}
