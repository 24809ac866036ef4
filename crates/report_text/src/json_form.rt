//! The logs and the replies of a run as JSON, in one line.

ghost use Rattle.std.specs.Prelude.{◌≡◌, false, ◌∷◌, [], ◌++◌, map, codes, IfOk, OnOk};
ghost use Rattle.std.specs.Fmt.{decimal};
ghost use Rattle.abstract_log.specs.declared.answer.Answer.TheVariants.{Written};
ghost use Rattle.abstract_log.specs.Fits.{FitsLimits};
ghost use Rattle.abstract_log.specs.Left.{left_of};
ghost use Rattle.abstract_log.specs.Runs.{world_of};
ghost use Rattle.serde_json.specs.View.{members_view, view};
ghost use Rattle.serde_json.specs.Written.{compact_text, has_float};
ghost use Rattle.report_text.specs.Json.{answered_data, answered_text, gone_data, json_data, json_text, list_data, log_data, logs_data, number_data, record_data, replies_data, reply_items, row_data, session_items, text_data, with_content, with_writer};
ghost use Rattle.report_text.specs.Report.{answer_words};
ghost use Rattle.report_text.specs.Values.{letter};

use crate::events::put_answer;
use crate::text::Text;
use crate::values::{kind_name, put_place};
use abstract_log::{Answer, Event, Left, LeftAt, Row, Run};
use causal_deps::{Counts, Place, Record};
use cz_base::{DcId, Lid, Name, NoMemory, Seq, Toid};
use serde_json::{Map, Value, json, put};
use std::alloc::Global;

/// The logs and the replies as one JSON object on a line of its own. It fails only where memory runs out.
pub fn json(alloc: Global, run: &Run, left: &Left) -> Result<Vec<u8>, NoMemory>
    requires limits { FitsLimits run.now.workload }
    requires left { left.now ≡ left_of (world_of run.now.workload run.now.events) }
    ensures { IfOk result (λ bytes. bytes.items ≡ json_text run.now) }
{
    let whole = whole_value(alloc, run, left)?;
    let mut line = compact(alloc, &whole)?;
    line.push(b'\n')?;
    Ok(line)
}

// The text of a value, with no space.
fn compact(alloc: Global, value: &Value) -> Result<Vec<u8>, NoMemory>
    ensures { IfOk result (λ bytes. has_float (view value.now) ≡ false → bytes.items ≡ compact_text (view value.now)) }
{
    Ok(value.to_string(alloc)?.into_bytes())
}

// The object of the whole.
fn whole_value(alloc: Global, run: &Run, left: &Left) -> Result<Value, NoMemory>
    requires limits { FitsLimits run.now.workload }
    requires left { left.now ≡ left_of (world_of run.now.workload run.now.events) }
    ensures { IfOk result (λ value. view value ≡ json_data run.now) }
{
    let logs = logs_value(alloc, left)?;
    let replies = replies_value(alloc, run.workload.sessions.len() as u32, &run.events)?;
    Ok(json!(in alloc; {"logs": logs, "replies": replies})?)
}

// The text that bytes spell.
fn text_value(alloc: Global, bytes: &[u8]) -> Result<Value, NoMemory>
    ensures { IfOk result (λ value. view value ≡ text_data bytes.now) }
{
    Ok(Value::String(String::from_utf8_lossy(alloc, bytes)?))
}

// The letter of a datacentre.
fn letter_value(alloc: Global, dc: DcId) -> Result<Value, NoMemory>
    ensures { IfOk result (λ value. view value ≡ text_data (letter dc)) }
{
    text_value(alloc, &[b'A' + dc.number() as u8])
}

// A number for each datacentre.
fn counts_value(alloc: Global, counts: &Counts) -> Result<Value, NoMemory>
    ensures { IfOk result (λ value. view value ≡ list_data (map number_data counts.now)) }
{
    let mut items = Vec::with_capacity(alloc, counts.dcs() as usize)?;
    for number in 0..counts.dcs() {
        if let Some(dc) = DcId::new(number) {
            items.push(Value::from(counts.get(dc)))?;
        }
    }
    Ok(Value::Array(items))
}

// The tags of a record, in their order.
fn tags_value(alloc: Global, tags: &Seq<Name>) -> Result<Value, NoMemory>
    ensures { IfOk result (λ value. view value ≡ list_data (map text_data tags.now)) }
{
    let mut items = Vec::with_capacity(alloc, tags.len())?;
    for tag in tags.as_slice() {
        items.push(text_value(alloc, tag.as_bytes())?)?;
    }
    Ok(Value::Array(items))
}

// A position with its record.
#[tactic(auto, using(crate::proofs::JsonLemmas::record_is))]
fn record_value(alloc: Global, lid: Lid, rec: &Record) -> Result<Value, NoMemory>
    ensures { IfOk result (λ value. view value ≡ record_data lid rec.now) }
{
    let mut members = Map::new(alloc);
    put_content(alloc, rec, &mut members)?;
    put_writer(alloc, rec, &mut members)?;
    put(&mut members, alloc, "lid", Value::from(lid))?;
    Ok(Value::Object(members))
}

// What a record carries and depends on.
fn put_content(
    alloc: Global,
    rec: &Record,
    members: &mut Map<String, Value>,
) -> Result<(), NoMemory>
    ensures { OnOk result (members_view members.new.entries ≡ with_content rec.now (members_view members.old.entries)) }
{
    put(
        members,
        alloc,
        "body",
        text_value(alloc, rec.body.as_bytes())?,
    )?;
    put(members, alloc, "deps", counts_value(alloc, &rec.dep)?)?;
    put(
        members,
        alloc,
        "kind",
        text_value(alloc, kind_name(rec.kind))?,
    )?;
    put(members, alloc, "tags", tags_value(alloc, &rec.tags)?)?;
    Ok(())
}

// Who wrote it.
fn put_writer(alloc: Global, rec: &Record, members: &mut Map<String, Value>) -> Result<(), NoMemory>
    ensures { OnOk result (members_view members.new.entries ≡ with_writer rec.now (members_view members.old.entries)) }
{
    put(members, alloc, "host", letter_value(alloc, rec.host)?)?;
    put(members, alloc, "index", Value::from(rec.index))?;
    put(members, alloc, "session", Value::from(rec.session))?;
    put(members, alloc, "toid", Value::from(rec.toid))?;
    Ok(())
}

// A position of which the name alone is left.
fn gone_value(alloc: Global, lid: Lid, host: DcId, toid: Toid) -> Result<Value, NoMemory>
    ensures { IfOk result (λ value. view value ≡ gone_data lid host toid) }
{
    let host = letter_value(alloc, host)?;
    Ok(json!(in alloc; {"gone": true, "host": host, "lid": lid, "toid": toid})?)
}

// What stands at a position.
fn row_value(alloc: Global, lid: Lid, row: &Row) -> Result<Value, NoMemory>
    ensures { IfOk result (λ value. view value ≡ row_data lid row.now) }
{
    match row {
        Row::Kept(rec) => record_value(alloc, lid, rec),
        Row::Gone { host, toid } => gone_value(alloc, lid, *host, *toid),
    }
}

// The log of a datacentre.
#[tactic(auto, using(crate::proofs::JsonLemmas::row_more, crate::proofs::JsonLemmas::array_is))]
fn log_value(alloc: Global, at: &LeftAt) -> Result<Value, NoMemory>
    ensures { IfOk result (λ value. view value ≡ log_data at.now) }
{
    let mut items = Vec::with_capacity(alloc, at.rows.len())?;
    for (place, row) in at.rows.as_slice().iter().enumerate() {
        items.push(row_value(alloc, place as u64 + 1, row)?)?;
    }
    Ok(Value::Array(items))
}

// The logs of all.
fn logs_value(alloc: Global, left: &Left) -> Result<Value, NoMemory>
    ensures { IfOk result (λ value. view value ≡ logs_data left.now) }
{
    let mut items = Vec::with_capacity(alloc, left.len())?;
    for at in left.as_slice() {
        items.push(log_value(alloc, at)?)?;
    }
    Ok(Value::Array(items))
}

// The replies of all sessions, one session after the other.
fn replies_value(alloc: Global, sessions: u32, events: &Seq<Event>) -> Result<Value, NoMemory>
    ensures { IfOk result (λ value. view value ≡ replies_data events.now sessions) }
{
    let mut items = Vec::new(alloc);
    for session in 0..sessions {
        push_replies(alloc, session, events, &mut items)?;
    }
    Ok(Value::Array(items))
}

// The replies of a session go last.
fn push_replies(
    alloc: Global,
    session: u32,
    events: &Seq<Event>,
    items: &mut Vec<Value>,
) -> Result<(), NoMemory>
    ensures { OnOk result (map view items.new.items ≡ map view items.old.items ++ session_items events.now session) }
{
    for event in events.as_slice() {
        push_reply(alloc, session, event, items)?;
    }
    Ok(())
}

// The reply to a command of the session, where the event is one.
fn push_reply(
    alloc: Global,
    session: u32,
    event: &Event,
    items: &mut Vec<Value>,
) -> Result<(), NoMemory>
    ensures { OnOk result (map view items.new.items ≡ map view items.old.items ++ reply_items session event.now) }
{
    match event {
        Event::Append {
            dc,
            session: of,
            index,
            lid,
            toid,
        } if *of == session => {
            let place = Place {
                lid: *lid,
                host: *dc,
                toid: *toid,
            };
            push_written(alloc, session, *index, place, items)
        }
        Event::Reply {
            session: of,
            index,
            at,
            answer,
            ..
        } if *of == session => push_shown(alloc, session, *index, *at, answer.get(), items),
        _ => Ok(()),
    }
}

// The reply to a write: where its record stands.
fn push_written(
    alloc: Global,
    session: u32,
    index: u32,
    place: Place,
    items: &mut Vec<Value>,
) -> Result<(), NoMemory>
    ensures { OnOk result (map view items.new.items ≡ map view items.old.items ++ answered_data session index (answer_words (Written place)) ∷ []) }
{
    let mut text = Text::new(alloc);
    text.put(b"written")?;
    put_place(&mut text, &place)?;
    items.push(answered_value(alloc, session, index, &text)?)?;
    Ok(())
}

// The reply to another command: what it was shown, and at which position.
fn push_shown(
    alloc: Global,
    session: u32,
    index: u32,
    at: Lid,
    answer: &Answer,
    items: &mut Vec<Value>,
) -> Result<(), NoMemory>
    ensures { OnOk result (map view items.new.items ≡ map view items.old.items ++ answered_data session index (codes "at" ∷ decimal at ∷ answer_words answer.now) ∷ []) }
{
    let mut text = Text::new(alloc);
    text.put(b"at")?;
    text.number(at)?;
    put_answer(&mut text, answer)?;
    items.push(answered_value(alloc, session, index, &text)?)?;
    Ok(())
}

// What a command of a session was answered, as a text.
fn answered_value(alloc: Global, session: u32, index: u32, answer: &Text) -> Result<Value, NoMemory>
    ensures { IfOk result (λ value. view value ≡ answered_text session index answer.now) }
{
    let answer = text_value(alloc, answer.as_bytes())?;
    Ok(json!(in alloc; {"answer": answer, "index": index, "session": session})?)
}
