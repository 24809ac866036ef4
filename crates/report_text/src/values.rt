//! The words of single values. Where a function writes several words, a space stands before each. Each fails only
//! where memory runs out.

ghost use Rattle.std.specs.Prelude.{◌≡◌, ◌<◌, ◌++◌, OnOk};
ghost use Rattle.cz_base.specs.declared.limits.TheConstants.{DATACENTRES};
ghost use Rattle.report_text.specs.Lines.{spaced, with_space};
ghost use Rattle.report_text.specs.Values.{body_word, counts_word, draft_word, kind_word, letter, name_word, names_words, numbers_words, place_words, places_words, table_word};

use crate::text::Text;
use causal_deps::{Counts, Kind, Place, Table};
use cz_base::{Body, DcId, Lid, Name, NoMemory, Seq, Toid};

/// A space and the letter of a datacentre.
pub fn letter_word(text: &mut Text, dc: DcId) -> Result<(), NoMemory>
    ensures { OnOk result (text.new ≡ text.old ++ with_space (letter dc)) }
{
    letter_of(text, dc.number())
}

/// A space and the letter of the datacentre with a number.
pub fn letter_of(text: &mut Text, number: u32) -> Result<(), NoMemory>
    requires { number < DATACENTRES }
    ensures { OnOk result (text.new ≡ text.old ++ with_space (letter number)) }
{
    text.word(&[b'A' + number as u8])
}

/// A space and a record's name.
pub fn put_name(text: &mut Text, host: DcId, toid: Toid) -> Result<(), NoMemory>
    ensures { OnOk result (text.new ≡ text.old ++ with_space (name_word host toid)) }
{
    letter_word(text, host)?;
    text.put(b":")?;
    text.put_number(toid)
}

/// A space and a draft's name.
pub fn put_draft(text: &mut Text, session: u32, index: u32) -> Result<(), NoMemory>
    ensures { OnOk result (text.new ≡ text.old ++ with_space (draft_word session index)) }
{
    text.number(u64::from(session))?;
    text.put(b".")?;
    text.put_number(u64::from(index))
}

/// A position, and the name of the record there.
pub fn put_place(text: &mut Text, place: &Place) -> Result<(), NoMemory>
    ensures { OnOk result (text.new ≡ text.old ++ spaced (place_words place.now)) }
{
    text.number(place.lid)?;
    put_name(text, place.host, place.toid)
}

/// Places, one after another.
pub fn put_places(text: &mut Text, places: &Seq<Place>) -> Result<(), NoMemory>
    ensures { OnOk result (text.new ≡ text.old ++ spaced (places_words places.now)) }
{
    for place in places.as_slice() {
        put_place(text, place)?;
    }
    Ok(())
}

/// Names of records.
pub fn put_names(text: &mut Text, names: &Seq<(DcId, Toid)>) -> Result<(), NoMemory>
    ensures { OnOk result (text.new ≡ text.old ++ spaced (names_words names.now)) }
{
    for name in names.as_slice() {
        put_name(text, name.0, name.1)?;
    }
    Ok(())
}

/// Positions.
pub fn put_lids(text: &mut Text, lids: &Seq<Lid>) -> Result<(), NoMemory>
    ensures { OnOk result (text.new ≡ text.old ++ spaced (numbers_words lids.now)) }
{
    for lid in lids.as_slice() {
        text.number(*lid)?;
    }
    Ok(())
}

/// Keys or tags.
pub fn put_keys(text: &mut Text, keys: &Seq<Name>) -> Result<(), NoMemory>
    ensures { OnOk result (text.new ≡ text.old ++ spaced keys.now) }
{
    for key in keys.as_slice() {
        text.word(key.as_bytes())?;
    }
    Ok(())
}

/// A space and a body.
pub fn put_body(text: &mut Text, body: &Body) -> Result<(), NoMemory>
    ensures { OnOk result (text.new ≡ text.old ++ with_space (body_word body.now)) }
{
    text.put(b" =")?;
    text.put(body.as_bytes())
}

/// The word of a kind.
pub fn kind_name(kind: Kind) -> &'static [u8]
    ensures { result.now ≡ kind_word kind }
{
    match kind {
        Kind::Append => b"append",
        Kind::Put => b"put",
        Kind::Del => b"del",
    }
}

// Counts, with no space before them.
fn put_counts(text: &mut Text, counts: &Counts) -> Result<(), NoMemory>
    ensures { OnOk result (text.new ≡ text.old ++ counts_word counts.now) }
{
    let dcs = counts.dcs();
    text.put_number(counts.get(DcId::FIRST))?;
    for number in 1..dcs {
        if let Some(dc) = DcId::new(number) {
            text.put(b",")?;
            text.put_number(counts.get(dc))?;
        }
    }
    Ok(())
}

/// A space and counts.
pub fn counts_after(text: &mut Text, counts: &Counts) -> Result<(), NoMemory>
    ensures { OnOk result (text.new ≡ text.old ++ with_space (counts_word counts.now)) }
{
    text.put(b" ")?;
    put_counts(text, counts)
}

// A table, with no space before it.
fn put_table(text: &mut Text, table: &Table) -> Result<(), NoMemory>
    ensures { OnOk result (text.new ≡ text.old ++ table_word table.now) }
{
    let dcs = table.dcs();
    put_counts(text, &table.row(DcId::FIRST))?;
    for number in 1..dcs {
        if let Some(dc) = DcId::new(number) {
            text.put(b";")?;
            put_counts(text, &table.row(dc))?;
        }
    }
    Ok(())
}

/// A space and a table.
pub fn table_after(text: &mut Text, table: &Table) -> Result<(), NoMemory>
    ensures { OnOk result (text.new ≡ text.old ++ with_space (table_word table.now)) }
{
    text.put(b" ")?;
    put_table(text, table)
}
