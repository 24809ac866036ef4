//! How many bytes values have, so that their room is taken at once.

ghost use Rattle.std.specs.Prelude.{◌≡◌, ◌*◌, ◌≤◌, All, length};
ghost use Rattle.std.specs.List.{flat_map};
ghost use Rattle.cz_base.specs.declared.limits.TheConstants.{MESSAGE_RECORDS, TAGS};
ghost use Rattle.record_codec.specs.Wire.{dep_bytes, message_bytes, name_bytes, names_bytes, record_bytes, FitsMessage, FitsRecord};

use crate::writer::told_count;
use crate::{Form, Message};
use causal_deps::{Counts, Record};
use cz_base::{DcId, Name, Seq};

/// How many bytes a message has in the form.
pub fn message_size(form: Form, message: &Message) -> usize
    requires { FitsMessage (length message.now.table) message.now }
    ensures { result ≡ length (message_bytes form (length message.now.table) message.now) }
{
    let dcs = message.table.dcs();
    let entries = dcs as usize * dcs as usize;
    4 + 8 * entries + records_size(form, dcs, &message.records)
}

// How many bytes records have, one after the other.
fn records_size(form: Form, dcs: u32, records: &Seq<Record>) -> usize
    requires few { length records.now ≤ MESSAGE_RECORDS }
    requires fit { All (λ r. FitsRecord dcs r) records.now }
    ensures size { result ≡ length (flat_map (record_bytes form dcs) records.now) }
    ensures few { result ≤ 8192 * MESSAGE_RECORDS }
{
    let mut size = 0;
    for rec in records.as_slice() {
        size += record_size(form, rec);
    }
    size
}

/// How many bytes a record has in the form.
pub fn record_size(form: Form, rec: &Record) -> usize
    requires { FitsRecord (length rec.now.dep) rec.now }
    ensures size { result ≡ length (record_bytes form (length rec.now.dep) rec.now) }
    ensures few { result ≤ 8192 }
{
    let dep = dep_size(form, rec.host, &rec.dep);
    let tags = names_size(&rec.tags);
    let body = rec.body.as_bytes().len();
    19 + dep + tags + body
}

fn dep_size(form: Form, host: DcId, dep: &Counts) -> usize
    ensures size { result ≡ length (dep_bytes form host dep.now) }
    ensures few { result ≤ 1024 }
{
    match form {
        Form::Dense => 8 * dep.dcs() as usize,
        Form::Sparse => 1 + 9 * told_count(host.number(), dep) as usize,
    }
}

fn names_size(names: &Seq<Name>) -> usize
    requires { length names.now ≤ TAGS }
    ensures size { result ≡ length (names_bytes names.now) }
    ensures few { result ≤ 1024 }
{
    let mut size = 1;
    for name in names.as_slice() {
        size += 1 + name.as_bytes().len();
    }
    size
}
