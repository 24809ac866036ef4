//! Names of records: which of them a log has, and rising lists of them.
ghost use Rattle.std.specs.Prelude.{◌≡◌, ◌↔◌, IfOk, OnOk, IsTrue, Contains, All};
ghost use Rattle.std.specs.Option.{option_copied};
ghost use Rattle.causal_deps.specs.Logs.{HasName, count_of, nth_of};
ghost use Rattle.abstract_log.specs.Steps.{inserted, name_before, names_with, names_without};

use causal_deps::Record;
use cz_base::{DcId, NoMemory, Seq, Toid};
use std::alloc::Global;

/// The t-th record of host h in the log.
pub(crate) fn nth_of(log: &[Record], h: DcId, t: Toid) -> Option<&Record>
    ensures { option_copied result ≡ nth_of log.now h t }
{
    let mut left = t;
    for rec in log {
        if rec.host == h {
            if left == 1 {
                return Some(rec);
            }
            left = left.saturating_sub(1);
        }
    }
    None
}

/// How many records of host h the log has.
fn count_in(log: &[Record], h: DcId) -> u64
    ensures { result ≡ count_of log.now h }
{
    log.iter().filter(|rec| rec.host == h).count() as u64
}

/// Whether the log has the name.
fn knows_name(log: &[Record], h: DcId, t: Toid) -> bool
    ensures { IsTrue result ↔ HasName log.now h t }
{
    t > 0 && t <= count_in(log, h)
}

/// Whether the log has every one of the names.
pub(crate) fn know_all(log: &[Record], names: &[(DcId, Toid)]) -> bool
    ensures { IsTrue result ↔ All (λ n. HasName log.now n.0 n.1) names.now }
{
    for name in names {
        if !knows_name(log, name.0, name.1) {
            return false;
        }
    }
    true
}

/// Whether the name is one of these.
pub(crate) fn has_name(names: &[(DcId, Toid)], h: DcId, t: Toid) -> bool
    ensures { IsTrue result ↔ Contains names.now (h, t) }
{
    names.contains(&(h, t))
}

/// The names that wait, with these too but for those that the log has.
pub(crate) fn names_with(
    alloc: Global,
    log: &[Record],
    waiting: &[(DcId, Toid)],
    names: &[(DcId, Toid)],
) -> Result<Seq<(DcId, Toid)>, NoMemory>
    ensures { IfOk result (λ all. all ≡ names_with log.now waiting.now names.now) }
{
    let mut all = Vec::from_slice(alloc, waiting)?;
    for name in names {
        if name.1 > count_in(log, name.0) {
            insert_name(&mut all, *name)?;
        }
    }
    Ok(Seq::from_vec(all))
}

/// The names but this one.
pub(crate) fn names_without(
    alloc: Global,
    names: &[(DcId, Toid)],
    h: DcId,
    t: Toid,
) -> Result<Seq<(DcId, Toid)>, NoMemory>
    ensures { IfOk result (λ rest. rest ≡ names_without h t names.now) }
{
    let mut rest = Seq::new(alloc);
    for name in names {
        if !(name.0 == h && name.1 == t) {
            rest.push(*name)?;
        }
    }
    Ok(rest)
}

/// Puts the name in its place of a rising list, once.
fn insert_name(names: &mut Vec<(DcId, Toid)>, name: (DcId, Toid)) -> Result<(), NoMemory>
    ensures ok { OnOk result (names.new.items ≡ inserted name_before name names.old.items) }
{
    for at in 0..names.len() {
        if is_before(&name, &names[at]) {
            names.insert(at, name)?;
            return Ok(());
        }
        if !is_before(&names[at], &name) {
            return Ok(());
        }
    }
    names.push(name)?;
    Ok(())
}

/// Whether a name comes before another, by host and then by number.
fn is_before(name: &(DcId, Toid), other: &(DcId, Toid)) -> bool
    ensures { result ≡ name_before name.now other.now }
{
    let host = name.0.number();
    let other_host = other.0.number();
    host < other_host || (host == other_host && name.1 < other.1)
}
