//! Held records that leave a filter: those that pass, and those that other filters serve from now on.

ghost use Rattle.std.specs.Prelude.{◌≡◌, [], ◌∷◌, ◌++◌, ◌+◌, ◌<◌, ◌≤◌, true, not, All, drop, filter, find, length, map, take, vec_capacity, vec_len, IsTrue, None};
ghost use Rattle.std.specs.List.{AllPairs};
ghost use Rattle.std.specs.Option.{ForSome, option_map};
ghost use Rattle.causal_deps.specs.declared.record.Record.{Record as RecordValue};
ghost use Rattle.causal_deps.specs.declared.record.Item.TheVariants.{External};
ghost use Rattle.causal_deps.specs.Counts.{raised};
ghost use Rattle.toid_filter.specs.Filters.{before_name, from_name, is_own, reached_by, stands_before, IsNext};

use crate::Champions;
use crate::filter::pass_first;
use crate::held::{FIRST_NAME, Held, RecordName};
use causal_deps::{Counts, Item, Record};
use cz_base::{DcId, Toid};

/// Takes out the held record that is the next own one of host h from number `first` on, if it is held.
pub(crate) fn take_next(
    held: &mut Held,
    map: &Champions,
    number: u32,
    h: DcId,
    first: Toid,
) -> Option<Record>
    requires { 1 ≤ first }
    ensures some { ForSome result (IsNext map.now number h first held.old) }
    ensures taken { ForSome result (λ _. held.new ≡ before_name h first held.old ++ drop 1 (from_name h first held.old)) }
    ensures none { result ≡ None → (held.new ≡ held.old) × ((q : RecordValue) → IsNext map.now number h first held.old q → ⊥) }
{
    if has_next(held, map, number, h, first) {
        held.remove_first_from(h, first)
    } else {
        None
    }
}

// Whether the first record held from number `first` of host h on is the next own one of that host.
fn has_next(held: &Held, map: &Champions, number: u32, h: DcId, first: Toid) -> bool
    requires { 1 ≤ first }
    ensures yes { IsTrue result → (q : RecordValue) × IsNext map.now number h first held.now q }
    ensures no { (q : RecordValue) → IsNext map.now number h first held.now q → IsTrue result }
{
    match held.range_from(h, first).next() {
        Some((_, rec)) => rec.host == h && !map.serves(number, h, first, rec.toid),
        None => false,
    }
}

/// Passes a record, and the first held ones from its name on, where there is room for them.
pub(crate) fn pass_run(
    held: &mut Held,
    reached: &mut Counts,
    out: &mut Vec<Item>,
    rec: Record,
    count: usize,
)
    requires host { rec.host < length reached.old }
    requires within { count ≤ length (from_name rec.host rec.toid held.old) }
    requires room { vec_len out.old + 1 + count ≤ vec_capacity out.old }
    requires rising { AllPairs (λ q r. stands_before r.host r.toid q ≡ true) held.old }
    requires hosts { All (λ r. r.host < length reached.old) held.old }
    ensures kept { held.new ≡ before_name rec.host rec.toid held.old ++ drop count (from_name rec.host rec.toid held.old) }
    ensures raised { reached.new ≡ reached_by (raised reached.old rec.host rec.toid) (take count (from_name rec.host rec.toid held.old)) }
    ensures moved { out.new.items ≡ (out.old.items ++ External rec ∷ []) ++ map External (take count (from_name rec.host rec.toid held.old)) }
{
    let (host, toid) = (rec.host, rec.toid);
    reached.raise(host, toid);
    out.push_reserved(Item::External(rec));
    pass_first(held, host, toid, count, reached, out);
}

/// Takes out the held records that are not the filter's by the map, in order, where there is room for them.
pub(crate) fn take_lost(held: &mut Held, map: &Champions, number: u32, lost: &mut Vec<Record>)
    requires room { vec_len lost.old + length held.old ≤ vec_capacity lost.old }
    requires numbers { All (λ r. 1 ≤ r.toid) held.old }
    ensures kept { held.new ≡ filter (is_own map.now number) held.old }
    ensures lost { lost.new.items ≡ lost.old.items ++ filter (λ r. not (is_own map.now number r)) held.old }
{
    let mut from = FIRST_NAME;
    while let Some(name) = next_lost(held, map, number, from) {
        let Some(rec) = held.remove_first_from(name.0, name.1) else {
            unreachable!();
        };
        lost.push_reserved(rec);
        from = name;
    }
}

// The name of the first held record from a name on that is not the filter's by the map.
fn next_lost(held: &Held, map: &Champions, number: u32, from: RecordName) -> Option<RecordName>
    requires { All (λ r. 1 ≤ r.toid) held.now }
    ensures first { result ≡ option_map (λ r. (r.host, r.toid)) (find (λ r. not (is_own map.now number r)) (from_name from.0 from.1 held.now)) }
    ensures rising { AllPairs (λ q r. stands_before r.host r.toid q ≡ true) held.now }
{
    for (name, rec) in held.range_from(from.0, from.1) {
        if map.champion(rec.host, rec.toid) != number {
            return Some(*name);
        }
    }
    None
}
