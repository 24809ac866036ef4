//! An indexer takes what a maintainer has to post.

ghost use Rattle.std.specs.Prelude.{◌≡◌, ◌+◌, ◌<◌, ◌≤◌, [], filter, map, nat_lt, IfOk, OnOk};
ghost use Rattle.abstract_log.specs.declared.script.Outcome.TheVariants.{Covered as CoveredAt};
ghost use Rattle.flstore_rounds.specs.Heads.{head, mark_at};
ghost use Rattle.maintainer.specs.Maintainers.{AreRising};
ghost use Rattle.stage_world.specs.MoreTurns.{posted_to, row_made};
ghost use Rattle.stage_turns.specs.Posting.{MayPost, is_between, post_mark};

use crate::TurnDone;
use crate::collecting::place_of;
use abstract_log::Outcome;
use causal_deps::Record;
use cz_base::{Lid, NoMemory, Seq};
use maintainer::{Maintainer, Slot};
use std::alloc::Global;
use tag_indexer::{Indexer, Post};

/// The indexer takes the epochs of maintainer m, and of its records those from the indexer's mark of m up to below the
/// maintainer's own mark. Where one of these was collected it takes the epochs alone. The outcome is the position up to
/// which the indexer then covers the log.
pub fn post(
    m: u32,
    maintainer: &mut Maintainer<Record>,
    indexer: &mut Indexer,
) -> Result<TurnDone, NoMemory>
    requires may { MayPost maintainer.old m indexer.old }
    ensures maintainer { maintainer.new ≡ maintainer.old }
    ensures indexer { OnOk result (indexer.new ≡ posted_to indexer.old maintainer.old m) }
    ensures outcome { IfOk result (λ done. done.outcome ≡ CoveredAt (head indexer.new.pair)) }
    ensures events { IfOk result (λ done. done.events ≡ []) }
    ensures changed { IfOk result (λ done. done.changed ≡ nat_lt (mark_at indexer.old.pair m) (post_mark maintainer.old (mark_at indexer.old.pair m))) }
{
    let alloc = indexer.alloc();
    let low = indexer.mark(m);
    let top = posted_below(maintainer, low);
    let rows = rows_of(alloc, between(maintainer.entries(), low, top))?;
    indexer.post(maintainer.epochs(), m, top, rows)?;
    Ok(TurnDone {
        outcome: Outcome::Covered {
            at: indexer.covered(),
        },
        events: Seq::new(alloc),
        changed: low < top,
    })
}

// Below which position there is something to be posted, from `low` on.
fn posted_below(maintainer: &Maintainer<Record>, low: Lid) -> Lid
    ensures { result ≡ post_mark maintainer.now low }
{
    let top = maintainer.filled();
    if maintainer.has_gone_within(low, top) {
        low
    } else {
        top
    }
}

// The entries from position `low` up to below `top`.
fn between(entries: &[Slot<Record>], low: Lid, top: Lid) -> &[Slot<Record>]
    requires { AreRising entries.now }
    ensures { result.now ≡ filter (is_between low top) entries.now }
{
    let start = entries.partition_point(|slot| slot.lid < low);
    let end = entries.partition_point(|slot| slot.lid < top);
    &entries[start..end.max(start)]
}

// What is posted of the entries.
fn rows_of(alloc: Global, entries: &[Slot<Record>]) -> Result<Seq<Post>, NoMemory>
    ensures { IfOk result (λ rows. rows ≡ map row_made entries.now) }
{
    let mut rows = Seq::new(alloc);
    for slot in entries {
        rows.push(row_of(slot)?)?;
    }
    Ok(rows)
}

// What is posted of an entry.
fn row_of(slot: &Slot<Record>) -> Result<Post, NoMemory>
    ensures { IfOk result (λ row. row ≡ row_made slot.now) }
{
    Ok(Post {
        place: place_of(slot),
        kind: slot.value.kind,
        tags: slot.value.tags.copy()?,
    })
}
