//! What settling asks of the datacentres before it takes turns.
ghost use Rattle.std.specs.Prelude.{◌≡◌, ◌<◌, ◌≤◌, ◌++◌, [], ◌∷◌, if◌then◌else◌, length, filter, nat_lt, IfOk, OnOk};
ghost use Rattle.cz_base.specs.declared.limits.TheConstants.{DATACENTRES};
ghost use Rattle.std.specs.List.{All, list_all};
ghost use Rattle.std.specs.Option.{ForSome};
ghost use Rattle.stage_world.specs.MoreTurns.{message_of, same_counts};
ghost use Rattle.stage_world.specs.Settling.{below, has_unanswered, is_agreed, is_answering, has_errand, is_unfinished, rounds};
ghost use Rattle.stage_world.specs.Stages.{Stages as StageWorld, sizes_of};
ghost use Rattle.stage_world.specs.Whole.{datacentre_at};
ghost use Rattle.world.specs.Settled.{AreKnown};

use crate::exchanges::Errand;
use crate::rounds::add_round;
use abstract_log::{Sizes, Step};
use causal_deps::Counts;
use cz_base::{DcId, NoMemory, Seq};
use datacentre::Datacentre;
use std::alloc::Global;

/// Whether some command is not answered.
pub(crate) fn is_answering(datacentres: &Seq<Datacentre>) -> bool
    ensures { (z : StageWorld) → AreKnown z datacentres.now → result ≡ is_answering z }
{
    for datacentre in datacentres.as_slice() {
        if datacentre.unanswered() {
            return true;
        }
    }
    false
}

/// Whether all logs have as many records of each host.
pub(crate) fn are_agreed(datacentres: &Seq<Datacentre>) -> bool
    ensures { (z : StageWorld) → AreKnown z datacentres.now → result ≡ is_agreed z }
{
    for datacentre in datacentres.as_slice() {
        if !all_have(datacentres, &datacentre.log_counts()) {
            return false;
        }
    }
    true
}

// Whether the logs of all have these counts.
fn all_have(datacentres: &Seq<Datacentre>, counts: &Counts) -> bool
    ensures { (z : StageWorld) → AreKnown z datacentres.now → result ≡ list_all (λ y. same_counts counts.now y.token.counts) z.datacentres }
{
    for datacentre in datacentres.as_slice() {
        if !has_counts(datacentre, counts) {
            return false;
        }
    }
    true
}

fn has_counts(datacentre: &Datacentre, counts: &Counts) -> bool
    ensures { ForSome datacentre.now.stages (λ z. result ≡ same_counts counts.now z.token.counts) }
{
    *counts == datacentre.log_counts()
}

/// Whether a command is not answered, or a log lacks a record.
pub(crate) fn is_unfinished(datacentres: &Seq<Datacentre>) -> bool
    ensures { (z : StageWorld) → AreKnown z datacentres.now → result ≡ is_unfinished z }
{
    is_answering(datacentres) || !are_agreed(datacentres)
}

/// How many members the stages of datacentre d have.
pub(crate) fn members(datacentres: &Seq<Datacentre>, d: DcId) -> Sizes
    requires known { (z : StageWorld) × AreKnown z datacentres.now }
    requires there { d < length datacentres.now }
    ensures { (z : StageWorld) → AreKnown z datacentres.now → result ≡ sizes_of (datacentre_at z d) }
{
    datacentres.as_slice()[d.number() as usize].members()
}

// Whether datacentre d has a command that is not answered.
fn has_unanswered(datacentres: &Seq<Datacentre>, d: DcId) -> bool
    requires there { d < length datacentres.now }
    ensures { (z : StageWorld) → AreKnown z datacentres.now → result ≡ has_unanswered (datacentre_at z d) }
{
    datacentres.as_slice()[d.number() as usize].unanswered()
}

// Whether the sender's message would hold a record.
fn has_more(datacentres: &Seq<Datacentre>, errand: &Errand) -> bool
    requires known { (z : StageWorld) × AreKnown z datacentres.now }
    requires from { errand.now.from < length datacentres.now }
    requires to { errand.now.to < length datacentres.now }
    ensures { (z : StageWorld) → AreKnown z datacentres.now → result ≡ nat_lt 0 (length (message_of errand.now.from (datacentre_at z errand.now.from) errand.now.sender errand.now.to).records) }
{
    datacentres.as_slice()[errand.from.number() as usize].has_more(errand.sender, errand.to)
}

/// Whether the sender is to send: the first always does, a further one where its message would hold a record.
pub(crate) fn has_errand(datacentres: &Seq<Datacentre>, errand: &Errand) -> bool
    requires known { (z : StageWorld) × AreKnown z datacentres.now }
    requires from { errand.now.from < length datacentres.now }
    requires to { errand.now.to < length datacentres.now }
    ensures { (z : StageWorld) → AreKnown z datacentres.now → result ≡ has_errand z errand.now }
{
    errand.sender == 0 || has_more(datacentres, errand)
}

/// All datacentres.
pub(crate) fn all_of(alloc: Global, dcs: u32) -> Result<Seq<DcId>, NoMemory>
    requires { dcs ≤ DATACENTRES }
    ensures { IfOk result (λ ds. ds ≡ below dcs) }
{
    let mut ds = Seq::new(alloc);
    for number in 0..dcs {
        if let Some(d) = DcId::new(number) {
            ds.push(d)?;
        }
    }
    Ok(ds)
}

/// Those with a command that is not answered.
pub(crate) fn answering(
    alloc: Global,
    datacentres: &Seq<Datacentre>,
    dcs: u32,
) -> Result<Seq<DcId>, NoMemory>
    requires few { dcs ≤ DATACENTRES }
    requires all { dcs ≡ length datacentres.now }
    ensures { (z : StageWorld) → AreKnown z datacentres.now → IfOk result (λ ds. ds ≡ filter (λ d. has_unanswered (datacentre_at z d)) (below (length z.datacentres))) }
{
    let mut ds = Seq::new(alloc);
    for number in 0..dcs {
        let Some(d) = DcId::new(number) else {
            unreachable!();
        };
        add_if(&mut ds, d, has_unanswered(datacentres, d))?;
    }
    Ok(ds)
}

fn add_if(ds: &mut Seq<DcId>, d: DcId, wanted: bool) -> Result<(), NoMemory>
    ensures { OnOk result (ds.new ≡ ds.old ++ (if wanted then d ∷ [] else [])) }
{
    if wanted {
        ds.push(d)?;
    }
    Ok(())
}

/// The turns of the local rounds of some datacentres.
pub(crate) fn rounds(
    alloc: Global,
    datacentres: &Seq<Datacentre>,
    ds: &[DcId],
) -> Result<Seq<Step>, NoMemory>
    requires known { (z : StageWorld) × AreKnown z datacentres.now }
    requires there { All (λ d. d < length datacentres.now) ds.now }
    ensures { (z : StageWorld) → AreKnown z datacentres.now → IfOk result (λ steps. steps ≡ rounds z ds.now) }
{
    let mut steps = Seq::new(alloc);
    for d in ds {
        add_round(&mut steps, *d, &datacentres.as_slice()[d.number() as usize])?;
    }
    Ok(steps)
}
