//! Owners and own positions by closed arithmetic, epoch by epoch.
ghost use Rattle.std.specs.Prelude.{◌≡◌, ◌≢◌, ℕ, ◌+◌, ◌<◌, ◌≤◌, ◌^◌, nat_le, true, false, length};
ghost use Rattle.std.specs.List.Sorted.{IsPartitionedBy, IsPartitionPoint};
ghost use Rattle.flstore_rounds.specs.Epochs.{IsEpochList, IsNextOwn, first_epoch, last_from, owner, owner_in};
ghost use Rattle.cz_base.specs.declared.limits.TheConstants.{MEMBERS, NUMBERS_END, ROUND};

use crate::Epoch;
use cz_base::Lid;

/// The owner of p: the last epoch that starts at or before p deals it.
pub fn owner_by(round: u32, epochs: &[Epoch], p: Lid) -> u32
    requires rounds { IsEpochList (record { round = round; list = epochs.now }) }
    requires first { 1 ≤ p }
    ensures value { result ≡ owner (record { round = round; list = epochs.now }) p }
    ensures member { result < (last_from first_epoch epochs.now).members }
{
    let epoch = epochs[begun(epochs, p) - 1];
    ((p - epoch.start) / round as u64 % epoch.members as u64) as u32
}

// How many epochs start at or before p.
fn begun(epochs: &[Epoch], p: Lid) -> usize
    requires { IsPartitionedBy (λ epoch. nat_le epoch.start p) epochs.now }
    ensures bound { result ≤ length epochs.now }
    ensures parts { IsPartitionPoint (λ epoch. nat_le epoch.start p ≡ true) (λ epoch. nat_le epoch.start p ≡ false) epochs.now result }
{
    epochs.partition_point(|epoch| epoch.start <= p)
}

/// How many positions come from `from` on before the next one of member m, were there no later epoch.
pub fn wait(round: u32, epoch: Epoch, m: u32, from: Lid) -> u64
    requires round { (1 ≤ round) × (round ≤ ROUND) }
    requires members { (m < epoch.members) × (epoch.members ≤ MEMBERS) }
    requires from { epoch.start ≤ from }
    ensures own { owner_in round epoch (from + result) ≡ m }
    ensures least { (k : ℕ) → k < result → owner_in round epoch (from + k) ≢ m }
    ensures short { result < 2 ^ 14 }
{
    let round = round as u64;
    let members = epoch.members as u64;
    let passed = from - epoch.start;
    let turns = (m as u64 + members - passed / round % members) % members;
    (round * turns).saturating_sub(passed % round)
}

/// The least position of member m at or above p.
pub fn next_own_by(round: u32, epochs: &[Epoch], m: u32, p: Lid) -> Lid
    requires rounds { IsEpochList (record { round = round; list = epochs.now }) }
    requires first { 1 ≤ p }
    requires lid { p ≤ NUMBERS_END }
    requires member { m < (last_from first_epoch epochs.now).members }
    ensures least { IsNextOwn (record { round = round; list = epochs.now }) m p result }
    ensures within { result < 2 ^ 49 }
{
    for at in 1..epochs.len() {
        let epoch = epochs[at - 1];
        let end = epochs[at].start;
        if m < epoch.members {
            let from = p.max(epoch.start);
            let own = from + wait(round, epoch, m, from);
            if own < end {
                return own;
            }
        }
    }
    let epoch = epochs[epochs.len() - 1];
    let from = p.max(epoch.start);
    from + wait(round, epoch, m, from)
}
