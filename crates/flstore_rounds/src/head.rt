//! The head of the log from the marks of its members.

ghost use Rattle.std.specs.Prelude.{◌≡◌, ℕ, ◌<◌, ◌≤◌, slice_index};
ghost use Rattle.flstore_rounds.specs.Epochs.{IsEpochList, owner_in};
ghost use Rattle.flstore_rounds.specs.Heads.{IsHead, head};
ghost use Rattle.cz_base.specs.declared.limits.TheConstants.{MEMBERS, ROUND};

use crate::Epoch;
use crate::turns::wait;
use cz_base::Lid;
use cz_base::limits::MEMBERS;

/// The greatest position up to which each is below the mark of its owner, or 0.
pub fn head_of(round: u32, epochs: &[Epoch], marks: &[Lid; MEMBERS]) -> Lid
    requires { IsEpochList (record { round = round; list = epochs.now }) }
    ensures greatest { IsHead (record { epochs = record { round = round; list = epochs.now }; marks = marks.now }) result }
    ensures value { result ≡ head (record { epochs = record { round = round; list = epochs.now }; marks = marks.now }) }
{
    for at in 1..epochs.len() {
        let gap = first_gap(round, epochs[at - 1], marks);
        if gap < epochs[at].start {
            return gap - 1;
        }
    }
    first_gap(round, epochs[epochs.len() - 1], marks) - 1
}

// The least position of the epoch that is not below the mark of its owner, were there no later epoch.
fn first_gap(round: u32, epoch: Epoch, marks: &[Lid; MEMBERS]) -> Lid
    requires round { (1 ≤ round) × (round ≤ ROUND) }
    requires members { (1 ≤ epoch.members) × (epoch.members ≤ MEMBERS) }
    ensures from { epoch.start ≤ result }
    ensures below { (p : ℕ) → epoch.start ≤ p → p < result → p < slice_index marks.now (owner_in round epoch p) }
    ensures stops { slice_index marks.now (owner_in round epoch result) ≤ result }
{
    let mut gap = Lid::MAX;
    for m in 0..epoch.members {
        let from = marks[m as usize].max(epoch.start);
        gap = gap.min(from.saturating_add(wait(round, epoch, m, from)));
    }
    gap
}
