//! The epochs of a datacentre as they are loaded, in a fixed place.
ghost use Rattle.std.specs.Prelude.{◌≡◌, ◌<◌, ◌≤◌, ◌++◌, [], ◌∷◌, length};
ghost use Rattle.cz_base.specs.declared.limits.TheConstants.{MEMBERS};

use cz_base::limits::MEMBERS;
use flstore_rounds::Epoch;
use std::marker::Model;

/// As many epochs as there may be, or fewer. Contracts see them as a list.
#[derive(Drop)]
pub(crate) struct EpochRow {
    epochs: [Epoch; MEMBERS],
    len: usize,
}

impl Model for EpochRow {
    ghost use Rattle.std.specs.Prelude.{◌≤◌, List, take};
    ghost use Rattle.cz_base.specs.declared.limits.TheConstants.{MEMBERS};
    ghost use Rattle.flstore_rounds.specs.declared.epochs.Epoch.{Epoch};

    ghost Value = { List Epoch };

    ghost view = { λ row. take row.len row.epochs };

    ghost invariant = { λ row. row.len ≤ MEMBERS };
}

impl EpochRow {
    /// No epoch.
    pub(crate) fn new() -> EpochRow
        ensures { result ≡ [] }
    {
        EpochRow {
            epochs: [Epoch {
                start: 0,
                members: 0,
            }; MEMBERS],
            len: 0,
        }
    }

    /// The epoch goes last.
    pub(crate) fn push(&mut self, epoch: Epoch)
        requires { length self.old < MEMBERS }
        ensures { self.new ≡ self.old ++ epoch ∷ [] }
    {
        self.epochs[self.len] = epoch;
        self.len += 1;
    }

    /// The epochs.
    pub(crate) fn as_slice(&self) -> &[Epoch]
        ensures value { result.now ≡ self.now }
        ensures few { length result.now ≤ MEMBERS }
    {
        &self.epochs[..self.len]
    }
}
