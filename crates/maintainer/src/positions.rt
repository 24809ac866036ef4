//! Rising positions: where one stands, and which are in a range.

ghost use Rattle.std.specs.Prelude.{◌≡◌, ◌<◌, ◌≤◌, ◌==◌, length};
ghost use Rattle.std.specs.List.{AllWithin, list_any};
ghost use Rattle.maintainer.specs.Maintainers.{AreRisingPositions, is_some_within};

use cz_base::Lid;

/// How many of the positions are below this one.
pub(crate) fn positions_below(lids: &[Lid], lid: Lid) -> usize
    requires { AreRisingPositions lids.now }
    ensures within { result ≤ length lids.now }
    ensures below { AllWithin (λ p. p < lid) lids.now 0 result }
    ensures above { AllWithin (λ p. lid ≤ p) lids.now result (length lids.now) }
{
    lids.partition_point(|p| *p < lid)
}

/// Whether the position is among them.
pub(crate) fn has_position(lids: &[Lid], lid: Lid) -> bool
    requires { AreRisingPositions lids.now }
    ensures { result ≡ list_any (λ p. p == lid) lids.now }
{
    match lids.get(positions_below(lids, lid)) {
        Some(first) => *first == lid,
        None => false,
    }
}

/// Whether one of the positions is in the range from `low` up to but not at `top`.
pub(crate) fn has_position_within(lids: &[Lid], low: Lid, top: Lid) -> bool
    requires { AreRisingPositions lids.now }
    ensures { result ≡ is_some_within low top lids.now }
{
    match lids.get(positions_below(lids, low)) {
        Some(first) => *first < top,
        None => false,
    }
}
