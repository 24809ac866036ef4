//! The maintainers of a datacentre as the stock of a sender.

ghost use Rattle.std.specs.Prelude.{◌≤◌};
ghost use Rattle.sender_receiver.specs.Stocks.{IsRisingFrom};
ghost use Rattle.stage_world.specs.MoreTurns.{stock_of};
ghost use Rattle.stage_turns.specs.Rising.{rising_once};
ghost use Rattle.stage_turns.specs.Told.{AreApart};

use causal_deps::Record;
use cz_base::Seq;
use maintainer::Maintainer;

/// What sender k of so many tells: the records of the maintainers m with m modulo that many equal to k, by rising
/// position. Each position is filled once.
#[derive(Drop)]
pub struct SenderStock<'a> {
    pub maintainers: &'a Seq<Maintainer<Record>>,
    pub k: u32,
    pub senders: u32,
    ghost some: { 1 ≤ senders },
    ghost apart: { AreApart maintainers.now },
    ghost rising: { IsRisingFrom 0 (stock_of maintainers.now k senders) } by { rising_once 0 (stock_of maintainers.now k senders) },
}
