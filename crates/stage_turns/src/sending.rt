//! A sender makes its message.

ghost use Rattle.std.specs.Prelude.{◌≡◌, ◌≢◌, ◌↔◌, ◌≤◌, [], false, length, IfOk, IsTrue};
ghost use Rattle.abstract_log.specs.declared.script.Outcome.TheVariants.{Sent};
ghost use Rattle.record_codec.specs.Wire.{SpellsIn};
ghost use Rattle.sender_receiver.specs.Choosing.{first_new};
ghost use Rattle.sender_receiver.specs.Sending.{form_of};
ghost use Rattle.sender_receiver.specs.Stocks.{records_in};
ghost use Rattle.stage_world.specs.MoreTurns.{names_of};
ghost use Rattle.stage_turns.specs.Told.{MayLook, MayTell, told_message};

use crate::TurnDone;
use crate::receiving::names_of;
use crate::sender_stock::SenderStock;
use abstract_log::Outcome;
use awareness_table::Aware;
use causal_deps::Record;
use cz_base::{DcId, NoMemory, Seq, Toid};
use lossy_links::Packet;
use maintainer::Maintainer;
use sender_receiver::{Sender, SpelledMessage, Stock};

/// What a sender's turn answers, and the packet that goes into the link.
#[derive(Debug, Drop)]
pub struct SendDone {
    /// The answer, as if the link were empty.
    pub done: TurnDone,
    /// The message as bytes, still to go into the link.
    pub packet: Packet,
}

/// Sender k of so many makes its message to a datacentre of the records of the maintainers m with m modulo that many
/// equal to k, in the form that an upgrade of the sender and the lengths of the bodies ask for. The outcome is that of an empty link, into which the
/// packet is still to go.
pub fn send(
    to: DcId,
    k: u32,
    senders: u32,
    sender: &mut Sender,
    maintainers: &Seq<Maintainer<Record>>,
    table: &Aware,
) -> Result<SendDone, NoMemory>
    requires { MayTell sender.old.dc to k senders maintainers.now table.now.table }
    ensures packet { let told = told_message sender.old.dc to k senders maintainers.now table.now.table in IfOk result (λ sent. SpellsIn (form_of sender.old.upgraded told) (length table.now.table) sent.packet told) }
    ensures outcome { IfOk result (λ sent. sent.done.outcome ≡ Sent (names_of (told_message sender.old.dc to k senders maintainers.now table.now.table).records) 0 false) }
    ensures events { IfOk result (λ sent. sent.done.events ≡ []) }
    ensures changed { IfOk result (λ sent. sent.done.changed ≡ false) }
    ensures sender { sender.new ≡ sender.old }
{
    let stock = SenderStock {
        maintainers,
        k,
        senders,
    };
    let SpelledMessage { message, bytes } = sender.tell(to, table, &stock)?;
    let outcome = Outcome::Sent {
        names: names_of(&message.records)?,
        link: 0,
        lost: false,
    };
    let done = TurnDone {
        outcome,
        events: Seq::new(maintainers.alloc()),
        changed: false,
    };
    Ok(SendDone {
        done,
        packet: Packet::from_vec(bytes),
    })
}

/// Whether the message of sender k of so many at `dc` to a datacentre would hold a record. No memory is taken.
pub fn has_more(
    dc: DcId,
    to: DcId,
    k: u32,
    senders: u32,
    maintainers: &Seq<Maintainer<Record>>,
    table: &Aware,
) -> bool
    requires { MayLook dc to senders maintainers.now table.now.table }
    ensures { IsTrue result ↔ ((told_message dc to k senders maintainers.now table.now.table).records ≢ []) }
{
    let stock = SenderStock {
        maintainers,
        k,
        senders,
    };
    has_news(dc, table.table().row(to).get(dc), &stock)
}

// Whether the stock has a record of this host above the number that is known.
fn has_news<T: Stock>(host: DcId, known: Toid, stock: &T) -> bool
    ensures { IsTrue result ↔ (first_new host known (records_in (T.held stock.now)) ≢ []) }
{
    stock.next_new(host, known, 0).is_some()
}
