//! Which records a message tells.

ghost use Rattle.std.specs.Prelude.{◌≡◌, IfOk};
ghost use Rattle.sender_receiver.specs.Stocks.{records_in};
ghost use Rattle.sender_receiver.specs.Choosing.{is_new, first_new};

use crate::Stock;
use causal_deps::Record;
use cz_base::limits::MESSAGE_RECORDS;
use cz_base::{DcId, NoMemory, Seq, Toid};
use std::alloc::Global;

/// Whether the record is of this host, and above the number that is known.
pub fn is_news(rec: &Record, host: DcId, known: Toid) -> bool
    ensures { result ≡ is_new host known rec.now }
{
    rec.host == host && known < rec.toid
}

/// The first [`MESSAGE_RECORDS`] records of the stock that are of this host and above the number that is known.
pub(crate) fn first_news<T: Stock>(
    alloc: Global,
    host: DcId,
    known: Toid,
    stock: &T,
) -> Result<Seq<Record>, NoMemory>
    ensures { IfOk result (λ records. records ≡ first_new host known (records_in (T.held stock.now))) }
{
    let mut records = Seq::new(alloc);
    let mut lid = 0;
    'news: while records.len() < MESSAGE_RECORDS {
        let Some((next, rec)) = stock.next_new(host, known, lid) else {
            break;
        };
        records.push(rec.copy()?)?;
        lid = next;
    }
    Ok(records)
}
