//! Telling other datacentres: a sender puts its datacentre's table and the first records that the
//! receiver is not known to have into one message, and a receiver reads the message back.
//!
//! Model: a [`Stock`] is seen as a list of places and records by rising place, and a [`Sender`] as its
//! datacentre, its number and whether it was upgraded.
//!
//! To the layers above: the message is a function of table and stock (`message_to`), its form one of message and
//! upgrade (`form_of`), and its bytes are its one spelling in that form. Nothing else decodes from them.
//!
//! Decided: the stock is a trait, so that a sender reads the maintainers of its datacentre where they are and
//! no record is copied before it is known to be told. The message is handed out beside its bytes, since the
//! layers above speak of messages.
//!
//! Tests: the crate `test_links`.
#![tactic(auto)]

mod choosing;
mod laws;
mod receiver;
mod sender;
mod stock;

pub use choosing::is_news;
pub use laws::the_next_place_is_the_least;
pub use receiver::receive;
pub use sender::{Sender, SpelledMessage};
pub use stock::Stock;
