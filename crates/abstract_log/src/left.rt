//! What a run leaves at its datacentres, as far as a report tells of it.
use causal_deps::{Record, Table};
use cz_base::{DcId, Seq, Toid};

/// What stands at a position of a log.
#[derive(Debug, Drop)]
pub enum Row {
    /// This record.
    Kept(Record),
    /// The record was collected there: its name is left, and its body was given back.
    Gone { host: DcId, toid: Toid },
}

/// What a run leaves at one datacentre.
#[derive(Debug, Drop)]
pub struct LeftAt {
    /// What stands at each position, from position 1 on.
    pub rows: Seq<Row>,
    /// What it knows that others have.
    pub table: Table,
}

/// What a run leaves at each datacentre, by letter.
pub type Left = Seq<LeftAt>;
