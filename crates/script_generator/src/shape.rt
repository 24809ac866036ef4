//! How large a generated script is.

use abstract_log::Sizes;

/// How many datacentres it has.
pub const DATACENTRE_COUNT: u32 = 3;

/// How many sessions it has.
pub const SESSION_COUNT: u32 = 12;

/// How many commands each session has.
pub const COMMAND_COUNT: u32 = 100;

/// How many steps it has.
pub const STEP_COUNT: u32 = 20_000;

/// How many positions in a row one maintainer owns.
pub const ROUND_LENGTH: u32 = 4;

/// How many members the stages of each datacentre have.
pub const SIZES: Sizes = Sizes {
    batchers: 2,
    filters: 2,
    queues: 2,
    maintainers: 3,
    indexers: 2,
    senders: 2,
    receivers: 2,
};
