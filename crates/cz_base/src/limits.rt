//! The limits of the log, each once. Code and definitions use these names.

/// The most datacentres of a log. Their letters are `A` to `H`.
pub const DATACENTRES: usize = 8;

/// The most members of one kind in a datacentre: batchers, filters, queues, maintainers, indexers, senders, receivers.
pub const MEMBERS: usize = 16;

/// The most sessions of a script.
pub const SESSIONS: usize = 64;

/// The most commands of all sessions of a script together.
pub const COMMANDS: u32 = 16_384;

/// The most step lines of a script.
pub const STEPS: usize = 65_536;

/// The most packets under way on one link.
pub const PACKETS: usize = 64;

/// The most records of one message.
pub const MESSAGE_RECORDS: usize = 16;

/// The most tags of a record.
pub const TAGS: usize = 8;

/// The most keys of one command that reads several.
pub const KEYS: usize = 16;

/// The most bytes of a key or a tag.
pub const NAME_BYTES: usize = 64;

/// The most bytes of a body.
pub const BODY_BYTES: usize = 4096;

/// The most bytes of a body in a message of the dense form, which can tell of no longer ones.
pub const DENSE_BODY_BYTES: usize = 1024;

/// The most positions in a row that one maintainer owns.
pub const ROUND: u32 = 1024;

/// The most records that a command asks for by a tag.
pub const LAST_RECORDS: u32 = 64;

/// Positions and record numbers stay below this, 2^48.
pub const NUMBERS_END: u64 = 1 << 48;
