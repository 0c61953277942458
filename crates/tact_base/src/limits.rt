//! The limits of the project's numbers. Each is the greatest number that its field may have, except
//! where its line says otherwise.

/// The least count of replicas.
pub const REPLICAS_MIN: u32 = 2;

/// The greatest count of replicas.
pub const REPLICAS_MAX: u32 = 8;

/// The greatest count of conits; the least is 1.
pub const CONITS_MAX: u32 = 16;

/// The count of clients of a replica, whose numbers are those below it.
pub const CLIENTS: u32 = 8;

/// The greatest count of the weights of a write and of the needs of a read.
pub const LIST_MAX: usize = 4;

/// The size of an nweight, and an oweight.
pub const WEIGHT_MAX: u64 = 1_000_000;

/// The alpha of an owner on a conit, and a loan at the opening.
pub const ALPHA_MAX: u64 = 1_000_000_000_000;

/// `num` and `order` of a need, and every amount but that of a shift.
pub const AMOUNT_MAX: u64 = 1_000_000_000_000;

/// A key.
pub const KEY_MAX: u64 = 1_000_000_000;

/// The size of a key's value, and the amount of a shift.
pub const VALUE_MAX: u64 = 1_000_000_000_000_000;

/// A moment, and `stale` of a need. Milliseconds where a clock gives it.
pub const MOMENT_MAX: u64 = 1_152_921_504_606_846_976;

/// A stamp, and a replica's clock.
pub const STAMP_MAX: u64 = 1_099_511_627_776;

/// All that one replica ever lent to another on a conit.
pub const LENT_MAX: u64 = 100_000_000_000_000_000;

/// The greatest count of entries of one replica.
pub const HISTORY_MAX: u64 = 20_000;

/// The greatest count of writes in one message.
pub const MESSAGE_WRITES: usize = 64;

/// The greatest count of writes whose weights are added up at once: more than all replicas can accept.
pub const SUMMED_WRITES: usize = 200_000;

/// The greatest count of bytes of an input.
pub const INPUT_MAX: u64 = 67_108_864;

/// The greatest count of bytes of a line of text, without its line feed.
pub const LINE_MAX: usize = 400;

/// The greatest count of lines of a script.
pub const SCRIPT_LINES: u64 = 10_000;
