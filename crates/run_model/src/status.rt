use crate::Cause;

/// How a command ended.
#[derive(Debug, Drop, PartialEq, Eq)]
pub enum Status {
    /// The input was read to its end, and all output was written.
    Done,
    /// A record was read whose entry of this number, counted from 0, is its first unlawful one. All output was
    /// written.
    Bad {
        entry: u64,
        cause: Cause,
    },
    /// The words after the program's name are no command. Nothing was read.
    Usage(UsageKind),
    /// The input isn't in its grammar. Its first fault is at `place`: a line of a text, counted from 1, or a byte,
    /// counted from 0. Nothing was written.
    BadInput {
        place: u64,
        kind: InputKind,
    },
    /// The source gave more bytes than an input may have.
    TooLong,
    /// Of the run of a workload this replica has as many entries as it may, `count`, and its clock stands at `clock`.
    /// The record of the run up to there was written.
    Full {
        replica: u32,
        count: u64,
        clock: u64,
    },
    /// A journal failed in the run of a workload: that of this replica. Nothing was written.
    JournalFault {
        replica: u32,
    },
    /// The journal of this replica gave another piece than it took at this place, counted from 0, or none. Nothing was
    /// written.
    JournalForeign {
        replica: u32,
        place: u64,
    },
    /// A read failed. Nothing was written.
    ReadFault,
    /// A write failed. What was written by then is the beginning of the output.
    WriteFault,
    /// Want of memory. What was written by then is the beginning of the output.
    NoMemory,
}

/// Why the words after the program's name are no command.
#[derive(Clone, Copy, Debug, PartialEq, Eq)]
pub enum UsageKind {
    /// There is no word.
    NoCommand,
    /// The first word is no command's name.
    UnknownCommand,
    /// A word follows the command's last one.
    ExtraWord,
    /// The number of the command isn't there.
    MissingNumber,
    /// The word in the number's place isn't a number below 2^64.
    BadNumber,
    /// The words of a run of a workload are refused.
    RunWords,
}

/// Why an input isn't in its grammar.
#[derive(Clone, Copy, Debug, PartialEq, Eq)]
pub enum InputKind {
    /// A line of a script or of a record in text is at fault.
    Line(LineKind),
    /// A byte of a record in bytes is at fault.
    Bytes(ByteKind),
    /// A workload is at fault. The place is 0 outside its clients, and in a client its number, counted from 1.
    Load(LoadKind),
}

/// The fault of a line of a script or of a record in text. They are tried in this order, those from
/// `NoStart` to `Extra` token by token from the left. The first line at fault counts. From `NoStart`
/// on, a line without tokens or that begins with `#` is no line.
#[derive(Clone, Copy, Debug, PartialEq, Eq)]
pub enum LineKind {
    /// A script has more than 10,000 lines.
    TooManyLines,
    /// The line has more than 400 bytes.
    LongLine,
    /// The line has a byte below 32 or above 126.
    BadByte,
    /// The first line of a script isn't `start`. Where it has none, the place is the number of lines plus one.
    NoStart,
    /// A later line of a script is `start`.
    SecondStart,
    /// A record doesn't begin with `tact 1` and then a `bound` line for each owner and conit, in order.
    BadHeader,
    /// A line of a record follows `end`.
    AfterEnd,
    /// The grammar doesn't have the word at this place.
    UnknownWord,
    /// The line ends where a token must stand.
    Missing,
    /// The token is no number, or its parts between colons aren't numbers in the right count.
    NotNumber,
    /// A number is outside the range of its field.
    OutOfRange,
    /// A second replica of the line equals the first.
    SameReplica,
    /// The conit of a weight or a need doesn't pass the one before.
    Unordered,
    /// A token follows the last one allowed.
    Extra,
    /// The loans of the line pass its alpha.
    LoansOver,
    /// A `bound` line of a script comes after a line that is neither `start` nor `bound`.
    LateBound,
    /// No earlier line of a script made the message that the line takes.
    NoMessage,
    /// The number at `end` of a record isn't that of the entry lines.
    WrongCount,
    /// A record has no `end`. The place is the number of lines plus one.
    MissingEnd,
}

/// The fault of a record in bytes. The first in the order of the bytes counts.
#[derive(Clone, Copy, Debug, PartialEq, Eq)]
pub enum ByteKind {
    /// The input ends before the record does. The place is the input's length.
    Short,
    /// A field breaks its rule. The place is that of its first byte.
    BadField,
    /// The loans of an owner on a conit pass alpha. The place is that of the alpha.
    LoansOver,
    /// The number of entries is wrong. The place is that of the number.
    WrongCount,
    /// A byte follows the record. The place is that of the first such byte.
    AfterEnd,
}

/// The fault of a workload.
#[derive(Clone, Copy, Debug, PartialEq, Eq)]
pub enum LoadKind {
    /// The text isn't JSON.
    NotJson,
    /// A value has another form than its name asks for, a required name is missing, or a name is unknown.
    Shape,
    /// A whole number is outside the range of its field.
    Range,
    /// A bound, a link or a client is named again.
    Twice,
    /// The loans of a bound pass its alpha.
    LoansOver,
    /// A second replica of an item equals the first.
    Same,
    /// The conit of a weight or a need doesn't pass the one before.
    Unordered,
}
