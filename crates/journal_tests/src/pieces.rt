//! Pieces of replica 1 of two on one conit, each of which allows 10; replica 0 lends 10 of it, and replica 1 4.
//! Each comes from a function without clauses, so that no proof writes its bytes out.

/// It took the first message of replica 0, which had accepted `add 7 1` with the weight 0, 5, 1.
pub(crate) fn take() -> &'static [u8] {
    b"\x03\x01\0\0\0\0\0\0\0\0\
    \x4d\x01\x02\x01\0\x01\0\0\0\0\0\0\0\0\
    \0\0\0\0\0\0\0\x01\0\0\0\0\0\0\0\x01\0\0\0\0\0\0\0\x01\0\0\0\0\0\0\0\0\0\0\0\0\0\0\0\0\x01\
    \0\0\0\0\0\0\0\0\0\0\0\0\0\0\0\0\0\0\0\0\0\0\0\0\0\0\0\0\0\0\0\0\0\0\0\0\0\0\0\0\0\
    \0\0\0\0\0\0\0\x0a\0\0\0\0\0\0\0\0\
    \0\0\0\0\0\0\0\x01\0\0\0\0\0\0\0\0\x01\0\0\0\0\0\0\0\0\x05\0\0\0\0\0\0\0\x01\
    \x02\0\0\0\0\0\0\0\x07\0\0\0\0\0\0\0\x01"
}

/// The same at 3.
pub(crate) fn again() -> &'static [u8] {
    b"\x03\x01\0\0\0\0\0\0\0\x03\
    \x4d\x01\x02\x01\0\x01\0\0\0\0\0\0\0\0\
    \0\0\0\0\0\0\0\x01\0\0\0\0\0\0\0\x01\0\0\0\0\0\0\0\x01\0\0\0\0\0\0\0\0\0\0\0\0\0\0\0\0\x01\
    \0\0\0\0\0\0\0\0\0\0\0\0\0\0\0\0\0\0\0\0\0\0\0\0\0\0\0\0\0\0\0\0\0\0\0\0\0\0\0\0\0\
    \0\0\0\0\0\0\0\x0a\0\0\0\0\0\0\0\0\
    \0\0\0\0\0\0\0\x01\0\0\0\0\0\0\0\0\x01\0\0\0\0\0\0\0\0\x05\0\0\0\0\0\0\0\x01\
    \x02\0\0\0\0\0\0\0\x07\0\0\0\0\0\0\0\x01"
}

/// Client 0 adds 1 to the key 7 with the weight 0, 5, 1, which is done with the index 0 and the stamp 2.
pub(crate) fn write() -> &'static [u8] {
    b"\x01\x01\0\0\0\0\0\0\0\x03\0\0\0\0\0\0\0\0\0\
    \x01\x01\0\0\0\0\0\0\0\0\x05\0\0\0\0\0\0\0\x01\x02\0\0\0\0\0\0\0\x07\0\0\0\0\0\0\0\x01\
    \x01\0\0\0\0\0\0\0\0\0\0\0\0\0\0\0\x02"
}

/// Client 3 reads the key 7 at 4, and its value is 2.
pub(crate) fn read() -> &'static [u8] {
    b"\x01\x01\0\0\0\0\0\0\0\x04\x03\0\0\0\0\0\0\0\0\
    \x05\0\0\0\0\0\0\0\x07\0\
    \x04\0\0\0\0\0\0\0\x02\0"
}

/// It sends its first message to replica 0, whose firsts are 1 and 0.
pub(crate) fn send() -> &'static [u8] {
    b"\x02\x01\0\0\0\0\0\0\0\x04\0\0\0\0\0\0\0\0\0\
    \0\0\0\0\0\0\0\x01\0\0\0\0\0\0\0\0"
}

/// It lends replica 0 all 6 that it has at home, and gives back to it all 5 that are free.
pub(crate) fn lend() -> &'static [u8] {
    b"\x04\x01\0\0\0\0\0\0\0\x04\0\0\0\0\0\0\0\0\0\x06"
}

pub(crate) fn back() -> &'static [u8] {
    b"\x05\x01\0\0\0\0\0\0\0\x05\0\0\0\0\0\0\0\0\0\x05"
}

/// It begins anew.
pub(crate) fn restart() -> &'static [u8] {
    b"\x06\x01\0\0\0\0\0\0\0\x05"
}

/// How many kinds there are.
pub(crate) const KINDS: usize = 8;

/// A journal with an entry of each kind: its piece at a place.
pub(crate) fn of_kind(place: usize) -> &'static [u8] {
    match place {
        0 => take(),
        1 => again(),
        2 => write(),
        3 => read(),
        4 => send(),
        5 => lend(),
        6 => back(),
        _ => restart(),
    }
}
