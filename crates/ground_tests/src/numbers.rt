//! Numbers in text.

use std::alloc::Global;
use std::process::Abort;
use tact_base::{
    Bytes, NumberFault, TokenFault, print_number, print_signed, read_number, whole_number,
    whole_signed,
};

// The number at a place, and the place behind it.
fn read_at(bytes: &[u8], start: usize) -> (Result<u64, NumberFault>, usize) {
    let mut place = start.min(bytes.len());
    let read = read_number(bytes, &mut place);
    (read, place)
}

static PLACED: [(&[u8], usize, Result<u64, NumberFault>, usize); 10] = [
    (
        b"18446744073709551615",
        0,
        Ok(18_446_744_073_709_551_615),
        20,
    ),
    (
        b"18446744073709551616",
        0,
        Err(NumberFault::TooLarge(19)),
        0,
    ),
    (
        b"a 99999999999999999999",
        2,
        Err(NumberFault::TooLarge(21)),
        2,
    ),
    (b"x", 0, Err(NumberFault::NotDigit(0)), 0),
    (b"-1", 0, Err(NumberFault::NotDigit(0)), 0),
    (b"", 0, Err(NumberFault::Empty), 0),
    (b"12", 2, Err(NumberFault::Empty), 2),
    (b"0000000000000000000000001", 0, Ok(1), 25),
    (b"007x", 1, Ok(7), 3),
    (b"7:8", 2, Ok(8), 3),
];

#[test]
fn reads_a_number_at_a_place(rt: HostRuntime) {
    for &(bytes, start, want, after) in &PLACED {
        assert_eq!(rt; read_at(bytes, start), (want, after));
    }
}

static TOKENS: [(&[u8], u64, Result<u64, TokenFault>); 10] = [
    (b"0", 0, Ok(0)),
    (b"0010", 10, Ok(10)),
    (b"11", 10, Err(TokenFault::OutOfRange)),
    (b"18446744073709551615", u64::MAX, Ok(u64::MAX)),
    (
        b"18446744073709551616",
        u64::MAX,
        Err(TokenFault::OutOfRange),
    ),
    (
        b"99999999999999999999x",
        u64::MAX,
        Err(TokenFault::NotNumber),
    ),
    (b"", 9, Err(TokenFault::NotNumber)),
    (b"-0", 9, Err(TokenFault::NotNumber)),
    (b"+1", 9, Err(TokenFault::NotNumber)),
    (b"1 ", 9, Err(TokenFault::NotNumber)),
];

#[test]
fn reads_a_whole_token(rt: HostRuntime) {
    for &(token, most, want) in &TOKENS {
        assert_eq!(rt; whole_number(token, most), want);
    }
}

static SIGNED_TOKENS: [(&[u8], i64, Result<i64, TokenFault>); 14] = [
    (b"1000000", 1_000_000, Ok(1_000_000)),
    (b"-1000000", 1_000_000, Ok(-1_000_000)),
    (b"1000001", 1_000_000, Err(TokenFault::OutOfRange)),
    (b"-1000001", 1_000_000, Err(TokenFault::OutOfRange)),
    (b"9223372036854775807", i64::MAX, Ok(i64::MAX)),
    (b"-9223372036854775807", i64::MAX, Ok(-i64::MAX)),
    (
        b"-9223372036854775808",
        i64::MAX,
        Err(TokenFault::OutOfRange),
    ),
    (
        b"-18446744073709551616",
        i64::MAX,
        Err(TokenFault::OutOfRange),
    ),
    (b"-0", 0, Ok(0)),
    (b"-007", 7, Ok(-7)),
    (b"-", 9, Err(TokenFault::NotNumber)),
    (b"--1", 9, Err(TokenFault::NotNumber)),
    (b"1-", 9, Err(TokenFault::NotNumber)),
    (b"", 9, Err(TokenFault::NotNumber)),
];

#[test]
fn reads_a_whole_signed_token(rt: HostRuntime) {
    for &(token, size, want) in &SIGNED_TOKENS {
        assert!(rt; size >= 0);
        assert_eq!(rt; whole_signed(token, size as u64), want);
    }
}

fn printed(rt: &impl Abort, alloc: Global, values: &[u64]) -> Bytes {
    let mut out = Bytes::new(alloc);
    for value in values {
        print_number(&mut out, *value).expect(rt, "room for a number");
    }
    out
}

fn printed_signed(rt: &impl Abort, alloc: Global, values: &[i64]) -> Bytes {
    let mut out = Bytes::new(alloc);
    for value in values {
        print_signed(&mut out, *value).expect(rt, "room for a number");
    }
    out
}

#[test]
fn prints_numbers(rt: HostRuntime) {
    let out = printed(&rt, rt.alloc(), &[0, 10, u64::MAX]);
    assert!(rt; out.items() == b"01018446744073709551615".as_slice());
    let out = printed_signed(&rt, rt.alloc(), &[i64::MIN, -1, 0, i64::MAX]);
    assert!(rt; out.items() == b"-9223372036854775808-109223372036854775807".as_slice());
}
