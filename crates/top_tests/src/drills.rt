//! What a number draws.

use crate::obeying::{assert_obeys, done};
use run_model::Status;

// What an independent program reckons of the number 0.
const ZERO: &[u8] = b"drill 0 entries 2645 done 907 waits 98 heavy 0 values 158 sends 843 takes 639
show 0 have 222 227 213 227 clock 338 point 325 committed 873 last 3.223 tentative 16
show 1 have 219 236 220 228 clock 341 point 335 committed 897 last 0.218 tentative 6
show 2 have 219 235 220 228 clock 340 point 335 committed 897 last 0.218 tentative 5
show 3 have 219 230 220 229 clock 337 point 325 committed 873 last 3.223 tentative 25
";

// What an independent program reckons of the primary's order at the number 0: 1,000 events, those of each kind added up.
const ORDER: &[u8] = b"primary 0 events 1000 accepts 387 posts 279 takes 334
peer 0 have 89 74 46 68 told 277 committed 277
peer 1 have 64 95 30 52 told 256 committed 146
peer 2 have 69 75 90 97 told 222 committed 222
peer 3 have 63 68 69 113 told 216 committed 216
";

// What an independent program reckons of roaming clients at the number 0, which also holds each trip against the four
// guarantees by sets of writes: 580 entries, those of each kind added up.
const VISITS: &[u8] =
    b"roam 0 entries 580 behind 419 done 91 values 88 waits 0 heavy 0 sends 222 takes 179
pass 0 reads 23 15 5 40 writes 3 13 0 42
pass 1 reads 27 15 5 42 writes 27 0 0 2
pass 2 reads 27 15 5 43 writes 1 15 5 44
pass 3 reads 27 15 5 42 writes 0 12 1 43
";

// What an independent program reckons of guarded sales at the number 0, folded anew from each part at each step, which also
// finds no more than 200 places and no fewer than none sold after any: 995 entries, those of each kind added up.
const TRADES: &[u8] =
    b"sales 0 entries 995 sold 72 cancelled 82 over 0 under 4 waits 455 sends 176 takes 210
replica 0 value 69
replica 1 value 84
replica 2 value 98
ref 82
";

static DRAWN: [(&str, &[u8]); 4] = [
    ("tactcli drill 0", ZERO),
    ("tactcli primary 0", ORDER),
    ("tactcli roam 0", VISITS),
    ("tactcli sales 0", TRADES),
];

#[test]
fn the_first_number_draws_what_is_reckoned_of_it(rt: HostRuntime) {
    for &(line, wanted) in &DRAWN {
        assert_obeys(&rt, line, b"", Status::Done, wanted);
    }
}

#[test]
fn the_last_number_draws_a_drill(rt: HostRuntime) {
    let _sink = done(&rt, "tactcli drill 18446744073709551615", b"");
}

#[test]
fn a_number_draws_the_same_order_again(rt: HostRuntime) {
    let sink = done(&rt, "tactcli primary 7", b"");
    assert_obeys(&rt, "tactcli primary 7", b"", Status::Done, sink.bytes());
}
