//! Scripts with reads, and the text of their runs.

use crate::playing::{THREE, TWO, prints};

// What a text begins with where two replicas lend all of 100.
const TWO_OF_HUNDRED: &str = "tact 1 2 1
bound 0 0 100 0 100
bound 1 0 100 100 0
";

// What is out at both others is more than the need allows; the first is named at whom more than its part is.
const LENT: &str = "start 3 1 10 5
read 1 0 1 0:9:0:0
read 1 0 1 0:10:0:0
";

const LENT_TEXT: &str = "e 1 0 call 0 0 read 1 0:9:0:0 = wait-lent 0 0 5 10 9
e 1 0 call 0 1 read 1 0:10:0:0 = value 0 0
# need 0 num 0/10 order 0/0 stale 0/0
end 2
";

// Weights of the two signs count apart, and a read is told how well its need was met.
const SIGNS: &str = "start 3 1 10 5
write 0 0 add 7 1 0:5:1
send 0 2
write 0 0 add 7 1 0:-5:1
write 0 0 add 7 1 0:1:1
read 2 0 7 0:10:9:9
take 2 0 0
read 2 0 7 0:10:9:9
ref 0
";

const SIGNS_TEXT: &str = "e 0 0 call 0 0 write add 7 1 0:5:1 = done 0 1
e 0 0 send 2 0 0 0 0
e 0 0 call 0 1 write add 7 1 0:-5:1 = done 1 2
e 0 0 call 0 2 write add 7 1 0:1:1 = wait-share 0 1 5 0 1 5
e 2 0 call 0 0 read 7 0:10:9:9 = value 0 0
# need 0 num 0/10 order 0/9 stale 0/9
e 2 0 take 0 0
e 2 0 call 0 1 read 7 0:10:9:9 = value 1 5
# need 0 num 5/10 order 1/9 stale 0/9
# ref 0 0
end 7
";

// A repeat at a later moment.
const LATER_REPEAT: &str = "start 2 1 10 10
write 0 0 add 7 1 0:5:1
send 0 1
take 1 0 0
show 1
at 3
take 1 0 0
show 1
";

const LATER_REPEAT_TEXT: &str = "e 0 0 call 0 0 write add 7 1 0:5:1 = done 0 1
e 0 0 send 1 0 0 0
e 1 0 take 0 0
# show 1 have 1 0 clock 1 point 1 committed 1 last 0.0 tentative 0
e 1 3 take 0 0
# show 1 have 1 0 clock 1 point 1 committed 1 last 0.0 tentative 0
end 4
";

// A gap: what leaves one isn't taken, but the clock rises.
const GAP: &str = "start 2 1 100 100
write 0 0 add 7 1
send 0 1
write 0 0 add 7 1
write 0 0 add 7 1
send 0 1 2 0
take 1 0 0
take 1 0 1
show 1
";

const GAP_TEXT: &str = "e 0 0 call 0 0 write add 7 1 = done 0 1
e 0 0 send 1 0 0 0
e 0 0 call 0 1 write add 7 1 = done 1 2
e 0 0 call 0 2 write add 7 1 = done 2 3
e 0 0 send 1 1 2 0
e 1 0 take 0 0
e 1 0 take 0 1
# show 1 have 1 0 clock 3 point 1 committed 1 last 0.0 tentative 0
end 7
";

// Equal stamps, after both heard of each other.
const SYNC: &str = "start 2 1 10 10
write 0 0 put 1 5
write 1 0 put 1 6
sync 0 1
show 0
show 1
read 0 0 1
read 1 0 1
";

const SYNC_TEXT: &str = "e 0 0 call 0 0 write put 1 5 = done 0 1
e 1 0 call 0 0 write put 1 6 = done 0 1
e 0 0 send 1 0 0 0
e 1 0 take 0 0
e 1 0 send 0 0 1 0
e 0 0 take 1 0
# show 0 have 1 1 clock 1 point 1 committed 2 last 1.0 tentative 0
# show 1 have 1 1 clock 1 point 1 committed 2 last 1.0 tentative 0
e 0 0 call 0 1 read 1 = value 6
e 1 0 call 0 1 read 1 = value 6
end 8
";

// A late write goes before a shift that found nothing.
const ROLLBACK: &str = "start 3 1 10 5
write 0 0 add 1 5
write 1 0 shift 1 2 5
read 1 0 2
send 0 1
take 1 0 0
read 1 0 2
";

const ROLLBACK_TEXT: &str = "e 0 0 call 0 0 write add 1 5 = done 0 1
e 1 0 call 0 0 write shift 1 2 5 = done 0 1
e 1 0 call 0 1 read 2 = value 0
e 0 0 send 1 0 0 0 0
e 1 0 take 0 0
e 1 0 call 0 2 read 2 = value 5
end 6
";

// Tentative order weight up to the bound is admitted.
const ORDER_BOUND: &str = "start 3 1 10 5
write 0 0 add 1 1 0:1:4
read 0 0 1 0:10:4:0
read 0 0 1 0:10:3:0
";

const ORDER_BOUND_TEXT: &str = "e 0 0 call 0 0 write add 1 1 0:1:4 = done 0 1
e 0 0 call 0 1 read 1 0:10:4:0 = value 1 1
# need 0 num 0/10 order 4/4 stale 0/0
e 0 0 call 0 2 read 1 0:10:3:0 = wait-order 0 1 4 3
end 3
";

// A peer was heard of up to a moment, that one among them.
const STALENESS: &str = "start 2 1 10 10
at 5
read 0 0 1 0:10:0:9
at 100
send 1 0
take 0 1 0
at 110
read 0 0 1 0:10:0:10
read 0 0 1 0:10:0:9
";

const STALENESS_TEXT: &str = "e 0 5 call 0 0 read 1 0:10:0:9 = value 0 0
# need 0 num 0/10 order 0/0 stale 0/9
e 1 100 send 0 0 0 0
e 0 100 take 1 0
e 0 110 call 0 1 read 1 0:10:0:10 = value 0 0
# need 0 num 0/10 order 0/0 stale 0/10
e 0 110 call 0 2 read 1 0:10:0:9 = wait-stale 0 1 100 101
end 5
";

// Each script, what its text begins with, and the lines that follow.
static READS: [(&str, &str, &str); 8] = [
    (LENT, THREE, LENT_TEXT),
    (SIGNS, THREE, SIGNS_TEXT),
    (LATER_REPEAT, TWO, LATER_REPEAT_TEXT),
    (GAP, TWO_OF_HUNDRED, GAP_TEXT),
    (SYNC, TWO, SYNC_TEXT),
    (ROLLBACK, THREE, ROLLBACK_TEXT),
    (ORDER_BOUND, THREE, ORDER_BOUND_TEXT),
    (STALENESS, TWO, STALENESS_TEXT),
];

#[test]
fn reads_are_told(rt: HostRuntime) {
    for &(script, header, lines) in &READS {
        assert!(rt; prints(&rt, rt.alloc(), script, header, lines), "{script}");
    }
}
