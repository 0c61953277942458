//! Scripts on shares, loans and what is reserved, and the text of their runs.

use crate::playing::{THREE, TWO, prints};

// What a text begins with where two replicas lend 4 of 10.
const TWO_LENT_FOUR: &str = "tact 1 2 1
bound 0 0 10 0 4
bound 1 0 10 4 0
";

// One over the share waits for the peer that may miss it.
const OVER_THE_SHARE: &str = "start 3 1 10 5
write 0 0 add 7 1 0:5:1
write 0 0 add 7 1 0:1:1
";

const OVER_THE_SHARE_TEXT: &str = "e 0 0 call 0 0 write add 7 1 0:5:1 = done 0 1
e 0 0 call 0 1 write add 7 1 0:1:1 = wait-share 0 1 5 0 1 5
end 2
";

// Heard from one peer, it waits for the other.
const OTHER_PEER: &str = "start 3 1 10 5
write 0 0 add 7 1 0:5:1
write 0 0 add 7 1 0:1:1
send 0 1
take 1 0 0
send 1 0
take 0 1 0
write 0 0 add 7 1 0:1:1
";

const OTHER_PEER_TEXT: &str = "e 0 0 call 0 0 write add 7 1 0:5:1 = done 0 1
e 0 0 call 0 1 write add 7 1 0:1:1 = wait-share 0 1 5 0 1 5
e 0 0 send 1 0 0 0 0
e 1 0 take 0 0
e 1 0 send 0 0 1 0 0
e 0 0 take 1 0
e 0 0 call 0 2 write add 7 1 0:1:1 = wait-share 0 2 5 0 1 5
end 7
";

// A weight past the share never fits.
const TOO_HEAVY: &str = "start 3 1 10 5
write 0 0 add 7 1 0:6:1
";

const TOO_HEAVY_TEXT: &str = "e 0 0 call 0 0 write add 7 1 0:6:1 = too-heavy 0 1 6 5
end 1
";

// An old acknowledgement after a newer one takes nothing back.
const OLD_ACKNOWLEDGEMENT: &str = "start 2 1 10 10
write 0 0 add 7 1 0:10:1
send 1 0
send 0 1
take 1 0 0
send 1 0
take 0 1 1
take 0 1 0
write 0 0 add 7 1 0:10:1
";

const OLD_ACKNOWLEDGEMENT_TEXT: &str = "e 0 0 call 0 0 write add 7 1 0:10:1 = done 0 1
e 1 0 send 0 0 0 0
e 0 0 send 1 0 0 0
e 1 0 take 0 0
e 1 0 send 0 1 1 0
e 0 0 take 1 1
e 0 0 take 1 0
e 0 0 call 0 1 write add 7 1 0:10:1 = done 1 2
end 8
";

// A return that is lost once is told again.
const LOST_RETURN: &str = "start 3 1 10 5
read 0 0 1 0:9:0:0
back 1 0 0 1
send 1 0
read 0 0 1 0:9:0:0
send 1 0
take 0 1 1
read 0 0 1 0:9:0:0
";

const LOST_RETURN_TEXT: &str = "e 0 0 call 0 0 read 1 0:9:0:0 = wait-lent 0 1 5 10 9
e 1 0 back 0 0 1
e 1 0 send 0 0 0 0 0
e 0 0 call 0 1 read 1 0:9:0:0 = wait-lent 0 1 5 10 9
e 1 0 send 0 1 0 0 0
e 0 0 take 1 1
e 0 0 call 0 2 read 1 0:9:0:0 = value 0 0
# need 0 num 0/9 order 0/0 stale 0/0
end 7
";

// Loans and returns, some past their limits.
const LOANS: &str = "start 2 1 10 4
lend 0 1 0 7
lend 0 1 0 6
lend 0 1 0 1
back 1 0 0 5
";

const LOANS_TEXT: &str = "# lend 0 1 0 7 home 6
e 0 0 lend 1 0 6
# lend 0 1 0 1 home 0
# back 1 0 0 5 free 4
end 1
";

// What is reserved is spent once.
const ALLOWANCES: &str = "start 2 1 10 10
reserve 0 0 0 10
write 0 0 add 7 1 0:1:1
held 0 0 add 7 1 0:10:1
write 0 0 add 7 1 0:1:1
held 0 0 add 7 1 0:1:1
release 0 0 0 1
";

const ALLOWANCES_TEXT: &str = "e 0 0 call 0 0 reserve 0 10 = granted
e 0 0 call 0 1 write add 7 1 0:1:1 = wait-held 0 1 10 1 10
e 0 0 call 0 2 held add 7 1 0:10:1 = done 0 1
e 0 0 call 0 3 write add 7 1 0:1:1 = wait-share 0 1 10 0 1 10
e 0 0 call 0 4 held add 7 1 0:1:1 = not-held 0 0 1
e 0 0 call 0 5 release 0 1 = not-held 0 0 1
end 6
";

// Each script, what its text begins with, and the lines that follow.
static BUDGETS: [(&str, &str, &str); 7] = [
    (OVER_THE_SHARE, THREE, OVER_THE_SHARE_TEXT),
    (OTHER_PEER, THREE, OTHER_PEER_TEXT),
    (TOO_HEAVY, THREE, TOO_HEAVY_TEXT),
    (OLD_ACKNOWLEDGEMENT, TWO, OLD_ACKNOWLEDGEMENT_TEXT),
    (LOST_RETURN, THREE, LOST_RETURN_TEXT),
    (LOANS, TWO_LENT_FOUR, LOANS_TEXT),
    (ALLOWANCES, TWO, ALLOWANCES_TEXT),
];

#[test]
fn budgets_hold(rt: HostRuntime) {
    for &(script, header, lines) in &BUDGETS {
        assert!(rt; prints(&rt, rt.alloc(), script, header, lines), "{script}");
    }
}
