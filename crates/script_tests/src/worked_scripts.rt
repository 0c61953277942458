//! Scripts, and the text of their runs.

use crate::playing::assert_plays;
use run_model::Status;

// Two replicas write at the same time: the greater number of the replica decides.
const EQUAL_STAMPS: &str = "start 2 1 0 0
write 0 0 put 1 5
write 1 0 put 1 6
send 0 1
take 1 0 0
send 1 0
take 0 1 0
show 0
show 1
";

const EQUAL_STAMPS_TEXT: &str = "tact 1 2 1
bound 0 0 0 0 0
bound 1 0 0 0 0
e 0 0 call 0 0 write put 1 5 = done 0 1
e 1 0 call 0 0 write put 1 6 = done 0 1
e 0 0 send 1 0 0 0
e 1 0 take 0 0
e 1 0 send 0 0 1 0
e 0 0 take 1 0
# show 0 have 1 1 clock 1 point 1 committed 2 last 1.0 tentative 0
# show 1 have 1 1 clock 1 point 1 committed 2 last 1.0 tentative 0
end 6
";

// A repeat changes nothing but the count of entries.
const REPEAT: &str = "start 2 1 10 10

  # a repeat, with spaces and a blank line
write 0 7 add 7 -1
send 0 1
take 1 0 0
  show   1
take 1 0 0
show 1";

const REPEAT_TEXT: &str = "tact 1 2 1
bound 0 0 10 0 10
bound 1 0 10 10 0
e 0 0 call 7 0 write add 7 -1 = done 0 1
e 0 0 send 1 0 0 0
e 1 0 take 0 0
# show 1 have 1 0 clock 1 point 1 committed 1 last 0.0 tentative 0
e 1 0 take 0 0
# show 1 have 1 0 clock 1 point 1 committed 1 last 0.0 tentative 0
end 4
";

// Messages that come in the other order: the first one told leaves no gap.
const OTHER_ORDER: &str = "start 3 1 0 0
write 0 0 put 1 1
send 0 1
write 0 0 shift 1 2 1
send 0 1
take 1 0 1
take 1 0 0
send 1 2
take 2 1 0
show 2
write 2 3 put 9 9
show 2
";

const OTHER_ORDER_TEXT: &str = "tact 1 3 1
bound 0 0 0 0 0 0
bound 1 0 0 0 0 0
bound 2 0 0 0 0 0
e 0 0 call 0 0 write put 1 1 = done 0 1
e 0 0 send 1 0 0 0 0
e 0 0 call 0 1 write shift 1 2 1 = done 1 2
e 0 0 send 1 1 0 0 0
e 1 0 take 0 1
e 1 0 take 0 0
e 1 0 send 2 0 0 0 0
e 2 0 take 1 0
# show 2 have 2 0 0 clock 2 point 2 committed 2 last 0.1 tentative 0
e 2 0 call 3 0 write put 9 9 = done 0 3
# show 2 have 2 0 1 clock 3 point 2 committed 2 last 0.1 tentative 1
end 9
";

// A replica that has heard of nothing.
const NOTHING_SEEN: &str = "start 2 1 0 0\nshow 1\n";

const NOTHING_SEEN_TEXT: &str = "tact 1 2 1
bound 0 0 0 0 0
bound 1 0 0 0 0
# show 1 have 0 0 clock 0 point 0 committed 0 last none tentative 0
end 0
";

const ONE_LINE_TEXT: &str = "tact 1 2 1\nbound 0 0 0 0 0\nbound 1 0 0 0 0\nend 0\n";

// Each script and its text.
static SCRIPTS: [(&str, &str); 7] = [
    ("start 2 1 0 0\n", ONE_LINE_TEXT),
    ("start 2 1 0 0", ONE_LINE_TEXT),
    ("# first\n\n  start 02 1 0 0  \n#last", ONE_LINE_TEXT),
    (EQUAL_STAMPS, EQUAL_STAMPS_TEXT),
    (REPEAT, REPEAT_TEXT),
    (OTHER_ORDER, OTHER_ORDER_TEXT),
    (NOTHING_SEEN, NOTHING_SEEN_TEXT),
];

#[test]
fn each_script_has_its_text(rt: HostRuntime) {
    for &(script, text) in &SCRIPTS {
        assert_plays(&rt, rt.alloc(), script, &Status::Done, text);
    }
}
