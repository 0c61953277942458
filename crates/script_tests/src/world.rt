//! A world keeps what its lines made.
ghost use Rattle.std.specs.Prelude.{◌≡◌, ◌≤◌, [], false, length};
ghost use Rattle.tact_base.specs.declared.limits.TheConstants.{SCRIPT_LINES};
ghost use Rattle.script_text.specs.Scripts.{IsScript};
ghost use Rattle.script_text.specs.Setups.{setup_of};

use run_model::Line;
use script_run::{World, parse_script};
use std::process::Abort;
use tact_base::Bytes;

const SCRIPT: &[u8] = b"start 2 1 0 0
write 0 0 put 1 5
send 0 1
take 1 0 0
show 1
";

const TEXT: &[u8] = b"e 0 0 call 0 0 write put 1 5 = done 0 1
e 0 0 send 1 0 0 0
e 1 0 take 0 0
# show 1 have 1 0 clock 1 point 1 committed 1 last 0.0 tentative 0
";

#[test]
fn a_world_keeps_what_its_lines_made(rt: HostRuntime) {
    let script = parse_script(rt.alloc(), SCRIPT).expect(&rt, "a script");
    let mut world = World::new(rt.alloc(), script.config()).expect(&rt, "a world");
    let mut text = Bytes::new(rt.alloc());
    step_all(&rt, &mut world, script.lines(), &mut text);
    assert_eq!(rt; text.items(), TEXT);
    assert_eq!(rt; world.entries().len(), 3);
}

// Does what the lines of a script say, in a world in which nothing has happened.
fn step_all(rt: &impl Abort, world: &mut World, lines: &[Line], text: &mut Bytes)
    requires script { IsScript lines.now }
    requires few { length lines.now ≤ SCRIPT_LINES }
    requires setup { world.old.setup ≡ setup_of lines.now }
    requires lines { world.old.lines ≡ [] }
    requires unspent { world.old.spent ≡ false }
{
    for line in lines {
        let Ok(()) = world.step(line, text) else {
            panic!(rt; "no memory")
        };
    }
}
