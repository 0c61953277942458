//! The lines that a record in text begins and ends with.

ghost use Rattle.std.specs.Prelude.{◌≡◌, ◌<◌, ◌++◌, OnOk, OnErr};
ghost use Rattle.std.specs.List.{flat_map};
ghost use Rattle.tact_base.specs.Setup.{owners_and_conits};
ghost use Rattle.run_model.specs.Text.{BeginsWith, bound_line, header_text, end_text};

use crate::Config;
use crate::tokens::{all_or_nothing, put_number, put_numbers};
use tact_base::{Bytes, NoMemory};

/// Appends the lines that a record begins with: the counts, then for each owner and conit its alpha and
/// its loans by holder. `NoMemory` leaves `out` as it was.
pub fn head_of(config: &Config, out: &mut Bytes) -> Result<(), NoMemory>
    ensures ok { OnOk result (out.new ≡ out.old ++ header_text config.now) }
    ensures err { OnErr result (out.new ≡ out.old) }
{
    let start = out.len();
    let done = print_head(config, out);
    all_or_nothing(done, start, out)
}

/// Appends the line that a record ends with, which has the count of its entries. `NoMemory` leaves `out`
/// as it was.
pub fn end_of(count: u64, out: &mut Bytes) -> Result<(), NoMemory>
    ensures ok { OnOk result (out.new ≡ out.old ++ end_text count) }
    ensures err { OnErr result (out.new ≡ out.old) }
{
    let start = out.len();
    let done = print_end(count, out);
    all_or_nothing(done, start, out)
}

fn print_head(config: &Config, out: &mut Bytes) -> Result<(), NoMemory>
    ensures ok { OnOk result (out.new ≡ out.old ++ header_text config.now) }
    ensures err { OnErr result (BeginsWith out.old out.new) }
{
    let replicas = config.replicas();
    let conits = config.conits();
    out.append(b"tact")?;
    put_numbers(&[1, u64::from(replicas), u64::from(conits)], out)?;
    out.push(b'\n')?;
    print_bounds(config, out)
}

fn print_bounds(config: &Config, out: &mut Bytes) -> Result<(), NoMemory>
    ensures ok { OnOk result
        (out.new ≡ out.old ++ flat_map (bound_line config.now) (owners_and_conits config.now)) }
    ensures err { OnErr result (BeginsWith out.old out.new) }
{
    let replicas = config.replicas();
    let conits = config.conits();
    for place in 0..replicas * conits {
        print_bound(config, place / conits, place % conits, out)?;
    }
    Ok(())
}

fn print_bound(config: &Config, owner: u32, conit: u32, out: &mut Bytes) -> Result<(), NoMemory>
    requires owner_in { owner < config.now.replicas }
    requires conit_in { conit < config.now.conits }
    ensures ok { OnOk result (out.new ≡ out.old ++ bound_line config.now (owner, conit)) }
    ensures err { OnErr result (BeginsWith out.old out.new) }
{
    let alpha = config.alpha(owner, conit);
    out.append(b"bound")?;
    put_numbers(&[u64::from(owner), u64::from(conit), alpha], out)?;
    put_numbers(config.loans(owner, conit), out)?;
    out.push(b'\n')
}

fn print_end(count: u64, out: &mut Bytes) -> Result<(), NoMemory>
    ensures ok { OnOk result (out.new ≡ out.old ++ end_text count) }
    ensures err { OnErr result (BeginsWith out.old out.new) }
{
    out.append(b"end")?;
    put_number(count, out)?;
    out.push(b'\n')
}
