//! The operations of a workload, and lists that begin with a name.
ghost use Rattle.std.specs.Prelude.{◌≡◌, ◌∷◌, map, Ok, Err, IfOk, MatchResult};
ghost use Rattle.run_model.specs.Ranges.{IsOpInRange};
ghost use Rattle.serde_json.specs.View.{view};
ghost use Rattle.work_load.specs.Forms.{named, named_from, put, add, shift, op_named, op};

use crate::values::{both, listed, natural, signed};
use run_model::LoadKind;
use serde_json::Value;
use tact_base::{KEY_MAX, Op, VALUE_MAX};

/// The name that a list begins with, and what follows it.
#[tactic(auto, unfolding(crate::specs::Forms::named))]
pub(crate) fn named(value: &Value) -> Result<(&str, &[Value]), LoadKind>
    ensures { MatchResult result
        (λ found. named (view value.now) ≡ Ok (found.0.now, map view found.1.now))
        (λ kind. named (view value.now) ≡ Err kind) }
{
    match listed(value)? {
        [name, fields @ ..] => match name.as_str() {
            Some(name) => Ok((name, fields)),
            None => Err(LoadKind::Shape),
        },
        [] => Err(LoadKind::Shape),
    }
}

fn put(fields: &[Value]) -> Result<Op, LoadKind>
    ensures op { result ≡ put (map view fields.now) }
    ensures within { IfOk result IsOpInRange }
{
    let [key, value] = fields else {
        return Err(LoadKind::Shape);
    };
    let (key, value) = both(natural(key, 0, KEY_MAX), signed(value, VALUE_MAX))?;
    Ok(Op::Put { key, value })
}

fn add(fields: &[Value]) -> Result<Op, LoadKind>
    ensures op { result ≡ add (map view fields.now) }
    ensures within { IfOk result IsOpInRange }
{
    let [key, delta] = fields else {
        return Err(LoadKind::Shape);
    };
    let (key, delta) = both(natural(key, 0, KEY_MAX), signed(delta, VALUE_MAX))?;
    Ok(Op::Add { key, delta })
}

fn shift(fields: &[Value]) -> Result<Op, LoadKind>
    ensures op { result ≡ shift (map view fields.now) }
    ensures within { IfOk result IsOpInRange }
{
    let [from, to, amount] = fields else {
        return Err(LoadKind::Shape);
    };
    let to = natural(to, 0, KEY_MAX);
    let amount = natural(amount, 0, VALUE_MAX);
    let (from, (to, amount)) = both(natural(from, 0, KEY_MAX), both(to, amount))?;
    Ok(Op::Shift { from, to, amount })
}

fn op_named(name: &str, fields: &[Value]) -> Result<Op, LoadKind>
    ensures op { result ≡ op_named name.now (map view fields.now) }
    ensures within { IfOk result IsOpInRange }
{
    if name == "put" {
        put(fields)
    } else if name == "add" {
        add(fields)
    } else if name == "shift" {
        shift(fields)
    } else {
        Err(LoadKind::Shape)
    }
}

/// The operation that a value is.
#[tactic(auto, unfolding(crate::specs::Forms::op))]
pub(crate) fn op(value: &Value) -> Result<Op, LoadKind>
    ensures op { result ≡ op (view value.now) }
    ensures within { IfOk result IsOpInRange }
{
    let (name, fields) = named(value)?;
    op_named(name, fields)
}
