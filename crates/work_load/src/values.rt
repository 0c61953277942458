//! What a JSON value is read as: a whole number in its range, or a list.
ghost use Rattle.std.specs.Prelude.{◌≡◌, ◌≤◌, ◌<◌, ◌-◌, unsigned_abs, map, Ok, Err, IfOk, MatchResult, unwrap_or, option_map};
ghost use Rattle.serde_json.specs.View.{view};
ghost use Rattle.run_model.specs.declared.status.LoadKind.TheVariants.{Shape};
ghost use Rattle.work_load.specs.Values.{rank, earlier, both, natural, signed, listed};

use run_model::LoadKind;
use serde_json::Value;

// The order in which the kinds of faults are tried.
fn rank(kind: LoadKind) -> u8
    ensures { result ≡ rank kind }
{
    match kind {
        LoadKind::NotJson => 0,
        LoadKind::Shape => 1,
        LoadKind::Range => 2,
        LoadKind::Twice => 3,
        LoadKind::LoansOver => 4,
        LoadKind::Same => 5,
        LoadKind::Unordered => 6,
    }
}

// Of two kinds the one that is tried first.
fn earlier(first: LoadKind, second: LoadKind) -> LoadKind
    ensures { result ≡ earlier first second }
{
    if rank(second) < rank(first) {
        second
    } else {
        first
    }
}

/// The fault of what was read so far and of one more.
pub(crate) fn earliest(fault: Option<LoadKind>, kind: LoadKind) -> LoadKind
    ensures { result ≡ unwrap_or (option_map (λ first. earlier first kind) fault) kind }
{
    match fault {
        Some(first) => earlier(first, kind),
        None => kind,
    }
}

// Two things that stand together.
pub(crate) fn both<A: Copy, B: Copy>(
    first: Result<A, LoadKind>,
    second: Result<B, LoadKind>,
) -> Result<(A, B), LoadKind>
    ensures { result ≡ both first second }
{
    match (first, second) {
        (Ok(x), Ok(y)) => Ok((x, y)),
        (Ok(_), Err(kind)) => Err(kind),
        (Err(kind), Ok(_)) => Err(kind),
        (Err(first), Err(second)) => Err(earlier(first, second)),
    }
}

// A whole number from `least` to `most`.
#[tactic(auto, unfolding(crate::specs::Values::natural))]
pub(crate) fn natural(value: &Value, least: u64, most: u64) -> Result<u64, LoadKind>
    ensures number { result ≡ natural least most (view value.now) }
    ensures low { IfOk result (λ number. least ≤ number) }
    ensures high { IfOk result (λ number. number ≤ most) }
{
    match value.as_u64() {
        Some(number) if least <= number && number <= most => Ok(number),
        Some(_) => Err(LoadKind::Range),
        None if value.is_i64() => Err(LoadKind::Range),
        None => Err(LoadKind::Shape),
    }
}

// A whole number from -size to size.
#[tactic(auto, unfolding(crate::specs::Values::signed))]
pub(crate) fn signed(value: &Value, size: u64) -> Result<i64, LoadKind>
    ensures number { result ≡ signed size (view value.now) }
    ensures within { IfOk result (λ number. unsigned_abs number ≤ size) }
{
    match value.as_i64() {
        Some(number) if number.unsigned_abs() <= size => Ok(number),
        Some(_) => Err(LoadKind::Range),
        None if value.is_u64() => Err(LoadKind::Range),
        None => Err(LoadKind::Shape),
    }
}

/// A number below `count`: of a replica, a conit or a client.
pub(crate) fn number_below(value: &Value, count: u32) -> Result<u32, LoadKind>
    requires { 0 < count }
    ensures number { result ≡ natural 0 (count - 1) (view value.now) }
    ensures below { IfOk result (λ number. number < count) }
{
    Ok(natural(value, 0, u64::from(count - 1))? as u32)
}

// The items of a list.
#[tactic(auto, unfolding(crate::specs::Values::listed))]
pub(crate) fn listed(value: &Value) -> Result<&[Value], LoadKind>
    ensures { MatchResult result
        (λ items. listed (view value.now) ≡ Ok (map view items.now))
        (λ kind. listed (view value.now) ≡ Err kind) }
{
    match value.as_array() {
        Some(items) => Ok(items.as_slice()),
        None => Err(LoadKind::Shape),
    }
}
