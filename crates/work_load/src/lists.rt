//! The weights and needs of a workload.
ghost use Rattle.std.specs.Prelude.{◌≡◌, ◌<◌, ◌≤◌, true, unsigned_abs, length, take, map, All, IfOk, MatchResult, Ok, Err, unwrap_or, option_map};
ghost use Rattle.serde_json.specs.View.{view};
ghost use Rattle.tact_base.specs.declared.limits.TheConstants.{AMOUNT_MAX, MOMENT_MAX, WEIGHT_MAX};
ghost use Rattle.tact_base.specs.ConitList.{IsConitList};
ghost use Rattle.work_load.specs.Values.{all_of, earlier};
ghost use Rattle.work_load.specs.Forms.{weight, need, rows};

use crate::values::{both, earliest, listed, natural, number_below, signed};
use run_model::LoadKind;
use serde_json::Value;
use tact_base::{AMOUNT_MAX, ConitList, LIST_MAX, MOMENT_MAX, Need, OnConit, WEIGHT_MAX, Weight};

/// What stands in a list by conit: a weight or a need.
pub(crate) trait Row: OnConit {
    ghost use Rattle.std.specs.Prelude.{ℕ};
    ghost use Rattle.serde_json.specs.Data.{Data};
    ghost use Rattle.work_load.specs.Values.{Reading};

    /// How one is read, where there are so many conits.
    ghost read: { ℕ → Data → Reading Self };

    /// Reads one.
    fn read(value: &Value, conits: u32) -> Result<Self, LoadKind>
        requires { 0 < conits }
        ensures row { result ≡ read conits (view value.now) }
        ensures within { IfOk result (λ row. Self.in_limits row ≡ true) }
        ensures conit { IfOk result (λ row. Self.conit_of row < conits) };
}

impl Row for Weight {
    ghost read = { weight };

    fn read(value: &Value, conits: u32) -> Result<Self, LoadKind> {
        weight(value, conits)
    }
}

impl Row for Need {
    ghost read = { need };

    fn read(value: &Value, conits: u32) -> Result<Self, LoadKind> {
        need(value, conits)
    }
}

#[tactic(auto, unfolding(crate::specs::Forms::weight))]
fn weight(value: &Value, conits: u32) -> Result<Weight, LoadKind>
    requires { 0 < conits }
    ensures weight { result ≡ weight conits (view value.now) }
    ensures conit { IfOk result (λ weight. weight.conit < conits) }
    ensures nweight { IfOk result (λ weight. unsigned_abs weight.nweight ≤ WEIGHT_MAX) }
    ensures oweight { IfOk result (λ weight. weight.oweight ≤ WEIGHT_MAX) }
{
    let [conit, nweight, oweight] = listed(value)? else {
        return Err(LoadKind::Shape);
    };
    let change = signed(nweight, WEIGHT_MAX);
    let order = natural(oweight, 0, WEIGHT_MAX);
    let (conit, (nweight, oweight)) = both(number_below(conit, conits), both(change, order))?;
    Ok(Weight {
        conit,
        nweight,
        oweight,
    })
}

#[tactic(auto, unfolding(crate::specs::Forms::need))]
fn need(value: &Value, conits: u32) -> Result<Need, LoadKind>
    requires { 0 < conits }
    ensures need { result ≡ need conits (view value.now) }
    ensures conit { IfOk result (λ need. need.conit < conits) }
    ensures num { IfOk result (λ need. need.num ≤ AMOUNT_MAX) }
    ensures order { IfOk result (λ need. need.order ≤ AMOUNT_MAX) }
    ensures stale { IfOk result (λ need. need.stale ≤ MOMENT_MAX) }
{
    let [conit, num, order, stale] = listed(value)? else {
        return Err(LoadKind::Shape);
    };
    let num = natural(num, 0, AMOUNT_MAX);
    let order = natural(order, 0, AMOUNT_MAX);
    let stale = natural(stale, 0, MOMENT_MAX);
    let front = both(number_below(conit, conits), num);
    let ((conit, num), (order, stale)) = both(front, both(order, stale))?;
    Ok(Need {
        conit,
        num,
        order,
        stale,
    })
}

// Reads at most 4 weights or needs into the front of a list, and then all of them stand together.
fn fill<T: Row>(items: &mut [T], values: &[Value], conits: u32) -> Result<(), LoadKind>
    requires conits { 0 < conits }
    requires few { length values.now ≤ length items.old }
    ensures length { length items.new ≡ length items.old }
    ensures read { MatchResult result
        (λ _. (all_of (T.read conits) (map view values.now) ≡ Ok (take (length values.now) items.new))
        × All (λ item. (T.in_limits item ≡ true) × (T.conit_of item < conits)) (take (length values.now) items.new))
        (λ kind. all_of (T.read conits) (map view values.now) ≡ Err kind) }
{
    let mut fault = None;
    for place in 0..values.len() {
        match T::read(&values[place], conits) {
            Ok(item) => items[place] = item,
            Err(kind) => fault = Some(earliest(fault, kind)),
        }
    }
    match fault {
        Some(kind) => Err(kind),
        None => Ok(()),
    }
}

/// The weights or needs that a value is, at most four with rising conits.
#[tactic(auto, unfolding(crate::specs::Forms::rows))]
pub(crate) fn rows<T: Row>(value: &Value, conits: u32) -> Result<ConitList<T>, LoadKind>
    requires { 0 < conits }
    ensures rows { result ≡ rows T.conit_of (T.read conits) (view value.now) }
    ensures listed { IfOk result (λ list. IsConitList T.conit_of T.in_limits list) }
    ensures conits { IfOk result (λ list. All (λ row. T.conit_of row < conits) list) }
{
    let values = listed(value)?;
    if values.len() > LIST_MAX {
        return Err(LoadKind::Shape);
    }
    let mut items = [T::blank(); LIST_MAX];
    fill(&mut items, values, conits)?;
    match ConitList::new(&items[..values.len()]) {
        Ok(list) => Ok(list),
        Err(_) => Err(LoadKind::Unordered),
    }
}
