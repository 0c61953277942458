//! The items of a client.
ghost use Rattle.std.specs.Prelude.{◌≡◌, ◌<◌, IfOk, map};
ghost use Rattle.serde_json.specs.View.{view};
ghost use Rattle.work_load.specs.Entries.{Tells};
ghost use Rattle.work_load.specs.Ranges.{IsItemOf, IsLoanOf};
ghost use Rattle.work_load.specs.ItemForms.{write, held, reserve, release, read, loan, lend, back, restart, item_named, item_of};

use crate::entries::{Counts, Entry};
use crate::fault::EntryFault;
use crate::forms::{named, op};
use crate::lists::{Row, rows};
use crate::plan::Item;
use crate::values::{both, natural, number_below};
use run_model::LoadKind;
use serde_json::Value;
use std::alloc::Global;
use tact_base::{AMOUNT_MAX, KEY_MAX, Needs, Weight, Weights};

impl Entry for Item {
    ghost read_after = { λ counts before. item_of counts.replicas counts.conits counts.replica };

    ghost fits = { λ counts before. IsItemOf counts.replicas counts.conits counts.replica };

    fn read_after(
        _alloc: Global,
        counts: Counts,
        _before: &[Self],
        value: &Value,
    ) -> Result<Self, EntryFault> {
        Ok(item_of(value, counts)?)
    }
}

#[tactic(auto, unfolding(crate::specs::ItemForms::item_of))]
fn item_of(value: &Value, counts: Counts) -> Result<Item, LoadKind>
    requires replicas { 0 < counts.replicas }
    requires conits { 0 < counts.conits }
    ensures within { IfOk result (IsItemOf counts.replicas counts.conits counts.replica) }
    ensures item { result ≡ item_of counts.replicas counts.conits counts.replica (view value.now) }
{
    let (name, fields) = named(value)?;
    item_named(name, fields, counts)
}

fn item_named(name: &str, fields: &[Value], counts: Counts) -> Result<Item, LoadKind>
    requires replicas { 0 < counts.replicas }
    requires conits { 0 < counts.conits }
    ensures within { IfOk result (IsItemOf counts.replicas counts.conits counts.replica) }
    ensures item { result ≡ item_named counts.replicas counts.conits counts.replica name.now (map view fields.now) }
{
    if name == "write" {
        write(fields, counts)
    } else if name == "held" {
        held(fields, counts)
    } else if name == "reserve" {
        reserve(fields, counts)
    } else if name == "release" {
        release(fields, counts)
    } else if name == "read" {
        read(fields, counts)
    } else if name == "lend" {
        lend(fields, counts)
    } else if name == "back" {
        back(fields, counts)
    } else if name == "restart" {
        restart(fields)
    } else {
        Err(LoadKind::Shape)
    }
}

fn write(fields: &[Value], counts: Counts) -> Result<Item, LoadKind>
    requires { 0 < counts.conits }
    ensures within { IfOk result (IsItemOf counts.replicas counts.conits counts.replica) }
    ensures item { result ≡ write counts.conits (map view fields.now) }
{
    let [op_value, list] = fields else {
        return Err(LoadKind::Shape);
    };
    let weights: Result<Weights, LoadKind> = rows(list, counts.conits);
    let (op, weights) = both(op(op_value), weights)?;
    Ok(Item::Write { weights, op })
}

fn held(fields: &[Value], counts: Counts) -> Result<Item, LoadKind>
    requires { 0 < counts.conits }
    ensures within { IfOk result (IsItemOf counts.replicas counts.conits counts.replica) }
    ensures item { result ≡ held counts.conits (map view fields.now) }
{
    let [op_value, row] = fields else {
        return Err(LoadKind::Shape);
    };
    let (op, weight) = both(op(op_value), Weight::read(row, counts.conits))?;
    Ok(Item::Held { weight, op })
}

fn reserve(fields: &[Value], counts: Counts) -> Result<Item, LoadKind>
    requires { 0 < counts.conits }
    ensures within { IfOk result (IsItemOf counts.replicas counts.conits counts.replica) }
    ensures item { result ≡ reserve counts.conits (map view fields.now) }
{
    let [conit, amount] = fields else {
        return Err(LoadKind::Shape);
    };
    let (conit, amount) = both(
        number_below(conit, counts.conits),
        natural(amount, 0, AMOUNT_MAX),
    )?;
    Ok(Item::Reserve { conit, amount })
}

fn release(fields: &[Value], counts: Counts) -> Result<Item, LoadKind>
    requires { 0 < counts.conits }
    ensures within { IfOk result (IsItemOf counts.replicas counts.conits counts.replica) }
    ensures item { result ≡ release counts.conits (map view fields.now) }
{
    let [conit] = fields else {
        return Err(LoadKind::Shape);
    };
    let conit = number_below(conit, counts.conits)?;
    Ok(Item::Release { conit })
}

fn read(fields: &[Value], counts: Counts) -> Result<Item, LoadKind>
    requires { 0 < counts.conits }
    ensures within { IfOk result (IsItemOf counts.replicas counts.conits counts.replica) }
    ensures item { result ≡ read counts.conits (map view fields.now) }
{
    let [key, list] = fields else {
        return Err(LoadKind::Shape);
    };
    let needs: Result<Needs, LoadKind> = rows(list, counts.conits);
    let (key, needs) = both(natural(key, 0, KEY_MAX), needs)?;
    Ok(Item::Read { key, needs })
}

// Another replica, a conit and an amount.
fn loan(fields: &[Value], counts: Counts) -> Result<(u32, (u32, u64)), LoadKind>
    requires replicas { 0 < counts.replicas }
    requires conits { 0 < counts.conits }
    ensures within { IfOk result (λ loan. IsLoanOf counts.replicas counts.conits counts.replica loan.0 loan.1.0 loan.1.1) }
    ensures loan { result ≡ loan counts.replicas counts.conits counts.replica (map view fields.now) }
{
    let [other, conit, amount] = fields else {
        return Err(LoadKind::Shape);
    };
    let amount = natural(amount, 0, AMOUNT_MAX);
    let sum = both(number_below(conit, counts.conits), amount);
    let (other, sum) = both(number_below(other, counts.replicas), sum)?;
    if other == counts.replica {
        return Err(LoadKind::Same);
    }
    Ok((other, sum))
}

#[tactic(auto, unfolding(crate::specs::ItemForms::lend))]
fn lend(fields: &[Value], counts: Counts) -> Result<Item, LoadKind>
    requires replicas { 0 < counts.replicas }
    requires conits { 0 < counts.conits }
    ensures within { IfOk result (IsItemOf counts.replicas counts.conits counts.replica) }
    ensures item { result ≡ lend counts.replicas counts.conits counts.replica (map view fields.now) }
{
    let (holder, (conit, amount)) = loan(fields, counts)?;
    Ok(Item::Lend {
        holder,
        conit,
        amount,
    })
}

#[tactic(auto, unfolding(crate::specs::ItemForms::back))]
fn back(fields: &[Value], counts: Counts) -> Result<Item, LoadKind>
    requires replicas { 0 < counts.replicas }
    requires conits { 0 < counts.conits }
    ensures within { IfOk result (IsItemOf counts.replicas counts.conits counts.replica) }
    ensures item { result ≡ back counts.replicas counts.conits counts.replica (map view fields.now) }
{
    let (owner, (conit, amount)) = loan(fields, counts)?;
    Ok(Item::Back {
        owner,
        conit,
        amount,
    })
}

fn restart(fields: &[Value]) -> Result<Item, LoadKind>
    ensures { result ≡ restart (map view fields.now) }
{
    if fields.is_empty() {
        Ok(Item::Restart)
    } else {
        Err(LoadKind::Shape)
    }
}
