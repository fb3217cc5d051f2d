//! Which operation does an object parse to?

ghost use Rattle.std.specs.Prelude.{Some};
ghost use Rattle.serde_json.specs.View.{items_view, view};
ghost use Rattle.line_reading.specs.FieldsPrivate.{Gives, data_of, members_of};
ghost use Rattle.line_reading.specs.Operations.{at_op, named_op, op_in, ops_in, undrawn_in};

mod agents;
mod bundles;
mod entries;
mod pages;

use crate::fault::{Code, Fault, Key};
use crate::fields::{Object, at_key, object_in};
use crate::ids::{Ids, MissingId};
use agents::{authorised_in, drop_agent_in, set_agent_in, show_agent_in, trust_in};
use bundles::{drop_bundle_in, set_bundle_in, show_bundle_in};
use entries::{children_in, create_in, delete_in, prune_in, show_in, update_in};
use entry_book::{Op, Sequence};
use pages::page_in;
use serde_json::Value;
use spiffe_name::Failure;
use std::alloc::Global;

/// Reads the operation of this name, which is not one that draws ids.
fn undrawn_in(alloc: Global, name: &str, object: &Object<'_>) -> Result<Op, Failure<Fault>>
    ensures { Gives (λ op. op) result (undrawn_in name.now (data_of object.now) (members_of object.now)) }
{
    match name {
        "update" => update_in(alloc, object),
        "delete" => delete_in(object),
        "show" => show_in(object),
        "show_agent" => show_agent_in(alloc, object),
        "show_bundle" => show_bundle_in(alloc, object),
        "children" => children_in(alloc, object),
        "page" => page_in(alloc, object),
        "authorised" => authorised_in(alloc, object),
        "trust" => trust_in(alloc, object),
        "prune" => prune_in(object),
        "set_agent" => set_agent_in(alloc, object),
        "drop_agent" => drop_agent_in(alloc, object),
        "set_bundle" => set_bundle_in(alloc, object),
        "drop_bundle" => drop_bundle_in(alloc, object),
        _ => Err(at_key(Code::Field, Key::Op)),
    }
}

/// Reads the operation of this name.
fn named_op(
    alloc: Global,
    missing: MissingId,
    ids: &mut Ids,
    name: &str,
    object: &Object<'_>,
) -> Result<Op, Failure<Fault>>
    ensures { Gives (λ op. (op, ids.new)) result
        (named_op missing ids.old name.now (data_of object.now) (members_of object.now)) }
{
    match name {
        "create" => create_in(alloc, missing, ids, object),
        _ => undrawn_in(alloc, name, object),
    }
}

/// Reads a value as an operation.
#[tactic(auto, unfolding(crate::specs::Operations::op_in))]
fn op_in(
    alloc: Global,
    missing: MissingId,
    ids: &mut Ids,
    item: &Value,
) -> Result<Op, Failure<Fault>>
    ensures { Gives (λ op. (op, ids.new)) result (op_in missing ids.old (view item.now)) }
{
    let object = object_in(item, Key::Ops)?;
    let name = object.text_at(Key::Op)?;
    named_op(alloc, missing, ids, name, &object)
}

/// Reads the operation of this index, which its faults carry.
fn op_at(
    alloc: Global,
    missing: MissingId,
    ids: &mut Ids,
    index: usize,
    item: &Value,
) -> Result<Op, Failure<Fault>>
    ensures { Gives (λ op. (op, ids.new)) result (at_op index (op_in missing ids.old (view item.now))) }
{
    match op_in(alloc, missing, ids, item) {
        Ok(op) => Ok(op),
        Err(Failure::NoMemory) => Err(Failure::NoMemory),
        Err(Failure::Refused(Fault { code, field, op: _ })) => Err(Failure::Refused(Fault {
            code,
            field,
            op: Some(index),
        })),
    }
}

/// Reads the operations of a list, in order.
pub(crate) fn ops_in(
    alloc: Global,
    missing: MissingId,
    ids: &mut Ids,
    items: &[Value],
) -> Result<Sequence<Op>, Failure<Fault>>
    ensures { Gives (λ ops. (ops, ids.new)) result (ops_in 0 missing ids.old (items_view items.now)) }
{
    let mut ops = Sequence::empty(alloc);
    for (index, item) in items.iter().enumerate() {
        ops.push(op_at(alloc, missing, ids, index, item)?)?;
    }
    Ok(ops)
}
