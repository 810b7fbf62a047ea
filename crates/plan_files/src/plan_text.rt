// The text of a plan that a file has.
ghost use Rattle.std.specs.Prelude.{◌≡◌, IfOk};
ghost use Rattle.serde_json.specs.View.{items_view, members_view, view};
ghost use Rattle.plan_files.specs.Forms as spec;
ghost use Rattle.plan_files.specs.Numbers as of;

use flume_value::Pile;
use serde_json::{Map, Value};
use std::alloc::{AllocError, Global};

/// The compact text of a value, if no number stands in it.
pub(crate) fn text_in(alloc: Global, value: &Value) -> Result<Option<Pile<u8>>, AllocError>
    ensures { IfOk result (λ text. text ≡ spec.numberless_text (view value.now)) }
{
    if has_number(value) {
        return Ok(None);
    }
    let text = value.to_vec(alloc)?;
    Ok(Some(Pile::from_vec(text)))
}

/// Whether a number stands in the value.
#[cycle(numbers)]
fn has_number(value: &Value) -> bool
    ensures { result ≡ of.has_number (view value.now) }
{
    match value {
        Value::Number(_) => true,
        Value::Array(items) => items_have_number(items),
        Value::Object(members) => members_have_number(members),
        Value::Null | Value::Bool(_) | Value::String(_) => false,
    }
}

#[cycle(numbers)]
fn items_have_number(items: &Vec<Value>) -> bool
    ensures { result ≡ of.items_have_number (items_view items.now.items) }
{
    for item in items {
        if has_number(item) {
            return true;
        }
    }
    false
}

#[cycle(numbers)]
fn members_have_number(members: &Map<String, Value>) -> bool
    ensures { result ≡ of.members_have_number (members_view members.now.entries) }
{
    for (_key, member) in members.iter() {
        if has_number(member) {
            return true;
        }
    }
    false
}
