// Files of plans, written.
ghost use Rattle.std.specs.Prelude.{◌≡◌, ◌++◌, ◌∷◌, [], IfOk, map};
ghost use Rattle.serde_json.specs.Data.{Data};
ghost use Rattle.serde_json.specs.View.{items_of, view};
ghost use Rattle.serde_json.specs.Written.{compact_text};
ghost use Rattle.plan_files.specs.Written as spec;

use graph_rewrites::Rewrite;
use serde_json::{Value, json};
use std::alloc::{AllocError, Global};

/// The text of a file of a plan, whose own compact text is given: one line without an end.
pub fn file_text(alloc: Global, plan: &[u8], rewrites: &[Rewrite]) -> Result<Vec<u8>, AllocError>
    ensures { IfOk result (λ text. (d : Data) → compact_text d ≡ plan.now →
        text.items ≡ compact_text (spec.file_json d rewrites.now)) }
{
    let list = rewrites_text(alloc, rewrites)?;
    around(alloc, plan, list.as_slice())
}

/// The text of an object of a plan and of rewrites, by their texts.
fn around(alloc: Global, plan: &[u8], rewrites: &[u8]) -> Result<Vec<u8>, AllocError>
    ensures { IfOk result (λ text. (d e : Data) → compact_text d ≡ plan.now →
        compact_text e ≡ rewrites.now → text.items ≡ compact_text (spec.both_json d e)) }
{
    let mut text = Vec::new(alloc);
    text.extend_from_slice(b"{\"plan\":")?;
    text.extend_from_slice(plan)?;
    text.extend_from_slice(b",\"rewrites\":")?;
    text.extend_from_slice(rewrites)?;
    text.push(b'}')?;
    Ok(text)
}

/// The compact text of rewrites.
fn rewrites_text(alloc: Global, rewrites: &[Rewrite]) -> Result<Vec<u8>, AllocError>
    ensures { IfOk result (λ text. text.items ≡ compact_text (spec.rewrites_json rewrites.now)) }
{
    rewrites_value(alloc, rewrites)?.to_vec(alloc)
}

fn rewrites_value(alloc: Global, rewrites: &[Rewrite]) -> Result<Value, AllocError>
    ensures { IfOk result (λ value. view value ≡ spec.rewrites_json rewrites.now) }
{
    let mut values = Vec::new(alloc);
    for rewrite in rewrites {
        values.push(rewrite_value(alloc, *rewrite)?)?;
    }
    Ok(Value::Array(values))
}

fn rewrite_value(alloc: Global, rewrite: Rewrite) -> Result<Value, AllocError>
    ensures { IfOk result (λ value. view value ≡ spec.rewrite_json rewrite) }
{
    let at = numbers_value(alloc, rewrite)?;
    json!(in alloc; {"at": at, "op": name_of(rewrite)})
}

fn name_of(rewrite: Rewrite) -> &'static str
    ensures { result.now ≡ spec.name_of rewrite }
{
    match rewrite {
        Rewrite::Merge { .. } => "merge",
        Rewrite::Sink { .. } => "sink",
        Rewrite::Lift { .. } => "lift",
        Rewrite::Kid { .. } => "kid",
        Rewrite::Sibling { .. } => "sibling",
        Rewrite::Mark { .. } => "mark",
    }
}

/// The numbers of a rewrite.
fn numbers_value(alloc: Global, rewrite: Rewrite) -> Result<Value, AllocError>
    ensures { IfOk result (λ value.
        view value ≡ spec.numbers_json (spec.numbers_at rewrite)) }
{
    match rewrite {
        Rewrite::Merge { outer, inner } => two_value(alloc, outer, inner),
        Rewrite::Sink { flatten, pdo } => two_value(alloc, flatten, pdo),
        Rewrite::Lift { group } => one_value(alloc, group),
        Rewrite::Kid {
            keeper,
            output,
            reader,
        } => three_value(alloc, keeper, output, reader),
        Rewrite::Sibling { keeper, other } => two_value(alloc, keeper, other),
        Rewrite::Mark { node, output } => two_value(alloc, node, output),
    }
}

fn one_value(alloc: Global, first: u32) -> Result<Value, AllocError>
    ensures { IfOk result (λ value. view value ≡ spec.numbers_json (first ∷ [])) }
{
    json!(in alloc; [u64::from(first)])
}

fn two_value(alloc: Global, first: u32, second: u32) -> Result<Value, AllocError>
    ensures { IfOk result (λ value.
        view value ≡ spec.numbers_json (first ∷ (second ∷ []))) }
{
    json!(in alloc; [u64::from(first), u64::from(second)])
}

fn three_value(alloc: Global, first: u32, second: u32, third: u32) -> Result<Value, AllocError>
    ensures { IfOk result (λ value.
        view value ≡ spec.numbers_json (first ∷ (second ∷ (third ∷ [])))) }
{
    json!(in alloc; [u64::from(first), u64::from(second), u64::from(third)])
}
