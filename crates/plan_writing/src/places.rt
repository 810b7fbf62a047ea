// The collections of a plan, by their numbers.
ghost use Rattle.std.specs.Prelude.{◌≡◌, ◌+◌, ◌++◌, OnOk, decimal};
ghost use Rattle.plan_writing.specs.Places as spec;

use exec_plan::{PlanPlace, Take};
use itoa::Buffer;
use std::alloc::AllocError;

/// Adds a number in decimal.
pub(crate) fn push_number(text: &mut Vec<u8>, number: u64) -> Result<(), AllocError>
    ensures { OnOk result (text.new.items ≡ text.old.items ++ decimal number) }
{
    let mut digits = Buffer::new();
    text.extend_from_slice(digits.format(number).as_bytes())
}

/// Adds two numbers with a dot between them.
pub fn push_dotted(text: &mut Vec<u8>, a: u64, b: u64) -> Result<(), AllocError>
    ensures { OnOk result (text.new.items ≡ text.old.items ++ spec.dotted a b) }
{
    push_number(text, a)?;
    text.extend_from_slice(b".")?;
    push_number(text, b)
}

/// Adds the result of a stage for an output, where those of its channel are numbered from `first`
/// on.
pub(crate) fn push_result(
    text: &mut Vec<u8>,
    stage: u64,
    first: u32,
    out: u32,
) -> Result<(), AllocError>
    ensures { OnOk result (text.new.items ≡ text.old.items ++ spec.dotted stage (first + out)) }
{
    push_dotted(text, stage, u64::from(first) + u64::from(out))
}

/// Adds a collection.
pub fn push_place(text: &mut Vec<u8>, place: PlanPlace) -> Result<(), AllocError>
    ensures { OnOk result (text.new.items ≡ text.old.items ++ spec.place_text place) }
{
    match place {
        PlanPlace::Source(number) => {
            text.extend_from_slice(b"s")?;
            push_number(text, u64::from(number))
        }
        PlanPlace::Result { stage, number } => {
            push_dotted(text, u64::from(stage), u64::from(number))
        }
    }
}

/// Adds an output of an input channel.
pub fn push_take(text: &mut Vec<u8>, take: Take) -> Result<(), AllocError>
    ensures { OnOk result (text.new.items ≡ text.old.items ++ spec.take_text take) }
{
    push_dotted(text, u64::from(take.channel), u64::from(take.out))
}
