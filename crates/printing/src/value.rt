// Values on a screen, said part by part. It takes no memory.
ghost use Rattle.std.specs.Prelude.{◌≡◌, ◌==◌, ◌++◌, [], codes, if◌then◌else◌, Bool, ℕ, ℤ, List};
ghost use Rattle.std.specs.Fmt.{signed_decimal};
ghost use Rattle.outside.specs.Says.{Says};
ghost use Rattle.flume_value.specs.declared.value.Value.{Value as Value_, out-Value};
ghost use Rattle.flume_value.specs.declared.value.Value.TheVariants as variant;
ghost use Rattle.printing.specs.Printed.{quoted, listed, truth, layer_printed, printed};

use crate::screen::say_quoted;
use flume_value::Value;
use itoa::Buffer;
use outside::{Failed, Screen, say};

/// Says a value as it is printed.
#[cycle(say)]
pub fn say_value<P: Screen>(screen: &mut P, value: &Value) -> Result<(), Failed>
    ensures { Says (printed value.now) (P.seen screen.old) (P.seen screen.new) result }
{
    match value {
        Value::Int(n) => say_int(screen, *n),
        Value::Bool(answer) => say(screen, truth(*answer)),
        Value::Text(text) => say_quoted(screen, text.as_bytes()),
        Value::List(members) => say_between(screen, b"[", members.as_slice(), b"]"),
        Value::Rec(parts) => say_between(screen, b"(", parts.as_slice(), b")"),
        Value::Left(part) => say_side(screen, b"left(", part.get()),
        Value::Right(part) => say_side(screen, b"right(", part.get()),
        Value::Wide(n) => say_wide(screen, n),
    }
}

// A side of an either.
#[cycle(say)]
fn say_side<P: Screen>(screen: &mut P, before: &[u8], part: &Value) -> Result<(), Failed>
    ensures { Says (before.now ++ (printed part.now ++ codes ")"))
        (P.seen screen.old) (P.seen screen.new) result }
{
    say(screen, before)?;
    say_value(screen, part)?;
    say(screen, b")")
}

// Values between brackets.
#[cycle(say)]
fn say_between<P: Screen>(
    screen: &mut P,
    before: &[u8],
    values: &[Value],
    behind: &[u8],
) -> Result<(), Failed>
    ensures { Says (before.now ++ (listed printed values.now ++ behind.now))
        (P.seen screen.old) (P.seen screen.new) result }
{
    say(screen, before)?;
    say_listed(screen, values)?;
    say(screen, behind)
}

#[cycle(say)]
fn say_listed<P: Screen>(screen: &mut P, values: &[Value]) -> Result<(), Failed>
    ensures { Says (listed printed values.now) (P.seen screen.old) (P.seen screen.new) result }
{
    for (at, value) in values.iter().enumerate() {
        say_behind(screen, comma_before(at), value)?;
    }
    Ok(())
}

// A value behind a text.
#[cycle(say)]
fn say_behind<P: Screen>(screen: &mut P, before: &[u8], value: &Value) -> Result<(), Failed>
    ensures { Says (before.now ++ printed value.now)
        (P.seen screen.old) (P.seen screen.new) result }
{
    say(screen, before)?;
    say_value(screen, value)
}

// What stands before a part of a list at this place.
fn comma_before(at: usize) -> &'static [u8]
    ensures { result.now ≡ (if at == 0 then [] else codes ", ") }
{
    if at == 0 { b"" } else { b", " }
}

fn truth(answer: bool) -> &'static [u8]
    ensures { result.now ≡ truth answer }
{
    if answer { b"true" } else { b"false" }
}

fn say_int<P: Screen>(screen: &mut P, n: i64) -> Result<(), Failed>
    ensures { Says (signed_decimal n) (P.seen screen.old) (P.seen screen.new) result }
{
    let mut digits = Buffer::new();
    say(screen, digits.format(n).as_bytes())
}

fn say_wide<P: Screen>(screen: &mut P, n: &i128) -> Result<(), Failed>
    ensures { Says (signed_decimal n.now) (P.seen screen.old) (P.seen screen.new) result }
{
    let n = *n;
    let mut digits = Buffer::new();
    say(screen, digits.format(n).as_bytes())
}

/// The text of each variant, from those of its parts.
pub fn printed_law()
    ensures one_level { (v : Value_) → printed v ≡ layer_printed printed (out-Value v) }
    ensures int { (n : ℤ) → printed (variant.Int n) ≡ signed_decimal n }
    ensures bool { (answer : Bool) → printed (variant.Bool answer) ≡ truth answer }
    ensures text { (bytes : List ℕ) → printed (variant.Text bytes) ≡ quoted bytes }
    ensures list { (members : List Value_) →
        printed (variant.List members) ≡ codes "[" ++ (listed printed members ++ codes "]") }
    ensures rec { (parts : List Value_) →
        printed (variant.Rec parts) ≡ codes "(" ++ (listed printed parts ++ codes ")") }
    ensures left { (part : Value_) →
        printed (variant.Left part) ≡ codes "left(" ++ (printed part ++ codes ")") }
    ensures right { (part : Value_) →
        printed (variant.Right part) ≡ codes "right(" ++ (printed part ++ codes ")") }
    ensures wide { (n : ℤ) → printed (variant.Wide n) ≡ signed_decimal n }
{}
