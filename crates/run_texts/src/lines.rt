// The line of a refusal, which is written piece by piece and takes no memory.
ghost use Rattle.std.specs.Prelude.{◌≡◌, ◌≤◌, ◌++◌, codes, decimal};
ghost use Rattle.run_texts.specs.Lines.{line_of, phase_name, place_line, reason_name, trap_line};
ghost use Rattle.outside.specs.Says.{HasLine, Says};
ghost use Rattle.printing.specs.Printed.{printed};

use crate::status::{Place, Status};
use csv_rows::RowKind;
use flume_grammar::ScriptKind;
use flume_value::{Kind, Value};
use itoa::{Buffer, Integer};
use outside::{Failed, Phase, Screen, say, say_all};
use plan_faults::PlanKind;
use printing::{say_named, say_value};

/// Why a call has no answer: what a script, an input or a plan is refused for, and what traps.
#[derive(Clone, Copy)]
pub enum Reason {
    Script(ScriptKind),
    Input(RowKind),
    Trap(Kind),
    Plan(PlanKind),
}

/// Writes the line of a refusal as far as the screen takes it.
pub fn tell<P: Screen>(screen: &mut P, status: &Status)
    ensures line { HasLine (line_of status.now) (P.seen screen.old) (P.seen screen.new) }
    ensures later { (P.seen screen.old).faults ≤ (P.seen screen.new).faults }
{
    let _ = say_line(screen, status);
}

/// Writes the line of a trap as far as the screen takes it: the name of the collection that it was
/// to make a part of, why it traps, and its element.
pub fn tell_trap<P: Screen>(screen: &mut P, name: &[u8], kind: Kind, element: &Value)
    ensures line { HasLine (trap_line name.now kind element.now)
        (P.seen screen.old) (P.seen screen.new) }
    ensures later { (P.seen screen.old).faults ≤ (P.seen screen.new).faults }
{
    let _ = say_trap(screen, name, kind, element);
}

fn say_line<P: Screen>(screen: &mut P, status: &Status) -> Result<(), Failed>
    ensures { Says (line_of status.now) (P.seen screen.old) (P.seen screen.new) result }
{
    match status {
        Status::Done | Status::Trap { .. } => say_all(screen, &[]),
        Status::Usage => say(
            screen,
            b"usage: flume check S | plan S [--json] | direct S | run S [options] | \
              make START ROWS\n",
        ),
        Status::ScriptRefused { line, kind } => {
            say_at(
                screen,
                b"script refused at line ",
                *line,
                reason_text(Reason::Script(*kind)),
            )
        }
        Status::InputRefused {
            name,
            row,
            column,
            kind,
        } => say_input_refused(screen, name.as_bytes(), *row, *column, *kind),
        Status::ReadFault { name } => say_named(screen, b"read fault: ", name.as_bytes(), &[b"\n"]),
        Status::WriteFault { place } => say_place(screen, place),
        Status::GaveUp { stage, phase, task } => say_gave_up(screen, *stage, *phase, *task),
        Status::WantOfMemory => say_all(screen, &[b"want of memory\n"]),
        Status::TooLong { name, limit } => say_too_long(screen, name.as_bytes(), *limit),
        Status::NoFile { name } => say_named(screen, b"no file: ", name.as_bytes(), &[b"\n"]),
        Status::PlanRefused { step, kind } => {
            say_at(
                screen,
                b"plan refused at step ",
                *step,
                reason_text(Reason::Plan(*kind)),
            )
        }
    }
}

fn say_trap<P: Screen>(
    screen: &mut P,
    name: &[u8],
    kind: Kind,
    element: &Value,
) -> Result<(), Failed>
    ensures { Says (trap_line name.now kind element.now)
        (P.seen screen.old) (P.seen screen.new) result }
{
    say(screen, b"trap at ")?;
    say(screen, name)?;
    say_why(screen, kind, element)
}

// Why a call traps, and its element.
fn say_why<P: Screen>(screen: &mut P, kind: Kind, element: &Value) -> Result<(), Failed>
    ensures { Says (codes ": " ++ (reason_name (Reason.Trap kind) ++ (codes " on "
        ++ (printed element.now ++ codes "\n")))) (P.seen screen.old) (P.seen screen.new) result }
{
    say_all(screen, &[b": ", reason_text(Reason::Trap(kind)), b" on "])?;
    say_value(screen, element)?;
    say(screen, b"\n")
}

// The line of a refusal at this number, for this reason.
fn say_at<P: Screen>(screen: &mut P, front: &[u8], number: u32, reason: &[u8]) -> Result<(), Failed>
    ensures { Says (front.now ++ (decimal number ++ (codes ": " ++ (reason.now ++ codes "\n"))))
        (P.seen screen.old) (P.seen screen.new) result }
{
    let mut digits = Buffer::new();
    let number = digits_of(&mut digits, number);
    say_all(screen, &[front, number, b": ", reason, b"\n"])
}

// The decimal digits of a number.
fn digits_of<N: Integer>(digits: &mut Buffer, number: N) -> &[u8]
    ensures { result.now ≡ N.text number }
{
    digits.format(number).as_bytes()
}

fn say_input_refused<P: Screen>(
    screen: &mut P,
    name: &[u8],
    row: u64,
    column: u32,
    kind: RowKind,
) -> Result<(), Failed>
    ensures { Says (line_of (Status.InputRefused name.now row column kind))
        (P.seen screen.old) (P.seen screen.new) result }
{
    let mut row_digits = Buffer::new();
    let mut column_digits = Buffer::new();
    let row = digits_of(&mut row_digits, row);
    let column = digits_of(&mut column_digits, column);
    let behind: [&[u8]; 7] = [
        b" row ",
        row,
        b" column ",
        column,
        b": ",
        reason_text(Reason::Input(kind)),
        b"\n",
    ];
    say_named(screen, b"input refused: ", name, &behind)
}

fn say_gave_up<P: Screen>(screen: &mut P, stage: u32, phase: Phase, task: u32) -> Result<(), Failed>
    ensures { Says (line_of (Status.GaveUp stage phase task))
        (P.seen screen.old) (P.seen screen.new) result }
{
    let mut stage_digits = Buffer::new();
    let mut task_digits = Buffer::new();
    let stage = digits_of(&mut stage_digits, stage);
    let task = digits_of(&mut task_digits, task);
    let pieces: [&[u8]; 7] = [
        b"gave up at stage ",
        stage,
        b" ",
        phase_text(phase),
        b" task ",
        task,
        b"\n",
    ];
    say_all(screen, &pieces)
}

fn say_too_long<P: Screen>(screen: &mut P, name: &[u8], limit: u64) -> Result<(), Failed>
    ensures { Says (line_of (Status.TooLong name.now limit))
        (P.seen screen.old) (P.seen screen.new) result }
{
    let mut digits = Buffer::new();
    let limit = digits_of(&mut digits, limit);
    say_named(
        screen,
        b"too long: ",
        name,
        &[b" above ", limit, b" bytes\n"],
    )
}

// A screen that failed gets no line.
fn say_place<P: Screen>(screen: &mut P, place: &Place) -> Result<(), Failed>
    ensures { Says (place_line place.now) (P.seen screen.old) (P.seen screen.new) result }
{
    match place {
        Place::File(name) => say_named(screen, b"write fault: ", name.as_bytes(), &[b"\n"]),
        Place::Screen => say_all(screen, &[]),
    }
}

fn phase_text(phase: Phase) -> &'static [u8]
    ensures { result.now ≡ phase_name phase }
{
    match phase {
        Phase::Map => b"map",
        Phase::Reduce => b"reduce",
    }
}

fn reason_text(reason: Reason) -> &'static [u8]
    ensures { result.now ≡ reason_name reason }
{
    match reason {
        Reason::Script(ScriptKind::Utf8) => b"Utf8",
        Reason::Script(ScriptKind::Token) => b"Token",
        Reason::Script(ScriptKind::Syntax) => b"Syntax",
        Reason::Script(ScriptKind::TooDeep) => b"TooDeep",
        Reason::Script(ScriptKind::TooLong) => b"TooLong",
        Reason::Script(ScriptKind::TooMany) => b"TooMany",
        Reason::Script(ScriptKind::Unknown) => b"Unknown",
        Reason::Script(ScriptKind::Twice) => b"Twice",
        Reason::Script(ScriptKind::Mistyped) => b"Mistyped",
        Reason::Script(ScriptKind::NotTable) => b"NotTable",
        Reason::Script(ScriptKind::NotFlat) => b"NotFlat",
        Reason::Script(ScriptKind::NoOutput) => b"NoOutput",
        Reason::Script(ScriptKind::BadNumber) => b"BadNumber",
        Reason::Input(RowKind::Header) => b"Header",
        Reason::Input(RowKind::Width) => b"Width",
        Reason::Input(RowKind::NotInt) => b"NotInt",
        Reason::Input(RowKind::NotBool) => b"NotBool",
        Reason::Input(RowKind::Utf8) => b"Utf8",
        Reason::Trap(Kind::Overflow) => b"Overflow",
        Reason::Trap(Kind::DivideByZero) => b"DivideByZero",
        Reason::Trap(Kind::BadIndex) => b"BadIndex",
        Reason::Trap(Kind::BadNumber) => b"BadNumber",
        Reason::Trap(Kind::NotOne) => b"NotOne",
        Reason::Plan(PlanKind::NotJson) => b"NotJson",
        Reason::Plan(PlanKind::Shape) => b"Shape",
        Reason::Plan(PlanKind::BadStep) => b"BadStep",
        Reason::Plan(PlanKind::Differs) => b"Differs",
    }
}
