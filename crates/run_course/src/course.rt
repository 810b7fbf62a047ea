// The course of a call: every growth comes first, then the output files, then the screen.
ghost use Rattle.std.specs.Prelude.{◌≡◌, ◌≤◌, ◌<◌, IfErr, IfOk, Some, drop, length, map, slice_get, string_bytes};
ghost use Rattle.std.specs.List.{AllZip};
ghost use Rattle.std.specs.Option.{option_map};
ghost use Rattle.crew.specs.Hosts.{Grew};
ghost use Rattle.outside.specs.Saves.{output_file};
ghost use Rattle.run_course.specs.Lent.{lent_to};
ghost use Rattle.run_course.specs.Promises.{ScriptPromises};
ghost use Rattle.run_course.specs.Outside.{world};
ghost use Rattle.run_course.specs.Written.{IsWritten};
ghost use Rattle.run_course.specs.inner.Course.{AsksHostsInCall, AsksInCall, Delivers, IsStopped, TellsStop};

use crate::commands::{carried_out, tries_of};
use crate::files::Written;
use crate::stop::Stop;
use command_words::asked_for;
use flume_value::Str;
use outside::{Host, Output, Screen, Shelf, Source, save_all, say};
use run_texts::{Place, Status, tell, tell_trap};
use script_loading::script_of;
use std::alloc::Global;
use std::thread::Threads;

/// Runs the command that the words ask for, and answers how that ended. A run is lent the first
/// hosts, one for each of its workers.
pub fn run<X: Threads + Sync, R: Source, H: Host + Send, K: Shelf, P: Screen>(
    rt: &X,
    alloc: Global,
    words: &[String],
    source: &mut R,
    hosts: &mut [H],
    shelf: &mut K,
    screen: &mut P,
) -> Status
    requires { length hosts.old ≡ 16 }
    ensures promises { ScriptPromises (map string_bytes words.now)
        (world (R.seen source.old) (K.seen shelf.old) (P.seen screen.old) (map H.account hosts.old))
        (world (R.seen source.new) (K.seen shelf.new) (P.seen screen.new) (map H.account hosts.new))
        result }
    ensures hosts { drop (lent_to (map string_bytes words.now)) hosts.new
        ≡ drop (lent_to (map string_bytes words.now)) hosts.old }
{
    match prepare(rt, alloc, words, source, hosts) {
        Ok(written) => deliver(written, shelf, screen),
        Err(stop) => stop_told(stop, screen),
    }
}

// Does all that a call does but its writing. Every growth of a call is here.
#[tactic(auto, using(crew::proofs::Accounts::all_grew_not))]
fn prepare<X: Threads + Sync, R: Source, H: Host + Send>(
    rt: &X,
    alloc: Global,
    words: &[String],
    source: &mut R,
    hosts: &mut [H],
) -> Result<Written, Stop>
    requires { length hosts.old ≡ 16 }
    ensures ok { IfOk result (λ written. IsWritten (map string_bytes words.now)
        (R.seen source.old).files (map H.account hosts.old) (map H.account hosts.new)
        (map output_file written.outputs.items) written.screen.items) }
    ensures err { IfErr result (IsStopped (map string_bytes words.now) (R.seen source.old)
        (R.seen source.new) (map H.account hosts.old) (map H.account hosts.new)) }
    ensures asked { AsksInCall (map string_bytes words.now) (R.seen source.old)
        (R.seen source.new) result }
    ensures asked_hosts { AsksHostsInCall (map string_bytes words.now) (R.seen source.old).files
        (map H.account hosts.old) (map H.account hosts.new) result }
    ensures files { (R.seen source.new).files ≡ (R.seen source.old).files }
    ensures later { (R.seen source.old).faults ≤ (R.seen source.new).faults }
    ensures grew { AllZip Grew (map H.account hosts.old) (map H.account hosts.new) }
    ensures hosts { drop (lent_to (map string_bytes words.now)) hosts.new
        ≡ drop (lent_to (map string_bytes words.now)) hosts.old }
{
    let Some(asked) = asked_for(alloc, words)? else {
        return Err(Stop::Refused(Status::Usage));
    };
    let program = match script_of(alloc, asked.script, source, tries_of(&asked.command)) {
        Ok(program) => program,
        Err(status) => {
            drop(asked);
            return Err(Stop::Refused(status));
        }
    };
    let written = carried_out(rt, alloc, &asked.command, &program, source, hosts);
    program.let_go();
    drop(asked);
    written
}

/// Tells of what stops a call, and gives its answer. It takes no memory.
pub fn stop_told<P: Screen>(stop: Stop, screen: &mut P) -> Status
    ensures told { TellsStop stop (P.seen screen.old) (P.seen screen.new) result }
    ensures later { (P.seen screen.old).faults ≤ (P.seen screen.new).faults }
{
    match stop {
        Stop::Refused(status) => {
            tell(screen, &status);
            status
        }
        Stop::Trapped(trapped) => {
            let trap = trapped.trap;
            tell_trap(screen, trapped.name.as_bytes(), trap.kind, &trap.element);
            Status::Trap {
                origin: trap.origin,
                kind: trap.kind,
                element: trap.element,
            }
        }
    }
}

/// Writes the files, and then the text of the screen. It takes no memory.
pub fn deliver<K: Shelf, P: Screen>(written: Written, shelf: &mut K, screen: &mut P) -> Status
    ensures delivered { Delivers (map output_file written.outputs.items) written.screen.items
        (K.seen shelf.old) (K.seen shelf.new) (P.seen screen.old) (P.seen screen.new) result }
    ensures shelf { (K.seen shelf.old).faults ≤ (K.seen shelf.new).faults }
    ensures screen { (P.seen screen.old).faults ≤ (P.seen screen.new).faults }
{
    if let Err(place) = save_all(shelf, &written.outputs) {
        let status = Status::WriteFault {
            place: Place::File(name_of(written.outputs, place)),
        };
        tell(screen, &status);
        return status;
    }
    if say(screen, &written.screen).is_err() {
        return Status::WriteFault {
            place: Place::Screen,
        };
    }
    Status::Done
}

// The name of one of the outputs. It takes no memory.
fn name_of(mut outputs: Vec<Output>, place: usize) -> Str
    requires { place < length outputs.items }
    ensures { option_map (λ file. file.name) (slice_get (map output_file outputs.items) place)
        ≡ Some result }
{
    outputs.swap_remove(place).name.into_text()
}
