// The pages of cases: the name of each, and what came of each call, or the first mistake in it.
ghost use Rattle.std.specs.Prelude.{◌≡◌, vec_len};
ghost use Rattle.std.specs.Thread.{IsSync};

use crate::calls::Call;
use crate::courses::Course;
use crate::worlds::World;
use case_reports::{push_number, push_title};
use memory_outside::MemCache;
use std::alloc::{AllocError, Global};
use std::io;
use std::thread::Threads;
use worked_cases::{Case, Command, Entry, Misread, When, read_cases};

/// What a call is made with: a runtime, which its workers share, memory, and words.
#[derive(Drop)]
pub struct Invocation<'a, X> {
    pub rt: &'a X,
    pub alloc: Global,
    pub words: &'a [String],
}

/// Who makes the calls of cases.
pub trait Caller {
    /// Makes a call of `flume_cached`, and answers its exit status.
    fn call<X: Threads + Sync>(
        &self,
        with: &Invocation<'_, X>,
        world: &mut World<'_>,
        cache: &mut MemCache,
    ) -> u8
        requires hosts { vec_len world.old.hosts ≡ 16 }
        requires shared { IsSync X.row };
}

/// Makes all cases of a text, in order, and prints what came of each.
pub fn print_cases<X: Threads + Sync + Print, C: Caller>(
    rt: &X,
    caller: &C,
    alloc: Global,
    text: &[u8],
) -> io::Result<()> {
    for entry in &read_cases(alloc, text)? {
        print_entry(rt, caller, alloc, entry)?;
    }
    Ok(())
}

fn print_entry<X: Threads + Sync + Print, C: Caller>(
    rt: &X,
    caller: &C,
    alloc: Global,
    entry: &Entry,
) -> io::Result<()> {
    let page = page_of(rt, caller, alloc, entry)?;
    println!(rt; "{page}")
}

fn page_of<X: Threads + Sync, C: Caller>(
    rt: &X,
    caller: &C,
    alloc: Global,
    entry: &Entry,
) -> Result<String, AllocError> {
    match entry {
        Entry::Case(case) => case_page(rt, caller, alloc, case),
        Entry::Misread(misread) => misread_page(alloc, misread),
    }
}

fn misread_page(alloc: Global, misread: &Misread) -> Result<String, AllocError> {
    let mut page = String::new(alloc);
    push_misread(&mut page, misread)?;
    Ok(page)
}

fn push_misread(page: &mut String, misread: &Misread) -> Result<(), AllocError> {
    push_title(page, &misread.name, ": line ")?;
    push_number(page, "", misread.line as u64, ": ")?;
    page.push_str(misread.mistake.says())?;
    page.push('\n')
}

fn case_page<X: Threads + Sync, C: Caller>(
    rt: &X,
    caller: &C,
    alloc: Global,
    case: &Case,
) -> Result<String, AllocError> {
    let mut course = Course::new(alloc, case)?;
    for command in &case.commands {
        let calls = Calls {
            rt,
            caller,
            alloc,
            case,
            command,
        };
        make_calls(&calls, &mut course)?;
    }
    Ok(course.into_page())
}

/// The calls of a command of a case, and who makes them.
#[derive(Drop)]
pub struct Calls<'a, X, C> {
    pub rt: &'a X,
    pub caller: &'a C,
    pub alloc: Global,
    pub case: &'a Case,
    pub command: &'a Command,
}

// The calls of a command: with nothing more that fails, with each thing that is to, and with each
// two of those.
fn make_calls<X: Threads + Sync, C: Caller>(
    calls: &Calls<'_, X, C>,
    course: &mut Course,
) -> Result<(), AllocError> {
    make_call(calls, &[], course)?;
    for when in &calls.case.whens {
        make_call(calls, &[when], course)?;
    }
    if calls.case.has_pairs {
        make_pairs(calls, course)?;
    }
    Ok(())
}

fn make_pairs<X: Threads + Sync, C: Caller>(
    calls: &Calls<'_, X, C>,
    course: &mut Course,
) -> Result<(), AllocError> {
    for (k, one) in calls.case.whens.iter().enumerate() {
        for other in calls.case.whens.iter().skip(k).skip(1) {
            make_call(calls, &[one, other], course)?;
        }
    }
    Ok(())
}

// A call of a command in which these fail. Where each call is made twice, it has a new cache, and
// is made once more over what that has then.
fn make_call<X: Threads + Sync, C: Caller>(
    calls: &Calls<'_, X, C>,
    whens: &[&When],
    course: &mut Course,
) -> Result<(), AllocError> {
    let call = Call::new(calls.alloc, calls.case, calls.command, whens)?;
    let made = if calls.case.is_twice {
        make_twice(calls, &call, course)
    } else {
        course.make(calls, &call)
    };
    drop(call);
    made
}

fn make_twice<X: Threads + Sync, C: Caller>(
    calls: &Calls<'_, X, C>,
    call: &Call,
    course: &mut Course,
) -> Result<(), AllocError> {
    course.renew(calls.alloc, calls.case, call)?;
    course.make(calls, call)?;
    let again = Call::again(calls.alloc, calls.case, calls.command)?;
    let made = course.make(calls, &again);
    drop(again);
    made
}
