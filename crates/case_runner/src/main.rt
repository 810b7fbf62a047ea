//! The runner of worked cases: a program whose standard input holds cases, and which prints what
//! came of each. It makes the very call `flume_cached`, on the memory forms, with real threads.
//!
//! The form of cases, and of what is printed, stands in docs/CASES.md.
#![tactic(auto)]

use case_calls::{Caller, Invocation, World, print_cases};
use flume_run::flume_cached;
use memory_outside::MemCache;
use std::io;
use std::io::Read;
use std::thread::Threads;

// What makes the calls.
#[derive(Clone, Copy)]
struct Flume;

impl Caller for Flume {
    fn call<X: Threads + Sync>(
        &self,
        with: &Invocation<'_, X>,
        world: &mut World<'_>,
        cache: &mut MemCache,
    ) -> u8 {
        let status = flume_cached(
            with.rt,
            with.alloc,
            with.words,
            &mut world.source,
            &mut world.hosts,
            &mut world.shelf,
            &mut world.screen,
            cache,
        );
        let code = status.code();
        drop(status);
        code
    }
}

fn main(rt: HostRuntime) -> io::Result<()> {
    let alloc = rt.alloc();
    let mut text = Vec::new(alloc);
    rt.reader().read_to_end(&mut text)?;
    print_cases(&rt, &Flume, alloc, &text)
}
