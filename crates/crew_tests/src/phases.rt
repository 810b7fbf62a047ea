// Phases over hosts in memory: which attempts win, and which task a phase gives up on.
ghost use Rattle.std.specs.Prelude.{◌≡◌, ◌*◌, ◌^◌, ◌<◌, ◌≤◌, length};

use crate::tasks::Doubles;
use crew::{Drill, Entry, KeptOut, PhaseFault, PhaseSettings, run_phase};
use flume_value::Pile;
use memory_outside::MemHost;
use outside::{At, CalmHost, Host, Phase};
use std::alloc::{AllocError, Global};
use std::process::Abort;
use std::test::Fail;
use std::thread::Threads;

const STAGE: u32 = 1;

// The attempts of a task, which the drill is to name.
fn entries(alloc: Global, attempts: &[(u32, u32)]) -> Result<Drill, AllocError> {
    let mut named = Vec::new(alloc);
    for &(task, attempt) in attempts {
        named.push(Entry::new(STAGE, Phase::Map, task, attempt))?;
    }
    Ok(Drill::new(Pile::from_vec(named)))
}

// A host that is down at the start of these attempts.
fn down_at(alloc: Global, attempts: &[(u32, u32)]) -> Result<MemHost, AllocError> {
    let mut places = Vec::new(alloc);
    for &(task, attempt) in attempts {
        places.push(At {
            stage: STAGE,
            phase: Phase::Map,
            task,
            attempt,
            place: 0,
        })?;
    }
    MemHost::new(alloc, Pile::from_vec(places), 600)
}

// What a phase came to: how many outs there are, and the task that it gave up on.
#[derive(Drop)]
struct End {
    outs: Vec<(u32, u32, u64)>,
    gave_up: Option<u32>,
}

fn seen(alloc: Global, kept: &[KeptOut<u64>]) -> Result<Vec<(u32, u32, u64)>, AllocError> {
    let mut outs = Vec::new(alloc);
    for out in kept {
        outs.push((out.task, out.attempt, out.out))?;
    }
    Ok(outs)
}

// Runs a phase of so many tasks.
fn end_of<X: Threads + Sync, H: Host + Send>(
    rt: &X,
    alloc: Global,
    count: u32,
    tries: u32,
    hosts: &mut [H],
    drill: &Drill,
) -> Result<End, AllocError>
    requires tasks { 0 < count }
    requires tries { (0 < tries) × (tries ≤ 8) }
    requires hosts { (0 < length hosts.old) × (length hosts.old ≤ 16) }
    requires limit { count * tries < 2 ^ 31 }
{
    let phase = PhaseSettings::new(STAGE, Phase::Map, tries, drill);
    match run_phase(rt, alloc, &Doubles { count }, hosts, &phase) {
        Ok(outs) => Ok(End {
            outs: seen(alloc, outs.as_slice())?,
            gave_up: None,
        }),
        Err(PhaseFault::GaveUp { task, below }) => Ok(End {
            outs: seen(alloc, below.as_slice())?,
            gave_up: Some(task),
        }),
        Err(PhaseFault::Memory) => Err(AllocError),
    }
}

#[test]
fn passes_over_an_attempt_that_the_drill_names(rt: HostRuntime) -> Result<(), Fail> {
    let alloc = rt.alloc();
    let drill = entries(alloc, &[(0, 1)])?;
    let mut hosts = [down_at(alloc, &[])?, down_at(alloc, &[])?];
    let end = end_of(&rt, alloc, 2, 2, &mut hosts, &drill)?;
    assert!(rt; end.gave_up.is_none() && end.outs.len() == 2);
    assert!(rt; end.outs[0] == (0, 2, 0));
    assert!(rt; end.outs[1].0 == 1 && end.outs[1].2 == 2);
    assert!(rt; hosts[0].losses() == 0 && hosts[1].losses() == 0);
    Ok(())
}

#[test]
fn gives_up_where_hosts_lose_all_attempts(rt: HostRuntime) -> Result<(), Fail> {
    let alloc = rt.alloc();
    let drill = entries(alloc, &[])?;
    let lost = [(1, 1), (1, 2)];
    let mut hosts = [down_at(alloc, &lost)?, down_at(alloc, &lost)?];
    let end = end_of(&rt, alloc, 3, 2, &mut hosts, &drill)?;
    assert!(rt; end.gave_up == Some(1) && end.outs.len() == 1);
    assert!(rt; end.outs[0].0 == 0 && end.outs[0].2 == 0);
    let downs = hosts[0]
        .downs()
        .len()
        .saturating_add(hosts[1].downs().len());
    assert!(rt; downs == 2);
    Ok(())
}

#[test]
fn gives_up_where_the_drill_names_all_attempts(rt: HostRuntime) -> Result<(), Fail> {
    let alloc = rt.alloc();
    let drill = entries(alloc, &[(0, 1), (0, 2)])?;
    let mut hosts = [down_at(alloc, &[])?, down_at(alloc, &[])?];
    let end = end_of(&rt, alloc, 2, 2, &mut hosts, &drill)?;
    assert!(rt; end.gave_up == Some(0) && end.outs.len() == 0);
    assert!(rt; hosts[0].losses() == 0 && hosts[1].losses() == 0);
    Ok(())
}

#[test]
fn gives_up_where_one_attempt_is_drilled_and_one_is_lost(rt: HostRuntime) -> Result<(), Fail> {
    let alloc = rt.alloc();
    let drill = entries(alloc, &[(1, 1)])?;
    let mut hosts = [down_at(alloc, &[(1, 2)])?, down_at(alloc, &[(1, 2)])?];
    let end = end_of(&rt, alloc, 2, 2, &mut hosts, &drill)?;
    assert!(rt; end.gave_up == Some(1) && end.outs.len() == 1);
    assert!(rt; hosts[0].losses().saturating_add(hosts[1].losses()) == 1);
    Ok(())
}

#[test]
fn sixteen_hosts_share_one_task(rt: HostRuntime) -> Result<(), Fail> {
    let alloc = rt.alloc();
    let drill = entries(alloc, &[])?;
    let mut hosts = [CalmHost; 16];
    let end = end_of(&rt, alloc, 1, 8, &mut hosts, &drill)?;
    assert!(rt; end.gave_up.is_none() && end.outs.len() == 1);
    assert!(rt; end.outs[0].0 == 0 && end.outs[0].2 == 0);
    Ok(())
}

#[test]
fn one_host_makes_the_first_attempt_of_each_task(rt: HostRuntime) -> Result<(), Fail> {
    let alloc = rt.alloc();
    let drill = entries(alloc, &[])?;
    let mut hosts = [down_at(alloc, &[])?];
    let end = end_of(&rt, alloc, 64, 8, &mut hosts, &drill)?;
    assert!(rt; end.gave_up.is_none() && end.outs.len() == 64);
    for (task, out) in end.outs.iter().enumerate() {
        assert!(rt; out.0 as usize == task && out.1 == 1 && out.2 as usize == 2 * task);
    }
    assert!(rt; hosts[0].passed().len() == 64);
    Ok(())
}

#[test]
fn gives_up_on_a_host_that_is_always_down(rt: HostRuntime) -> Result<(), Fail> {
    let alloc = rt.alloc();
    let drill = entries(alloc, &[])?;
    let all = [(0, 1), (0, 2), (1, 1), (1, 2)];
    let mut hosts = [down_at(alloc, &all)?];
    let end = end_of(&rt, alloc, 2, 2, &mut hosts, &drill)?;
    assert!(rt; end.gave_up == Some(0) && end.outs.len() == 0);
    assert!(rt; hosts[0].losses() == 4 && hosts[0].passed().len() == 0);
    Ok(())
}
