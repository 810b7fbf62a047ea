// Two hosts are at work at the same time.
use crate::tasks::Doubles;
use crew::{Drill, PhaseSettings, run_phase};
use flume_value::Pile;
use outside::{At, Down, Host, Phase};
use std::sync::Arc;
use std::sync::atomic::AtomicU64;
use std::sync::atomic::Ordering::SeqCst;
use std::test::Fail;
use std::thread;

const TURNS: u64 = 1 << 28;

// At its first pass it sets its flag and looks for the other's, and notes whether it saw it.
#[derive(Drop)]
struct Meets {
    mine: Arc<AtomicU64>,
    other: Arc<AtomicU64>,
    asked: bool,
    met: bool,
}

impl Host for Meets {
    ghost use Rattle.outside.specs.Accounts.{calm};

    ghost account = { λ _. calm };

    fn pass(&mut self, _at: At) -> Result<(), Down> {
        if self.asked {
            return Ok(());
        }
        self.asked = true;
        self.mine.store(1, SeqCst);
        for _ in 0..TURNS {
            if self.other.load(SeqCst) == 1 {
                self.met = true;
                break;
            }
            thread::yield_now();
        }
        Ok(())
    }
}

#[test]
fn two_hosts_meet(rt: HostRuntime) -> Result<(), Fail> {
    let alloc = rt.alloc();
    let one = Arc::new(alloc, AtomicU64::new(0))?;
    let two = Arc::new(alloc, AtomicU64::new(0))?;
    let mut hosts = [
        Meets {
            mine: Arc::try_clone(&one)?,
            other: Arc::try_clone(&two)?,
            asked: false,
            met: false,
        },
        Meets {
            mine: two,
            other: one,
            asked: false,
            met: false,
        },
    ];
    let drill = Drill::new(Pile::new(alloc));
    let phase = PhaseSettings::new(1, Phase::Map, 1, &drill);
    let settled = run_phase(&rt, alloc, &Doubles { count: 2 }, &mut hosts, &phase).is_ok();
    assert!(rt; settled && hosts[0].met && hosts[1].met);
    Ok(())
}
