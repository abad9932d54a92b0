//! Tests of keepers that break in a batch, and of crews that are restarted.
use crate::scene::{
    FIRST, Line, MemCrew, ONE, SECOND, Said, TWO, ask, crew_over, makes_two, serves, tag, tag_made,
};
use fl_jobs::answer::Refusal;
use fl_jobs::job::Job;
use fl_labels::pid::Pid;
use fl_store::mem::MemKeeper;
use fl_system::answer::Fault;
use fl_workers::fault::CrewFault;
use fl_workers::gate::OpenGate;
use std::alloc::Global;
use std::sync::Wait;
use std::test::Fail;
use std::thread::Threads;

// How many lines say so.
fn count_of(lines: &[Line], said: Said) -> usize {
    lines.iter().filter(|line| line.said == said).count()
}

// Whether the second order of a batch meets the keeper as it breaks, and no later one is begun.
fn breaks<R: Threads + Wait + Sync + Send + Copy + Drop + 'static>(
    rt: R,
    alloc: Global,
    crew: &mut MemCrew<OpenGate>,
) -> Option<bool> {
    let jobs = Vec::from_array(alloc, [tag(ONE), tag(TWO), tag(ONE), tag(TWO)]).ok()?;
    let lines = serves(rt, alloc, crew, jobs, Vec::new(alloc))?;
    let published = count_of(&lines, Said::Published(FIRST));
    let failed = count_of(&lines, Said::Refused(Fault::KeeperFailed));
    let stopped = count_of(&lines, Said::Refused(Fault::Stopped));
    Some(lines.len() == 4 && (published, failed, stopped) == (1, 1, 2))
}

// Whether the crew serves no batch, and tells nothing.
fn is_stopped<R: Threads + Wait + Sync + Send + Copy + Drop + 'static>(
    rt: R,
    alloc: Global,
    crew: &mut MemCrew<OpenGate>,
) -> bool {
    let batch = crew.batch(rt, alloc, Vec::new(alloc), Vec::new(alloc));
    let summary = crew.summary(alloc);
    let is_silent = matches!(&summary, Err(Fault::Stopped));
    crew.is_stopped() && matches!(&batch, Err(CrewFault::Stopped)) && is_silent
}

#[test]
fn keeper_breaks_in_a_batch(rt: HostRuntime) -> Result<(), Fail> {
    let alloc = rt.alloc();
    let mut keeper = MemKeeper::new(alloc, 1);
    keeper.break_at(2, false);
    let mut crew = crew_over(&rt, alloc, keeper, 2, OpenGate)?;
    let made = makes_two(rt, alloc, &mut crew);
    let broken = breaks(rt, alloc, &mut crew);
    let stopped = is_stopped(rt, alloc, &mut crew);
    let (mut crew, boot) = crew.restart(&rt, alloc, false);
    let still = is_stopped(rt, alloc, &mut crew);
    crew.close(&rt);
    assert!(rt; made == Some(true) && broken == Some(true));
    assert!(rt; stopped && boot == Err(Fault::KeeperFailed) && still);
    Ok(())
}

// Whether the first process is given the first name.
fn orders<R: Threads + Wait + Sync + Send + Copy + Drop + 'static>(
    rt: R,
    alloc: Global,
    crew: &mut MemCrew<OpenGate>,
) -> Option<bool> {
    let jobs = Vec::from_array(alloc, [tag(ONE)]).ok()?;
    let lines = serves(rt, alloc, crew, jobs, Vec::new(alloc))?;
    Some(count_of(&lines, Said::Published(FIRST)) == 1)
}

// The first process after the restart.
const AFTER: Pid = Pid {
    node: 1,
    boot: 2,
    serial: 1,
};

// Whether a process of before is gone, and a new one is given the next name.
fn goes_on<R: Threads + Wait + Sync + Send + Copy + Drop + 'static>(
    rt: R,
    alloc: Global,
    crew: &mut MemCrew<OpenGate>,
) -> Option<bool> {
    let jobs = [ask(ONE, FIRST), Job::Proc, tag(AFTER), ask(AFTER, SECOND)];
    let jobs = Vec::from_array(alloc, jobs).ok()?;
    let lines = serves(rt, alloc, crew, jobs, Vec::new(alloc))?;
    let lost = Said::Refused(Fault::Refused(Refusal::NoProcess(ONE)));
    match lines.as_slice() {
        [one, two, three, four] => {
            let is_made = one.said == lost && two.said == Said::Made(AFTER);
            let is_named = three.said == Said::Published(SECOND) && three.seen == 1;
            Some(is_made && is_named && four.said == Said::Yes && four.seen == 2)
        }
        _ => Some(false),
    }
}

#[test]
fn crew_restarts(rt: HostRuntime) -> Result<(), Fail> {
    let alloc = rt.alloc();
    let mut crew = crew_over(&rt, alloc, MemKeeper::new(alloc, 1), 2, OpenGate)?;
    let made = makes_two(rt, alloc, &mut crew);
    let ordered = orders(rt, alloc, &mut crew);
    let (mut crew, boot) = crew.restart(&rt, alloc, false);
    let mut text = Vec::new(alloc);
    let is_written = matches!(crew.text(&mut text), Ok(Ok(())));
    let is_kept = crew.node().published() == [tag_made(FIRST)].as_slice();
    let gone_on = goes_on(rt, alloc, &mut crew);
    crew.close(&rt);
    assert!(rt; made == Some(true) && ordered == Some(true) && boot == Ok(2));
    assert!(rt; is_written && is_kept && text.as_slice() == b"1.1 tag read\n".as_slice());
    assert!(rt; gone_on == Some(true));
    Ok(())
}
