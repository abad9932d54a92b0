//! Who has a capability.
ghost use Rattle.std.specs.Prelude.{◌≡◌, ◌≢◌, [], IfOk, OnErr};
ghost use Rattle.std.specs.FinMap as map;
ghost use Rattle.std.specs.Option.{option_copied};
ghost use Rattle.fl_labels.specs.Pid.{pid_cmp};
ghost use Rattle.fl_chains.specs.Leading.{IsTarget};
ghost use Rattle.fl_chains.specs.Rising.{AreRising};
ghost use Rattle.fl_explanations.specs.Lines.{processes_at};
ghost use Rattle.fl_explanations.specs.Who.{IsHolder, IsWho, MayBeNamed};
ghost use Rattle.fl_explanations.specs.parts.Owners.{IsOwner};

use fl_chains::giver::giver;
use fl_chains::groups::{Target, everybodys_lead, groups_to, one_leads};
use fl_chains::logins::{Login, logins_to};
use fl_labels::cap::Cap;
use fl_labels::name::{Group, Name};
use fl_labels::pid::Pid;
use fl_monitor::bench::Bench;
use fl_ops::op::Op;
use std::alloc::{AllocError, Global};

/// Who has a capability, each kind rising.
#[derive(Debug, Drop)]
pub struct Who {
    /// The least operation that gives it to everybody.
    pub everybody: Option<Name>,
    /// The processes that have it in effect.
    pub processes: Vec<Pid>,
    /// The groups whose use leads to it.
    pub groups: Vec<Group>,
    /// The logins whose capability leads to it.
    pub logins: Vec<Login>,
}

// The processes that own what leads to the target, of a bench that has these pids.
fn owners(
    alloc: Global,
    target: Target<'_>,
    bench: &Bench,
    pids: &[Pid],
) -> Result<Vec<Pid>, AllocError>
    requires target { IsTarget target }
    requires pids { pids.now ≡ map.keys bench.now.processes }
    ensures found { let t = target.entry in IfOk result (λ made. AreRising pid_cmp
        (IsOwner t.ops.now bench.now t.cap) made.items) }
    ensures memory { OnErr result (pids.now ≢ []) }
{
    let mut made = Vec::new(alloc);
    for pid in pids {
        let Some(process) = bench.process(*pid) else {
            unreachable!("it stands there");
        };
        if one_leads(target, process.owned.as_slice()) {
            made.push(*pid)?;
        }
    }
    Ok(made)
}

// The processes that have the target in effect.
fn holders(alloc: Global, target: Target<'_>, bench: Option<&Bench>) -> Result<Vec<Pid>, AllocError>
    requires { IsTarget target }
    ensures found { let t = target.entry in IfOk result (λ made. AreRising pid_cmp
        (IsHolder t.ops.now (option_copied bench.entry) t.cap) made.items) }
    ensures memory { OnErr result (processes_at (option_copied bench.entry) ≢ []) }
{
    let Some(bench) = bench else {
        return Ok(Vec::new(alloc));
    };
    let pids = bench.pids(alloc)?;
    if everybodys_lead(target) {
        return Ok(pids);
    }
    owners(alloc, target, bench, &pids)
}

/// Who has the capability under the published operations: everybody, where an operation gives it to
/// everybody; of the bench, each process that has it in effect; each group whose use leads to it;
/// and each login whose capability does.
///
/// Fails only where there is not enough memory, and a process, such a group or such a login. For
/// each step back from the capability, a binary search for each operation that leads no nearer, and
/// then one for each login, for what each operation gives to everybody, and for each capability
/// that a process owns. Takes some copies of the operations until it returns.
pub fn who_has(
    alloc: Global,
    ops: &[Op],
    bench: Option<&Bench>,
    cap: Cap,
) -> Result<Who, AllocError>
    ensures found { IfOk result (IsWho ops.now (option_copied bench.entry) cap) }
    ensures memory { OnErr result (MayBeNamed ops.now (option_copied bench.entry) cap) }
{
    let groups = groups_to(alloc, ops, cap)?;
    let target = Target {
        ops,
        cap,
        groups: &groups,
    };
    let processes = holders(alloc, target, bench)?;
    let logins = logins_to(alloc, target)?;
    Ok(Who {
        everybody: giver(ops, cap),
        processes,
        groups,
        logins,
    })
}
