//! The calls of a keeper, over the connection alone.
ghost use Rattle.std.specs.Prelude.{◌≡◌, ◌≢◌, ◌<◌, ◌≤◌, ◌⊎◌, ℕ, ◌+◌, ◌-◌, ◌^◌, [], ◌∷◌};
ghost use Rattle.std.specs.Prelude.{true, false, length, IsTrue, IfOk, OnOk, IfErr, IsErrAnd, Err};
ghost use Rattle.sqlite.specs.Held.{state};
ghost use Rattle.sqlite.specs.State.{HasCleanDisk, IsUnchanged, Survives};
ghost use Rattle.sqlite.specs.View.{doubt};
ghost use Rattle.fl_store.specs.Kept.{HasNamesOnce};
ghost use Rattle.fl_sql_tables.specs.Stored.{HasBadRow, IsOurs, Saves, AddsTo, ops_in, HasSelf};
ghost use Rattle.fl_sql_tables.specs.Serving.{IsServing, Raises, RaisesTo};
ghost use Rattle.fl_sql_tables.specs.Failing.{IsFault, FailsToSave};
ghost use Rattle.fl_sql_store.specs.SqlKeeping.{IsAsCommitted};
ghost use Rattle.fl_sql_store.specs.Breaking.{FailsToBoot, IsTold, RefusesToLoad};

use crate::fault::fault_of;
use fl_labels::name::NodeNumber;
use fl_ops::op::Op;
use fl_opset::set::OpSet;
use fl_sql_tables::boot::{raise_boot, read_boot};
use fl_sql_tables::load::{LoadFault, load_ops};
use fl_sql_tables::put::save_ops;
use fl_store::keeper::KeeperFault;
use sqlite::{Alter, Connection, Error};
use std::alloc::Global;

/// The saved operations, whose names differ.
///
/// Refused with `BadRow` only where a row is bad, and then none are given; with `Memory` for want
/// of memory, where the connection serves on; and with `Broken` for an error of another cause, or
/// where the connection serves no more. That error is kept.
pub fn load_on<S: Alter>(
    alloc: Global,
    conn: &mut Connection<S>,
    number: NodeNumber,
    why: &mut Option<Error>,
) -> Result<OpSet, KeeperFault>
    requires idle { conn.old.in_transaction ≡ false }
    requires serving { IsServing number (state S.Store conn.old) }
    ensures idle { conn.new.in_transaction ≡ false }
    ensures names { IfOk result HasNamesOnce }
    ensures ok { HasCleanDisk (state S.Store conn.new)
        → IfOk result (λ ops. ops ≡ ops_in ((state S.Store conn.old).now.trees 1)) }
    ensures good { HasCleanDisk (state S.Store conn.new)
        → OnOk result (¬ HasBadRow ((state S.Store conn.old).now.trees 1)) }
    ensures same { HasCleanDisk (state S.Store conn.new)
        → OnOk result (IsUnchanged (state S.Store conn.old) (state S.Store conn.new)) }
    ensures spares { result ≢ Err KeeperFault.Broken → why.new ≡ why.old }
    ensures either { IfErr result (λ e. (e ≡ KeeperFault.Memory)
        ⊎ ((e ≡ KeeperFault.Broken) ⊎ (e ≡ KeeperFault.BadRow))) }
    ensures refuses { HasCleanDisk (state S.Store conn.new)
        → IfErr result (RefusesToLoad S.Store conn.old conn.new why.new) }
    ensures memory { HasCleanDisk (state S.Store conn.new) → result ≡ Err KeeperFault.Memory
        → IsAsCommitted (state S.Store conn.old) (state S.Store conn.new) }
    ensures survives { Survives (state S.Store conn.old) (state S.Store conn.new) (λ _. ⊥) }
{
    match load_ops(alloc, conn, number) {
        Ok(ops) => Ok(ops),
        Err(LoadFault::BadRow) => Err(KeeperFault::BadRow),
        Err(LoadFault::Memory) => Err(KeeperFault::Memory),
        Err(LoadFault::Failed(error)) => Err(fault_of(conn, error, why)),
    }
}

/// Adds the operations in one transaction, all or none.
///
/// Refused with `Memory` for want of memory, where none is added, neither a transaction nor a
/// savepoint is left, and the connection serves on; and with `Broken` for an error of another
/// cause, or where the connection serves no more. That error is kept.
pub fn save_on<S: Alter>(
    alloc: Global,
    conn: &mut Connection<S>,
    ops: &[Op],
    why: &mut Option<Error>,
) -> Result<(), KeeperFault>
    requires idle { conn.old.in_transaction ≡ false }
    requires some { 0 < length ops.now }
    ensures clean { doubt (state S.Store conn.old).is_clean ≤ doubt
        (state S.Store conn.new).is_clean }
    ensures idle { conn.new.in_transaction ≡ false }
    ensures spares { result ≢ Err KeeperFault.Broken → why.new ≡ why.old }
    ensures either { IfErr result (λ e. (e ≡ KeeperFault.Memory) ⊎ (e ≡ KeeperFault.Broken)) }
    ensures ok { HasCleanDisk (state S.Store conn.new) → IsOurs (state S.Store conn.old)
        → OnOk result (Saves ops.now (state S.Store conn.old) (state S.Store conn.new)) }
    ensures memory { HasCleanDisk (state S.Store conn.new) → IsOurs (state S.Store conn.old)
        → result ≡ Err KeeperFault.Memory → IsAsCommitted (state S.Store conn.old)
        (state S.Store conn.new) }
    ensures fails { HasCleanDisk (state S.Store conn.new) → IsOurs (state S.Store conn.old)
        → IsTrue (state S.Store conn.old).is_open
        → IfErr result (IsTold S.Store (FailsToSave ops.now) conn.old conn.new why.new) }
    ensures survives { IsOurs (state S.Store conn.old) → Survives (state S.Store conn.old)
        (state S.Store conn.new) (AddsTo ops.now (state S.Store conn.old).now) }
{
    match save_ops(alloc, conn, ops) {
        Ok(()) => Ok(()),
        Err(error) => Err(fault_of(conn, error, why)),
    }
}

/// Raises the boot by one and gives it.
///
/// Refused with `NamesSpent` exactly where the boot is 4,294,967,295 and is read; with `Memory` for
/// want of memory, where the boot stays, neither a transaction nor a savepoint is left, and the
/// connection serves on; and with `Broken` for an error of another cause, or where it serves no
/// more. That error is kept.
pub fn boot_on<S: Alter>(
    conn: &mut Connection<S>,
    number: NodeNumber,
    why: &mut Option<Error>,
) -> Result<u32, KeeperFault>
    requires idle { conn.old.in_transaction ≡ false }
    requires serving { IsServing number (state S.Store conn.old) }
    ensures clean { doubt (state S.Store conn.old).is_clean ≤ doubt
        (state S.Store conn.new).is_clean }
    ensures idle { conn.new.in_transaction ≡ false }
    ensures positive { IfOk result (λ boot. 0 < boot) }
    ensures ok { HasCleanDisk (state S.Store conn.new) → IfOk result (λ boot. (was : ℕ)
        × (boot ≡ was + 1) × HasSelf number was ((state S.Store conn.old).now.trees 0)
        × Raises number boot (state S.Store conn.old) (state S.Store conn.new)) }
    ensures spent { HasCleanDisk (state S.Store conn.new) → result ≡ Err KeeperFault.NamesSpent
        → IsUnchanged (state S.Store conn.old) (state S.Store conn.new)
        × HasSelf number (2 ^ 32 - 1) ((state S.Store conn.old).now.trees 0) }
    ensures memory { HasCleanDisk (state S.Store conn.new) → result ≡ Err KeeperFault.Memory
        → IsAsCommitted (state S.Store conn.old) (state S.Store conn.new) }
    ensures spares { result ≢ Err KeeperFault.Broken → why.new ≡ why.old }
    ensures either { IfErr result (λ e. (e ≡ KeeperFault.Memory)
        ⊎ ((e ≡ KeeperFault.Broken) ⊎ (e ≡ KeeperFault.NamesSpent))) }
    ensures last { HasCleanDisk (state S.Store conn.new)
        → HasSelf number (2 ^ 32 - 1) ((state S.Store conn.old).now.trees 0)
        → IsErrAnd result (λ e. (e ≡ KeeperFault.NamesSpent)
        ⊎ IsTold S.Store IsFault conn.old conn.new why.new e) }
    ensures fails { HasCleanDisk (state S.Store conn.new) → IfErr result (λ e.
        e ≢ KeeperFault.NamesSpent
        → IsTold S.Store (FailsToBoot number) conn.old conn.new why.new e) }
    ensures survives { (was : ℕ) → HasSelf number was ((state S.Store conn.old).now.trees 0)
        → Survives (state S.Store conn.old) (state S.Store conn.new) (RaisesTo number (was + 1)
        (state S.Store conn.old).now) }
{
    let boot = match read_boot(conn, number) {
        Ok(boot) => boot,
        Err(error) => return Err(fault_of(conn, error, why)),
    };
    if boot == u32::MAX {
        return Err(KeeperFault::NamesSpent);
    }
    match raise_boot(conn, number, boot + 1) {
        Ok(()) => Ok(boot + 1),
        Err(error) => Err(fault_of(conn, error, why)),
    }
}
