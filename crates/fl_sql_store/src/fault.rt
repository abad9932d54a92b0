//! What an error of the database comes to.
ghost use Rattle.std.specs.Prelude.{◌≡◌, ◌≢◌, ◌⊎◌, Some, false};
ghost use Rattle.sqlite.specs.Held.{state};
ghost use Rattle.sqlite.specs.State.{HasCleanDisk, IsUnchanged, KeepsCommit, Survives};
ghost use Rattle.fl_sql_store.specs.Breaking.{Breaks, IsToldAs};

use fl_store::keeper::KeeperFault;
use sqlite::{Alter, Connection, Error, ErrorCode};

/// What an error comes to: want of memory where it says so and the connection still serves, and
/// else a break, for which it is kept.
pub fn fault_of<S: Alter>(
    conn: &mut Connection<S>,
    error: Error,
    why: &mut Option<Error>,
) -> KeeperFault
    requires { conn.old.in_transaction ≡ false }
    ensures idle { conn.new.in_transaction ≡ false }
    ensures either { (result ≡ KeeperFault.Memory) ⊎ (result ≡ KeeperFault.Broken) }
    ensures want { result ≡ KeeperFault.Memory
        → error ≡ Error.SqliteFailure ErrorCode.OutOfMemory }
    ensures memory { HasCleanDisk (state S.Store conn.new) → result ≡ KeeperFault.Memory
        → IsUnchanged (state S.Store conn.old) (state S.Store conn.new) }
    ensures told { HasCleanDisk (state S.Store conn.new)
        → IsToldAs (state S.Store conn.old) (state S.Store conn.new) error result }
    ensures keeps { result ≡ KeeperFault.Broken → why.new ≡ Some error }
    ensures spares { result ≢ KeeperFault.Broken → why.new ≡ why.old }
    ensures kept { HasCleanDisk (state S.Store conn.new)
        → KeepsCommit (state S.Store conn.old) (state S.Store conn.new) }
    ensures survives { Survives (state S.Store conn.old) (state S.Store conn.new) (λ _. ⊥) }
{
    if error != Error::SqliteFailure(ErrorCode::OutOfMemory) {
        *why = Some(error);
        return KeeperFault::Broken;
    }
    match conn.prepare("SELECT 1") {
        Ok(_) => KeeperFault::Memory,
        Err(_) => {
            *why = Some(error);
            KeeperFault::Broken
        }
    }
}
