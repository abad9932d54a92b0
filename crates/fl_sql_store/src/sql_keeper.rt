//! A keeper over a database.
ghost use Rattle.std.specs.Prelude.{◌≡◌, ◌<◌, ◌↔◌, true, false, not, None, IsTrue, IfOk, IfErr, OnOk, OnErr};
ghost use Rattle.sqlite.specs.Held.{state};
ghost use Rattle.sqlite.specs.State.{HasCleanDisk, Survives};
ghost use Rattle.std.proofs.Common.{ap, ◌∙◌};
ghost use Rattle.fl_store.specs.Kept.{Kept};
ghost use Rattle.fl_sql_tables.specs.Stored.{HasBadRow};
ghost use Rattle.fl_sql_store.specs.SqlKeeping.{held_in, something_held, kept_number};
ghost use Rattle.fl_sql_store.specs.Opening.{OpensAs, OpensTo, RefusesToOpen};
ghost use Rattle.fl_sql_store.specs.Opening.{IsNotThere, OpensThere, RefusesThere, RewritesTo};
ghost use Rattle.fl_sql_store.specs.Breaking.{SqlBreaks, SqlWants};

use crate::calls::{boot_on, load_on, save_on};
use crate::open::{check, check_there};
use crate::there::NotThere;
use fl_labels::name::NodeNumber;
use fl_ops::op::Op;
use fl_opset::set::OpSet;
use fl_store::keeper::{Keeper, KeeperFault};
use sqlite::{Alter, Connection, Error};
use std::alloc::Global;
use std::marker::Model;

/// A keeper over a database. Its calls are those of `calls` over its connection, up to the first
/// that is `Broken`, whose error it keeps.
pub struct SqlKeeper<S: Alter> {
    alloc: Global,
    conn: Connection<S>,
    number: NodeNumber,
    failures: u64,
    is_broken: bool,
    why: Option<Error>,
}

impl<S: Alter> Model for SqlKeeper<S> {
    ghost use Rattle.std.specs.Prelude.{◌≡◌, ◌<◌, false, IsTrue, None};
    ghost use Rattle.sqlite.specs.Held.{state};
    ghost use Rattle.fl_sql_tables.specs.Serving.{IsServing};
    ghost use Rattle.fl_sql_store.specs.SqlKeeping.{SqlKept, sql_code};

    ghost Value = { SqlKept S };

    ghost coded = { sql_code S.code };

    ghost view = { λ k. record {
      conn = k.conn;
      number = k.number;
      failures = k.failures;
      is_broken = k.is_broken;
      why = k.why;
    } };

    ghost invariant = { λ k. (k.conn.in_transaction ≡ false)
        × (k.is_broken ≡ false → IsServing k.number (state S.Store k.conn))
        × (k.is_broken ≡ false → k.failures ≡ 0)
        × (IsTrue k.is_broken → k.failures ≡ 1)
        × (k.is_broken ≡ false → k.why ≡ None) };
}

impl<S: Alter + Drop> Drop for SqlKeeper<S> {
    fn drop(self) {
        let SqlKeeper {
            alloc: _,
            conn: _,
            number: _,
            failures: _,
            is_broken: _,
            why: _,
        } = self;
    }
}

impl<S: Alter> SqlKeeper<S> {
    ghost use Rattle.fl_store.specs.Keeping.{Stays};
    ghost use Rattle.fl_sql_tables.specs.Serving.{IsServing};
    ghost use Rattle.fl_sql_store.specs.SqlKeeping.{held_in};

    // A keeper over a database that is this node's.
    fn over(alloc: Global, conn: Connection<S>, number: NodeNumber) -> SqlKeeper<S>
        requires idle { conn.in_transaction ≡ false }
        requires serving { IsServing number (state S.Store conn) }
        ensures { result
            ≡ record { conn = conn; number = number; failures = 0; is_broken = false; why = None } }
    {
        SqlKeeper {
            alloc,
            conn,
            number,
            failures: 0,
            is_broken: false,
            why: None,
        }
    }

    /// Opens a keeper of this node over a database, which stays as it was; one that has no tables
    /// gets them, and the row of the node with boot 0, in one transaction. One of the first format
    /// is rewritten in the second, in one transaction: all of its rows are read and written, and
    /// stopped anywhere it is whole in the one or in the other. What an opening finds in it is the
    /// same.
    ///
    /// It hands the database back where it refuses: `WrongNode` where its one row of `self` is
    /// another node's; `BadRow` where it has other tables than a keeper's, or not one row of `self`
    /// that a keeper writes, as one of a third format, or where it is to be rewritten and a row of
    /// `ops` is bad; `Memory`; and `Broken` where a transaction is under way, or where the database
    /// fails for another cause than memory. What an opening finds in it is then as before. Rows of
    /// `ops` of the second format are not read before `load`.
    pub fn open(
        alloc: Global,
        conn: Connection<S>,
        number: NodeNumber,
    ) -> Result<SqlKeeper<S>, (KeeperFault, Connection<S>)>
        ensures number { IfOk result (λ k. (k.number ≡ number) × (k.failures ≡ 0)
            × (k.is_broken ≡ false)) }
        ensures idle { IfOk result (λ k. k.conn.in_transaction ≡ false) }
        ensures opens { IfOk result (λ k. HasCleanDisk (state S.Store k.conn)
            → OpensAs number (state S.Store conn) (state S.Store k.conn)) }
        ensures held { IfOk result (λ k. HasCleanDisk (state S.Store k.conn)
            → Stays (held_in number (state S.Store conn)) (held_in number (state S.Store k.conn))) }
        ensures leaves { IfOk result (λ k. Survives (state S.Store conn) (state S.Store k.conn)
            (OpensTo number (state S.Store conn))) }
        ensures leaves_refused { IfErr result (λ e. Survives (state S.Store conn)
            (state S.Store e.1) (OpensTo number (state S.Store conn))) }
        ensures refuses { IfErr result (λ e. HasCleanDisk (state S.Store e.1)
            → RefusesToOpen number (state S.Store conn) (state S.Store e.1) e.0) }
        ensures stays { IfErr result (λ e. HasCleanDisk (state S.Store e.1)
            → Stays (held_in number (state S.Store conn)) (held_in number (state S.Store e.1))) }
    {
        let mut conn = conn;
        match check(alloc, &mut conn, number) {
            Ok(()) => Ok(SqlKeeper::over(alloc, conn, number)),
            Err(fault) => Err((fault, conn)),
        }
    }

    /// Opens a keeper of this node over a database that is there, as `open` does, and never makes
    /// one: that which has no table is refused as `Empty`, with no transaction under way, and
    /// handed back untouched. Each other is refused, and left, as by `open`.
    pub fn open_there(
        alloc: Global,
        conn: Connection<S>,
        number: NodeNumber,
    ) -> Result<SqlKeeper<S>, (NotThere, Connection<S>)>
        ensures number { IfOk result (λ k. (k.number ≡ number) × (k.failures ≡ 0)
            × (k.is_broken ≡ false)) }
        ensures idle { IfOk result (λ k. k.conn.in_transaction ≡ false) }
        ensures there { OnOk result (¬ IsNotThere (state S.Store conn)) }
        ensures empty { IfErr result (λ e.
            IsNotThere (state S.Store conn) ↔ (e.0 ≡ NotThere.Empty)) }
        ensures untouched { IfErr result (λ e. e.0 ≡ NotThere.Empty → e.1 ≡ conn) }
        ensures opens { IfOk result (λ k. HasCleanDisk (state S.Store k.conn)
            → OpensThere number (state S.Store conn) (state S.Store k.conn)) }
        ensures held { IfOk result (λ k. HasCleanDisk (state S.Store k.conn)
            → Stays (held_in number (state S.Store conn)) (held_in number (state S.Store k.conn))) }
        ensures leaves { IfOk result (λ k. Survives (state S.Store conn) (state S.Store k.conn)
            (RewritesTo number (state S.Store conn))) }
        ensures leaves_refused { IfErr result (λ e. Survives (state S.Store conn)
            (state S.Store e.1) (RewritesTo number (state S.Store conn))) }
        ensures refuses { IfErr result (λ e. HasCleanDisk (state S.Store e.1)
            → RefusesThere number (state S.Store conn) (state S.Store e.1) e.0) }
        ensures stays { IfErr result (λ e. HasCleanDisk (state S.Store e.1)
            → Stays (held_in number (state S.Store conn)) (held_in number (state S.Store e.1))) }
    {
        let mut conn = conn;
        match check_there(alloc, &mut conn, number) {
            Ok(()) => Ok(SqlKeeper::over(alloc, conn, number)),
            Err(why) => Err((why, conn)),
        }
    }
}

impl<S: Alter> SqlKeeper<S> {
    ghost use Rattle.fl_store.specs.Keeping.{Stays};
    ghost use Rattle.fl_sql_store.specs.SqlKeeping.{held_in};

    /// Opens a keeper of this node over a database, as `open` does. Where that is refused, the
    /// keeper is broken, over the database as it was left.
    pub fn open_or_broken(
        alloc: Global,
        conn: Connection<S>,
        number: NodeNumber,
    ) -> (SqlKeeper<S>, Result<(), KeeperFault>)
        requires { conn.in_transaction ≡ false }
        ensures number { result.0.number ≡ number }
        ensures sound { OnOk result.1 (result.0.is_broken ≡ false) }
        ensures broken { OnErr result.1 (result.0.is_broken ≡ true) }
        ensures opens { HasCleanDisk (state S.Store result.0.conn)
            → OnOk result.1 (OpensAs number (state S.Store conn) (state S.Store result.0.conn)) }
        ensures refuses { HasCleanDisk (state S.Store result.0.conn)
            → IfErr result.1 (RefusesToOpen number (state S.Store conn)
            (state S.Store result.0.conn)) }
        ensures leaves { Survives (state S.Store conn) (state S.Store result.0.conn)
            (OpensTo number (state S.Store conn)) }
        ensures held { HasCleanDisk (state S.Store result.0.conn)
            → Stays (held_in number (state S.Store conn))
            (held_in number (state S.Store result.0.conn)) }
    {
        let mut conn = conn;
        match check(alloc, &mut conn, number) {
            Ok(()) => (SqlKeeper::over(alloc, conn, number), Ok(())),
            Err(fault) => (SqlKeeper::broken(alloc, conn, number), Err(fault)),
        }
    }

    // A broken keeper over a database.
    fn broken(alloc: Global, conn: Connection<S>, number: NodeNumber) -> SqlKeeper<S>
        requires { conn.in_transaction ≡ false }
        ensures { result
            ≡ record { conn = conn; number = number; failures = 1; is_broken = true; why = None } }
    {
        SqlKeeper {
            alloc,
            conn,
            number,
            failures: 1,
            is_broken: true,
            why: None,
        }
    }

    /// Whose it is, how many faults there were since the opening, and whether it is broken: in one
    /// call, since each call is dear to prove where the store is known.
    pub fn standing(&self) -> (NodeNumber, u64, bool)
        ensures { result ≡ (self.now.number, self.now.failures, self.now.is_broken) }
    {
        (self.number, self.failures, self.is_broken)
    }

    /// Whether it is broken.
    pub fn is_broken(&self) -> bool
        ensures { result ≡ self.now.is_broken }
    {
        self.is_broken
    }

    /// The error at which a call broke it: none while it is not broken, and none where its opening
    /// was refused.
    pub fn why(&self) -> Option<Error>
        ensures value { result ≡ self.now.why }
        ensures none { self.now.is_broken ≡ false → result ≡ None }
    {
        self.why
    }

    /// The connection, as the last call left it. No transaction is under way.
    pub fn into_connection(self) -> Connection<S>
        ensures same { result ≡ self.conn }
        ensures idle { result.in_transaction ≡ false }
    {
        let SqlKeeper {
            alloc: _,
            conn: connection,
            number: _,
            failures: _,
            is_broken: _,
            why: _,
        } = self;
        connection
    }
}

impl<S: Alter> Keeper for SqlKeeper<S> {
    ghost custody = { record {
      number = λ k. k.number;
      may_hold = λ k. held_in k.number (state S.Store k.conn);
      is_honest = λ k. HasCleanDisk (state S.Store k.conn);
      failed = λ k. k.failures;
      is_broken = λ k. k.is_broken;
      has_bad_row = λ k. HasBadRow ((state S.Store k.conn).now.trees 1);
      breaks = SqlBreaks S.Store;
      wants = SqlWants S.Store;
      becomes = λ call old new. IsTrue old.is_broken → new ≡ old;
    } };

    ghost holds = { λ k clean. something_held k.number
        (S.Store.recovers k.conn.store) (S.Store.survives k.conn.store clean) };

    ghost numbered = { λ keeper k h. ap (λ (k : Kept). k.number) h.2
        ∙ kept_number keeper.number h.0 };

    fn number(&self) -> NodeNumber {
        self.number
    }

    fn failures(&self) -> u64 {
        self.failures
    }

    fn load(&mut self, alloc: Global) -> Result<OpSet, KeeperFault> {
        if self.is_broken {
            return Err(KeeperFault::Broken);
        }
        match load_on(alloc, &mut self.conn, self.number, &mut self.why) {
            Ok(ops) => Ok(ops),
            Err(fault) => match fault {
                KeeperFault::Memory => Err(KeeperFault::Memory),
                KeeperFault::BadRow => Err(KeeperFault::BadRow),
                _ => {
                    self.is_broken = true;
                    self.failures = 1;
                    Err(KeeperFault::Broken)
                }
            },
        }
    }

    fn boot(&mut self) -> Result<u32, KeeperFault> {
        if self.is_broken {
            return Err(KeeperFault::Broken);
        }
        match boot_on(&mut self.conn, self.number, &mut self.why) {
            Ok(boot) => Ok(boot),
            Err(fault) => match fault {
                KeeperFault::Memory => Err(KeeperFault::Memory),
                KeeperFault::NamesSpent => Err(KeeperFault::NamesSpent),
                _ => {
                    self.is_broken = true;
                    self.failures = 1;
                    Err(KeeperFault::Broken)
                }
            },
        }
    }

    fn save(&mut self, ops: &[Op]) -> Result<(), KeeperFault> {
        if self.is_broken {
            return Err(KeeperFault::Broken);
        }
        if ops.is_empty() {
            return Ok(());
        }
        match save_on(self.alloc, &mut self.conn, ops, &mut self.why) {
            Ok(()) => Ok(()),
            Err(fault) => match fault {
                KeeperFault::Memory => Err(KeeperFault::Memory),
                _ => {
                    self.is_broken = true;
                    self.failures = 1;
                    Err(KeeperFault::Broken)
                }
            },
        }
    }
}
