//! The row of the node itself.
ghost use Rattle.std.specs.Prelude.{◌≡◌, [], false, IfOk, IfErr, OnOk};
ghost use Rattle.sqlite.specs.Held.{state};
ghost use Rattle.sqlite.specs.State.{FailsToQuery, HasCleanDisk, IsLive, IsUnchanged, Survives};
ghost use Rattle.fl_sql_tables.specs.Tables.{keeper_schema, select_whole_text};
ghost use Rattle.fl_sql_tables.specs.Founding.{itself_of, IsItself};

use crate::reading::number_at;
use fl_labels::name::NodeNumber;
use fl_ops::format::Format;
use sqlite::{Alter, Connection, Error, Row};

/// What the table of the node itself says.
#[derive(Clone, Copy)]
pub enum Itself {
    /// It has no row, or one that is neither of the first format nor of the second.
    Bad,
    /// It is another node's.
    Other,
    /// It is this node's, in a database of this format.
    Own(Format),
}

fn itself_in(rows: &[Row], number: NodeNumber) -> Itself
    ensures { result ≡ itself_of number rows.now }
{
    let [row] = rows else {
        return Itself::Bad;
    };
    if row.column_count() != 4 {
        return Itself::Bad;
    }
    if number_at(row, 1) != Some(u64::from(number)) {
        return Itself::Other;
    }
    let Some(boot) = number_at(row, 2) else {
        return Itself::Bad;
    };
    if boot > u64::from(u32::MAX) || number_at(row, 0) != Some(1) {
        return Itself::Bad;
    }
    match number_at(row, 3) {
        Some(1) => Itself::Own(Format::One),
        Some(2) => Itself::Own(Format::Two),
        _ => Itself::Bad,
    }
}

/// What the database says of its node.
pub fn read_itself<S: Alter>(conn: &mut Connection<S>, number: NodeNumber) -> Result<Itself, Error>
    requires idle { conn.old.in_transaction ≡ false }
    requires ours { (state S.Store conn.old).now.schema ≡ keeper_schema }
    requires live { IsLive (state S.Store conn.old) }
    ensures idle { conn.new.in_transaction ≡ false }
    ensures ok { HasCleanDisk (state S.Store conn.new) → IfOk result (IsItself number
        (state S.Store conn.old)) }
    ensures same { HasCleanDisk (state S.Store conn.new) → OnOk result (IsUnchanged
        (state S.Store conn.old) (state S.Store conn.new)) }
    ensures err { HasCleanDisk (state S.Store conn.new) → IfErr result (FailsToQuery
        select_whole_text [] (state S.Store conn.old) (state S.Store conn.new)) }
    ensures survives { Survives (state S.Store conn.old) (state S.Store conn.new) (λ _. ⊥) }
{
    match conn.query_all("SELECT id, node, boot, format FROM self", &[]) {
        Ok(rows) => Ok(itself_in(rows.as_slice(), number)),
        Err(error) => Err(error),
    }
}
