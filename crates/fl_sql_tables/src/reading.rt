//! The operation that a row spells.
ghost use Rattle.std.specs.Prelude.{◌≡◌, ◌<◌, [], ◌∷◌, length, None};
ghost use Rattle.std.specs.Option.{option_copied};
ghost use Rattle.sqlite.specs.Order.{column};
ghost use Rattle.fl_sql_tables.specs.Spelling.{whole_in, blob_in, spelled_by, op_of};

use fl_ops::op::Op;
use fl_ops::reading::decode;
use sqlite::Row;
use sqlite::types::ValueRef;

/// The number in a column, where it is one that is not below 0.
pub(crate) fn number_at(row: &Row, at: usize) -> Option<u64>
    requires { at < length row.now }
    ensures { result ≡ whole_in (column row.now at) }
{
    match row.get_ref(at) {
        Ok(ValueRef::Int(number)) => u64::try_from(number).ok(),
        _ => None,
    }
}

// The bytes in a column, where it has bytes.
fn bytes_at<'a>(row: &'a Row, at: usize) -> Option<&'a [u8]>
    requires { at < length row.now }
    ensures { option_copied result ≡ blob_in (column row.now at) }
{
    match row.get_ref(at) {
        Ok(ValueRef::Blob(bytes)) => Some(bytes),
        _ => None,
    }
}

// The operation of this name that the bytes are the spelling of.
fn spelled(node: u64, seq: u64, bytes: &[u8]) -> Option<Op>
    ensures { result ≡ spelled_by (Some node) (Some seq) (Some bytes.now) }
{
    let Ok((op, size)) = decode(bytes) else {
        return None;
    };
    if size != bytes.len() {
        return None;
    }
    if u64::from(op.name.node) != node {
        return None;
    }
    if u64::from(op.name.seq) != seq {
        return None;
    }
    Some(op)
}

/// The operation that a row of a node, a number of it and bytes spells. Takes no memory.
pub(crate) fn read_op(row: &Row) -> Option<Op>
    ensures { result ≡ op_of row.now }
{
    if row.column_count() != 3 {
        return None;
    }
    let node = number_at(row, 0)?;
    let seq = number_at(row, 1)?;
    let bytes = bytes_at(row, 2)?;
    spelled(node, seq, bytes)
}
