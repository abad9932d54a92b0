//! Whether a schema is that of a keeper's database.
ghost use Rattle.std.specs.Prelude.{◌≡◌, ◌≢◌, ℕ, [], ◌∷◌, false, IsTrue, IfSome, IfNone};
ghost use Rattle.sqlite_value.specs.Keys.{plain};
ghost use Rattle.sqlite_schema.specs.Code.{term_in};
ghost use Rattle.fl_sql_tables.specs.OwnCheck.{equals, id_read, one_told, own_check};
ghost use Rattle.fl_sql_tables.specs.Tables.{column_of, ops_table, ops_key, self_table, keeper_schema, no_schema};

use sqlite_items::Items;
use sqlite_schema::code::{Op, Terms};
use sqlite_schema::schema::{Column, Index, Kind, Schema, Stamps, Table};
use sqlite_sql::ops::{BinaryOp, CompareOp};
use sqlite_value::keys::{Collation, Order};
use sqlite_value::value::Value;

fn is_column(column: &Column, name: &[u8], kind: Kind, not_null: bool) -> bool
    ensures yes { IsTrue result → column.now ≡ column_of name.now kind not_null }
    ensures no { result ≡ false → column.now ≢ column_of name.now kind not_null }
{
    column.name.as_slice() == name
        && column.kind == kind
        && column.is_strict
        && column.not_null == not_null
        && matches!(column.default, Value::Null)
        && column.collation == Collation::Binary
}

fn is_ops_key(index: &Index) -> bool
    ensures yes { IsTrue result → index.now ≡ ops_key }
    ensures no { result ≡ false → index.now ≢ ops_key }
{
    index.name.as_slice() == b"sqlite_autoindex_ops_1".as_slice()
        && index.tree == 2
        && index.table == 1
        && index.columns.as_slice() == [1, 2].as_slice()
        && index.order == Order::PLAIN
        && index.is_unique
}

fn is_ops_key_of(places: &[usize]) -> bool
    ensures yes { IsTrue result → places.now ≡ 1 ∷ 2 ∷ [] }
    ensures no { result ≡ false → places.now ≢ 1 ∷ 2 ∷ [] }
{
    matches!(places, [1, 2])
}

fn are_ops_columns(columns: &[Column]) -> bool
    ensures yes { IsTrue result → columns.now ≡ ops_table.columns }
    ensures no { result ≡ false → columns.now ≢ ops_table.columns }
{
    let [node, seq, bytes] = columns else {
        return false;
    };
    if !is_column(node, b"node", Kind::Integer, true) {
        return false;
    }
    if !is_column(seq, b"seq", Kind::Integer, true) {
        return false;
    }
    is_column(bytes, b"bytes", Kind::Blob, true)
}

fn are_ops_keys(uniques: &[Items<usize>]) -> bool
    ensures yes { IsTrue result → uniques.now ≡ (1 ∷ 2 ∷ []) ∷ [] }
    ensures no { result ≡ false → uniques.now ≢ (1 ∷ 2 ∷ []) ∷ [] }
{
    let [key] = uniques else {
        return false;
    };
    is_ops_key_of(key.as_slice())
}

fn are_plain(orders: &[Order]) -> bool
    ensures yes { IsTrue result → orders.now ≡ plain ∷ [] }
    ensures no { result ≡ false → orders.now ≢ plain ∷ [] }
{
    let [order] = orders else {
        return false;
    };
    *order == Order::PLAIN
}

fn has_no_stamp(stamps: &Stamps) -> bool
    ensures yes { IsTrue result → stamps.now ≡ record { places = []; terms = []; formats = [] } }
    ensures no { result ≡ false → stamps.now ≢ record { places = []; terms = []; formats = [] } }
{
    if !stamps.terms.roots.is_empty() {
        return false;
    }
    if !stamps.places.is_empty() {
        return false;
    }
    stamps.formats.is_empty()
}

fn has_no_check(checks: &Terms) -> bool
    ensures yes { IsTrue result → checks.now ≡ [] }
    ensures no { result ≡ false → checks.now ≢ [] }
{
    checks.roots.is_empty()
}

// Whether it is the table of operations.
fn is_ops_table(table: &Table) -> bool
    ensures yes { IsTrue result → table.now ≡ ops_table }
    ensures no { result ≡ false → table.now ≢ ops_table }
{
    if table.name.as_slice() != b"ops".as_slice() || table.tree != 1 || table.is_counted {
        return false;
    }
    if table.key.is_some() || !table.references.is_empty() || !table.computed.is_empty() {
        return false;
    }
    if !is_ops_key_of(table.primary.as_slice()) {
        return false;
    }
    if !are_ops_keys(table.uniques.as_slice()) {
        return false;
    }
    if !are_plain(table.orders.as_slice()) {
        return false;
    }
    if !has_no_check(&table.checks) {
        return false;
    }
    if !has_no_stamp(&table.stamps) {
        return false;
    }
    are_ops_columns(table.columns.as_slice())
}

// The places of two nodes that a node compares, where it does so.
fn compared(op: &Op) -> Option<(usize, usize)>
    ensures some { IfSome result (λ places. op.now ≡ equals places.0 places.1) }
    ensures none { IfNone result ((left right : ℕ) → op.now ≢ equals left right) }
{
    match op {
        Op::Binary(BinaryOp::Compare(CompareOp::Eq, Collation::Binary), left, right) => Some((
            *left, *right,
        )),
        _ => None,
    }
}

fn is_id(op: &Op) -> bool
    ensures yes { IsTrue result → op.now ≡ id_read }
    ensures no { result ≡ false → op.now ≢ id_read }
{
    matches!(op, Op::Column(1, 0))
}

fn is_one(op: &Op) -> bool
    ensures yes { IsTrue result → op.now ≡ one_told }
    ensures no { result ≡ false → op.now ≢ one_told }
{
    matches!(op, Op::Literal(Value::Int(1)))
}

// Whether the node at this place stands for `id = 1`.
fn is_own_check(ops: &[Op], root: usize) -> bool
    ensures yes { IsTrue result → term_in ops.now root ≡ own_check }
    ensures no { result ≡ false → term_in ops.now root ≢ own_check }
{
    if root >= ops.len() || ops.len() < 2 {
        return false;
    }
    let Some((left, right)) = compared(&ops[root]) else {
        return false;
    };
    if left >= ops.len() || right >= ops.len() {
        return false;
    }
    is_id(&ops[left]) && is_one(&ops[right])
}

fn has_own_check(checks: &Terms) -> bool
    ensures yes { IsTrue result → checks.now ≡ self_table.checks }
    ensures no { result ≡ false → checks.now ≢ self_table.checks }
{
    let [root] = checks.roots.as_slice() else {
        return false;
    };
    is_own_check(checks.nodes.as_slice(), *root)
}

fn is_first_place(places: &[usize]) -> bool
    ensures yes { IsTrue result → places.now ≡ 0 ∷ [] }
    ensures no { result ≡ false → places.now ≢ 0 ∷ [] }
{
    matches!(places, [0])
}

fn are_self_columns(columns: &[Column]) -> bool
    ensures yes { IsTrue result → columns.now ≡ self_table.columns }
    ensures no { result ≡ false → columns.now ≢ self_table.columns }
{
    let [id, node, boot, format] = columns else {
        return false;
    };
    if !is_column(id, b"id", Kind::Integer, false) {
        return false;
    }
    if !is_column(node, b"node", Kind::Integer, true) {
        return false;
    }
    if !is_column(boot, b"boot", Kind::Integer, true) {
        return false;
    }
    is_column(format, b"format", Kind::Integer, true)
}

// Whether it is the table of the node itself.
fn is_self_table(table: &Table) -> bool
    ensures yes { IsTrue result → table.now ≡ self_table }
    ensures no { result ≡ false → table.now ≢ self_table }
{
    if table.name.as_slice() != b"self".as_slice() || table.tree != 0 || table.is_counted {
        return false;
    }
    if table.key != Some(0) || !table.references.is_empty() || !table.computed.is_empty() {
        return false;
    }
    if !is_first_place(table.primary.as_slice()) {
        return false;
    }
    if !table.uniques.is_empty() || !table.orders.is_empty() {
        return false;
    }
    if !has_own_check(&table.checks) {
        return false;
    }
    if !has_no_stamp(&table.stamps) {
        return false;
    }
    are_self_columns(table.columns.as_slice())
}

/// Whether it is the schema of a keeper.
pub fn is_ours(schema: &Schema) -> bool
    ensures yes { IsTrue result → schema.now ≡ keeper_schema }
    ensures no { result ≡ false → schema.now ≢ keeper_schema }
{
    let [itself, ops] = schema.tables.as_slice() else {
        return false;
    };
    let [key] = schema.indexes.as_slice() else {
        return false;
    };
    if !schema.views.is_empty() {
        return false;
    }
    if !is_self_table(itself) {
        return false;
    }
    if !is_ops_table(ops) {
        return false;
    }
    is_ops_key(key)
}

/// Whether there are no tables.
pub fn is_nothing(schema: &Schema) -> bool
    ensures yes { IsTrue result → schema.now ≡ no_schema }
    ensures no { result ≡ false → schema.now ≢ no_schema }
{
    schema.tables.is_empty() && schema.indexes.is_empty() && schema.views.is_empty()
}
