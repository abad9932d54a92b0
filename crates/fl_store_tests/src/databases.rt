//! Tests of keepers over databases that are damaged in some way.
use crate::asking::{Line, Said, ask, check, tell};
use fl_labels::name::NodeNumber;
use fl_sql_store::sql_keeper::SqlKeeper;
use sqlite::{Alter, Connection};
use std::alloc::Global;
use std::io;
use std::test::Fail;

/// What becomes of a database: this text of SQL is run, and then a keeper of this node is opened
/// and asked these lines. None is opened where there are no lines.
pub type Visit = (&'static str, NodeNumber, &'static [Line]);

/// A visit to a database, which is handed back. What the keeper answers, or why it is not opened,
/// is put behind what was said.
///
/// A connection is never let go here, only handed on: so no proof says how its parts are let go.
pub fn asked<S: Alter>(
    alloc: Global,
    conn: Connection<S>,
    visit: Visit,
    said: &mut Vec<u8>,
) -> (Connection<S>, io::Result<()>) {
    let (text, number, lines) = visit;
    let mut conn = conn;
    if conn.execute_batch(text).is_err() {
        return (conn, Err(io::Error::other("the text is refused")));
    }
    if lines.is_empty() {
        return (conn, Ok(()));
    }
    match SqlKeeper::open(alloc, conn, number) {
        Ok(keeper) => {
            let mut keeper = keeper;
            let outcome = ask(alloc, &mut keeper, lines, said);
            (keeper.into_connection(), outcome)
        }
        Err((fault, conn)) => (conn, tell(Said::Refused(fault), said)),
    }
}

/// The database of node 1 with one operation.
const FOUNDED: Visit = ("", 1, &[Line::Boot, Line::SaveFirst]);

/// What is done to the database, by which node it is then visited, and what that finds.
type Damage = (&'static str, NodeNumber, &'static str);

static DAMAGES: [Damage; 26] = [
    ("", 1, "1.1 group\n"),
    ("", 2, "wrong node\n"),
    ("", 65_537, "wrong node\n"),
    ("UPDATE self SET node = 2", 1, "wrong node\n"),
    ("UPDATE self SET node = 65537", 1, "wrong node\n"),
    ("UPDATE self SET format = 3", 1, "bad row\n"),
    ("UPDATE self SET format = 0", 1, "bad row\n"),
    ("UPDATE self SET format = 1", 1, "1.1 group\n"),
    (
        "UPDATE self SET format = 1; UPDATE ops SET seq = 2",
        1,
        "bad row\n",
    ),
    ("UPDATE self SET boot = 4294967296", 1, "bad row\n"),
    ("UPDATE self SET boot = -1", 1, "bad row\n"),
    ("DELETE FROM self", 1, "bad row\n"),
    ("DROP TABLE self", 1, "bad row\n"),
    ("DROP TABLE ops", 1, "bad row\n"),
    ("CREATE TABLE other (id INTEGER)", 1, "bad row\n"),
    (
        "DROP TABLE ops; \
CREATE TABLE ops (node INTEGER NOT NULL, seq INTEGER NOT NULL, bytes BLOB NOT NULL) STRICT",
        1,
        "bad row\n",
    ),
    ("DROP TABLE ops; DROP TABLE self", 2, ""),
    ("BEGIN", 1, "broken\n"),
    ("DELETE FROM ops", 1, ""),
    ("UPDATE ops SET seq = 2", 1, "bad row\n"),
    (
        "UPDATE ops SET bytes = x'0102000100000001'",
        1,
        "1.1 group\n",
    ),
    (
        "UPDATE ops SET node = 65537, bytes = x'0102000100000001'",
        1,
        "bad row\n",
    ),
    (
        "UPDATE ops SET bytes = x'03020000000100000001'",
        1,
        "bad row\n",
    ),
    (
        "UPDATE ops SET bytes = x'020200000001000000'",
        1,
        "bad row\n",
    ),
    (
        "UPDATE ops SET bytes = x'0202000000010000000100'",
        1,
        "bad row\n",
    ),
    (
        "INSERT INTO ops (node, seq, bytes) VALUES (1, 2, x'02020000000100000001')",
        1,
        "bad row\n",
    ),
];

// What is said of visits, one after the other, to a database in memory.
fn said_of(alloc: Global, visits: &[Visit]) -> Result<Vec<u8>, Fail> {
    let mut said = Vec::new(alloc);
    let mut conn = Connection::open_in_memory(alloc)?;
    for visit in visits {
        let (left, outcome) = asked(alloc, conn, *visit, &mut said);
        conn = left;
        outcome?;
    }
    Ok(said)
}

#[test]
fn damaged_databases(rt: HostRuntime) -> Result<(), Fail> {
    for (damage, number, wanted) in &DAMAGES {
        let said = said_of(rt.alloc(), &[FOUNDED, (*damage, *number, &[Line::Load])])?;
        check(&rt, said, "boot 1\nok\n", wanted);
    }
    Ok(())
}

/// The database of the first format that node 1 left, booted once, with a tag, a group and a put.
pub const FIRST_FORMAT: &str = "\
CREATE TABLE self (id INTEGER PRIMARY KEY CHECK (id = 1), node INTEGER NOT NULL, \
boot INTEGER NOT NULL, format INTEGER NOT NULL) STRICT; \
CREATE TABLE ops (node INTEGER NOT NULL, seq INTEGER NOT NULL, bytes BLOB NOT NULL, \
PRIMARY KEY (node, seq)) STRICT; \
INSERT INTO self (id, node, boot, format) VALUES (1, 1, 1, 1); \
INSERT INTO ops (node, seq, bytes) VALUES (1, 1, x'010100010000000101'), \
(1, 2, x'0102000100000002'), (1, 3, x'010300010000000300010000000201000100000001')";

/// The boot tells of which format all of that database is: it becomes 10 or 20.
pub const TELLS_FORMAT: &str = "\
UPDATE self SET boot = 10 WHERE boot = 1 AND format = 1 AND 3 = (SELECT count(*) FROM ops \
WHERE bytes IN (x'010100010000000101', x'0102000100000002', \
x'010300010000000300010000000201000100000001')); \
UPDATE self SET boot = 20 WHERE boot = 1 AND format = 2 AND 3 = (SELECT count(*) FROM ops \
WHERE bytes IN (x'0201000000010000000101', x'02020000000100000002', \
x'020300000001000000030000000100000002010000000100000001'))";

/// Visits, one after the other, and what is said.
type History = (&'static [Visit], &'static str);

static HISTORIES: [History; 3] = [
    (
        &[
            FOUNDED,
            (
                "",
                1,
                &[
                    Line::Number,
                    Line::SaveNone,
                    Line::Boot,
                    Line::SaveRest,
                    Line::Load,
                    Line::Failures,
                ],
            ),
            (
                "UPDATE self SET boot = 4294967295",
                1,
                &[Line::Boot, Line::Failures, Line::SaveNone],
            ),
        ],
        "boot 1\nok\n\
1\nok\nboot 2\nok\n1.1 group\n1.2 group\n1.3 group\n0\n\
names spent\n0\nok\n",
    ),
    (
        &[
            (FIRST_FORMAT, 2, &[Line::Load]),
            ("", 1, &[Line::Load]),
            (TELLS_FORMAT, 1, &[Line::Boot, Line::Load]),
        ],
        "wrong node\n\
1.1 tag export\n1.2 group\n1.3 put 1.2 +1.1\n\
boot 21\n1.1 tag export\n1.2 group\n1.3 put 1.2 +1.1\n",
    ),
    (
        &[
            (FIRST_FORMAT, 1, &[]),
            (
                "DELETE FROM ops",
                1,
                &[Line::SaveFirst, Line::SaveRest, Line::Load],
            ),
        ],
        "ok\nok\n1.1 group\n1.2 group\n1.3 group\n",
    ),
];

#[test]
fn keeps_in_a_database(rt: HostRuntime) -> Result<(), Fail> {
    for (visits, wanted) in &HISTORIES {
        let said = said_of(rt.alloc(), visits)?;
        check(&rt, said, "", wanted);
    }
    Ok(())
}
