//! What the words of the program say.
ghost use Rattle.std.specs.Prelude.{◌≡◌, ◌≤◌, ◌↔◌, Err, IfErr, IfOk, IsFalse, IsTrue, Some, codes};
ghost use Rattle.std.specs.Prelude.{false, map, string_bytes};
ghost use Rattle.std.specs.List.{All};
ghost use Rattle.clap.specs.Walk.{texts};
ghost use Rattle.clap.specs.Words.{HasKind, IsUnsignedIn, app_of, fault_of, first_of, found_of};
ghost use Rattle.clap.specs.Words.{kind_of, matches_of, rows_of, rule_of};
ghost use Rattle.fl_node_words.specs.Words.{AreRight, AskForText, HasFlag, IsPath};
ghost use Rattle.fl_node_words.specs.Words.{IsWhole, SaysNode, UnguardOrders, WantNew, dir_option};
ghost use Rattle.fl_node_words.specs.Words.{fault_by, flag_named, key_option, keys_of, named_keys};
ghost use Rattle.fl_node_words.specs.Words.{named_node, named_path, node_option, program};

use clap::builder::ValueParser;
use clap::error::ErrorKind;
use clap::{Arg, ArgMatches, Command, Error, arg};
use fl_labels::name::NodeNumber;
use std::alloc::{AllocError, AllocGlobal, Global};

/// What help says below the options.
const AFTER_HELP: &str =
    "Lines come on standard input, each with the node's own number in front. Each is answered on standard
output, in order, before more is read: by one line, or by `lines N` and so many more. The first line is
a greeting:

  flume-node 1 node 2 boot 7 published 1204

Statuses:
  0  the input ended, and no line was refused F19; or help or the version was asked for
  1  the input ended, and some line was refused F19
  2  the words of the program were refused, or a file of a key
  3  the keeper failed (refused F15 is the last answer), the node is in use, or a read, a write or memory
     failed: start it again
  4  the directory is not what was said: do not start it again before a person has looked

With --unguarded-orders, orders of a process that may let nothing out are not held back, so that what it
knows can get out by them.";

/// What the words of the program ask for.
#[derive(Debug, Drop, PartialEq, Eq)]
pub struct Settings<'a> {
    /// The node's number.
    pub node: NodeNumber,
    /// The directory in which it is kept.
    pub dir: &'a str,
    /// The files of its keys. The first seals what it sends, and each opens what comes.
    pub keys: Vec<&'a str>,
    /// Whether it is to be made, and not served.
    pub is_new: bool,
    /// Whether orders of a process that may let nothing out are held back.
    pub guards_orders: bool,
}

/// Why the words of the program ask for nothing.
#[derive(Clone, Copy, Debug, PartialEq, Eq)]
pub enum WordsFault {
    /// They ask for help or the version. That was printed on standard output.
    Shown,
    /// They are not the program's. Why was printed on standard error.
    Refused,
    /// There was no memory to read them.
    Memory,
}

/// The status of a program whose words were refused.
pub const BAD_WORDS: u8 = 2;

/// The option of the node's number.
fn node_option<'a>(alloc: Global) -> Arg<'a>
    ensures rule { rule_of result ≡ node_option }
    ensures local { result.global ≡ false }
{
    let node =
        arg!(in alloc; --node <N> "The number of the node, 1 to 4294967295, which no other machine has, nor ever had");
    node.required(true)
        .value_parser(ValueParser::Unsigned(1, NodeNumber::MAX as u64))
}

/// The option of where it is kept.
fn dir_option<'a>(alloc: Global) -> Arg<'a>
    ensures rule { rule_of result ≡ dir_option }
    ensures local { result.global ≡ false }
{
    let dir =
        arg!(in alloc; --dir <PATH> "The directory in which it is kept, which has to be there");
    // the files of an empty path would be those of the root
    dir.required(true).value_parser(ValueParser::NonEmptyString)
}

/// The option of the files of its keys.
fn key_option<'a>(alloc: Global) -> Arg<'a>
    ensures rule { rule_of result ≡ key_option }
    ensures local { result.global ≡ false }
{
    let key =
        arg!(in alloc; --key <FILE> ... "A file of a key, any number of times: the first seals what is sent, each opens what comes");
    key.value_parser(ValueParser::NonEmptyString)
}

/// The flag that lets orders go that are held back without it.
fn unguarded_flag<'a>(alloc: Global) -> Arg<'a>
    ensures rule { rule_of result ≡ flag_named (codes "unguarded-orders") }
    ensures local { result.global ≡ false }
{
    arg!(in alloc; --"unguarded-orders" "Hold back no order of a process that may let nothing out")
}

/// The flag that has the node be made.
fn new_flag<'a>(alloc: Global) -> Arg<'a>
    ensures rule { rule_of result ≡ flag_named (codes "new") }
    ensures local { result.global ≡ false }
{
    arg!(in alloc; --new "Make the node's files, which must not be there, and end")
}

/// The program, with its options.
fn command<'a>(alloc: Global) -> Result<Command<'a>, AllocError>
    ensures { IfOk result (λ command. app_of command ≡ program) }
{
    Command::new(alloc, "flume-node")
        .bin_name("flume-node")?
        .version("0.1.0")
        .about("Serves the node of one machine")
        .after_help(AFTER_HELP)
        .arg(node_option(alloc))?
        .arg(dir_option(alloc))?
        .arg(key_option(alloc))?
        .arg(unguarded_flag(alloc))?
        .arg(new_flag(alloc))
}

/// What the parser finds in the words.
fn parsed<'a>(alloc: Global, words: &'a [String]) -> Result<ArgMatches<'a>, Error>
    ensures rows { IfOk result (λ matches. rows_of (found_of matches)
        ≡ matches_of program (map string_bytes words.entry.now)) }
    ensures whole { IfOk result (λ matches. IsWhole (rows_of (found_of matches))) }
    ensures right { IfOk result (λ _. AreRight (map string_bytes words.entry.now)) }
    ensures fault { IfErr result
        (HasKind (fault_of program (map string_bytes words.entry.now))) }
{
    command(alloc)?.try_get_matches_from(words)
}

// The number that the text of `--node` spells.
fn node_from(text: &str) -> NodeNumber
    requires { IsUnsignedIn 1 4294967295 text.now }
    ensures { SaysNode (Some text.now) result }
{
    match text.parse::<NodeNumber>() {
        Ok(node) => node,
        Err(_) => unreachable!("the parser took it"),
    }
}

// The number of the node.
fn node_in(matches: &ArgMatches) -> NodeNumber
    requires { IsWhole (rows_of (found_of matches.now)) }
    ensures { SaysNode (first_of (codes "node") (rows_of (found_of matches.now))) result }
{
    match matches.get_str("node") {
        Some(text) => node_from(text),
        None => unreachable!("it is required"),
    }
}

// Where it is kept.
fn dir_in<'a>(matches: &ArgMatches<'a>) -> &'a str
    requires { IsWhole (rows_of (found_of matches.now)) }
    ensures named { first_of (codes "dir") (rows_of (found_of matches.now)) ≡ Some result.now }
    ensures path { IsPath result.now }
{
    match matches.get_str("dir") {
        Some(dir) => dir,
        None => unreachable!("it is required"),
    }
}

// The files of its keys, in the order of the words.
fn keys_in<'a>(alloc: Global, matches: &ArgMatches<'a>) -> Result<Vec<&'a str>, AllocError>
    ensures { IfOk result (λ keys. texts keys.items ≡ keys_of (rows_of (found_of matches.now))) }
{
    match matches.get_strs("key") {
        Some(keys) => Vec::from_slice(alloc, keys),
        None => Ok(Vec::new(alloc)),
    }
}

// Whether the words have the flag.
fn has_flag(matches: &ArgMatches, flag: &str) -> bool
    ensures { IsTrue result ↔ HasFlag flag.now (rows_of (found_of matches.now)) }
{
    match matches.get_str(flag) {
        Some(value) => value == "true",
        None => false,
    }
}

// What the words ask for, by what the parser found in them.
fn settings_in<'a>(alloc: Global, matches: &ArgMatches<'a>) -> Result<Settings<'a>, AllocError>
    requires { IsWhole (rows_of (found_of matches.now)) }
    ensures node { IfOk result (λ settings.
        SaysNode (first_of (codes "node") (rows_of (found_of matches.now))) settings.node) }
    ensures dir { IfOk result (λ settings.
        first_of (codes "dir") (rows_of (found_of matches.now)) ≡ Some settings.dir.now) }
    ensures keys { IfOk result (λ settings.
        texts settings.keys.items ≡ keys_of (rows_of (found_of matches.now))) }
    ensures new { IfOk result (λ settings. IsTrue settings.is_new
        ↔ HasFlag (codes "new") (rows_of (found_of matches.now))) }
    ensures guards { IfOk result (λ settings. IsFalse settings.guards_orders
        ↔ HasFlag (codes "unguarded-orders") (rows_of (found_of matches.now))) }
    ensures paths { IfOk result (λ settings.
        IsPath settings.dir.now × All IsPath (texts settings.keys.items)) }
{
    Ok(Settings {
        node: node_in(matches),
        dir: dir_in(matches),
        keys: keys_in(alloc, matches)?,
        is_new: has_flag(matches, "new"),
        guards_orders: !has_flag(matches, "unguarded-orders"),
    })
}

// What the parser says first of what is wrong, in one line: how the words are used comes behind an
// empty line, and is told by help.
fn in_one_line(alloc: Global, error: &Error) -> Result<String, AllocError> {
    let text = format!(in alloc; "{error}")?;
    let mut line = String::new(alloc);
    for part in text.lines() {
        if part.is_empty() {
            break;
        }
        for word in part.split_whitespace() {
            line.push(' ')?;
            line.push_str(word)?;
        }
    }
    Ok(line)
}

// Says on standard error, in one line, why the words are refused.
fn tell_refused<RT: AllocGlobal + Eprint>(rt: &RT, error: &Error) {
    let _ = match in_one_line(rt.alloc(), error) {
        Ok(line) => eprintln!(rt; "flume-node:{line}"),
        Err(_) => eprintln!(rt; "flume-node: its words are refused"),
    };
}

// Which fault it is for which the parser found nothing.
fn fault_in(error: &Error) -> WordsFault
    ensures { result ≡ fault_by (kind_of error.now) }
{
    match error.kind() {
        ErrorKind::OutOfMemory => WordsFault::Memory,
        ErrorKind::DisplayHelp | ErrorKind::DisplayVersion => WordsFault::Shown,
        _ => WordsFault::Refused,
    }
}

// Tells the user what the parser says, and the caller which fault it is. Nothing is said where
// there was no memory.
fn told<RT: AllocGlobal + Print + Eprint>(rt: &RT, error: &Error) -> WordsFault
    ensures { result ≡ fault_by (kind_of error.now) }
{
    let fault = fault_in(error);
    match fault {
        WordsFault::Memory => {}
        WordsFault::Refused => tell_refused(rt, error),
        WordsFault::Shown => {
            let _ = error.print(rt);
        }
    }
    fault
}

/// Reads the words of the program, of which the first is its own name: which node it serves or
/// makes, where that is kept, the files of its keys in the order of the words, and whether it
/// guards its orders. The number is what the decimal digits behind `--node` spell, from 1 to
/// 4294967295; zeros or one `+` may stand before them, and no other sign. Memory is wanted for what
/// the parser finds, for its texts, and for the list of the keys.
///
/// - `Shown`: the words ask for the program's help or version. That was printed, to standard output.
/// - `Refused`: they are not the program's. Why was printed in one line, to standard error.
/// - `Memory`: there was not enough. Nothing was printed.
pub fn read_words<'a, RT: AllocGlobal + Print + Eprint>(
    rt: &RT,
    words: &'a [String],
) -> Result<Settings<'a>, WordsFault>
    ensures node { IfOk result (λ settings.
        SaysNode (named_node (map string_bytes words.entry.now)) settings.node) }
    ensures dir { IfOk result (λ settings.
        named_path (map string_bytes words.entry.now) ≡ Some settings.dir.now) }
    ensures keys { IfOk result (λ settings.
        texts settings.keys.items ≡ named_keys (map string_bytes words.entry.now)) }
    ensures new { IfOk result (λ settings. IsTrue settings.is_new
        ↔ WantNew (map string_bytes words.entry.now)) }
    ensures guards { IfOk result (λ settings. IsFalse settings.guards_orders
        ↔ UnguardOrders (map string_bytes words.entry.now)) }
    ensures numbered { IfOk result (λ settings. 1 ≤ settings.node) }
    ensures paths { IfOk result (λ settings.
        IsPath settings.dir.now × All IsPath (texts settings.keys.items)) }
    ensures right { IfOk result (λ _. AreRight (map string_bytes words.entry.now)) }
    ensures shown { result ≡ Err WordsFault.Shown
        → AskForText (map string_bytes words.entry.now) }
    ensures refused { result ≡ Err WordsFault.Refused
        → (¬ AreRight (map string_bytes words.entry.now))
        × (¬ AskForText (map string_bytes words.entry.now)) }
    ensures memory { AreRight (map string_bytes words.entry.now)
        → IfErr result (λ fault. fault ≡ WordsFault.Memory) }
{
    match parsed(rt.alloc(), words) {
        Ok(matches) => settings_in(rt.alloc(), &matches).map_err(|_| WordsFault::Memory),
        Err(error) => Err(told(rt, &error)),
    }
}
