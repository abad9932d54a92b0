//! What the words of the program say.
ghost use Rattle.std.specs.Prelude.{◌≡◌, ◌≤◌, Err, IfErr, IfOk, Some, codes, false, map};
ghost use Rattle.std.specs.Prelude.{string_bytes};
ghost use Rattle.clap.specs.Words.{HasKind, app_of, fault_of, first_value, found_of, rule_of};
ghost use Rattle.fl_words.specs.Words.{AreRight, SaysWorkers, dir_option, named_path, named_workers};
ghost use Rattle.fl_words.specs.Words.{path_of, program, workers_option};

use clap::builder::ValueParser;
use clap::error::ErrorKind;
use clap::{Arg, ArgMatches, Command, Error, arg};
use std::alloc::{AllocError, AllocGlobal, Global};

/// What help says below the options.
const AFTER_HELP: &str =
    "The script comes on standard input. Each line that has ended is answered on standard output before more is
read, so the program works at a terminal, in a pipe and as a co-process:

  flume-tags --dir nodes < script.tags

Without --dir all is gone when the input ends. A script has at most 16777216 bytes.

Statuses:
  0  every line was answered, none of them F15 or F19
  1  some line was none of the script (refused F19), and no keeper failed
  2  the words of the program were refused, or its help or version was asked for
  3  some keeper failed (refused F15), or a read, a write or memory failed, as standard error says

The guide is docs/GUIDE.md of the repository; docs/SCRIPT.md has all lines, docs/REFUSALS.md all refusals.";

/// Where the nodes of a run are kept.
#[derive(Clone, Copy, Debug, PartialEq, Eq)]
pub enum Place<'a> {
    /// Nowhere: all is gone when the input ends.
    Memory,
    /// In the files of this directory.
    Directory(&'a str),
}

/// What the words of the program ask for.
#[derive(Clone, Copy, Debug, PartialEq, Eq)]
pub struct Settings<'a> {
    /// How many workers each node has. With none its calls are made one after another.
    pub workers: u8,
    pub place: Place<'a>,
}

/// Why the words of the program ask for nothing.
#[derive(Clone, Copy, Debug, PartialEq, Eq)]
pub enum WordsFault {
    /// They are not the program's, or ask for its help or version. Their text was printed.
    Refused,
    /// There was no memory to read them.
    Memory,
}

/// The status of a program whose words were refused, or were asked for help or the version.
pub const BAD_WORDS: u8 = 2;

/// The most workers of a node.
const MOST_WORKERS: u8 = 16;

/// The option of how many workers each node has.
fn workers_option<'a>(alloc: Global) -> Arg<'a>
    ensures rule { rule_of result ≡ workers_option }
    ensures local { result.global ≡ false }
{
    let workers =
        arg!(in alloc; --workers <W> "Serve each node by so many workers at once, 0 to 16; without it by none");
    workers.value_parser(ValueParser::Unsigned(0, MOST_WORKERS as u64))
}

/// The option of where nodes are kept.
fn dir_option<'a>(alloc: Global) -> Arg<'a>
    ensures rule { rule_of result ≡ dir_option }
    ensures local { result.global ≡ false }
{
    let dir =
        arg!(in alloc; --dir <PATH> "Keep node n in the file node-n.db of this directory, which has to be there");
    // the files of an empty path would be those of the root
    dir.value_parser(ValueParser::NonEmptyString)
}

/// The program, with its options.
fn command<'a>(alloc: Global) -> Result<Command<'a>, AllocError>
    ensures { IfOk result (λ command. app_of command ≡ program) }
{
    Command::new(alloc, "flume-tags")
        .bin_name("flume-tags")?
        .version("0.1.0")
        .about("Answers a script of tags, labels and questions")
        .after_help(AFTER_HELP)
        .arg(workers_option(alloc))?
        .arg(dir_option(alloc))
}

/// What the parser finds in the words.
fn parsed<'a>(alloc: Global, words: &'a [String]) -> Result<ArgMatches<'a>, Error>
    ensures dir { IfOk result (λ matches. first_value (found_of matches) (codes "dir")
        ≡ named_path (map string_bytes words.entry.now)) }
    ensures workers { IfOk result (λ matches. first_value (found_of matches) (codes "workers")
        ≡ named_workers (map string_bytes words.entry.now)) }
    ensures right { IfOk result (λ _. AreRight (map string_bytes words.entry.now)) }
    ensures fault { IfErr result
        (HasKind (fault_of program (map string_bytes words.entry.now))) }
{
    command(alloc)?.try_get_matches_from(words)
}

// Where the words have the nodes be kept.
fn place_in<'a>(matches: &ArgMatches<'a>) -> Place<'a>
    ensures { path_of result ≡ first_value (found_of matches.now) (codes "dir") }
{
    match matches.get_str("dir") {
        Some(dir) => Place::Directory(dir),
        None => Place::Memory,
    }
}

// How many workers the text says. The parser has refused one that spells no number up to 16.
fn workers_from(text: &str) -> u8
    ensures few { result ≤ 16 }
    ensures says { SaysWorkers (Some text.now) result }
{
    match text.parse::<u8>() {
        Ok(workers) if workers <= MOST_WORKERS => workers,
        _ => 0,
    }
}

// How many workers the words ask for.
fn workers_in(matches: &ArgMatches) -> u8
    ensures few { result ≤ 16 }
    ensures says { SaysWorkers (first_value (found_of matches.now) (codes "workers")) result }
{
    match matches.get_str("workers") {
        Some(text) => workers_from(text),
        None => 0,
    }
}

/// Reads the words of the program, of which the first is its own name: where its nodes are kept,
/// and how many workers each of them has.
///
/// - `Refused`: the words are not the program's, or ask for its help or version. The parser's text
///   was printed.
/// - `Memory`: there was not enough. Nothing was printed.
pub fn read_words<'a, RT: AllocGlobal + Print + Eprint>(
    rt: &RT,
    words: &'a [String],
) -> Result<Settings<'a>, WordsFault>
    ensures place { IfOk result (λ settings.
        path_of settings.place ≡ named_path (map string_bytes words.entry.now)) }
    ensures workers { IfOk result (λ settings.
        SaysWorkers (named_workers (map string_bytes words.entry.now)) settings.workers) }
    ensures few { IfOk result (λ settings. settings.workers ≤ 16) }
    ensures right { IfOk result (λ _. AreRight (map string_bytes words.entry.now)) }
    ensures refused { result ≡ Err WordsFault.Refused
        → ¬ AreRight (map string_bytes words.entry.now) }
{
    match parsed(rt.alloc(), words) {
        Ok(matches) => Ok(Settings {
            workers: workers_in(&matches),
            place: place_in(&matches),
        }),
        Err(error) if error.kind() == ErrorKind::OutOfMemory => Err(WordsFault::Memory),
        Err(error) => {
            let _ = error.print(rt);
            Err(WordsFault::Refused)
        }
    }
}
