//! `flume-node`: the node of one machine, served line by line on standard streams.
#![tactic(auto)]

ghost use Rattle.std.specs.Prelude.{◌<◌};

use fl_keys::host::keys_in_files;
use fl_labels::name::NodeNumber;
use fl_machine::run::run;
use fl_machine::session::Session;
use fl_node_files::fault::of_refused;
use fl_node_files::host::{keeper_in, make_in};
use fl_node_files::standard::{close_keeper, status_at_end, tell_unserved};
use fl_node_words::words::{BAD_WORDS, Settings, WordsFault, read_words};
use fl_seal::seal::Key;
use fl_stream::fault::RunFault;
use std::process::ExitCode;
use std::{env, io};

/// Serves the node that is kept in the directory, on standard streams, and gives the status.
fn serve(
    rt: &HostRuntime,
    dir: &str,
    number: NodeNumber,
    keys: Vec<Key>,
    guards: bool,
) -> Result<u8, RunFault>
    requires { 0 < number }
{
    let keeper = match keeper_in(rt, dir, number) {
        Ok(keeper) => keeper,
        Err(why) => return Ok(tell_unserved(rt, dir, number, &why)),
    };
    let session = match Session::open(rt.alloc(), keeper, number, keys, guards) {
        Ok(session) => session,
        Err((fault, keeper)) => {
            let why = of_refused(fault, keeper.why());
            return Ok(tell_unserved(rt, dir, number, &why));
        }
    };
    let mut input = rt.reader();
    let mut output = io::writer(rt);
    let (session, ended) = run(rt, session, &mut input, &mut output);
    close_keeper(rt, dir, number, session.into_keeper());
    ended
}

/// Makes the node in the directory, and gives the status.
fn make(rt: &HostRuntime, dir: &str, number: NodeNumber) -> u8 {
    match make_in(rt, dir, number) {
        Ok(()) => 0,
        Err(why) => tell_unserved(rt, dir, number, &why),
    }
}

/// Does what the words ask for, and gives the status. The files of keys are read first.
fn answered(rt: &HostRuntime) -> Result<u8, RunFault> {
    let words = env::args(rt).map_err(|_| RunFault::Memory)?;
    let words: Vec<String> = words.collect(rt.alloc()).map_err(|_| RunFault::Memory)?;
    let settings = match read_words(rt, &words) {
        Ok(settings) => settings,
        Err(WordsFault::Shown) => return Ok(0),
        Err(WordsFault::Refused) => return Ok(BAD_WORDS),
        Err(WordsFault::Memory) => return Err(RunFault::Memory),
    };
    let Settings {
        node,
        dir,
        keys,
        is_new,
        guards_orders,
    } = settings;
    match keys_in_files(rt, &keys) {
        Ok(_) if is_new => Ok(make(rt, dir, node)),
        Ok(keys) => serve(rt, dir, node, keys, guards_orders),
        Err(status) => Ok(status),
    }
}

fn main(rt: HostRuntime) -> ExitCode {
    let ended = answered(&rt);
    ExitCode::from(status_at_end(&rt, ended))
}
