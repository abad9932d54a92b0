//! Who has a capability, a line each. Writing takes no memory but the sink's. At a fault a front of
//! what waited and of the lines was written, and the sink may not be used again.
ghost use Rattle.std.specs.Prelude.{◌≡◌, length, OnErr};
ghost use Rattle.std.specs.List.{flat_map};
ghost use Rattle.fl_explanations.specs.Lines.{everybody_lines, group_line, lines_text, login_line, process_line, who_lines};
ghost use Rattle.fl_sink.specs.Sink.{Puts};

use crate::shown::write_head;
use crate::who::Who;
use fl_answers::text::{put_cap, put_name, put_pid, write_name};
use fl_chains::logins::Login;
use fl_labels::name::{Group, Name};
use fl_labels::pid::Pid;
use fl_sink::sink::{Sink, WriteFault};
use fl_sink::writer::Writer;

// The line of what gives it to everybody.
fn write_everybody<W: Writer>(
    everybody: Option<Name>,
    sink: &mut Sink,
    output: &mut W,
) -> Result<(), WriteFault>
    ensures puts { let text = flat_map (λ line. line) (everybody_lines everybody) in
        Puts (W.contents output.old) (W.contents output.new) sink.old text sink.new result }
    ensures cause { OnErr result (W.has_failed output.new) }
{
    match everybody {
        Some(name) => write_name(b"everybody ", name, sink, output),
        None => sink.put(output, b""),
    }
}

// The line of a process.
fn write_pid<W: Writer>(pid: Pid, sink: &mut Sink, output: &mut W) -> Result<(), WriteFault>
    ensures puts { let text = process_line pid in
        Puts (W.contents output.old) (W.contents output.new) sink.old text sink.new result }
    ensures cause { OnErr result (W.has_failed output.new) }
{
    put_pid(b"process ", pid, sink, output)?;
    sink.put(output, b"\n")
}

// A line for each process.
fn write_pids<W: Writer>(pids: &[Pid], sink: &mut Sink, output: &mut W) -> Result<(), WriteFault>
    ensures puts { let text = flat_map process_line pids.now in
        Puts (W.contents output.old) (W.contents output.new) sink.old text sink.new result }
    ensures cause { OnErr result (W.has_failed output.new) }
{
    for pid in pids {
        write_pid(*pid, sink, output)?;
    }
    Ok(())
}

// A line for each group.
fn write_groups<W: Writer>(
    groups: &[Group],
    sink: &mut Sink,
    output: &mut W,
) -> Result<(), WriteFault>
    ensures puts { let text = flat_map group_line groups.now in
        Puts (W.contents output.old) (W.contents output.new) sink.old text sink.new result }
    ensures cause { OnErr result (W.has_failed output.new) }
{
    for group in groups {
        write_name(b"group ", *group, sink, output)?;
    }
    Ok(())
}

// The line of a login.
fn write_login<W: Writer>(login: Login, sink: &mut Sink, output: &mut W) -> Result<(), WriteFault>
    ensures puts { let text = login_line login in
        Puts (W.contents output.old) (W.contents output.new) sink.old text sink.new result }
    ensures cause { OnErr result (W.has_failed output.new) }
{
    put_name(b"login ", login.name, sink, output)?;
    put_cap(b" ", login.cap, sink, output)?;
    sink.put(output, b"\n")
}

// A line for each login.
fn write_logins<W: Writer>(
    logins: &[Login],
    sink: &mut Sink,
    output: &mut W,
) -> Result<(), WriteFault>
    ensures puts { let text = flat_map login_line logins.now in
        Puts (W.contents output.old) (W.contents output.new) sink.old text sink.new result }
    ensures cause { OnErr result (W.has_failed output.new) }
{
    for login in logins {
        write_login(*login, sink, output)?;
    }
    Ok(())
}

// How many lines there are.
fn count_of(who: &Who) -> u128
    ensures { result ≡ length (who_lines who.now) }
{
    let everybody = match who.everybody {
        Some(_) => 1,
        None => 0,
    };
    let processes = who.processes.len() as u128;
    let groups = who.groups.len() as u128;
    let logins = who.logins.len() as u128;
    everybody + (processes + (groups + logins))
}

/// Puts who has a capability into the sink, behind `lines K`: `everybody 1.2` where an operation
/// gives it to everybody, `process p1.1.1` for each process, `group 1.4` for each group and
/// `login 1.5 *1.4` for each login. Costs a look at each.
pub fn write_who<W: Writer>(who: &Who, sink: &mut Sink, output: &mut W) -> Result<(), WriteFault>
    ensures puts { let text = lines_text (who_lines who.now) in
        Puts (W.contents output.old) (W.contents output.new) sink.old text sink.new result }
    ensures cause { OnErr result (W.has_failed output.new) }
{
    write_head(count_of(who), sink, output)?;
    write_everybody(who.everybody, sink, output)?;
    write_pids(&who.processes, sink, output)?;
    write_groups(&who.groups, sink, output)?;
    write_logins(&who.logins, sink, output)
}
