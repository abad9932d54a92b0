//! Tests of text in which aliases are replaced.
use fl_aliases::alias::Alias;
use fl_aliases::expand::expand;
use fl_aliases::table::Aliases;
use fl_aliases::target::Target;
use fl_labels::endpoint::Endpoint;
use fl_labels::name::Name;
use fl_labels::pid::Pid;
use std::alloc::{AllocError, Global};

fn process(serial: u32) -> Target {
    Target::Process(Pid {
        node: 1,
        boot: 2,
        serial: serial.max(1),
    })
}

const FIRST_GROUP: Target = Target::Operation(Name { node: 1, seq: 4 });

const LAST_ENDPOINT: Target = Target::Endpoint(Endpoint { number: 64 });

// Places the alias that the word spells, and answers whether it is new.
fn place(aliases: &mut Aliases, word: &str, target: Target) -> Result<bool, AllocError> {
    match Alias::from_word(word) {
        Some(alias) if !aliases.is_full() => aliases.place(alias, target),
        _ => Ok(false),
    }
}

// Some aliases: of each its word and what it stands for.
fn sample(alloc: Global) -> Result<Aliases, AllocError> {
    let mut aliases = Aliases::new(alloc);
    for (word, target) in [
        ("$a", process(1)),
        ("$ab", process(2)),
        ("$g", FIRST_GROUP),
        ("$e", LAST_ENDPOINT),
        ("$abcdefghijklmnopqrstuvwxyz_01234", process(3)),
    ] {
        place(&mut aliases, word, target)?;
    }
    Ok(aliases)
}

// A line, `=>`, and what it expands to.
const EXPANDED: &str = "\
=>
1 proc=>1 proc
1 group $a=>1 group p1.2.1
$ab$a=>p1.2.2p1.2.1
1 ask $a *$g=>1 ask p1.2.1 *1.4
{$g,1.5}=>{1.4,1.5}
1 close $a $e=>1 close p1.2.1 e64
\u{20ac} $a\u{e9}$gA=>\u{20ac} p1.2.1\u{e9}1.4A
$abcdefghijklmnopqrstuvwxyz_01234 =>p1.2.3 ";

// Expands a line behind what the buffer holds, and answers whether it has a dollar where it should.
fn is_expanded(
    aliases: &Aliases,
    line: &str,
    text: &str,
    buffer: &mut String,
) -> Result<bool, AllocError> {
    buffer.clear();
    buffer.push_str("before ")?;
    let is_whole = expand(aliases, line, buffer)?;
    Ok(is_whole && buffer.as_str().strip_prefix("before ") == Some(text))
}

#[test]
fn lines_expand(rt: HostRuntime) -> Result<(), AllocError> {
    let aliases = sample(rt.alloc())?;
    let mut buffer = String::new(rt.alloc());
    for row in EXPANDED.split('\n') {
        let (line, text) = row.split_once("=>").unwrap_or((row, "no row"));
        assert!(rt; is_expanded(&aliases, line, text, &mut buffer)?, "{row}");
    }
    Ok(())
}
