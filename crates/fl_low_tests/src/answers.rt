//! Tests of the text of refusals, also of those that no script comes to.
use fl_answers::text::{write_dropped, write_refusal, write_sent};
use fl_jobs::answer::Refusal;
use fl_labels::cap::Cap;
use fl_labels::endpoint::Endpoint;
use fl_labels::name::Name;
use fl_labels::pid::Pid;
use fl_sink::sink::{Sink, WriteFault};
use std::alloc::Global;

const NAME: Name = Name { node: 1, seq: 4 };

const PID: Pid = Pid {
    node: 1,
    boot: 2,
    serial: 3,
};

const ENDPOINT: Endpoint = Endpoint { number: 64 };

const ROWS: [(Refusal, &str); 19] = [
    (Refusal::NoProcess(PID), "refused F1 p1.2.3\n"),
    (Refusal::NoEndpoint(ENDPOINT), "refused F2 e64\n"),
    (Refusal::MissingCap(Cap::Plus(NAME)), "refused F3 +1.4\n"),
    (
        Refusal::UnsafeEndpoint(ENDPOINT, NAME),
        "refused F4 e64 1.4\n",
    ),
    (Refusal::EndpointsFull, "refused F5\n"),
    (Refusal::NotWritable(ENDPOINT), "refused F6 e64\n"),
    (Refusal::NotReadable(ENDPOINT), "refused F7 e64\n"),
    (Refusal::Secrecy(NAME), "refused F8 1.4\n"),
    (Refusal::Integrity(NAME), "refused F9 1.4\n"),
    (Refusal::NoLogin(NAME), "refused F10 1.4\n"),
    (Refusal::WrongSecret, "refused F11\n"),
    (Refusal::NamesSpent, "refused F12\n"),
    (Refusal::LabelTooLong, "refused F13\n"),
    (Refusal::Memory, "refused F14\n"),
    (Refusal::NotOwned(Cap::Grow(NAME)), "refused F22 ^1.4\n"),
    (Refusal::InboxFull, "refused F23\n"),
    (Refusal::Busy, "refused F24\n"),
    (Refusal::Integrity(NAME), "dropped F9 1.4\n"),
    (Refusal::Memory, "dropped F14\n"),
];

// Whether the refusal is written as this text, which says of a message that it is dropped.
fn is_written(alloc: Global, refusal: Refusal, text: &str) -> Result<bool, WriteFault> {
    let mut sink = Sink::new(alloc);
    let mut output = Vec::new(alloc);
    put(refusal, text, &mut sink, &mut output)?;
    Ok(output.as_slice() == text.as_bytes())
}

fn put(
    refusal: Refusal,
    text: &str,
    sink: &mut Sink,
    output: &mut Vec<u8>,
) -> Result<(), WriteFault> {
    if text.starts_with('d') {
        write_dropped(refusal, sink, output)?;
    } else {
        write_refusal(refusal, sink, output)?;
    }
    sink.finish(output)
}

#[test]
fn refusals_are_written(rt: HostRuntime) -> Result<(), WriteFault> {
    for (refusal, text) in ROWS {
        assert!(rt; is_written(rt.alloc(), refusal, text)?, "{text}");
    }
    Ok(())
}

fn put_sent(sink: &mut Sink, output: &mut Vec<u8>) -> Result<(), WriteFault> {
    write_sent(10, sink, output)?;
    sink.finish(output)
}

#[test]
fn packets_are_counted(rt: HostRuntime) -> Result<(), WriteFault> {
    let mut sink = Sink::new(rt.alloc());
    let mut output = Vec::new(rt.alloc());
    put_sent(&mut sink, &mut output)?;
    assert!(rt; output.as_slice() == b"sent 10\n".as_slice());
    Ok(())
}
