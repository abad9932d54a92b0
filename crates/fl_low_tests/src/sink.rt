//! Tests of the sink.
use fl_sink::sink::{Sink, WriteFault};
use std::io::{Result, Write};
use std::test::Fail;

/// Takes two bytes at a time while there is room, and then none.
#[derive(Drop)]
struct NarrowWriter {
    taken: Vec<u8>,
    room: usize,
}

impl Write for NarrowWriter {
    fn write(&mut self, buf: &[u8]) -> Result<usize> {
        let count = buf.len().min(self.room).min(2);
        self.taken.extend_from_slice(&buf[..count])?;
        self.room -= count;
        Ok(count)
    }

    fn flush(&mut self) -> Result<()> {
        Ok(())
    }
}

// How many bytes were written behind each of some pieces, and in the end.
fn pass(
    sink: &mut Sink,
    output: &mut Vec<u8>,
    long: &[u8],
) -> std::result::Result<[usize; 4], WriteFault> {
    sink.put(output, b"ok ")?;
    sink.put_all(output, &[b"1", b".", b"1\n"])?;
    let short = output.len();
    sink.put(output, long)?;
    let held = output.len();
    sink.put(output, b"end")?;
    let full = output.len();
    sink.finish(output)?;
    sink.finish(output)?;
    Ok([short, held, full, output.len()])
}

#[test]
fn bytes_pass_in_their_order(rt: HostRuntime) -> std::result::Result<(), Fail> {
    let long = vec![in rt.alloc(); b'-'; 70_000]?;
    let mut output = Vec::new(rt.alloc());
    let mut sink = Sink::new(rt.alloc());
    let lengths = pass(&mut sink, &mut output, &long)?;
    assert_eq!(rt; lengths, [0, 0, 70_007, 70_010]);
    assert!(rt; output.starts_with(b"ok 1.1\n--") && output.ends_with(b"--end"));
    Ok(())
}

#[test]
fn a_write_of_no_bytes_is_a_fault(rt: HostRuntime) -> std::result::Result<(), Fail> {
    let mut output = NarrowWriter {
        taken: Vec::new(rt.alloc()),
        room: 5,
    };
    let mut sink = Sink::new(rt.alloc());
    sink.put(&mut output, b"refused ")?;
    assert_eq!(rt; sink.finish(&mut output), Err(WriteFault));
    assert_eq!(rt; output.taken.as_slice(), b"refus".as_slice());
    Ok(())
}
