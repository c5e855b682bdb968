// A text that is put through a buffer into a sink with room, and into one that is full.
use nl_base::Int;
use nl_io::{Failed, MemSink, Sink};
use nl_output::Output;
use std::test::Fail;

/// A line of 4,105 bytes, through the buffer and past it.
fn write_line<O: Sink>(sink: &mut O) -> Result<(), Failed> {
    let mut output = Output::new();
    output.put(b"n = ", sink);
    if let Some(number) = Int::check(-42) {
        output.put_int(&number, sink);
    }
    output.put(&[b'.'; 4097], sink);
    output.put_u64(7, sink);
    let result = output.finish(sink);
    result
}

#[test]
fn whole_text_is_put(rt: HostRuntime) -> Result<(), Fail> {
    let alloc = rt.alloc();
    let mut sink = MemSink::new(vec![in alloc; 0; 5000]?, Vec::new(alloc));
    assert_eq!(rt; write_line(&mut sink), Ok(()));
    assert_eq!(rt; sink.taken().len(), 4105);
    let (front, rest) = sink.taken().split_at(8);
    assert_eq!(rt; front, b"n = -42.".as_slice());
    let (dots, end) = rest.split_at(4096);
    assert_eq!(rt; dots.iter().all(|byte| *byte == b'.'), true);
    assert_eq!(rt; end, b"7".as_slice());
    Ok(())
}

#[test]
fn full_sink_took_a_front(rt: HostRuntime) -> Result<(), Fail> {
    let alloc = rt.alloc();
    let mut sink = MemSink::new(vec![in alloc; 0; 6]?, Vec::new(alloc));
    assert_eq!(rt; write_line(&mut sink), Err(Failed));
    assert_eq!(rt; sink.taken(), b"n = -4".as_slice());
    Ok(())
}
