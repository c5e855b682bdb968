// Sources and sinks: what the streams of the standard library do behind them is no clause.
ghost use Rattle.std.specs.Prelude.{length, IsOk};
ghost use Rattle.nl_io.specs.Memory.{Accepts};

use nl_io::{CountSink, Failed, MemSink, MemSource, Sink, Source, StdSink, StdSource, put_all};
use std::io::{Error, ErrorKind, Read, Write};
use std::test::Fail;

/// Into enough room, and with no failure to come, all bytes go.
fn put_into_room(sink: &mut MemSink, bytes: &[u8]) -> Result<(), Failed>
    requires { Accepts sink.old (length bytes.now) }
    ensures { IsOk result }
{
    let result = put_all(sink, bytes);
    result
}

/// A reader that fails at its second call.
#[derive(Drop)]
struct Stumbling<'a> {
    rest: &'a [u8],
    calls: u8,
}

impl Read for Stumbling<'_> {
    fn read(&mut self, buf: &mut [u8]) -> std::io::Result<usize> {
        self.calls = self.calls.saturating_add(1);
        if self.calls == 2 {
            return Err(Error::from(ErrorKind::Other));
        }
        self.rest.read(buf)
    }
}

/// A writer that takes two bytes at a time, none at its second call, and fails at its third.
#[derive(Drop)]
struct Halting<'a> {
    taken: &'a mut Vec<u8>,
    calls: u8,
}

impl Write for Halting<'_> {
    fn write(&mut self, buf: &[u8]) -> std::io::Result<usize> {
        self.calls = self.calls.saturating_add(1);
        match self.calls {
            2 => Ok(0),
            3 => Err(Error::from(ErrorKind::Other)),
            _ => self.taken.write(&buf[..buf.len().min(2)]),
        }
    }

    fn flush(&mut self) -> std::io::Result<()> {
        Ok(())
    }
}

/// Whether each take in turn, into a buffer of two bytes, answers and leaves in it what its row says.
fn takes<S: Source>(source: &mut S, rows: &[(Result<usize, Failed>, [u8; 2])]) -> bool {
    let mut buf = [0; 2];
    for (answer, left) in rows {
        if source.take(&mut buf) != *answer || buf != *left {
            return false;
        }
    }
    true
}

#[test]
fn sources_give_pieces(rt: HostRuntime) -> Result<(), Fail> {
    let alloc = rt.alloc();
    let pieces = vec![in alloc;
        vec![in alloc; 1, 2, 3]?,
        Vec::new(alloc),
        vec![in alloc; 4]?,
    ]?;
    let mut source = MemSource::new(pieces, vec![in alloc; 2]?);
    let rows = [
        (Ok(2), [1, 2]),
        (Err(Failed), [1, 2]),
        (Ok(1), [3, 2]),
        (Ok(1), [4, 2]),
        (Ok(0), [4, 2]),
    ];
    assert!(rt; takes(&mut source, &rows));
    assert_eq!(rt; source.given(), 4);
    let mut standard = StdSource::new(Stumbling {
        rest: b"abc",
        calls: 0,
    });
    let rows = [
        (Ok(2), *b"ab"),
        (Err(Failed), *b"ab"),
        (Ok(1), *b"cb"),
        (Ok(0), *b"cb"),
    ];
    assert!(rt; takes(&mut standard, &rows));
    Ok(())
}

#[test]
fn sink_fills_its_room(rt: HostRuntime) -> Result<(), Fail> {
    let alloc = rt.alloc();
    let mut sink = MemSink::new(vec![in alloc; 0; 4]?, vec![in alloc; 2]?);
    assert_eq!(rt; put_all(&mut sink, b"abc"), Ok(()));
    assert_eq!(rt; sink.put(b"d"), Err(Failed));
    assert_eq!(rt; put_all(&mut sink, b"de"), Err(Failed));
    assert_eq!(rt; sink.taken(), b"abcd".as_slice());
    let mut room = MemSink::new(vec![in alloc; 0; 4]?, Vec::new(alloc));
    assert_eq!(rt; put_into_room(&mut room, b"abcd"), Ok(()));
    assert_eq!(rt; room.taken(), b"abcd".as_slice());
    Ok(())
}

#[test]
fn sink_counts(rt: HostRuntime) {
    let mut sink = CountSink::new();
    assert_eq!(rt; put_all(&mut sink, b"hello"), Ok(()));
    assert_eq!(rt; put_all(&mut sink, b" you"), Ok(()));
    assert_eq!(rt; sink.total(), 9);
}

#[test]
fn writer_is_a_sink(rt: HostRuntime) {
    let mut taken = Vec::new(rt.alloc());
    let mut sink = StdSink::new(Halting {
        taken: &mut taken,
        calls: 0,
    });
    for answer in [Ok(2), Err(Failed), Err(Failed)] {
        assert_eq!(rt; sink.put(b"abc"), answer);
    }
    assert_eq!(rt; put_all(&mut sink, b"cdefg"), Ok(()));
    assert_eq!(rt; taken.as_slice(), b"abcdefg".as_slice());
}
