// Bytes that are read in pieces, and the classes of bytes: that memory is found is no clause.
use nl_bytes::{Bytes, Class, Halt};
use nl_io::MemSource;
use std::test::Fail;

#[test]
fn reads_through_pieces(rt: HostRuntime) -> Result<(), Fail> {
    let alloc = rt.alloc();
    let pieces = vec![in alloc;
        Vec::from_slice(alloc, b"ab")?,
        Vec::from_slice(alloc, b"c \n")?,
        Vec::from_slice(alloc, b"\t12")?,
    ]?;
    let mut source = MemSource::new(pieces, vec![in alloc; 2]?);
    let mut bytes = Bytes::new(alloc)?;
    let mut word = Vec::new(alloc);
    let first = bytes.peek(&mut source);
    assert!(rt; matches!(first, Ok(Some(b'a'))));
    let stopped = bytes.run(Class::WordByte, 10, &mut word, &mut source);
    assert!(rt; matches!(stopped, Err(Halt::Failed)));
    let after = bytes.run(Class::WordByte, 10, &mut word, &mut source);
    assert!(rt; matches!(after, Ok(Some(b' '))));
    assert_eq!(rt; word.as_slice(), b"abc".as_slice());
    assert_eq!(rt; bytes.held(), b" \n".as_slice());
    let digit = bytes.skip(Class::Space, &mut source);
    assert!(rt; matches!(digit, Ok(Some(b'1'))));
    let place = bytes.place();
    assert_eq!(rt; (place.offset, place.line, place.column), (6, 2, 2));
    let most = bytes.run(Class::Digit, 1, &mut word, &mut source);
    assert!(rt; matches!(most, Ok(Some(b'2'))));
    let end = bytes.skip(Class::Digit, &mut source);
    assert!(rt; matches!(end, Ok(None)));
    Ok(())
}

#[test]
fn classes_have_their_bytes(rt: HostRuntime) {
    for (class, inside, outside) in [
        (
            Class::Space,
            b"\t\n\r ".as_slice(),
            b"\x0c\x0b\x00a".as_slice(),
        ),
        (Class::Digit, b"059", b"/:a"),
        (Class::WordByte, b"azAZ09_", b"&$-\xe4"),
        (Class::StringByte, b" \n!#$&~\x80\xff", b"\"%\x00\x0c\x7f"),
        (Class::VerilogSpace, b"\t\n\x0c\r ", b"\x0b/"),
        (Class::NameByte, b"azAZ09_$", b"\\.-"),
        (Class::NumberByte, b"09_", b"a?."),
        (Class::BasedByte, b"09afAFxXzZ_?", b"'$ "),
        (Class::Graphic, b"!~[]", b" \x7f\x80"),
        (Class::VerilogStringByte, b"\t %~\xff", b"\"\\\n\r"),
        (Class::LineByte, b"\x00\r\xff", b"\n"),
        (Class::CommentByte, b"/\n", b"*"),
    ] {
        assert_eq!(rt; class.front(inside), inside.len());
        for byte in outside {
            assert!(rt; !class.contains(*byte), "byte {byte}");
        }
    }
}
