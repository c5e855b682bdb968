// Values from outside, and calls that take memory, of which no clause can say that they succeed.
use nl_base::{
    BoxedList, Ident, InlineList, Int, OptionalIdent, OptionalInt, OptionalText, Place, PropValue,
    Range, Reason, Refusal, Rule, Seq, Text, fold_eq, is_identifier, spell_u64, split_range,
};
use std::test::Fail;

#[test]
fn texts_and_lists_take_memory(rt: HostRuntime) -> Result<(), Fail> {
    let cell = Text::copy(rt.alloc(), b"top")?;
    assert_eq!(rt; cell.bytes(), b"top".as_slice());
    assert_eq!(rt; cell.len(), 3);
    assert!(rt; !cell.is_empty());
    let mut names = Seq::empty(rt.alloc());
    assert!(rt; names.is_empty());
    names.push(Text::copy(rt.alloc(), b"size")?)?;
    names.push(Text::of(rt.alloc(), [112, 95, 120].to_vec(rt.alloc())?)?)?;
    assert_eq!(rt; names.len(), 2);
    let refusal = Refusal {
        rule: Rule::E12,
        cell,
        names,
    };
    assert_eq!(rt; refusal.rule.name(), b"E12".as_slice());
    assert_eq!(rt; refusal.rule.number(), 11);
    let texts = refusal.names.into_vec();
    assert_eq!(rt; texts.len(), 2);
    assert_eq!(rt; texts[1].bytes(), b"p_x".as_slice());
    let numbers = Seq::of([1u32, 2].to_vec(rt.alloc())?);
    assert_eq!(rt; numbers.items(), [1, 2].as_slice());
    Ok(())
}

#[test]
fn lists_of_few(rt: HostRuntime) -> Result<(), Fail> {
    let mut inline = InlineList::empty();
    let mut boxed = BoxedList::empty();
    for want in [
        [].as_slice(),
        &[1],
        &[1, 2],
        &[1, 2, 3],
        &[1, 2, 3, 4],
        &[1, 2, 3, 4, 5],
    ] {
        if let [.., last] = want {
            inline.push(rt.alloc(), *last)?;
            boxed.push(rt.alloc(), *last)?;
        }
        assert_eq!(rt; inline.items(), want);
        assert_eq!(rt; boxed.items(), want);
        assert_eq!(rt; inline.len(), want.len());
        assert_eq!(rt; boxed.len(), want.len());
        assert_eq!(rt; inline.is_empty(), want.is_empty());
        assert_eq!(rt; boxed.is_empty(), want.is_empty());
    }
    assert_eq!(rt; InlineList::one(7u32).items(), [7].as_slice());
    Ok(())
}

#[test]
fn values_left_out(rt: HostRuntime) -> Result<(), Fail> {
    assert!(rt; OptionalText::none().bytes().is_none());
    assert!(rt; !OptionalText::none().is_some());
    assert!(rt; OptionalIdent::none().bytes().is_none());
    for bytes in [b"".as_slice(), b"a", b"fourteen_bytes", b"fifteen_bytes__"] {
        let text = OptionalText::some(Text::copy(rt.alloc(), bytes)?);
        assert!(rt; text.is_some());
        assert_eq!(rt; text.bytes(), Some(bytes));
    }
    let ident = Ident::check(Text::copy(rt.alloc(), b"q_reg")?)
        .ok()
        .ok_or("an Ident")?;
    assert_eq!(rt;
        OptionalIdent::some(ident).bytes(),
        Some(b"q_reg".as_slice())
    );
    assert!(rt; OptionalInt::of(None).get().is_none());
    for number in [0, -1, i64::MAX, -i64::MAX] {
        let int = Int::check(number).ok_or("an Int")?;
        let kept = OptionalInt::of(Some(int)).get().ok_or("a number")?;
        assert_eq!(rt; kept.value(), number);
    }
    Ok(())
}

#[test]
fn identifiers(rt: HostRuntime) -> Result<(), Fail> {
    for (bytes, want) in [
        (b"q_reg_0_".as_slice(), true),
        (b"Z", true),
        (b"&_1", true),
        (b"&4x", true),
        (b"&", false),
        (b"_a", false),
        (b"4x", false),
        (b"a&", false),
        (b"a b", false),
        (b"", false),
    ] {
        assert_eq!(rt; is_identifier(bytes), want);
    }
    let longest = vec![in rt.alloc(); b'a'; 1024]?;
    match Ident::check(Text::of(rt.alloc(), longest)?) {
        Ok(ident) => assert_eq!(rt; ident.bytes().len(), 1024),
        Err(_) => assert!(rt; false),
    }
    let longer = vec![in rt.alloc(); b'a'; 1025]?;
    match Ident::check(Text::of(rt.alloc(), longer)?) {
        Ok(_) => assert!(rt; false),
        Err(text) => assert_eq!(rt; text.len(), 1025),
    }
    Ok(())
}

#[test]
fn numbers_are_spelled(rt: HostRuntime) -> Result<(), Fail> {
    let mut out = [b'.'; 24];
    for (number, want) in [
        (0, b"0.".as_slice()),
        (-7, b"-7."),
        (9223372036854775807, b"9223372036854775807."),
        (-9223372036854775807, b"-9223372036854775807."),
    ] {
        out = [b'.'; 24];
        let int = Int::check(number).ok_or("an Int")?;
        assert_eq!(rt; int.value(), number);
        let length = int.spell(&mut out);
        assert_eq!(rt; length + 1, want.len());
        assert_eq!(rt; &out[..length + 1], want);
    }
    assert!(rt; Int::check(i64::MIN).is_none());
    let length = spell_u64(u64::MAX, &mut out);
    assert_eq!(rt; &out[..length], b"18446744073709551615".as_slice());
    Ok(())
}

fn shown(found: Option<(usize, Range)>) -> Option<(usize, i32, i32)> {
    match found {
        None => None,
        Some((base, range)) => Some((base, range.left, range.right)),
    }
}

#[test]
fn range_forms(rt: HostRuntime) {
    for (text, size, want) in [
        (b"q[3:0]".as_slice(), 4, Some((1, 3, 0))),
        (b"D<0:7>", 8, Some((1, 0, 7))),
        (b"x(-1:1)", 3, Some((1, -1, 1))),
        (b"[0:0]", 1, Some((0, 0, 0))),
        (b"m[2][7:0]", 8, Some((4, 7, 0))),
        (b"m[1:0", 2, None),
        (
            b"a[2147483647:-2147483647]",
            4294967295,
            Some((1, 2147483647, -2147483647)),
        ),
        (b"a[2147483648:2147483648]", 1, None),
        (b"q[3:0]", 3, None),
        (b"q[3:0>", 4, None),
        (b"q[3:0]x", 4, None),
        (b"q[03:0]", 4, None),
        (b"q[+3:0]", 4, None),
        (b"q[1:-0]", 2, None),
        (b"q[3]", 1, None),
        (b"q", 1, None),
        (b"", 0, None),
    ] {
        assert_eq!(rt; shown(split_range(text, size)), want);
    }
}

#[test]
fn ranges_and_places(rt: HostRuntime) {
    let down = Range { left: 3, right: -1 };
    assert_eq!(rt; down.bits(), 5);
    assert_eq!(rt; down.index(4), -1);
    let up = Range { left: 2, right: 5 };
    assert_eq!(rt; up.bits(), 4);
    assert_eq!(rt; up.index(1), 3);
    let place = Place::start().past(b"ab\nc");
    assert!(rt;
        place
            == Place {
                offset: 4,
                line: 2,
                column: 2
            }
    );
    assert!(rt;
        Place::start().along(3).after(b'\n')
            == Place {
                offset: 4,
                line: 2,
                column: 1
            }
    );
}

#[test]
fn words(rt: HostRuntime) -> Result<(), Fail> {
    assert!(rt; fold_eq(b"EdifVersion", b"edifversioN"));
    assert!(rt; !fold_eq(b"[", b"{"));
    assert!(rt; !fold_eq(b"a", b"ab"));
    let reason = Reason::NotInProfile(Text::copy(rt.alloc(), b"always")?);
    assert_eq!(rt; reason.name(), b"NotInProfile".as_slice());
    assert_eq!(rt; reason.word(), Some(b"always".as_slice()));
    assert_eq!(rt; Reason::TooDeep.name(), b"TooDeep".as_slice());
    assert_eq!(rt; Reason::TooDeep.word(), None);
    let value = PropValue::Int(Int::signed(true, 7));
    match value {
        PropValue::Int(number) => assert_eq!(rt; number.value(), -7),
        _ => assert!(rt; false),
    }
    Ok(())
}
