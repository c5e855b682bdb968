// Worked literals. No clause says that memory is found.
use nl_base::Text;
use std::alloc::Global;
use std::test::Fail;
use vlog_values::{Bit, bits_of, literal_of};

fn letter(bit: Bit) -> u8 {
    match bit {
        Bit::Zero => b'0',
        Bit::One => b'1',
        Bit::X => b'x',
        Bit::Z => b'z',
    }
}

/// The bits of the literal of which the text is the normal spelling, or no text where there is none.
fn shown(alloc: Global, text: &[u8]) -> Result<Text, Fail> {
    let mut bits = Vec::new(alloc);
    if let Some(literal) = literal_of(alloc, text)? {
        let found = bits_of(alloc, &literal)?;
        for bit in found.items() {
            bits.push(letter(*bit))?;
        }
    }
    let text = Text::of(alloc, bits)?;
    Ok(text)
}

#[test]
fn bits_by_normal_spelling(rt: HostRuntime) -> Result<(), Fail> {
    for (text, bits) in [
        (b"6'hx".as_slice(), b"xxxxxx".as_slice()),
        (b"3'd9", b"001"),
        (b"4'o7", b"0111"),
        (b"2'hF", b"11"),
        (b"5'b1z", b"0001z"),
        (b"4'bz1", b"zzz1"),
        (b"4'sb10", b"0010"),
        (b"3'd?", b"zzz"),
        (b"2'd340282366920938463463374607431768211455", b"11"),
        (
            b"64'h0008",
            b"0000000000000000000000000000000000000000000000000000000000001000",
        ),
        (b"64'H00_08", b""),
        (b"64'h00_08", b""),
        (b"64'H0008", b""),
        (b"08'h1", b""),
        (b"0'h1", b""),
        (b"65537'h1", b""),
        (b"+8'h1", b""),
        (b"8'dxx", b""),
        (b"8'o8", b""),
        (b"8'h", b""),
        (b"'h1", b""),
        (b"2'd340282366920938463463374607431768211456", b""),
    ] {
        assert_eq!(rt; shown(rt.alloc(), text)?.bytes(), bits);
    }
    Ok(())
}
