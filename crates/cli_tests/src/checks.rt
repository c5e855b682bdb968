// The tests of `check` on EDIF.
use crate::netlist::Netlist;
use cli_runs::given::{Row, answers, first_wrong, text_of};
use cli_runs::texts::{
    BLINKER, CYCLE, NO_BIT, RECURSIVE, SEVERAL, SMALL, SPACED, UP_TO_CONTENTS, UP_TO_DESIGNS,
    WHOLE_ARRAY, WIDE, WITHOUT_DESIGN,
};
use std::alloc::Global;
use std::test::Fail;

/// Files that break a rule, or none.
const CHECKED: &[Row<'static>] = &[
    (&[b"check"], SMALL, 0, b"ok\n", b""),
    (&[b"check"], BLINKER, 0, b"ok\n", b""),
    (&[b"check"], WITHOUT_DESIGN, 2, b"", b"refused E1 \"\"\n"),
    (
        &[b"check"],
        RECURSIVE,
        2,
        b"",
        b"refused E13 \"top\" \"u\"\n",
    ),
    (
        &[b"check"],
        WIDE,
        2,
        b"",
        b"refused E12 \"top\" \"size\" \"p\"\n",
    ),
    (&[b"check"], CYCLE, 2, b"", b"refused E13 \"top\" \"u1\"\n"),
    (&[b"check"], SPACED, 0, b"ok\n", b""),
    (&[b"check"], SEVERAL, 2, b"", b"refused E6 \"top\" \"ab\"\n"),
    (
        &[b"check"],
        WHOLE_ARRAY,
        2,
        b"",
        b"refused E10 \"top\" \"na\" \"u\" \"D\"\n",
    ),
    (
        &[b"check"],
        NO_BIT,
        2,
        b"",
        b"refused E9 \"top\" \"na\" \"u\" \"D\" \"4\"\n",
    ),
    (&[b"check"], b"(edi", 1, b"", b"fault 1:2 UnknownWord edi\n"),
];

#[test]
fn files_are_checked(rt: HostRuntime) -> Result<(), Fail> {
    assert_eq!(rt; first_wrong::<Netlist>(rt.alloc(), CHECKED)?, None);
    Ok(())
}

/// Whether `check` on the file whose cell t has these contents and that ends with these designs puts this line on errors, or `ok` without one.
fn is_ruled(alloc: Global, contents: &[u8], designs: &[u8], line: &[u8]) -> Result<bool, Fail> {
    let text = text_of(
        alloc,
        &[UP_TO_CONTENTS, contents, UP_TO_DESIGNS, designs, b")"],
    )?;
    if line.is_empty() {
        return answers::<Netlist>(alloc, &[b"check"], text.as_slice(), 0, b"ok\n", b"");
    }
    answers::<Netlist>(alloc, &[b"check"], text.as_slice(), 2, b"", line)
}

/// The design whose top is the cell t.
const DESIGN: &[u8] = b"(design d(cellRef t(libraryRef w)))";

/// The contents of the cell t, the designs behind it, and the line of the rule that they break, if any.
const RULED: &[(&[u8], &[u8], &[u8])] = &[
    (
        b"(instance i(viewRef v(cellRef l)))(instance j(viewRef v(cellRef l)))(net n(joined(portRef p)(portRef p(instanceRef i))(portRef(member q 0)(instanceRef i))))",
        DESIGN,
        b"",
    ),
    (
        b"(instance i(viewRef v(cellRef l(libraryRef x))))",
        DESIGN,
        b"refused E2 \"t\" \"x\"\n",
    ),
    (
        b"(instance i(viewRef v(cellRef x)))",
        DESIGN,
        b"refused E3 \"t\" \"x\"\n",
    ),
    (
        b"(instance i(viewRef x(cellRef l)))",
        DESIGN,
        b"refused E4 \"t\" \"x\"\n",
    ),
    (
        b"(net n(joined))(net n(joined))",
        DESIGN,
        b"refused E5 \"t\" \"net\" \"n\"\n",
    ),
    (
        b"(instance ab(viewRef v(cellRef l)))(instance aB(viewRef v(cellRef l)))(net n(joined(portRef p(instanceRef AB))))",
        DESIGN,
        b"refused E6 \"t\" \"AB\"\n",
    ),
    (
        b"(net n(joined(portRef p(instanceRef x))))",
        DESIGN,
        b"refused E7 \"t\" \"n\" \"x\"\n",
    ),
    (
        b"(net n(joined(portRef x)))",
        DESIGN,
        b"refused E8 \"t\" \"n\" \"x\"\n",
    ),
    (
        b"(instance i(viewRef v(cellRef l)))(net n(joined(portRef(member q 2)(instanceRef i))))",
        DESIGN,
        b"refused E9 \"t\" \"n\" \"i\" \"q\" \"2\"\n",
    ),
    (
        b"(instance i(viewRef v(cellRef l)))(net n(joined(portRef q(instanceRef i))))",
        DESIGN,
        b"refused E10 \"t\" \"n\" \"i\" \"q\"\n",
    ),
    (
        b"(net n(joined(portRef p)))(net m(joined(portRef p)))",
        DESIGN,
        b"refused E11 \"t\" \"m\" \"p\"\n",
    ),
    (
        b"(instance(rename i \"x\")(viewRef v(cellRef l)))(instance(rename j \"x\")(viewRef v(cellRef l)))",
        DESIGN,
        b"refused E12 \"t\" \"instance\" \"x\"\n",
    ),
    (
        b"(instance i(viewRef v(cellRef l)))(instance j(viewRef v(cellRef t)))",
        DESIGN,
        b"refused E13 \"t\" \"j\"\n",
    ),
    (b"", b"(design d(cellRef l(libraryRef w)))", b""),
    (b"", b"", b"refused E1 \"\"\n"),
    (
        b"",
        b"(design d(cellRef t(libraryRef w)))(design e(cellRef t(libraryRef w)))",
        b"refused E1 \"\" \"e\"\n",
    ),
    (
        b"",
        b"(design d(cellRef t(libraryRef x)))",
        b"refused E2 \"\" \"x\"\n",
    ),
];

#[test]
fn rules_are_checked(rt: HostRuntime) -> Result<(), Fail> {
    for (contents, designs, line) in RULED {
        assert_eq!(rt; is_ruled(rt.alloc(), contents, designs, line)?, true);
    }
    Ok(())
}
