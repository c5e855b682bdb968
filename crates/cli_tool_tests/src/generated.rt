// The tests of `generate`.
use crate::netlist::Netlist;
use cli_runs::given::{Given, USAGE, Wanted, ends_so, given_plainly};
use cli_runs::texts::SMALL;
use std::test::Fail;

const FORTY: &[u8] =
    b"generated 40 cells, 20 swapped, 549755813888 leaves, 4152 bytes of Verilog\n";

#[test]
fn lines_of_generated_files(rt: HostRuntime) -> Result<(), Fail> {
    let command = b"generate".as_slice();
    let most = b"18446744073709551615".as_slice();
    for (words, room, status, output, errors) in [
        (
            [command, b"7".as_slice(), b"40".as_slice()].as_slice(),
            100,
            0,
            FORTY,
            b"".as_slice(),
        ),
        (
            &[command, b"0", b"2"],
            100,
            0,
            b"generated 2 cells, 0 swapped, 2 leaves, 150 bytes of Verilog\n",
            b"",
        ),
        (
            &[command, b"0", b"65"],
            100,
            0,
            b"generated 65 cells, 24 swapped, 18446744073709551615 leaves, 6802 bytes of Verilog\n",
            b"",
        ),
        (
            &[command, most, b"3"],
            100,
            0,
            b"generated 3 cells, 2 swapped, 4 leaves, 253 bytes of Verilog\n",
            b"",
        ),
        (
            &[command, b"7", b"40"],
            10,
            4,
            b"generated ",
            b"write fault\n",
        ),
        (&[command], 100, 5, b"", USAGE),
        (&[command, b"7"], 100, 5, b"", USAGE),
        (&[command, b"7", b"1"], 100, 5, b"", USAGE),
        (&[command, b"7", b"100001"], 100, 5, b"", USAGE),
        (&[command, b"07", b"40"], 100, 5, b"", USAGE),
        (&[command, b"+7", b"40"], 100, 5, b"", USAGE),
        (&[command, b"", b"40"], 100, 5, b"", USAGE),
        (&[command, b"7\xff", b"40"], 100, 5, b"", USAGE),
        (&[command, b"7", b"40", b""], 100, 5, b"", USAGE),
        (
            &[command, b"18446744073709551616", b"40"],
            100,
            5,
            b"",
            USAGE,
        ),
    ] {
        let given = Given {
            room,
            ..given_plainly(words, SMALL)
        };
        let wanted = Wanted {
            status,
            output,
            errors,
            taken: 0,
        };
        assert_eq!(rt; ends_so::<Netlist>(rt.alloc(), &given, &wanted)?, true);
    }
    Ok(())
}
