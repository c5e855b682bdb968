// The tests of inputs and outputs that fail, and of an input that does not end.
use crate::netlist::Netlist;
use cli_runs::blanks::Blanks;
use cli_runs::given::{Given, Wanted, ends_so, given_plainly, sink_of, wanted_of, words_of};
use cli_runs::texts::{BLINKER, BLINKER_MODULES, RECURSIVE, SMALL};
use netlist_cli::run::run;
use std::alloc::Global;
use std::test::Fail;

const READ_FAULT: &[u8] = b"read fault\n";

const WRITE_FAULT: &[u8] = b"write fault\n";

#[test]
fn each_take_may_fail(rt: HostRuntime) -> Result<(), Fail> {
    // The last take is the one that finds the end.
    for taken in 0..BLINKER.len() as u64 + 1 {
        let given = Given {
            whole: false,
            failing_take: taken + 1,
            ..given_plainly(&[b"to-verilog"], BLINKER)
        };
        let wanted = Wanted {
            status: 3,
            output: b"",
            errors: READ_FAULT,
            taken,
        };
        assert_eq!(rt; ends_so::<Netlist>(rt.alloc(), &given, &wanted)?, true);
    }
    Ok(())
}

#[test]
fn each_put_may_fail(rt: HostRuntime) -> Result<(), Fail> {
    for failing_put in 1..10 {
        let given = Given {
            failing_put,
            ..given_plainly(&[b"to-verilog"], BLINKER)
        };
        // The whole text is put at once, so that no run makes a second put.
        let wanted = if failing_put == 1 {
            wanted_of(&given, 4, b"", WRITE_FAULT)
        } else {
            wanted_of(&given, 0, BLINKER_MODULES, b"")
        };
        assert_eq!(rt; ends_so::<Netlist>(rt.alloc(), &given, &wanted)?, true);
    }
    Ok(())
}

#[test]
fn room_may_be_used_up_anywhere(rt: HostRuntime) -> Result<(), Fail> {
    for room in 0..BLINKER_MODULES.len() {
        let given = Given {
            room,
            ..given_plainly(&[b"to-verilog"], BLINKER)
        };
        let (front, _) = BLINKER_MODULES.split_at(room);
        let wanted = wanted_of(&given, 4, front, WRITE_FAULT);
        assert_eq!(rt; ends_so::<Netlist>(rt.alloc(), &given, &wanted)?, true);
    }
    Ok(())
}

#[test]
fn ends_may_fail(rt: HostRuntime) -> Result<(), Fail> {
    let small = given_plainly(&[b"format"], SMALL);
    let blinker = given_plainly(&[b"to-verilog"], BLINKER);
    for (given, status, output, errors, taken) in [
        (
            Given {
                whole: false,
                failing_take: 3,
                ..small
            },
            3,
            b"".as_slice(),
            READ_FAULT,
            2,
        ),
        (
            Given { room: 10, ..small },
            4,
            b"(edif a\n  ",
            WRITE_FAULT,
            SMALL.len() as u64,
        ),
        (
            Given {
                whole: false,
                ..blinker
            },
            0,
            BLINKER_MODULES,
            b"",
            BLINKER.len() as u64,
        ),
        (
            Given {
                whole: false,
                failing_take: 3,
                ..blinker
            },
            3,
            b"",
            READ_FAULT,
            2,
        ),
        (
            Given {
                room: 10,
                ..blinker
            },
            4,
            b"module FDR",
            WRITE_FAULT,
            BLINKER.len() as u64,
        ),
    ] {
        let wanted = Wanted {
            status,
            output,
            errors,
            taken,
        };
        assert_eq!(rt; ends_so::<Netlist>(rt.alloc(), &given, &wanted)?, true);
    }
    Ok(())
}

#[test]
fn failing_errors_change_no_status(rt: HostRuntime) -> Result<(), Fail> {
    for (word, text, status) in [
        (b"format".as_slice(), b"".as_slice(), 1),
        (b"check", RECURSIVE, 2),
        (b"to-edif", b"", 5),
    ] {
        let words = [word];
        let given = Given {
            errors_fail: true,
            ..given_plainly(&words, text)
        };
        let wanted = wanted_of(&given, status, b"", b"");
        assert_eq!(rt; ends_so::<Netlist>(rt.alloc(), &given, &wanted)?, true);
    }
    Ok(())
}

/// Whether this command tells that an input of blanks without an end is too long.
fn is_cut_off(alloc: Global, command: &[u8]) -> Result<bool, Fail> {
    let words = words_of(alloc, &[command])?;
    let mut output = sink_of(alloc, 10, 0)?;
    let mut errors = sink_of(alloc, 100, 0)?;
    let status = run(alloc, &words, &mut Blanks, &mut output, &mut errors).number();
    Ok(status == 7 && output.taken().is_empty() && errors.taken() == b"limit input\n".as_slice())
}

#[test]
fn inputs_have_a_limit(rt: HostRuntime) -> Result<(), Fail> {
    for command in [b"format".as_slice(), b"vformat"] {
        assert_eq!(rt; is_cut_off(rt.alloc(), command)?, true);
    }
    Ok(())
}
