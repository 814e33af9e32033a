use exchange::Refusal;
use rowfile::{Command, Fault, Heading, MapName, ReadError, Side, read, rewrite, write};
use std::alloc::{AllocError, Global};
use std::test::Fail;

// What a text is refused for: the line and the number.
// Kept: refusals as numbers, since tests keep their expected values; and three tables with a loop each, since an assertion may stand in a test only.
type Verdict = Result<(), (u32, u8)>;

fn told(fault: Fault) -> (u32, u8) {
    (fault.line, fault.refusal.number())
}

// Want of memory is no verdict.
fn verdict(heap: Global, text: &[u8]) -> Result<Verdict, AllocError> {
    match read(heap, text) {
        Ok(_) => Ok(Ok(())),
        Err(ReadError::Fault(fault)) => Ok(Err(told(fault))),
        Err(ReadError::Memory) => Err(AllocError),
    }
}

#[test]
fn accepted(rt: HostRuntime) -> Result<(), Fail> {
    for text in [
        "map\tL\tcap\nrow\n",
        "map\tL\tcap\nrow\t256\t65535\nX\t4294967295\nY\t0\nN\t4294967295\nB\nP\n",
        "map\tR\tperm\nrow\t16434824\t342391\nP\n",
        "map\tL\taff\t10\t3\t5\t7\t5\nrow\t0\t9\nS\t9\n",
        "map\tR\tphase\t65535\nrow\t65536\t16777214\n",
    ] {
        assert_eq!(rt; verdict(rt.alloc(), text.as_bytes())?, Ok(()), "{}", text);
    }
    Ok(())
}

#[test]
fn headings(rt: HostRuntime) -> Result<(), Fail> {
    for (text, number) in [
        ("", 2),
        ("map\tL\tcap", 2),
        ("row\n", 2),
        ("map\n", 2),
        ("map\tL\n", 2),
        ("map\tM\tcap\n", 2),
        ("map\tL\tcup\n", 2),
        ("map\tL\tcap\r\n", 2),
        ("map\tL\tcap\t\n", 2),
        ("map\tL\tcap\t1\n", 2),
        ("map\tM\tphase\tx\n", 2),
        ("map\tL\tphase\n", 2),
        ("map\tL\tphase\t1\t\n", 2),
        ("map\tL\tphase\t\n", 3),
        ("map\tL\tphase\t00\n", 3),
        ("map\tL\tphase\t01\n", 3),
        ("map\tL\tphase\t4294967296\n", 3),
        ("map\tL\tphase\t0\n", 4),
        ("map\tL\tphase\t65536\n", 4),
        ("map\tL\tphase\t4294967295\n", 4),
        ("map\tL\taff\t10\t3\t5\t7\n", 2),
        ("map\tL\taff\t10\t3\t5\t7\t5\t5\n", 2),
        ("map\tL\taff\t10\t3\t5\t7\t5x\n", 3),
        ("map\tL\taff\t10\t3\t5\t7\t1\n", 4),
    ] {
        assert_eq!(rt;
            verdict(rt.alloc(), text.as_bytes())?,
            Err((1, number)),
            "{}",
            text
        );
    }
    Ok(())
}

#[test]
fn rows(rt: HostRuntime) -> Result<(), Fail> {
    for (row, number) in [
        ("", 2),
        ("row", 2),
        ("row\t256", 2),
        ("map\tL\tcap\n", 2),
        ("P\n", 2),
        ("row \n", 2),
        ("\n", 2),
        ("row\t\n", 3),
        ("row\t256\t\n", 3),
        ("row\t256\r\n", 3),
        ("row\t0\tx\n", 3),
        ("row\t255\n", 5),
        ("row\t256\t0\nQ\n", 5),
    ] {
        let mut text = String::from_str(rt.alloc(), "map\tL\tcap\n")?;
        text.push_str(row)?;
        assert_eq!(rt;
            verdict(rt.alloc(), text.as_bytes())?,
            Err((2, number)),
            "{}",
            row
        );
    }
    Ok(())
}

#[test]
fn commands(rt: HostRuntime) -> Result<(), Fail> {
    for (command, number) in [
        ("P", 2),
        ("\n", 2),
        ("Q\n", 2),
        ("s\t256\n", 2),
        ("SS\t256\n", 2),
        ("S\n", 2),
        ("S\t256\t\n", 2),
        ("B\t\n", 2),
        ("P\t1\n", 2),
        ("row\n", 2),
        ("S\t\n", 3),
        ("S\t01\n", 3),
        ("X\t4294967296\n", 3),
        ("Y\t-1\n", 3),
        ("N\t\n", 3),
        ("S\t255\n", 5),
    ] {
        let mut text = String::from_str(rt.alloc(), "map\tL\tcap\nrow\n")?;
        text.push_str(command)?;
        assert_eq!(rt;
            verdict(rt.alloc(), text.as_bytes())?,
            Err((3, number)),
            "{}",
            command
        );
    }
    Ok(())
}

#[test]
fn many_codes(rt: HostRuntime) -> Result<(), Fail> {
    for (count, last, expected) in [
        (1023, "\t256\n", Ok(())),
        (1024, "\t256\n", Err((2, 6))),
        (1024, "\t0\n", Err((2, 6))),
        (1024, "\tx\n", Err((2, 3))),
        (1023, "\t0\n", Err((2, 5))),
    ] {
        let mut text = String::from_str(rt.alloc(), "map\tL\tcap\nrow")?;
        for _ in 0..count {
            text.push_str("\t256")?;
        }
        text.push_str(last)?;
        assert_eq!(rt; verdict(rt.alloc(), text.as_bytes())?, expected, "{}", last);
    }
    Ok(())
}

#[test]
fn many_bytes(rt: HostRuntime) -> Result<(), Fail> {
    for (start, count, length, expected) in [
        ("map\tL\tcap\nrow\n", 16377, 32768, Ok(())),
        ("map\tL\tcap\nrow\nX\t10\n", 16375, 32769, Err((0, 1))),
        ("map\tL\tcup\nrow\nX\t10\n", 16375, 32769, Err((0, 1))),
    ] {
        let mut text = String::from_str(rt.alloc(), start)?;
        for _ in 0..count {
            text.push_str("P\n")?;
        }
        assert_eq!(rt; text.len(), length);
        assert_eq!(rt;
            verdict(rt.alloc(), text.as_bytes())?,
            expected,
            "{}",
            start
        );
    }
    Ok(())
}

fn refused(map: MapName, codes: &[u32], commands: &[Command], room: usize) -> Verdict {
    let mut out = [0; 32];
    let heading = Heading {
        side: Side::Left,
        map,
    };
    let room = room.min(32);
    match write(heading, codes, commands, &mut out[..room]) {
        Ok(_) => Ok(()),
        Err(fault) => Err(told(fault)),
    }
}

#[test]
fn written(rt: HostRuntime) {
    assert_eq!(rt;
        refused(MapName::Cap, &[256], &[Command::Print], 20),
        Ok(())
    );
    assert_eq!(rt;
        refused(MapName::Cap, &[256], &[Command::Print], 19),
        Err((0, 1))
    );
    assert_eq!(rt; refused(MapName::Phase { m: 0 }, &[0], &[], 0), Err((1, 4)));
    assert_eq!(rt;
        refused(MapName::Cap, &[255], &[Command::Sweep(0)], 0),
        Err((2, 5))
    );
    assert_eq!(rt; refused(MapName::Cap, &[0; 1025], &[], 0), Err((2, 6)));
    assert_eq!(rt;
        refused(
            MapName::Cap,
            &[256],
            &[Command::Print, Command::Sweep(0)],
            0,
        ),
        Err((4, 5))
    );
}

#[test]
fn rewritten(rt: HostRuntime) {
    let text = "map\tL\tcap\nrow\t256\nP\n";
    let mut out = [0; 20];
    assert!(rt; matches!(rewrite(rt.alloc(), text.as_bytes(), &mut out), Ok(20)));
    assert_eq!(rt; out[..], text.as_bytes()[..]);
    for (text, room, expected) in [
        (text, 19, (0, 1)),
        ("map\tL\tcap\nrow\t255\nP\n", 20, (2, 5)),
        ("map\tL\tcap\nrow\t255\nP\n", 0, (2, 5)),
    ] {
        let mut out = [7; 20];
        let fault = match rewrite(rt.alloc(), text.as_bytes(), &mut out[..room]) {
            Err(ReadError::Fault(fault)) => Some(told(fault)),
            _ => None,
        };
        assert_eq!(rt; fault, Some(expected), "{}", text);
        assert_eq!(rt; out, [7; 20]);
    }
}

// A fault prints as one line.
#[test]
fn printed(rt: HostRuntime) -> Result<(), Fail> {
    let fault = Fault {
        line: 4294967295,
        refusal: Refusal::WrongCarrier,
    };
    let text = fault.to_string(rt.alloc())?;
    assert_eq!(rt; text.as_str(), "!\t4294967295\t13");
    Ok(())
}
