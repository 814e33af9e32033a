// Every refusal of a running bench where several hold at once, and that it leaves all memory as it was.
use crate::sizes::{EMPTY, STRANGER, filled};
use bench::{Closed, Halves, Running};
use exchange::Refusal;
use maps::{Capacity, Holder};

const CARRIER: Holder = Holder {
    capacity: 2,
    balls: 1,
};

// a place that has no next one
const FAR: usize = usize::MAX;

// Kept: calls as data and a match on them: as closures, each line of the tables would repeat the bench, the row and the halves.
#[derive(Clone, Copy)]
enum Call {
    Sweep(Holder),
    TakeBack,
    Exchange(usize),
    Back(usize),
    Raise(u32),
}

// the lengths of the row, the incoming and the outgoing half handed over
type Lengths = (usize, usize, usize);

#[test]
fn a_granted_call_changes_something(rt: HostRuntime) {
    let cases = [
        (Call::Sweep(CARRIER), (2, 3, 3)),
        (Call::TakeBack, (2, 2, 2)),
    ];
    for (call, lengths) in cases {
        let answer = attempt(call, 2, lengths, EMPTY, CARRIER);
        assert_eq!(rt; answer, (Ok(()), false));
    }
}

#[test]
fn the_first_rule_broken_refuses_a_sweep(rt: HostRuntime) {
    let cases = [
        ((1, 2, 2), STRANGER, Refusal::ShortMemory),
        ((2, 1, 1), STRANGER, Refusal::ShortMemory),
        ((2, 3, 2), STRANGER, Refusal::ShortMemory),
        ((2, 2, 2), STRANGER, Refusal::LogFull),
        ((2, 3, 3), STRANGER, Refusal::Stray),
        ((2, 3, 3), EMPTY, Refusal::NoElement),
    ];
    for (lengths, first_box, refusal) in cases {
        let answer = attempt(Call::Sweep(STRANGER), 2, lengths, first_box, CARRIER);
        assert_eq!(rt; answer, (Err(refusal), true));
    }
}

#[test]
fn the_first_rule_broken_refuses_a_take_back(rt: HostRuntime) {
    let cases = [
        (2, (1, 2, 2), STRANGER, STRANGER, Refusal::ShortMemory),
        (0, (2, 0, 1), STRANGER, STRANGER, Refusal::ShortMemory),
        (0, (2, 0, 0), STRANGER, STRANGER, Refusal::LogEmpty),
        (2, (2, 2, 2), STRANGER, EMPTY, Refusal::Stray),
        (2, (2, 2, 2), EMPTY, STRANGER, Refusal::Stray),
        (2, (2, 2, 2), EMPTY, EMPTY, Refusal::WrongCarrier),
    ];
    for (sweeps, lengths, first_box, place_1, refusal) in cases {
        let answer = attempt(Call::TakeBack, sweeps, lengths, first_box, place_1);
        assert_eq!(rt; answer, (Err(refusal), true));
    }
}

#[test]
fn the_first_rule_broken_refuses_an_exchange(rt: HostRuntime) {
    let cases = [
        (Call::Exchange(FAR), (1, 2, 2), Refusal::ShortMemory),
        (Call::Exchange(FAR), (2, 2, 2), Refusal::NoPlace),
        (Call::Exchange(1), (2, 3, 3), Refusal::NoPlace),
        (Call::Exchange(0), (2, 2, 2), Refusal::Stray),
        (Call::Back(FAR), (2, 2, 3), Refusal::ShortMemory),
        (Call::Back(FAR), (2, 2, 2), Refusal::NoPlace),
        (Call::Back(0), (2, 2, 2), Refusal::Stray),
    ];
    for (call, lengths, refusal) in cases {
        let answer = attempt(call, 2, lengths, EMPTY, STRANGER);
        assert_eq!(rt; answer, (Err(refusal), true));
    }
}

#[test]
fn the_first_rule_broken_refuses_a_raise(rt: HostRuntime) {
    let cases = [
        (3, (2, 1, 1), STRANGER, Refusal::ShortMemory),
        (3, (2, 2, 2), STRANGER, Refusal::NoPlace),
        (0, (2, 2, 2), CARRIER, Refusal::NoPlace),
        (2, (2, 2, 2), STRANGER, Refusal::Stray),
        (0, (2, 2, 2), STRANGER, Refusal::Stray),
    ];
    for (kind, lengths, place_1, refusal) in cases {
        let answer = attempt(Call::Raise(kind), 2, lengths, EMPTY, place_1);
        assert_eq!(rt; answer, (Err(refusal), true));
    }
}

// Makes a call on a bench of two boxes, after some sweeps of `CARRIER`, with other values in the first box and at place 1 of the incoming half.
// Answers what it answers, and whether the counts and all memory are as they were.
fn attempt(
    call: Call,
    sweeps: usize,
    lengths: Lengths,
    first_box: Holder,
    place_1: Holder,
) -> (Result<(), Refusal>, bool) {
    let mut row = [EMPTY; 3];
    let mut incoming = [EMPTY; 3];
    let mut outgoing = [EMPTY; 3];
    let mut running = ready(
        sweeps,
        &mut row,
        &mut Halves {
            incoming: &mut incoming,
            outgoing: &mut outgoing,
        },
    );
    row[0] = first_box;
    incoming[1] = place_1;
    let before = (row, incoming, outgoing);
    let (boxes, came, went) = lengths;
    let mut halves = Halves {
        incoming: &mut incoming[0..came.min(3)],
        outgoing: &mut outgoing[0..went.min(3)],
    };
    let answer = ask(&mut running, call, &mut row[0..boxes.min(3)], &mut halves);
    let Closed {
        boxes: two,
        sweeps: swept,
    } = running.close();
    let kept = (two, swept) == (2, sweeps) && (row, incoming, outgoing) == before;
    (answer, kept)
}

// A bench of two boxes after some sweeps; two of them leave `EMPTY` in the first box.
fn ready(sweeps: usize, row: &mut [Holder], halves: &mut Halves<'_, Holder>) -> Running {
    let mut running = filled(2, row).start(&Capacity);
    for _ in 0..sweeps {
        let _ = running.sweep(&Capacity, row, halves, CARRIER);
    }
    running
}

// Makes a call, and forgets what it answers where it is granted.
fn ask(
    running: &mut Running,
    call: Call,
    row: &mut [Holder],
    halves: &mut Halves<'_, Holder>,
) -> Result<(), Refusal> {
    match call {
        Call::Sweep(x) => running.sweep(&Capacity, row, halves, x).map(|_| ()),
        Call::TakeBack => running.take_back(&Capacity, row, halves).map(|_| ()),
        Call::Exchange(i) => running.exchange(&Capacity, row, halves, i).map(|_| ()),
        Call::Back(i) => running.exchange_back(&Capacity, row, halves, i).map(|_| ()),
        Call::Raise(k) => running.raise(&Capacity, row, halves, k),
    }
}
