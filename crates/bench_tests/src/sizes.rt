// How many boxes and sweeps there may be, and a row that was spoiled before the start.
use bench::{Closed, Filling, Halves, Running};
use exchange::Refusal;
use maps::{Capacity, Holder};

pub(crate) const EMPTY: Holder = Holder {
    capacity: 1,
    balls: 0,
};

// no element: more balls than it can hold
pub(crate) const STRANGER: Holder = Holder {
    capacity: 5,
    balls: 6,
};

#[test]
fn sweep_256_is_the_last(rt: HostRuntime) {
    let mut row = [EMPTY; 1];
    let mut incoming = [EMPTY; 256];
    let mut outgoing = [EMPTY; 256];
    let mut halves = Halves {
        incoming: &mut incoming,
        outgoing: &mut outgoing,
    };
    let mut running = filled(1, &mut row).start(&Capacity);
    let granted = sweeps(256, &mut running, &mut row, &mut halves);
    let next = running.sweep(&Capacity, &mut row, &mut halves, EMPTY);
    let Closed { boxes, sweeps } = running.close();
    assert_eq!(rt; next, Err(Refusal::LogFull));
    assert_eq!(rt; (boxes, sweeps, granted), (1, 256, true));
}

#[test]
fn box_1024_is_the_last(rt: HostRuntime) {
    let mut row = [EMPTY; 1_025];
    let mut filling = filled(1_024, &mut row);
    let next = filling.put(&Capacity, &mut row, EMPTY);
    let Closed { boxes, sweeps } = filling.start(&Capacity).close();
    assert_eq!(rt; next, Err(Refusal::RowFull));
    assert_eq!(rt; (boxes, sweeps), (1_024, 0));
}

// A bench after some puts.
// Kept: the loop of puts stands in the session and in the trials of speed too: one for all would be a public call of the bench, with a contract longer than the three loops.
pub(crate) fn filled(puts: usize, row: &mut [Holder]) -> Filling {
    let mut filling = Filling::new();
    for _ in 0..puts {
        let _ = filling.put(&Capacity, row, EMPTY);
    }
    filling
}

// Whether so many sweeps are granted.
fn sweeps(
    count: usize,
    running: &mut Running,
    row: &mut [Holder],
    halves: &mut Halves<'_, Holder>,
) -> bool {
    (0..count).all(|_| running.sweep(&Capacity, row, halves, EMPTY).is_ok())
}

#[test]
fn no_next_box_comes_before_a_stranger(rt: HostRuntime) {
    let mut row = [EMPTY; 1];
    let mut filling = Filling::new();
    let stranger = filling.put(&Capacity, &mut row, STRANGER);
    let element = filling.put(&Capacity, &mut row, EMPTY);
    let both = filling.put(&Capacity, &mut row, STRANGER);
    let Closed { boxes, sweeps } = filling.start(&Capacity).close();
    assert_eq!(rt; stranger, Err(Refusal::NoElement));
    assert_eq!(rt; element, Ok(()));
    assert_eq!(rt; both, Err(Refusal::RowFull));
    assert_eq!(rt; (boxes, sweeps, row), (1, 0, [EMPTY]));
}

#[test]
fn a_row_spoiled_before_the_start_is_never_swept(rt: HostRuntime) {
    let mut row = [EMPTY; 2];
    let mut incoming = [EMPTY; 2];
    let mut outgoing = [EMPTY; 2];
    let mut halves = Halves {
        incoming: &mut incoming,
        outgoing: &mut outgoing,
    };
    let mut filling = Filling::new();
    let put = filling.put(&Capacity, &mut row, EMPTY);
    row[0] = STRANGER;
    let mut running = filling.start(&Capacity);
    let first = running.sweep(&Capacity, &mut row, &mut halves, EMPTY);
    let second = running.sweep(&Capacity, &mut row, &mut halves, STRANGER);
    let Closed { boxes, sweeps } = running.close();
    assert_eq!(rt; put, Ok(()));
    assert_eq!(rt; (first, second), (Err(Refusal::Stray), Err(Refusal::Stray)));
    assert_eq!(rt; (boxes, sweeps), (1, 0));
}
