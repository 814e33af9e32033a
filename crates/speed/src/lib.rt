// For measuring only: exported functions that drive the bench and the reader of row files many times over, for a Rust program to time.
// What each call does is in the contracts of `bench` and `rowfile`. The answers' checksums are only compared with that program's, so nothing is said of them here; the exports apart, nothing here is open to others.
#![tactic(auto)]

use bench::{Closed, Filling, Halves, Running};
use exchange::{ExchangeMap, Refusal, ReturningMap};
use maps::{Affine, Capacity, Permutations, Phases};
use rowfile::{ReadError, RowFile, read};
use std::alloc::{AllocError, Global};

// What is mixed into a checksum.
trait Mixed {
    fn mixed(self, sum: u32) -> u32;
}

impl Mixed for () {
    fn mixed(self, sum: u32) -> u32 {
        0u32.mixed(sum)
    }
}

impl Mixed for u32 {
    fn mixed(self, sum: u32) -> u32 {
        sum.wrapping_mul(31).wrapping_add(self)
    }
}

impl Mixed for (u32, u32) {
    fn mixed(self, sum: u32) -> u32 {
        self.1.mixed(self.0.mixed(sum))
    }
}

impl Mixed for Refusal {
    fn mixed(self, sum: u32) -> u32 {
        u32::from(self.number()).mixed(sum)
    }
}

impl Mixed for RowFile {
    // Kept: `as`, here and in ended, after the remainder that makes it fit.
    fn mixed(self, sum: u32) -> u32 {
        let commands = (self.commands.len() % 65536) as u32;
        self.codes
            .iter()
            .fold(commands.mixed(sum), |sum, code| code.mixed(sum))
    }
}

impl Mixed for ReadError {
    fn mixed(self, sum: u32) -> u32 {
        match self {
            ReadError::Fault(fault) => fault.refusal.mixed(fault.line.mixed(sum)),
            ReadError::Memory => u32::MAX.mixed(sum),
        }
    }
}

impl<T: Mixed, E: Mixed> Mixed for Result<T, E> {
    fn mixed(self, sum: u32) -> u32 {
        match self {
            Ok(answer) => answer.mixed(sum),
            Err(error) => error.mixed(sum),
        }
    }
}

// What an exported call is handed, beside the parameters of its map.
#[derive(Clone, Copy)]
struct Work<'a> {
    heap: Global,
    codes: &'a [u32],
    carriers: &'a [u32],
    rounds: u32,
}

impl<'a> Work<'a> {
    fn new(heap: Global, codes: &'a [u32], carriers: &'a [u32], rounds: u32) -> Work<'a> {
        Work {
            heap,
            codes,
            carriers,
            rounds,
        }
    }

    // Each round sweeps every carrier and takes every sweep back.
    // Kept: the rounds stand in three functions, each with its bench and halves: as closures handed to one set-up they were not inlined, and raises of phases went from 1.07 to 1.45 times the Rust's time, exchanges of residues from 1.00 to 1.22.
    fn sweeps<M: ExchangeMap>(&self, map: &M) -> Result<u32, AllocError> {
        let (mut bench, mut memory) = self.set_up(map)?;
        let row = &mut memory.row;
        let carriers = &memory.carriers;
        let mut halves = Halves {
            incoming: &mut memory.incoming,
            outgoing: &mut memory.outgoing,
        };
        let mut sum = 0;
        for _round in 0..self.rounds {
            sum = sweep_all(&mut bench, map, row, &mut halves, carriers, sum);
            for _ in 0..carriers.len() {
                sum = bench.take_back(map, row, &mut halves).mixed(sum);
            }
        }
        Ok(ended(bench, sum))
    }

    // The carriers are swept once; each round exchanges at every place upwards, and back at every place downwards.
    fn exchanges<M: ExchangeMap>(&self, map: &M) -> Result<u32, AllocError> {
        let (mut bench, mut memory) = self.set_up(map)?;
        let row = &mut memory.row;
        let carriers = &memory.carriers;
        let mut halves = Halves {
            incoming: &mut memory.incoming,
            outgoing: &mut memory.outgoing,
        };
        let mut sum = sweep_all(&mut bench, map, row, &mut halves, carriers, 0);
        for _round in 0..self.rounds {
            for place in 0..carriers.len() {
                sum = bench.exchange(map, row, &mut halves, place).mixed(sum);
            }
            for place in (0..carriers.len()).rev() {
                sum = bench.exchange_back(map, row, &mut halves, place).mixed(sum);
            }
        }
        Ok(ended(bench, sum))
    }

    // The carriers are swept once; each round raises the kind of every carrier.
    fn raises<M: ReturningMap>(&self, map: &M) -> Result<u32, AllocError> {
        let (mut bench, mut memory) = self.set_up(map)?;
        let row = &mut memory.row;
        let carriers = &memory.carriers;
        let mut halves = Halves {
            incoming: &mut memory.incoming,
            outgoing: &mut memory.outgoing,
        };
        let mut sum = sweep_all(&mut bench, map, row, &mut halves, carriers, 0);
        for _round in 0..self.rounds {
            for carrier in carriers {
                let kind = u32::from(map.kind(*carrier));
                sum = bench.raise(map, row, &mut halves, kind).mixed(sum);
            }
        }
        Ok(ended(bench, sum))
    }

    // A running bench whose row holds the elements of the codes, and the memory for its calls.
    fn set_up<M: ExchangeMap>(&self, map: &M) -> Result<(Running, Memory<M::Elem>), AllocError> {
        let elements = |codes: &[u32]| -> Result<Vec<M::Elem>, AllocError> {
            codes
                .iter()
                .map(|code| map.element(*code))
                .collect(self.heap)
        };
        let mut memory = Memory {
            row: elements(self.codes)?,
            incoming: elements(self.carriers)?,
            outgoing: elements(self.carriers)?,
            carriers: elements(self.carriers)?,
        };
        let mut filling = Filling::new();
        for code in self.codes {
            // never refused, and a filling bench could not be let go by `?`
            let _ = filling.put(map, &mut memory.row, map.element(*code));
        }
        Ok((filling.start(map), memory))
    }
}

// What the calls of a trial are lent, and the carriers to sweep. The log has a place for each carrier.
// Kept: vectors side by side, since the bench's calls are lent a slice of each.
#[derive(Drop)]
struct Memory<E> {
    row: Vec<E>,
    incoming: Vec<E>,
    outgoing: Vec<E>,
    carriers: Vec<E>,
}

fn sweep_all<M: ExchangeMap>(
    bench: &mut Running,
    map: &M,
    row: &mut [M::Elem],
    halves: &mut Halves<'_, M::Elem>,
    carriers: &[M::Elem],
    start: u32,
) -> u32 {
    carriers.iter().fold(
        start,
        |sum, carrier| bench.sweep(map, row, halves, *carrier).mixed(sum),
    )
}

// The checksum with the sweeps that the closed bench still has.
fn ended(bench: Running, sum: u32) -> u32 {
    let Closed { boxes: _, sweeps } = bench.close();
    ((sweeps % 65536) as u32).mixed(sum)
}

// The map of five parameters.
fn affine(parameters: &[u32]) -> Option<Affine> {
    let &[m, a, b, c, d] = parameters else {
        return None;
    };
    Affine::new(m, a, b, c, d).ok()
}

// The map of one parameter.
fn phases(parameters: &[u32]) -> Option<Phases> {
    let &[m] = parameters else {
        return None;
    };
    Phases::new(m).ok()
}

// Kept: one export for each map and kind of work, parameters one by one, and u32::MAX where no map or no memory is had: the C interface.

#[unsafe(no_mangle)]
pub extern "C" fn rattle_cap_sweeps(
    heap: Global,
    _parameters: &[u32],
    codes: &[u32],
    carriers: &[u32],
    rounds: u32,
) -> u32 {
    let work = Work::new(heap, codes, carriers, rounds);
    work.sweeps(&Capacity).unwrap_or(u32::MAX)
}

#[unsafe(no_mangle)]
pub extern "C" fn rattle_cap_exchanges(
    heap: Global,
    _parameters: &[u32],
    codes: &[u32],
    carriers: &[u32],
    rounds: u32,
) -> u32 {
    let work = Work::new(heap, codes, carriers, rounds);
    work.exchanges(&Capacity).unwrap_or(u32::MAX)
}

#[unsafe(no_mangle)]
pub extern "C" fn rattle_cap_raises(
    heap: Global,
    _parameters: &[u32],
    codes: &[u32],
    carriers: &[u32],
    rounds: u32,
) -> u32 {
    let work = Work::new(heap, codes, carriers, rounds);
    work.raises(&Capacity).unwrap_or(u32::MAX)
}

#[unsafe(no_mangle)]
pub extern "C" fn rattle_perm_sweeps(
    heap: Global,
    _parameters: &[u32],
    codes: &[u32],
    carriers: &[u32],
    rounds: u32,
) -> u32 {
    let work = Work::new(heap, codes, carriers, rounds);
    work.sweeps(&Permutations).unwrap_or(u32::MAX)
}

#[unsafe(no_mangle)]
pub extern "C" fn rattle_perm_exchanges(
    heap: Global,
    _parameters: &[u32],
    codes: &[u32],
    carriers: &[u32],
    rounds: u32,
) -> u32 {
    let work = Work::new(heap, codes, carriers, rounds);
    work.exchanges(&Permutations).unwrap_or(u32::MAX)
}

#[unsafe(no_mangle)]
pub extern "C" fn rattle_aff_sweeps(
    heap: Global,
    parameters: &[u32],
    codes: &[u32],
    carriers: &[u32],
    rounds: u32,
) -> u32 {
    let work = Work::new(heap, codes, carriers, rounds);
    affine(parameters)
        .and_then(|map| work.sweeps(&map).ok())
        .unwrap_or(u32::MAX)
}

#[unsafe(no_mangle)]
pub extern "C" fn rattle_aff_exchanges(
    heap: Global,
    parameters: &[u32],
    codes: &[u32],
    carriers: &[u32],
    rounds: u32,
) -> u32 {
    let work = Work::new(heap, codes, carriers, rounds);
    affine(parameters)
        .and_then(|map| work.exchanges(&map).ok())
        .unwrap_or(u32::MAX)
}

#[unsafe(no_mangle)]
pub extern "C" fn rattle_phase_sweeps(
    heap: Global,
    parameters: &[u32],
    codes: &[u32],
    carriers: &[u32],
    rounds: u32,
) -> u32 {
    let work = Work::new(heap, codes, carriers, rounds);
    phases(parameters)
        .and_then(|map| work.sweeps(&map).ok())
        .unwrap_or(u32::MAX)
}

#[unsafe(no_mangle)]
pub extern "C" fn rattle_phase_exchanges(
    heap: Global,
    parameters: &[u32],
    codes: &[u32],
    carriers: &[u32],
    rounds: u32,
) -> u32 {
    let work = Work::new(heap, codes, carriers, rounds);
    phases(parameters)
        .and_then(|map| work.exchanges(&map).ok())
        .unwrap_or(u32::MAX)
}

#[unsafe(no_mangle)]
pub extern "C" fn rattle_phase_raises(
    heap: Global,
    parameters: &[u32],
    codes: &[u32],
    carriers: &[u32],
    rounds: u32,
) -> u32 {
    let work = Work::new(heap, codes, carriers, rounds);
    phases(parameters)
        .and_then(|map| work.raises(&map).ok())
        .unwrap_or(u32::MAX)
}

// The text of a row file read `rounds` times.
#[unsafe(no_mangle)]
pub extern "C" fn rattle_read(heap: Global, text: &[u8], rounds: u32) -> u32 {
    (0..rounds).fold(0, |sum, _round| read(heap, text).mixed(sum))
}
