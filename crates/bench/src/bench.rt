// A bench is first filling, then running, and last closed.
// The three states are moved values of plain numbers; the row and the log stay with the caller, who hands them over at each call.
// None of them can be copied, and a filling or running bench cannot be let go, so a bench ends by being closed.
ghost use Rattle.bench.specs.Bench.{Put};
ghost use Rattle.runs.specs.Runs.{Promises};
ghost use Rattle.std.specs.Prelude.{◌≡◌};

use exchange::{ExchangeMap, Refusal};

// the greatest number of boxes in a row
pub const MOST_BOXES: usize = 1_024;

// Kept: the states hold numbers alone, and the row and the log are lent at each call, a rule of the project.
pub struct Filling {
    pub(crate) boxes: usize,
}

pub struct Running {
    pub(crate) boxes: usize,
    pub(crate) sweeps: usize,
}

pub struct Closed {
    pub boxes: usize,
    pub sweeps: usize,
}

impl Filling {
    // A bench with no boxes.
    pub fn new() -> Filling
        ensures { result.boxes ≡ 0 }
    {
        Filling { boxes: 0 }
    }

    // Writes one element into the next box.
    pub fn put<M: ExchangeMap>(
        &mut self,
        map: &M,
        row: &mut [M::Elem],
        x: M::Elem,
    ) -> Result<(), Refusal>
        ensures { Put (M.ExchangeMap.meaning map.now) x self.old row.old result self.new row.new }
    {
        if self.boxes >= MOST_BOXES || self.boxes >= row.len() {
            return Err(Refusal::RowFull);
        }
        if !map.belongs(x) {
            return Err(Refusal::NoElement);
        }
        row[self.boxes] = x;
        self.boxes += 1;
        Ok(())
    }

    // A running bench with no sweeps yet; the boxes of the row as they now stand are its filled row.
    // Whatever calls follow, the bench is what the plain book of the filled row says: that is the promise of runs.
    pub fn start<M: ExchangeMap>(self, _map: &M) -> Running
        ensures counts { (result.boxes ≡ self.boxes) × (result.sweeps ≡ 0) }
        ensures runs { Promises (M.ExchangeMap.meaning _map.now) }
    {
        let Filling { boxes } = self;
        Running { boxes, sweeps: 0 }
    }
}

impl Running {
    // How many sweeps the log holds.
    pub fn sweeps(&self) -> usize
        ensures { result ≡ self.now.sweeps }
    {
        self.sweeps
    }

    // Ends the bench and tells its boxes and sweeps.
    pub fn close(self) -> Closed
        ensures { (result.boxes ≡ self.boxes) × (result.sweeps ≡ self.sweeps) }
    {
        let Running { boxes, sweeps } = self;
        Closed { boxes, sweeps }
    }
}
