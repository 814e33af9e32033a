// What the calls of a running bench look at before they change anything.
ghost use Rattle.std.specs.Prelude.{◌≡◌, ◌<◌, ◌≤◌, T, ◌↔◌, length, take, IfOk, MatchOption};
ghost use Rattle.bench.specs.Bench.{Enough, Entry, Judged, Newest, held};
ghost use Rattle.exchange.specs.Meaning.{Meaning};
ghost use Rattle.runs.specs.Book.{Call, exchange, raise, sweep, take_back};
ghost use Rattle.runs.specs.Exchanges.{Lacks, Way};
ghost use Rattle.runs.specs.Sweeps.{Belong};

use crate::bench::Running;
use crate::log::Halves;
use crate::walk::all_belong;
use exchange::{ExchangeMap, Refusal};

impl Running {
    // The rule of every call: memory that reaches the counts.
    fn judge_memory<E>(&self, row: &[E], halves: &Halves<'_, E>) -> Result<(), Refusal>
        ensures judged { (m : Meaning E) (call : Call E) → Judged m (held self.now row.now halves.now) call 2 result }
        ensures enough { IfOk result (λ u. Enough (held self.now row.now halves.now)) }
    {
        let log_len = halves.incoming.len();
        if row.len() >= self.boxes && halves.outgoing.len() == log_len && log_len >= self.sweeps {
            Ok(())
        } else {
            Err(Refusal::ShortMemory)
        }
    }

    pub(crate) fn judge_sweep<M: ExchangeMap>(
        &self,
        map: &M,
        row: &[M::Elem],
        halves: &Halves<'_, M::Elem>,
        carrier: M::Elem,
    ) -> Result<(), Refusal>
        ensures { Judged (M.ExchangeMap.meaning map.now) (held self.now row.now halves.now) (sweep carrier) 6 result }
    {
        self.judge_memory(row, halves)?;
        if self.sweeps == halves.incoming.len() {
            return Err(Refusal::LogFull);
        }
        if !all_belong(map, &row[0..self.boxes]) {
            return Err(Refusal::Stray);
        }
        if !map.belongs(carrier) {
            return Err(Refusal::NoElement);
        }
        Ok(())
    }

    // The rules that a take-back is held against before the carrier is known.
    pub(crate) fn judge_take_back<M: ExchangeMap>(
        &self,
        map: &M,
        row: &[M::Elem],
        halves: &Halves<'_, M::Elem>,
    ) -> Result<(), Refusal>
        ensures { Judged (M.ExchangeMap.meaning map.now) (held self.now row.now halves.now) take_back 5 result }
    {
        self.judge_memory(row, halves)?;
        if self.sweeps == 0 {
            return Err(Refusal::LogEmpty);
        }
        if !(halves.entry_belongs(map, self.sweeps - 1) & all_belong(map, &row[0..self.boxes])) {
            return Err(Refusal::Stray);
        }
        Ok(())
    }

    pub(crate) fn judge_exchange<M: ExchangeMap>(
        &self,
        map: &M,
        row: &[M::Elem],
        halves: &Halves<'_, M::Elem>,
        place: usize,
    ) -> Result<(), Refusal>
        ensures { (w : Way) → Judged (M.ExchangeMap.meaning map.now) (held self.now row.now halves.now) (exchange w place) 6 result }
    {
        self.judge_memory(row, halves)?;
        if place >= self.sweeps.saturating_sub(1) {
            return Err(Refusal::NoPlace);
        }
        if !(halves.entry_belongs(map, place) & halves.entry_belongs(map, place + 1)) {
            return Err(Refusal::Stray);
        }
        Ok(())
    }

    // The place of the carrier to raise.
    pub(crate) fn judge_raise<M: ExchangeMap>(
        &self,
        map: &M,
        row: &[M::Elem],
        halves: &Halves<'_, M::Elem>,
        kind: u32,
    ) -> Result<usize, Refusal>
        ensures judged { Judged (M.ExchangeMap.meaning map.now) (held self.now row.now halves.now) (raise kind) 6 result }
        ensures place { IfOk result (λ i. Enough (held self.now row.now halves.now) × Newest (M.ExchangeMap.meaning map.now) kind (take self.now.sweeps halves.now.incoming.now) i) }
    {
        self.judge_memory(row, halves)?;
        let Some(place) = newest_of_kind(map, &halves.incoming[0..self.sweeps], kind) else {
            return Err(Refusal::NoPlace);
        };
        if !halves.entries_belong(map, self.sweeps) {
            return Err(Refusal::Stray);
        }
        Ok(place)
    }
}

impl<E: Copy> Halves<'_, E> {
    // Whether both carriers of the entry at a place belong. Tests joined by `&` are made side by side, with no branch between them.
    fn entry_belongs<M: ExchangeMap<Elem = E>>(&self, map: &M, place: usize) -> bool
        requires { (place < length self.now.incoming.now) × (place < length self.now.outgoing.now) }
        ensures { T result ↔ Entry (M.ExchangeMap.meaning map.now) self.now place }
    {
        map.belongs(self.incoming[place]) & map.belongs(self.outgoing[place])
    }

    // Whether both carriers of every entry below a count belong.
    fn entries_belong<M: ExchangeMap<Elem = E>>(&self, map: &M, count: usize) -> bool
        requires { (count ≤ length self.now.incoming.now) × (count ≤ length self.now.outgoing.now) }
        ensures { T result ↔ (Belong (M.ExchangeMap.meaning map.now) (take count self.now.incoming.now) × Belong (M.ExchangeMap.meaning map.now) (take count self.now.outgoing.now)) }
    {
        all_belong(map, &self.incoming[0..count]) && all_belong(map, &self.outgoing[0..count])
    }
}

// The place of the newest carrier of a kind.
fn newest_of_kind<M: ExchangeMap>(map: &M, carriers: &[M::Elem], kind: u32) -> Option<usize>
    ensures { MatchOption result (Lacks (M.ExchangeMap.meaning map.now) kind carriers.now) (Newest (M.ExchangeMap.meaning map.now) kind carriers.now) }
{
    carriers
        .iter()
        .rposition(|carrier| u32::from(map.kind(*carrier)) == kind)
}
