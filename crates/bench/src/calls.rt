// The calls of a running bench. Each first judges, and then acts; what it is handed stays as it is where it is refused.
ghost use Rattle.std.specs.Prelude.{◌≡◌, ◌+◌, ◌<◌, ◌≤◌, length};
ghost use Rattle.bench.specs.Bench.{Recovered, code_answer, codes_answer, done_answer, held};
ghost use Rattle.bench.specs.Log.{Answers, Climbed, Counted, Exchangeable, Exchanged, Lent, SameHalves, entries};
ghost use Rattle.exchange.specs.Meaning.{Exchange};
ghost use Rattle.runs.specs.Book.{exchange as exchange_call, raise as raise_call, sweep as sweep_call, take_back};
ghost use Rattle.runs.specs.Calls.{Does};
ghost use Rattle.runs.specs.Exchanges.{Way, back, by, forth};
ghost use Rattle.runs.specs.Theorems.{Belongs};

use crate::bench::Running;
use crate::log::{Halves, Log};
use crate::walk::{sweep_row, unsweep_row};
use exchange::{ExchangeMap, Refusal, ReturningMap};

// Kept: the row and the halves apart: three of the calls only look at the row, and one struct would ask of their callers a row that may be changed.
impl Running {
    // Sweeps a carrier along the row, logs it, and answers the code of what goes out.
    pub fn sweep<M: ExchangeMap>(
        &mut self,
        map: &M,
        row: &mut [M::Elem],
        halves: &mut Halves<'_, M::Elem>,
        carrier: M::Elem,
    ) -> Result<u32, Refusal>
        ensures lent { SameHalves halves.old halves.new }
        ensures does { Does (M.ExchangeMap.meaning map.now) (sweep_call carrier) (held self.old row.old halves.old) (held self.new row.new halves.new) (code_answer result) }
    {
        self.judge_sweep(map, row, halves, carrier)?;
        let gone = sweep_row(map, &mut row[0..self.boxes], carrier);
        // Kept: the log as a literal in each call: of a `Log` that a method answers, nothing says what its two slices end as.
        let mut log = Log {
            incoming: &mut *halves.incoming,
            outgoing: &mut *halves.outgoing,
            count: self.sweeps,
        };
        log.add(carrier, gone)?;
        self.sweeps += 1;
        Ok(map.code(gone))
    }

    // Takes the newest sweep back, removes its entry, and answers the code of the carrier recovered.
    pub fn take_back<M: ExchangeMap>(
        &mut self,
        map: &M,
        row: &mut [M::Elem],
        halves: &mut Halves<'_, M::Elem>,
    ) -> Result<u32, Refusal>
        ensures lent { SameHalves halves.old halves.new }
        ensures does { Does (M.ExchangeMap.meaning map.now) take_back (held self.old row.old halves.old) (held self.new row.new halves.new) (code_answer result) }
    {
        self.judge_take_back(map, row, halves)?;
        let mut log = Log {
            incoming: &mut *halves.incoming,
            outgoing: &mut *halves.outgoing,
            count: self.sweeps,
        };
        let (came, went) = log.remove_newest()?;
        let code = recover(map, &mut row[0..self.boxes], went, came)?;
        self.sweeps -= 1;
        Ok(code)
    }

    // Crosses the carriers at a place and the next one, in both halves of the log; answers the new incoming codes, the older one first.
    pub fn exchange<M: ExchangeMap>(
        &self,
        map: &M,
        row: &[M::Elem],
        halves: &mut Halves<'_, M::Elem>,
        place: usize,
    ) -> Result<(u32, u32), Refusal>
        ensures lent { SameHalves halves.old halves.new }
        ensures does { Does (M.ExchangeMap.meaning map.now) (exchange_call forth place) (held self.now row.now halves.old) (held self.now row.now halves.new) (codes_answer result) }
    {
        let cross = |left, right| map.cross(left, right);
        self.exchange_by(map, row, halves, place, cross)
    }

    // Uncrosses them instead.
    pub fn exchange_back<M: ExchangeMap>(
        &self,
        map: &M,
        row: &[M::Elem],
        halves: &mut Halves<'_, M::Elem>,
        place: usize,
    ) -> Result<(u32, u32), Refusal>
        ensures lent { SameHalves halves.old halves.new }
        ensures does { Does (M.ExchangeMap.meaning map.now) (exchange_call back place) (held self.now row.now halves.old) (held self.now row.now halves.new) (codes_answer result) }
    {
        let uncross = |left, right| map.uncross(left, right);
        self.exchange_by(map, row, halves, place, uncross)
    }

    fn exchange_by<M: ExchangeMap, F: Fn(M::Elem, M::Elem) -> (M::Elem, M::Elem)>(
        &self,
        map: &M,
        row: &[M::Elem],
        halves: &mut Halves<'_, M::Elem>,
        place: usize,
        pair: F,
    ) -> Result<(u32, u32), Refusal>
        requires { F.IsAlwaysCallable pair }
        ensures lent { SameHalves halves.old halves.new }
        ensures does { (w : Way) → Answers (by (M.ExchangeMap.meaning map.now) w) (F.post pair) → Does (M.ExchangeMap.meaning map.now) (exchange_call w place) (held self.now row.now halves.old) (held self.now row.now halves.new) (codes_answer result) }
    {
        self.judge_exchange(map, row, halves, place)?;
        let mut log = Log {
            incoming: &mut *halves.incoming,
            outgoing: &mut *halves.outgoing,
            count: self.sweeps,
        };
        let (older, newer) = exchange_entries(&mut log, place, pair)?;
        Ok((map.code(older), map.code(newer)))
    }

    // Exchanges the newest carrier of a kind upwards until it is the newest of all.
    pub fn raise<M: ReturningMap>(
        &self,
        map: &M,
        row: &[M::Elem],
        halves: &mut Halves<'_, M::Elem>,
        kind: u32,
    ) -> Result<(), Refusal>
        ensures lent { SameHalves halves.old halves.new }
        ensures does { Does (M.ExchangeMap.meaning map.now) (raise_call kind) (held self.now row.now halves.old) (held self.now row.now halves.new) (done_answer result) }
    {
        let place = self.judge_raise(map, row, halves, kind)?;
        let mut log = Log {
            incoming: &mut *halves.incoming,
            outgoing: &mut *halves.outgoing,
            count: self.sweeps,
        };
        // Kept: `?` and `Ok(())`: with the call as the last expression the proof would tell a `Result` apart that is always `Ok`.
        climb_entries(map, &mut log, place)?;
        Ok(())
    }
}

// Takes a sweep back and answers the code of the carrier recovered; where that is not the one that came in, the row stays as it was.
fn recover<M: ExchangeMap>(
    map: &M,
    row: &mut [M::Elem],
    went: M::Elem,
    came: M::Elem,
) -> Result<u32, Refusal>
    requires { Belongs (M.ExchangeMap.meaning map.now) went row.old }
    ensures { Recovered (M.ExchangeMap.meaning map.now) went came row.old result row.new }
{
    let back = unsweep_row(map, row, went);
    // Kept: compared by codes, since by the project's rules elements are equal when their codes are.
    let code = map.code(back);
    if code == map.code(came) {
        return Ok(code);
    }

    // a sweep of the carrier recovered undoes the take-back
    let _ = sweep_row(map, row, back);
    Err(Refusal::WrongCarrier)
}

// Both halves of the log exchanged at a place, the newer carrier as the left one; answers the new incoming carriers, the older first.
// Kept: a `Result` that is always `Ok`: what the log's methods answer climbs by `?` here and in the calls; `unwrap` would need each count proved where it stands.
fn exchange_entries<E: Copy, F: Fn(E, E) -> (E, E)>(
    log: &mut Log<'_, E>,
    place: usize,
    pair: F,
) -> Result<(E, E), Refusal>
    requires callable { F.IsAlwaysCallable pair }
    requires in_log { Exchangeable (entries log.old) place }
    ensures lent { Lent log.old log.new }
    ensures exchanged { (f : Exchange E) → Answers f (F.post pair) → Exchanged f place (entries log.old) result (entries log.new) }
{
    let (came_left, came_right) = pair(log.incoming[place + 1], log.incoming[place]);
    let (went_left, went_right) = pair(log.outgoing[place + 1], log.outgoing[place]);
    log.replace(place, came_right, went_right)?;
    log.replace(place + 1, came_left, went_left)?;
    Ok((came_right, came_left))
}

// Both halves of the log exchanged at each place from the given one up to the last but one.
// Kept: `Ok` always, as in exchange_entries.
fn climb_entries<M: ExchangeMap>(
    map: &M,
    log: &mut Log<'_, M::Elem>,
    place: usize,
) -> Result<(), Refusal>
    requires { Counted (entries log.old) place }
    ensures lent { Lent log.old log.new }
    ensures climbed { Climbed (M.ExchangeMap.meaning map.now) place (entries log.old) result (entries log.new) }
{
    for i in place..log.count - 1 {
        exchange_entries(log, i, |left, right| map.cross(left, right))?;
    }
    Ok(())
}
