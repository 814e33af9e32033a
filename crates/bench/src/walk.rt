// One carrier over a row, there and back, over the elements of any map.
ghost use Rattle.runs.specs.Sweeps.{Belong, swept, taken};
ghost use Rattle.std.specs.Prelude.{◌≡◌, T, ◌↔◌};

use exchange::ExchangeMap;

// Sweeps the carrier along the row, first box to last, and answers what goes out.
pub fn sweep_row<M: ExchangeMap>(map: &M, row: &mut [M::Elem], carrier: M::Elem) -> M::Elem
    ensures { (row.new, result) ≡ swept (M.ExchangeMap.meaning map.now) carrier row.old }
{
    let mut moving = carrier;
    for place in row.iter_mut() {
        let (left, right) = map.cross(moving, *place);
        *place = left;
        moving = right;
    }
    moving
}

// Takes a sweep back, last box to first, and answers the carrier that had come in.
pub fn unsweep_row<M: ExchangeMap>(map: &M, row: &mut [M::Elem], carrier: M::Elem) -> M::Elem
    ensures { (result, row.new) ≡ taken (M.ExchangeMap.meaning map.now) row.old carrier }
{
    let mut moving = carrier;
    // Kept: the loop by index. Over `row.iter_mut().rev()` no invariant can name what was written, so the proof did not close.
    for i in (0..row.len()).rev() {
        let (former, place) = map.uncross(row[i], moving);
        row[i] = place;
        moving = former;
    }
    moving
}

// Whether every value is an element of the map.
pub fn all_belong<M: ExchangeMap>(map: &M, values: &[M::Elem]) -> bool
    ensures { T result ↔ Belong (M.ExchangeMap.meaning map.now) values.now }
{
    values.iter().all(|x| map.belongs(*x))
}
