// The log: entries of an incoming and an outgoing carrier, the oldest at place 0, in two slices that the caller lends.
// `add` writes at the count; else memory at or past the count is not touched, and a refusal touches nothing.
ghost use Rattle.bench.specs.Log.{Added, Lent, Removed, Replaced, Within, entries};
ghost use Rattle.std.specs.Prelude.{◌≡◌, T, ◌↔◌};

use exchange::Refusal;

// The memory of a log: its incoming and its outgoing half, which the caller lends at each call.
#[derive(Drop)]
pub struct Halves<'a, E> {
    pub incoming: &'a mut [E],
    pub outgoing: &'a mut [E],
}

// Kept: two lent slices, as in `Halves`, and a count beside them: `Log` is public with these fields, a container over lent slices by the project's rules.
#[derive(Drop)]
pub struct Log<'a, E> {
    pub incoming: &'a mut [E],
    pub outgoing: &'a mut [E],
    pub count: usize,
}

// Kept: `lent` in the contract of each method, since no invariant can say that a slice was not traded for another.
impl<E: Copy> Log<'_, E> {
    // Whether a place lies in both halves.
    fn holds(&self, place: usize) -> bool
        ensures { T result ↔ Within (entries self.now) place }
    {
        place < self.incoming.len() && place < self.outgoing.len()
    }

    // One entry more, after the newest.
    pub fn add(&mut self, incoming: E, outgoing: E) -> Result<(), Refusal>
        ensures lent { Lent self.old self.new }
        ensures added { Added (entries self.old) incoming outgoing result (entries self.new) }
    {
        let end = self.count;
        if !self.holds(end) {
            return Err(Refusal::LogFull);
        }
        self.incoming[end] = incoming;
        self.outgoing[end] = outgoing;
        self.count += 1;
        Ok(())
    }

    // The newest entry, which the log then no longer counts; its memory stays as it is.
    pub fn remove_newest(&mut self) -> Result<(E, E), Refusal>
        ensures lent { Lent self.old self.new }
        ensures removed { Removed (entries self.old) result (entries self.new) }
    {
        let newest = self.count.saturating_sub(1);
        if self.count == 0 || !self.holds(newest) {
            return Err(Refusal::LogEmpty);
        }
        self.count = newest;
        Ok((self.incoming[newest], self.outgoing[newest]))
    }

    // Another entry at a place that the log counts.
    pub fn replace(&mut self, place: usize, incoming: E, outgoing: E) -> Result<(), Refusal>
        ensures lent { Lent self.old self.new }
        ensures replaced { Replaced (entries self.old) place incoming outgoing result (entries self.new) }
    {
        if place >= self.count || !self.holds(place) {
            return Err(Refusal::NoPlace);
        }
        self.incoming[place] = incoming;
        self.outgoing[place] = outgoing;
        Ok(())
    }
}
