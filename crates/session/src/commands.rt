// A row file played on a map, command after command.
ghost use Rattle.bench.specs.Bench.{held};
ghost use Rattle.rowfile.specs.Reading.{file_of};
ghost use Rattle.session.specs.Played.{PlaysOn, code_fields, printed};
ghost use Rattle.session.specs.Playing.{Fills, Rowed, RunsOn, Steps};
ghost use Rattle.std.specs.Prelude.{◌≡◌, ◌≤◌, ◌∷◌, ◌++◌, codes, length, take, IfOk, string_bytes, OnOk};

use crate::lines::{NoMemory, say_answer, say_elements, say_refusal};
use crate::raising::Raising;
use bench::{Closed, Filling, Halves, Running};
use exchange::ExchangeMap;
use rowfile::{Command, RowFile};
use std::alloc::Global;

// how many sweeps the log of a session holds
const LOG_PLACES: usize = 256;

// A session in the midst of its commands: a running bench over a map, and the memory that its calls are lent.
struct Player<'m, 'a, M: ExchangeMap, R> {
    map: &'m M,
    raising: &'m R,
    bench: Running,
    row: Vec<M::Elem>,
    halves: Halves<'a, M::Elem>,
}

impl<M: ExchangeMap, R: Raising<M>> Player<'_, '_, M, R> {
    // Runs one command and writes its line.
    fn step(&mut self, command: Command, out: &mut String) -> Result<(), NoMemory>
        ensures same_map { self.new.map ≡ self.old.map }
        ensures steps { OnOk result (Steps (M.ExchangeMap.meaning self.old.map.now) R.allowed command (held self.old.bench self.old.row.items self.old.halves) (string_bytes out.old) (held self.new.bench self.new.row.items self.new.halves) (string_bytes out.new)) }
    {
        let map = self.map;
        // Kept: `as usize`, since there is no `From<u32>` for `usize`.
        match command {
            Command::Sweep(code) => {
                let carrier = map.element(code);
                let answer = self
                    .bench
                    .sweep(map, &mut self.row, &mut self.halves, carrier);
                say_answer(out, "S", answer)
            }
            Command::TakeBack => {
                let answer = self.bench.take_back(map, &mut self.row, &mut self.halves);
                say_answer(out, "B", answer)
            }
            Command::Exchange(place) => {
                let answer = self
                    .bench
                    .exchange(map, &self.row, &mut self.halves, place as usize);
                say_answer(out, "X", answer)
            }
            Command::ExchangeBack(place) => {
                let answer = self
                    .bench
                    .exchange_back(map, &self.row, &mut self.halves, place as usize);
                say_answer(out, "Y", answer)
            }
            Command::Raise(kind) => {
                let answer = self
                    .raising
                    .raise(&self.bench, map, &self.row, &mut self.halves, kind);
                match answer {
                    Ok(()) => self.say_log(out),
                    Err(refusal) => say_refusal(out, refusal),
                }
            }
            Command::Print => say_elements(out, "row", map, &self.row),
        }
    }

    // The codes of the log's incoming carriers.
    fn say_log(&self, out: &mut String) -> Result<(), NoMemory>
        requires { self.now.bench.sweeps ≤ length self.now.halves.incoming.now }
        ensures { OnOk result (string_bytes out.new ≡ string_bytes out.old ++ printed (codes "N" ∷ code_fields (M.ExchangeMap.meaning self.now.map.now) (take self.now.bench.sweeps self.now.halves.incoming.now))) }
    {
        let carriers = &self.halves.incoming[0..self.bench.sweeps()];
        say_elements(out, "N", self.map, carriers)
    }

    // Runs the commands one after another.
    fn run(&mut self, commands: &[Command], out: &mut String) -> Result<(), NoMemory>
        ensures { OnOk result (RunsOn (M.ExchangeMap.meaning self.old.map.now) R.allowed commands.now (held self.old.bench self.old.row.items self.old.halves) (string_bytes out.old) (string_bytes out.new)) }
    {
        for command in commands {
            self.step(*command, out)?;
        }
        Ok(())
    }
}

// A bench whose row holds the elements of the codes.
fn fill<M: ExchangeMap>(map: &M, row: &mut [M::Elem], codes: &[u32]) -> Filling
    ensures { Fills (M.ExchangeMap.meaning map.now) codes.now row.old result row.new }
{
    let mut bench = Filling::new();
    for code in codes {
        let element = map.element(*code);
        // never refused: the row has a place for each code, and an element of a code belongs
        // Kept: `let _`: `unwrap` would ask of the caller, besides, what `Fills` has as its premises.
        let _ = bench.put(map, row, element);
    }
    bench
}

// The lines of a row file, played on a map.
pub(crate) fn play_on<'m, M: ExchangeMap, R: Raising<M>>(
    heap: Global,
    map: &'m M,
    raising: &'m R,
    file: &RowFile,
) -> Result<String, NoMemory>
    ensures { IfOk result (λ s. (Rowed (M.ExchangeMap.meaning map.now) file.now.codes.items → PlaysOn (M.ExchangeMap.meaning map.now) R.allowed (file_of file.now) (string_bytes s))) }
{
    // Kept: three vectors side by side, since the bench's calls are lent a slice of each.
    let mut row = vec![in heap; map.rest(); file.codes.len()]?;
    let mut incoming = vec![in heap; map.rest(); LOG_PLACES]?;
    let mut outgoing = vec![in heap; map.rest(); LOG_PLACES]?;
    let bench = fill(map, &mut row, &file.codes).start(map);
    let mut player = Player {
        map,
        raising,
        bench,
        row,
        halves: Halves {
            incoming: &mut incoming,
            outgoing: &mut outgoing,
        },
    };
    let mut out = String::new(heap);
    let played = player.run(&file.commands, &mut out);
    let Player {
        map: _map,
        raising: _raising,
        bench,
        row: _row,
        halves: _halves,
    } = player;
    let Closed {
        boxes: _,
        sweeps: _,
    } = bench.close();
    played?;
    Ok(out)
}
