// A row file played on the map that its heading names.
ghost use Rattle.rowfile.specs.Files.{Keeps};
ghost use Rattle.rowfile.specs.Reading.{file_of};
ghost use Rattle.session.specs.Played.{OneSession, PlaysFile, PlaysOn, Session, seen_from};
ghost use Rattle.session.specs.Playing.{Rowed};
ghost use Rattle.std.specs.Prelude.{true, false, IfOk, string_bytes};

use crate::commands::play_on;
use crate::lines::NoMemory;
use crate::raising::{Allowed, Raising, Refused};
use exchange::{ExchangeMap, Mirror};
use maps::{Affine, Capacity, Permutations, Phases};
use rowfile::{MapName, ReadError, RowFile, Side, read};
use std::alloc::Global;

// What the text of a row file prints: a line for each of its commands, or its first fault.
pub fn play(heap: Global, text: &[u8]) -> Result<String, NoMemory>
    ensures lines { IfOk result (λ s. Session text.now (string_bytes s)) }
    ensures one { OneSession }
{
    match read(heap, text) {
        Ok(file) => play_file(heap, &file),
        Err(ReadError::Fault(fault)) => Ok(format!(in heap; "{fault}\n")?),
        Err(ReadError::Memory) => Err(NoMemory),
    }
}

fn play_file(heap: Global, file: &RowFile) -> Result<String, NoMemory>
    requires { Keeps (file_of file.now) }
    ensures { IfOk result (λ s. PlaysFile (file_of file.now) (string_bytes s)) }
{
    match file.heading.map {
        MapName::Cap => play_seen(heap, Capacity, &Allowed, file),
        MapName::Perm => play_seen(heap, Permutations, &Refused, file),
        MapName::Aff { m, a, b, c, d } => {
            let map = Affine::new(m, a, b, c, d).unwrap();
            play_seen(heap, map, &Refused, file)
        }
        MapName::Phase { m } => {
            let map = Phases::new(m).unwrap();
            play_seen(heap, map, &Allowed, file)
        }
    }
}

// The lines of a row file, played on a map as its side sees it.
fn play_seen<M: ExchangeMap + Copy, R: Raising<M> + Raising<Mirror<M>>>(
    heap: Global,
    map: M,
    raising: &R,
    file: &RowFile,
) -> Result<String, NoMemory>
    requires { Rowed (M.ExchangeMap.meaning map) file.now.codes.items }
    ensures { IfOk result (λ s. PlaysOn (seen_from file.now.heading.side (M.ExchangeMap.meaning map)) R.allowed (file_of file.now) (string_bytes s)) }
{
    match file.heading.side {
        Side::Left => play_on(heap, &map, raising, file),
        Side::Right => play_on(heap, &Mirror(map), raising, file),
    }
}
