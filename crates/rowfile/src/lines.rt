// What one line says, or why it is faulty.
ghost use Rattle.exchange.specs.declared.refusal.Refusal.TheVariants.{BadForm as FormRefused, BadNumber as NumberRefused};
ghost use Rattle.rowfile.specs.Faults.{NoNumber, Any};
ghost use Rattle.rowfile.specs.Judging.{Judged, JudgedRow, Named, ReadsNumbers, Recorded, WritesAll, fields_of};
ghost use Rattle.rowfile.specs.Files.{side_word};
ghost use Rattle.rowfile.specs.Stepping.{place};
ghost use Rattle.rowfile.specs.declared.lines.LineError.TheVariants.{Memory, Refused};
ghost use Rattle.rowfile.specs.declared.file.Stage.TheVariants.{Commands, Map};
ghost use Rattle.std.specs.Prelude.{◌≡◌, [], ◌∷◌, codes as bytes, MatchResult, ◌≢◌};

use crate::fields::{Fields, until};
use crate::file::{Command, Fault, Heading, MapName, ReadError, Side, Stage};
use crate::number::{BadNumber, number};
use exchange::Refusal;
use std::alloc;
use std::alloc::Global;

// The most codes that a row has.
// Kept: the same number as the bench's greatest row, on which this crate does not depend.
pub const MAX_CODES: usize = 1024;

// Why a line is not read: it is faulty, or there is no memory for its codes.
// Kept: beside ReadError, since a line does not know its number.
#[derive(Clone, Copy)]
pub enum LineError {
    Refused(Refusal),
    Memory,
}

impl LineError {
    // The error of a text with that line.
    pub fn at(self, line: u32) -> ReadError
        ensures { result ≡ place line self }
    {
        match self {
            LineError::Refused(refusal) => ReadError::Fault(Fault { line, refusal }),
            LineError::Memory => ReadError::Memory,
        }
    }
}

// Kept: the conversions are written out, since contracts name the error that each gives, and a derived one says nothing of it.
impl From<Refusal> for LineError {
    ghost from_gives = { λ e r. r ≡ Refused e };

    fn from(e: Refusal) -> LineError {
        LineError::Refused(e)
    }
}

impl From<BadNumber> for LineError {
    ghost from_gives = { λ _ r. r ≡ Refused NumberRefused };

    fn from(_e: BadNumber) -> LineError {
        LineError::Refused(Refusal::BadNumber)
    }
}

impl<T: Drop> From<alloc::AllocFailed<T>> for LineError {
    ghost from_gives = { λ _ r. r ≡ Memory };

    fn from(_e: alloc::AllocFailed<T>) -> LineError {
        LineError::Memory
    }
}

impl From<BadNumber> for Refusal {
    ghost from_gives = { λ _ r. r ≡ NumberRefused };

    fn from(_e: BadNumber) -> Refusal {
        Refusal::BadNumber
    }
}

// One line: which of the three it is, its fields behind the first, its number and the offset of its first byte.
// A row and a command are read under the heading of the text.
// Kept: fields, line and offset in every case: the project's rules name this form.
#[derive(Clone, Copy)]
pub enum Record<'a> {
    Map {
        fields: Fields<'a>,
        line: u32,
        offset: usize,
    },
    Row {
        heading: Heading,
        fields: Fields<'a>,
        line: u32,
        offset: usize,
    },
    Command {
        heading: Heading,
        letter: char,
        fields: Fields<'a>,
        line: u32,
        offset: usize,
    },
}

// The record that `bytes`, a line without its byte 10, is at this stage.
pub fn recognize(
    stage: Stage,
    bytes: &[u8],
    line: u32,
    offset: usize,
) -> Result<Record<'_>, Refusal>
    ensures { Recorded stage bytes.now line offset result }
{
    let (first, bytes) = bytes.split_at(until(bytes, b'\t'));
    let fields = Fields { bytes };
    match (stage, first) {
        (Stage::Map, b"map") => Ok(Record::Map {
            fields,
            line,
            offset,
        }),
        (Stage::Row(heading), b"row") => Ok(Record::Row {
            heading,
            fields,
            line,
            offset,
        }),
        (Stage::Commands(heading), [letter]) => Ok(Record::Command {
            heading,
            letter: char::from(*letter),
            fields,
            line,
            offset,
        }),
        _ => Err(Refusal::BadForm),
    }
}

// The numbers that exactly `N` fields write.
fn numbers<const N: usize>(fields: Fields<'_>) -> Result<[u32; N], Refusal>
    ensures { ReadsNumbers N (fields_of fields.entry) result }
{
    if fields.count() != N {
        return Err(Refusal::BadForm);
    }
    let mut values = [0; N];
    for (i, field) in fields.enumerate() {
        values[i] = number(field)?;
    }
    Ok(values)
}

// Kept: the words stand in a match here and in one of the writer, since each reads plainly, and a table of them would be searched by hand.
fn side(word: &[u8]) -> Result<Side, Refusal>
    ensures { MatchResult result (λ s. word.now ≡ side_word s) (λ e. (e ≡ FormRefused) × ((s : Side) → word.now ≢ side_word s)) }
{
    match word {
        b"L" => Ok(Side::Left),
        b"R" => Ok(Side::Right),
        _ => Err(Refusal::BadForm),
    }
}

// The map of that name, with the parameters that the fields write.
fn map_name(name: &[u8], fields: Fields<'_>) -> Result<MapName, Refusal>
    ensures { Named name.now (fields_of fields.entry) result }
{
    match name {
        b"cap" => {
            let [] = numbers::<0>(fields)?;
            Ok(MapName::Cap)
        }
        b"perm" => {
            let [] = numbers::<0>(fields)?;
            Ok(MapName::Perm)
        }
        b"aff" => {
            let [m, a, b, c, d] = numbers::<5>(fields)?;
            Ok(MapName::Aff { m, a, b, c, d })
        }
        b"phase" => {
            let [m] = numbers::<1>(fields)?;
            Ok(MapName::Phase { m })
        }
        _ => Err(Refusal::BadForm),
    }
}

// The heading that the fields behind the word `map` say.
pub fn heading(mut fields: Fields<'_>) -> Result<Heading, Refusal>
    ensures { Judged Map (bytes "map" ∷ fields_of fields.entry) result }
{
    let side = side(fields.next().ok_or(Refusal::BadForm)?)?;
    let name = fields.next().ok_or(Refusal::BadForm)?;
    let map = map_name(name, fields)?;
    if !map.parameters_hold() {
        return Err(Refusal::BadParameters);
    }
    Ok(Heading { side, map })
}

// The command of that letter with the number that the fields behind it write.
pub fn command(heading: Heading, letter: char, fields: Fields<'_>) -> Result<Command, Refusal>
    ensures { Judged (Commands heading) ((letter ∷ []) ∷ fields_of fields.entry) result }
{
    match letter {
        'S' => {
            let [code] = numbers::<1>(fields)?;
            if !heading.map.is_code(code) {
                return Err(Refusal::NoElement);
            }
            Ok(Command::Sweep(code))
        }
        'X' => {
            let [place] = numbers::<1>(fields)?;
            Ok(Command::Exchange(place))
        }
        'Y' => {
            let [place] = numbers::<1>(fields)?;
            Ok(Command::ExchangeBack(place))
        }
        'N' => {
            let [kind] = numbers::<1>(fields)?;
            Ok(Command::Raise(kind))
        }
        'B' => {
            let [] = numbers::<0>(fields)?;
            Ok(Command::TakeBack)
        }
        'P' => {
            let [] = numbers::<0>(fields)?;
            Ok(Command::Print)
        }
        _ => Err(Refusal::BadForm),
    }
}

// How many numbers the fields write.
// Kept: a count by hand, since one pass both checks and counts; a `try_fold` would hide the check in a closure.
fn count_numbers(fields: Fields<'_>) -> Result<usize, BadNumber>
    ensures { MatchResult result (λ n. WritesAll (fields_of fields.entry) n) (λ _. Any NoNumber (fields_of fields.entry)) }
{
    let mut count = 0;
    for field in fields {
        number(field)?;
        count += 1;
    }
    Ok(count)
}

// The codes that the fields behind the word `row` write.
pub fn row_codes(heap: Global, heading: Heading, fields: Fields<'_>) -> Result<Vec<u32>, LineError>
    ensures { JudgedRow heading (bytes "row" ∷ fields_of fields.entry) result }
{
    if count_numbers(fields)? > MAX_CODES {
        return Err(LineError::Refused(Refusal::RowFull));
    }
    let mut codes = Vec::new(heap);
    for field in fields {
        let code = number(field)?;
        if !heading.map.is_code(code) {
            return Err(LineError::Refused(Refusal::NoElement));
        }
        codes.push(code)?;
    }
    Ok(codes)
}
