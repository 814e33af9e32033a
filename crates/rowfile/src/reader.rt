// The text, line by line.
ghost use Rattle.std.specs.Prelude.{◌≡◌, ◌≢◌, [], ◌∷◌, ◌++◌, MatchOption};
ghost use Rattle.rowfile.specs.Lines.{Bytes, fields};
ghost use Rattle.rowfile.specs.Reading.{Accepts, Reads, Rejects};
ghost use Rattle.rowfile.specs.Stepping.{Ends, Takes};

use crate::file::{Command, ReadError, RowFile, Stage};
use crate::lines::{LineError, Record, command, heading, recognize, row_codes};
use exchange::Refusal;
use std::alloc::Global;

// The most bytes that a text has.
pub const MAX_BYTES: usize = 32768;

// What the lines read so far say.
// Kept: codes and commands beside the stage: `recognize` takes the stage by copy, and with vectors in its cases every line would move them out and in.
#[derive(Drop)]
struct Reader {
    stage: Stage,
    codes: Vec<u32>,
    commands: Vec<Command>,
}

impl Reader {
    // Reads one more line, given without its byte 10.
    fn read_line(
        &mut self,
        heap: Global,
        bytes: &[u8],
        line: u32,
        offset: usize,
    ) -> Result<(), LineError>
        ensures { Takes self.old (fields bytes.now) result self.new }
    {
        match recognize(self.stage, bytes, line, offset)? {
            Record::Map { fields, .. } => self.stage = Stage::Row(heading(fields)?),
            Record::Row {
                heading,
                fields,
                ..
            } => {
                self.codes = row_codes(heap, heading, fields)?;
                self.stage = Stage::Commands(heading);
            }
            Record::Command {
                heading,
                letter,
                fields,
                ..
            } => self.commands.push(command(heading, letter, fields)?)?,
        }
        Ok(())
    }

    // The file, if the text may end here.
    fn finish(self) -> Result<RowFile, Refusal>
        ensures { Ends self result }
    {
        match self.stage {
            Stage::Commands(heading) => Ok(RowFile {
                heading,
                codes: self.codes,
                commands: self.commands,
            }),
            _ => Err(Refusal::BadForm),
        }
    }
}

// The bytes before the byte 10 that ends them, if one does.
fn without_end(ended: &[u8]) -> Option<&[u8]>
    ensures { MatchOption result ((front : Bytes) → ended.now ≢ front ++ 10 ∷ []) (λ bytes. ended.now ≡ bytes.now ++ 10 ∷ []) }
{
    match ended {
        [bytes @ .., b'\n'] => Some(bytes),
        _ => None,
    }
}

// The file that `text` says, or why it is not read; but for want of memory no other answer is right.
pub fn read(heap: Global, text: &[u8]) -> Result<RowFile, ReadError>
    ensures says { Reads text.now result }
    ensures accepts { Accepts text.now result }
    ensures rejects { Rejects text.now result }
{
    if text.len() > MAX_BYTES {
        return Err(LineError::Refused(Refusal::TooLong).at(0));
    }
    let mut reader = Reader {
        stage: Stage::Map,
        codes: Vec::new(heap),
        commands: Vec::new(heap),
    };
    // Kept: two counts by hand, since a fault at the end names the line past the last, and an offset is a sum of lengths.
    let mut line = 1;
    let mut offset = 0;
    for ended in text.split_inclusive(|b| *b == b'\n') {
        let Some(bytes) = without_end(ended) else {
            return Err(LineError::Refused(Refusal::BadForm).at(line));
        };
        reader
            .read_line(heap, bytes, line, offset)
            .map_err(|error| error.at(line))?;
        line += 1;
        offset += ended.len();
    }
    reader
        .finish()
        .map_err(|refusal| LineError::Refused(refusal).at(line))
}
