// A text read and written again.
ghost use Rattle.rowfile.specs.Copying.{Copies, OneText, OnlyTexts};
ghost use Rattle.rowfile.specs.declared.file.ReadError.TheVariants.{Fault as Faulted};
ghost use Rattle.std.specs.Prelude.{◌≡◌};

use crate::file::{Fault, ReadError};
use crate::reader::read;
use crate::writer::write;
use std::alloc::Global;

// Kept: as in the reader's lines, contracts name the error that it gives.
impl From<Fault> for ReadError {
    ghost from_gives = { λ e r. r ≡ Faulted e };

    fn from(e: Fault) -> ReadError {
        ReadError::Fault(e)
    }
}

// Writes what `text` says to the start of `out`: the same bytes, since no file has two texts and no text says two files.
// Kept: memory handed over and the length answered, as in write.
pub fn rewrite(heap: Global, text: &[u8], out: &mut [u8]) -> Result<usize, ReadError>
    ensures copies { Copies text.now out.old result out.new }
    ensures one_text { OneText }
    ensures only_texts { OnlyTexts text.now result }
{
    let file = read(heap, text)?;
    Ok(write(file.heading, &file.codes, &file.commands, out)?)
}
