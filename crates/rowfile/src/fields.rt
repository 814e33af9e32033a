// Lines and fields cut out of a text.
ghost use Rattle.std.specs.Iterator.{YieldsFirstRef, item_count};
ghost use Rattle.rowfile.specs.Lines.{First};
ghost use Rattle.rowfile.specs.Judging.{fields_of};

// The place of the first byte `mark`, or the length where there is none.
// Kept: the length and no Option, since both callers cut there.
pub fn until(bytes: &[u8], mark: u8) -> usize
    ensures { First mark bytes.now result }
{
    bytes.iter().position(|b| *b == mark).unwrap_or(bytes.len())
}

// Fields, each of which stands behind a tab.
#[derive(Clone, Copy)]
pub struct Fields<'a> {
    pub bytes: &'a [u8],
}

impl<'a> Iterator for Fields<'a> {
    type Item = &'a [u8];

    ghost next_gives = { YieldsFirstRef fields_of };

    ghost remaining = { item_count fields_of };

    fn next(&mut self) -> Option<&'a [u8]> {
        let [_, rest @ ..] = self.bytes else {
            return None;
        };
        let (field, next) = rest.split_at(until(rest, b'\t'));
        self.bytes = next;
        Some(field)
    }
}
