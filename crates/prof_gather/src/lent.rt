//! A source that is lent.
use prof_io::{Counted, Failed, Source};

/// A source that is lent. It is known by its reference, whatever is read from it.
#[derive(Drop)]
pub struct Lent<'a, S> {
    pub src: &'a mut S,
}

impl<'a, S: Source> Counted for Lent<'a, S> {
    ghost use Rattle.std.specs.Prelude.{Some};
    ghost use Rattle.prof_gather.specs.Marks.{marked};

    ghost faults = { λ l. S.faults l.src.now };

    ghost left = { λ l. S.left l.src.now };

    // It is no sink: what no read changes stands here, the name of the reference too.
    ghost written = { λ l. Some (marked l.src.ghost_name (S.written l.src.now)) };

    ghost place = { λ l. S.place l.src.now };

    ghost sure = { λ l. S.sure l.src.now };
}

impl<'a, S: Source> Source for Lent<'a, S> {
    fn read(&mut self, buf: &mut [u8]) -> Result<usize, Failed> {
        self.src.read(buf)
    }
}
