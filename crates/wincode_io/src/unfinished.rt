//! A writer that is lent for many pieces of writing.
ghost use Rattle.std.specs.Prelude.{◌≡◌, false};
ghost use Rattle.wincode_io.specs.LentWriters.{LentKept, lent_of};

use super::error::WriteResult;
use super::writer::Writer;
use super::zero_copy::ZeroCopy;

/// A writer that is lent, and whose `finish` does nothing: so many values go through it by calls that end each piece of
/// writing by `finish`, as `serialize_into` does, and a buffer is passed on only where it is full. Its owner finishes the
/// writer itself, once.
///
/// All else is as of the writer.
#[derive(Drop)]
pub struct Unfinished<'b, W: Writer> {
    writer: &'b mut W,
}

impl<'b, W: Writer> Unfinished<'b, W> {
    /// The writer, until this ends.
    pub fn new(writer: &'b mut W) -> Unfinished<'b, W>
        ensures same_reference { result.writer.ghost_name ≡ writer.entry.ghost_name }
        ensures writer { result.writer.now ≡ writer.old }
    {
        Unfinished { writer }
    }
}

impl<'b, W: Writer> Writer for Unfinished<'b, W> {
    ghost Content = { W.Content };

    ghost put = { W.put };

    ghost room = { W.room };

    ghost Kept = { LentKept W.Kept };

    ghost state = { λ u. lent_of (W.state u.writer.now) u.writer.ghost_name };

    ghost buffers = { false };

    fn make_room(&mut self, n: usize) -> WriteResult<()> {
        self.writer.make_room(n)
    }

    #[inline(always)]
    fn room_at_hand(&self) -> usize {
        self.writer.room_at_hand()
    }

    fn write_ready(&mut self, src: &[u8]) {
        self.writer.write_ready(src);
    }

    fn write_ready_t<T: ZeroCopy>(&mut self, src: &T) {
        self.writer.write_ready_t(src);
    }

    fn finish(&mut self) -> WriteResult<()> {
        Ok(())
    }

    ghost writer_laws = { W.writer_laws };

    ghost ready_room = { λ u. W.ready_room u.writer.now };
}
