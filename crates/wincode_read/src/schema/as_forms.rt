//! Values as their byte forms, one or many at once.
ghost use Rattle.std.specs.Prelude.{◌≡◌, ◌*◌, false, IsTrue, IfErr, OnOk, OnErr};
ghost use Rattle.wincode_io.specs.Joins.{AreItems};
ghost use Rattle.wincode_base.specs.AsForms.{reads_form, BulkReadRefused};
ghost use Rattle.wincode_base.specs.Outcomes.{Adds, ReadRefused};

use wincode_base::error::{ReadError, ReadResult, read_length_encoding_overflow};
use wincode_io::bulk::add_forms;
use wincode_io::{Lending, Reader, ZeroCopy, see_bytes, total_size};

/// Reads `n` forms at once, and adds their values to the list. Where fewer bytes are left it is
/// `ReadSizeLimit` of the size of all, in bytes; `LengthEncodingOverflow` where that is past
/// `usize::MAX`. Refused, for memory too, all bytes stay, and the list holds what it held.
pub(crate) fn read_all<L: Lending, R: Reader<L>, T: ZeroCopy>(
    reader: &mut R,
    n: usize,
    into: &mut Vec<T>,
) -> ReadResult<()>
    ensures ok { OnOk result (Adds n (reads_form T.is_valid T.form) (λ v. v) (R.state reader.old) (R.state reader.new) into.old.items into.new.items) }
    ensures err { IfErr result (ReadRefused (AreItems n (reads_form T.is_valid T.form)) 0 false (R.state reader.old) (R.state reader.new)) }
    ensures at_once { IfErr result (BulkReadRefused (n * T.size) (R.state reader.old) (R.state reader.new)) }
    ensures same { OnErr result (into.new.items ≡ into.old.items) }
{
    let Some(total) = total_size::<T>(n) else {
        // No effect at run time: the proof reads what it holds from this use of it.
        let _ = &*reader;
        return Err(read_length_encoding_overflow("usize::MAX"));
    };
    let bytes = reader.fill_exact(total)?;
    if add_forms(bytes, n, into).is_err() {
        return Err(ReadError::OutOfMemory);
    }
    reader.consume_unchecked(total);
    Ok(())
}

/// Puts the value of the form that the bytes are into the place, where they are as many as a form has.
#[inline(always)]
pub(crate) fn decode_form<T: ZeroCopy>(bytes: &[u8], place: &mut T) -> bool
    ensures { IsTrue result → reads_form T.is_valid T.form bytes.now place.new }
{
    match T::form_size() {
        Some(size) if size == bytes.len() => {
            see_bytes(bytes);
            *place = T::of_form(bytes);
            true
        }
        _ => false,
    }
}
