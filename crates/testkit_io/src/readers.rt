//! Readers and their windows.
ghost use Rattle.std.specs.Prelude.{◌≡◌, if◌then◌else◌, ◌+◌, ◌<◌, ◌≤◌, ◌++◌, false, length, take, IfOk, IfErr, IsTrue};
ghost use Rattle.wincode_io.specs.Cursors.{inner_of, position_of, reading};
ghost use Rattle.wincode_io.specs.Readers.{Loses};
ghost use Rattle.testkit_io.specs.ReaderUses.{PairsReadRefused};

use wincode_io::{Cursor, Lending, ReadResult, ReadWindow, Reader, copy_into_array};

/// Two pairs of bytes from the next six, through a window of these six, which gives the first pair,
/// and a window in it of the other four, which gives the second. The last two bytes are read by
/// nobody, and are gone from the reader too. It is `ReadSizeLimit(6)` where fewer bytes are left, and
/// then the reader stays where it is. A reader that counts its windows may refuse the window in the
/// window for want of a count, and has then gone on by the six.
pub fn pairs<L: Lending, R: Reader<L>>(reader: &mut R) -> ReadResult<([u8; 2], [u8; 2])>
    ensures loses { IfOk result (λ v. Loses 6 (R.state reader.old) (R.state reader.new)) }
    ensures value { IfOk result (λ v. IsTrue (R.state reader.old).is_known → v.0 ++ v.1 ≡ take 4 (R.state reader.old).rest) }
    ensures err { IfErr result (PairsReadRefused (R.state reader.old) (R.state reader.new)) }
{
    let mut outer = reader.as_trusted_for(6)?;
    let mut first = [0; 2];
    copy_into_array::<L, ReadWindow<L>, 2>(&mut outer, &mut first)?;
    let mut inner = outer.as_trusted_for(4)?;
    let mut second = [0; 2];
    inner.copy_into_slice(&mut second)?;
    Ok((first, second))
}

/// Goes on by `n` bytes where so many are left, and says whether it did; else the cursor stays where it
/// is, past its end too.
pub fn skips(cursor: &mut Cursor<&[u8]>, n: usize) -> bool
    ensures there { IsTrue result → n ≤ length (reading cursor.old).rest }
    ensures short { result ≡ false → length (reading cursor.old).rest < n }
    ensures inner { (inner_of cursor.new).now ≡ (inner_of cursor.old).now }
    ensures position { position_of cursor.new ≡ (if result then position_of cursor.old + n else position_of cursor.old) }
{
    cursor.consume(n).is_ok()
}
