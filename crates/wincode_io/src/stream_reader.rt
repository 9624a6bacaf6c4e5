//! A buffered reader over any source.
ghost use Rattle.std.specs.Prelude.{◌≡◌, ℕ, ◌+◌, ◌*◌, ◌<◌, ◌≤◌, false, [], length, min, take, IfOk, IfErr, OnOk, OnErr, IsTrue, Err};
ghost use Rattle.wincode_io.specs.Readers.{Stays, IsSound, Readies, Loses, Takes, IsShort, IsShown, IsPeeked, BytesReadRefused, Fills, Windowed, WindowRefused, counted};
ghost use Rattle.wincode_io.specs.FormCalls.{TakesForm, TakesForms, FormReadRefused};
ghost use Rattle.wincode_io.specs.Writers.{byte_limit};
ghost use Rattle.wincode_io.specs.Windows.{window_state};
ghost use Rattle.std.specs.Io.BufRead.{Rests};
ghost use types.Logic.{sem};
ghost use Rattle.wincode_io.specs.contracts.stream_reader.StreamReader.{the_row as stream-row};
ghost use Rattle.wincode_io.specs.Streams.{Streamed, stream_state, IsOver, IsUnasked, Asks, gone, IsFetched, StreamRefused, StreamWindowRefused};

use super::buffer::Buffer;
use super::error::{ReadError, ReadResult};
use super::input::Input;
use super::lending::{Lending, Lifetime};
use super::reader::Reader;
use super::source::Source;
use super::std_source::StdSource;
use super::trace::Trace;
use super::window::{CountedSliceReader, ReadWindow};
use super::zero_copy::{ZeroCopy, read_forms, total_size};
use std::alloc::Global;
use std::io::{self, Read};
use std::marker::Model;

/// Reads from a source through a buffer, and lends nothing.
///
/// To contracts it is how many bytes went by, those at hand, the source, and whether that has ended or failed. What it reads are the bytes
/// at hand, followed by those that will come of the source. A call for `n` bytes doesn't ask the source where `n` are at
/// hand, nor after its end or its first failure, and leaves at most 8191 further ones at hand because it asked.
#[derive(Drop)]
pub struct StreamReader<S: Source> {
    source: S,
    buffer: Buffer,
    /// How many bytes went by, up to `usize::MAX`.
    position: usize,
    /// Which bytes went by.
    gone: Trace,
    has_ended: bool,
    has_failed: bool,
}

impl<S: Source> Model for StreamReader<S> {
    ghost use Rattle.std.specs.Prelude.{◌≡◌, ℕ, ◌<◌, length, min, IsTrue};
    ghost use Rattle.wincode_io.specs.Streams.{Streamed, IsOver};
    ghost use Rattle.wincode_io.specs.Writers.{byte_limit};

    ghost Value = { Streamed S };

    ghost view = { λ r. record { position = length r.gone.bytes; at_hand = r.buffer; source = r.source; has_ended = r.has_ended; has_failed = r.has_failed } };

    ghost invariant = { λ r.
        (r.position ≡ min (length r.gone.bytes) byte_limit)
        × (IsTrue r.has_ended → IsOver (S.state r.source))
        × (IsTrue r.has_failed → 0 < (S.state r.source).failures) };
}

impl<S: Source> StreamReader<S> {
    /// A reader of what comes of this source, of which it reads nothing yet. It is `OutOfMemory` where memory for a
    /// buffer of 8192 bytes is refused, and then the source is dropped.
    pub fn new(alloc: Global, source: S) -> ReadResult<Self>
    where
        S: Drop,
        ensures ok { IfOk result (λ r. (r.position ≡ 0) × (r.at_hand ≡ []) × (r.source ≡ source) × (r.has_ended ≡ false) × (r.has_failed ≡ false)) }
        ensures err { IfErr result (λ e. e ≡ ReadError.OutOfMemory) }
    {
        let Ok(buffer) = Buffer::new(alloc) else {
            return Err(ReadError::OutOfMemory);
        };
        Ok(StreamReader {
            source,
            buffer,
            position: 0,
            gone: Trace::new(),
            has_ended: false,
            has_failed: false,
        })
    }

    /// The source. The bytes at hand are dropped.
    pub fn into_source(self) -> S
        ensures { result ≡ self.source }
    {
        let StreamReader {
            source,
            buffer: _,
            position: _,
            gone: _,
            has_ended: _,
            has_failed: _,
        } = self;
        source
    }

    /// How many bytes went by, since the reader was made: where the next one that it reads stands. The count stays at
    /// `usize::MAX`.
    pub fn position(&self) -> usize
        ensures { result ≡ min self.now.position byte_limit }
    {
        self.position
    }

    /// The bytes at hand: they came from the source and were not read yet.
    pub fn unread(&self) -> &[u8]
        ensures { result.now ≡ self.now.at_hand }
    {
        self.buffer.as_slice()
    }

    /// How many bytes its buffer has memory for, those that were read among them.
    pub fn capacity(&self) -> usize
        ensures { length self.now.at_hand ≤ result }
    {
        self.buffer.memory().capacity()
    }

    /// How many bytes are at hand.
    fn ready(&self) -> usize
        ensures { result ≡ length self.now.at_hand }
    {
        self.buffer.as_slice().len()
    }

    /// Asks the source once more, and says whether bytes came. It isn't asked after its first failure
    /// or its end.
    fn more(&mut self) -> ReadResult<bool>
        ensures step { length self.new.at_hand ≤ length self.old.at_hand + 8192 }
        ensures ok { OnOk result (Stays (stream_state S.state self.old) (stream_state S.state self.new)) }
        ensures came { IfOk result (λ came. IsTrue came → length self.old.at_hand < length self.new.at_hand) }
        ensures ended { IfOk result (λ came. came ≡ false → IsOver (S.state self.new.source) × IsTrue self.new.has_ended) }
        ensures err { IfErr result (λ e. (n : ℕ) → BytesReadRefused ⊥ ⊥ n (stream_state S.state self.old) (stream_state S.state self.new) e) }
        ensures unasked { (IsTrue self.old.has_ended → self.new ≡ self.old) × (IsTrue self.old.has_failed → self.new ≡ self.old) }
        ensures refused { IfErr result (λ e. (n : ℕ) → length self.old.at_hand < n → StreamRefused S.state n self.old self.new e) }
        ensures same { OnErr result (self.new.at_hand ≡ self.old.at_hand) }
        ensures sound { OnOk result ((self.old.has_failed ≡ false) × (self.new.has_failed ≡ false)) }
        ensures device { OnOk result (IsSound (stream_state S.state self.old) (stream_state S.state self.new)) }
    {
        if self.has_failed {
            return Err(ReadError::Io(io::Error::from(io::ErrorKind::Other)));
        }
        if self.has_ended {
            return Ok(false);
        }
        match self.buffer.read(&mut self.source) {
            Ok(0) => {
                self.has_ended = true;
                Ok(false)
            }
            Ok(_) => Ok(true),
            Err(ReadError::Io(e)) => {
                self.has_failed = true;
                Err(ReadError::Io(e))
            }
            Err(e) => Err(e),
        }
    }

    /// Asks the source until `n` bytes are at hand, or it has ended.
    fn fetch(&mut self, n: usize) -> ReadResult<()>
        ensures ok { OnOk result (Readies n (stream_state S.state self.old) (stream_state S.state self.new)) }
        ensures err { IfErr result (BytesReadRefused ⊥ ⊥ n (stream_state S.state self.old) (stream_state S.state self.new)) }
        ensures asks { Asks n 0 self.old self.new }
        ensures fetched { OnOk result (IsFetched n self.new) }
        ensures served { OnOk result (IsTrue self.old.has_failed → n ≤ length self.old.at_hand) }
        ensures refused { IfErr result (StreamRefused S.state n self.old self.new) }
    {
        while self.ready() < n {
            if !self.more()? {
                break;
            }
        }
        Ok(())
    }

    /// Asks the source until `n` bytes are at hand. It is `ReadSizeLimit` of `n` where the source ended before.
    fn need(&mut self, n: usize) -> ReadResult<()>
        ensures ok { OnOk result (Stays (stream_state S.state self.old) (stream_state S.state self.new)) }
        ensures sound { OnOk result (IsSound (stream_state S.state self.old) (stream_state S.state self.new)) }
        ensures enough { OnOk result (n ≤ length self.new.at_hand) }
        ensures err { IfErr result (BytesReadRefused (IsShort n (stream_state S.state self.old)) ⊥ n (stream_state S.state self.old) (stream_state S.state self.new)) }
        ensures asks { Asks n 0 self.old self.new }
        ensures refused { IfErr result (StreamRefused S.state n self.old self.new) }
    {
        self.fetch(n)?;
        let ready = self.ready();
        if ready < n {
            return Err(ReadError::ReadSizeLimit(n));
        }
        Ok(())
    }

    /// Asks the source until the bytes of a form are at hand; how many they are. It is `ReadSizeLimit` of that number, or
    /// of `usize::MAX` where it is more, where the source ended before.
    fn need_form<T: ZeroCopy>(&mut self) -> ReadResult<usize>
        ensures ok { OnOk result (Stays (stream_state S.state self.old) (stream_state S.state self.new)) }
        ensures sound { OnOk result (IsSound (stream_state S.state self.old) (stream_state S.state self.new)) }
        ensures enough { IfOk result (λ size. (size ≡ T.size) × (T.size ≤ length self.new.at_hand)) }
        ensures vast { byte_limit < T.size → result ≡ Err (ReadError.ReadSizeLimit byte_limit) }
        ensures err { IfErr result (FormReadRefused T.size (stream_state S.state self.old) (stream_state S.state self.new)) }
        ensures asks { Asks T.size 0 self.old self.new }
        ensures refused { IfErr result (StreamRefused S.state T.size self.old self.new) }
    {
        let Some(size) = T::form_size() else {
            // Fewer bytes are at hand, since their number fits.
            let _ready = self.ready();
            return Err(ReadError::ReadSizeLimit(usize::MAX));
        };
        self.need(size)?;
        Ok(size)
    }

    /// As `need_form`, of `n` forms.
    fn need_forms<T: ZeroCopy>(&mut self, n: usize) -> ReadResult<usize>
        ensures ok { OnOk result (Stays (stream_state S.state self.old) (stream_state S.state self.new)) }
        ensures sound { OnOk result (IsSound (stream_state S.state self.old) (stream_state S.state self.new)) }
        ensures enough { IfOk result (λ total. (total ≡ n * T.size) × (n * T.size ≤ length self.new.at_hand)) }
        ensures vast { byte_limit < n * T.size → result ≡ Err (ReadError.ReadSizeLimit byte_limit) }
        ensures err { IfErr result (FormReadRefused (n * T.size) (stream_state S.state self.old) (stream_state S.state self.new)) }
        ensures asks { Asks (n * T.size) 0 self.old self.new }
        ensures refused { IfErr result (StreamRefused S.state (n * T.size) self.old self.new) }
    {
        let Some(total) = total_size::<T>(n) else {
            // Fewer bytes are at hand, since their number fits.
            let _ready = self.ready();
            return Err(ReadError::ReadSizeLimit(usize::MAX));
        };
        self.need(total)?;
        Ok(total)
    }

    /// The first `n` bytes, which are at hand.
    fn front(&self, n: usize) -> &[u8]
        requires { n ≤ length self.now.at_hand }
        ensures size { length result.now ≡ n }
        ensures shown { IsShown n (stream_state S.state self.now) result.now }
    {
        &self.buffer.as_slice()[..n]
    }

    /// Goes on by `n` bytes, which are at hand.
    fn skip(&mut self, n: usize)
        requires { n ≤ length self.old.at_hand }
        ensures loses { Loses n (stream_state S.state self.old) (stream_state S.state self.new) }
        ensures unasked { IsUnasked n self.old self.new }
    {
        self.gone.note(&self.buffer.as_slice()[..n]);
        self.position = self.position.saturating_add(n);
        self.buffer.consume(n);
    }

    /// A window of the first `n` bytes, which are at hand.
    fn cut(&mut self, n: usize) -> ReadResult<CountedSliceReader>
        requires { n ≤ length self.old.at_hand }
        ensures ok { IfOk result (λ w. Windowed n (stream_state S.state self.old) (stream_state S.state self.new) (counted w)) }
        ensures err { OnErr result (Stays (stream_state S.state self.old) (stream_state S.state self.new)) }
        ensures count { IfErr result (λ e. e ≡ ReadError.OutOfMemory) }
        ensures unasked { IsUnasked (gone n result) self.old self.new }
    {
        let Ok(window) = self.buffer.window(n) else {
            return Err(ReadError::OutOfMemory);
        };
        self.gone.note(window.unread());
        self.position = self.position.saturating_add(n);
        Ok(window)
    }
}

impl<R: Read> StreamReader<StdSource<R>> {
    /// The reader of std's that the source is of. The bytes at hand are dropped, as std's `BufReader` drops them.
    pub fn into_inner(self) -> R
        ensures { result ≡ self.source.inner }
    {
        self.into_source().into_inner()
    }
}

/// Each call is refused as the trait says, and, but for a borrow, never where the bytes that it needs are at hand; a
/// window may then be `OutOfMemory`, where so many share the bytes that they can't be counted. Where the source fails it
/// is `Io` with the source's error; a call that needs more after that is `Io` of kind Other.
impl<L: Lending, S: Source> Reader<L> for StreamReader<S> {
    ghost state = { stream_state S.state };

    fn fill(&mut self, n: usize) -> ReadResult<()>
        ensures ok { OnOk result (Readies n (stream_state S.state self.old) (stream_state S.state self.new)) }
        ensures err { IfErr result (BytesReadRefused ⊥ ⊥ n (stream_state S.state self.old) (stream_state S.state self.new)) }
        ensures asks { Asks n 0 self.old self.new }
        ensures fetched { OnOk result (IsFetched n self.new) }
        ensures refused { IfErr result (StreamRefused S.state n self.old self.new) }
    {
        self.fetch(n)
    }

    fn consume(&mut self, n: usize) -> ReadResult<()>
        ensures ok { OnOk result (Loses n (stream_state S.state self.old) (stream_state S.state self.new)) }
        ensures err { IfErr result (BytesReadRefused (IsShort n (stream_state S.state self.old)) ⊥ n (stream_state S.state self.old) (stream_state S.state self.new)) }
        ensures asks { Asks n (gone n result) self.old self.new }
        ensures refused { IfErr result (StreamRefused S.state n self.old self.new) }
    {
        self.fetch(n)?;
        if n <= self.ready() {
            self.skip(n);
            Ok(())
        } else {
            Err(ReadError::ReadSizeLimit(n))
        }
    }

    fn fill_buf(&mut self, n: usize) -> ReadResult<&[u8]>
        ensures shown { IfOk result (λ s. IsShown n (stream_state S.state self.old) s.now) }
        ensures* fills { sem 𝓛 (Rests (stream-row S.row S.Source) self.entry
            (λ new. Fills ⊥ n (λ s. length s.now) (stream_state S.state self.old) (stream_state S.state new) result
            × Asks n 0 self.old new × OnOk result (IsFetched n new) × IfErr result (StreamRefused S.state n self.old new))) }
    {
        self.fetch(n)?;
        let bytes = self.buffer.as_slice();
        let shown = n.min(bytes.len());
        Ok(&bytes[..shown])
    }

    fn fill_exact(&mut self, n: usize) -> ReadResult<&[u8]>
        ensures shown { IfOk result (λ s. (length s.now ≡ n) × IsShown n (stream_state S.state self.old) s.now) }
        ensures* fills { sem 𝓛 (Rests (stream-row S.row S.Source) self.entry
            (λ new. Fills (IsShort n (stream_state S.state self.old)) n (λ s. length s.now) (stream_state S.state self.old) (stream_state S.state new) result
            × Asks n 0 self.old new × IfErr result (StreamRefused S.state n self.old new))) }
    {
        self.need(n)?;
        Ok(self.front(n))
    }

    fn peek(&mut self) -> ReadResult<&u8>
        ensures shown { IfOk result (λ b. IsPeeked (stream_state S.state self.old) b.now) }
        ensures* fills { sem 𝓛 (Rests (stream-row S.row S.Source) self.entry
            (λ new. Fills (IsShort 1 (stream_state S.state self.old)) 1 (λ s. 1) (stream_state S.state self.old) (stream_state S.state new) result
            × Asks 1 0 self.old new × IfErr result (StreamRefused S.state 1 self.old new))) }
    {
        let bytes = <Self as Reader<L>>::fill_exact(self, 1)?;
        Ok(&bytes[0])
    }

    fn copy_into_slice(&mut self, dst: &mut [u8]) -> ReadResult<()>
        ensures ok { OnOk result (Takes (length dst.old) (stream_state S.state self.old) (stream_state S.state self.new) dst.new) }
        ensures unchanged { IfErr result (λ e. dst.new ≡ dst.old) }
        ensures err { IfErr result (BytesReadRefused (IsShort (length dst.old) (stream_state S.state self.old)) ⊥ (length dst.old) (stream_state S.state self.old) (stream_state S.state self.new)) }
        ensures asks { Asks (length dst.old) (gone (length dst.old) result) self.old self.new }
        ensures refused { IfErr result (StreamRefused S.state (length dst.old) self.old self.new) }
    {
        let n = dst.len();
        self.need(n)?;
        dst.copy_from_slice(self.front(n));
        self.skip(n);
        Ok(())
    }

    fn copy_into_t<T: ZeroCopy>(&mut self, dst: &mut Option<T>) -> ReadResult<()>
        ensures ok { OnOk result (TakesForm T.size T.value (stream_state S.state self.old) (stream_state S.state self.new) dst.new) }
        ensures unchanged { IfErr result (λ e. dst.new ≡ dst.old) }
        ensures vast { byte_limit < T.size → result ≡ Err (ReadError.ReadSizeLimit byte_limit) }
        ensures err { IfErr result (FormReadRefused T.size (stream_state S.state self.old) (stream_state S.state self.new)) }
        ensures asks { Asks T.size (gone T.size result) self.old self.new }
        ensures refused { IfErr result (StreamRefused S.state T.size self.old self.new) }
    {
        let size = self.need_form::<T>()?;
        *dst = Some(T::of_form(self.front(size)));
        self.skip(size);
        Ok(())
    }

    fn copy_into_slice_t<T: ZeroCopy>(&mut self, dst: &mut [T]) -> ReadResult<()>
        ensures ok { OnOk result (TakesForms T.size T.value (length dst.old) (stream_state S.state self.old) (stream_state S.state self.new) dst.new) }
        ensures unchanged { IfErr result (λ e. dst.new ≡ dst.old) }
        ensures vast { byte_limit < length dst.old * T.size → result ≡ Err (ReadError.ReadSizeLimit byte_limit) }
        ensures err { IfErr result (FormReadRefused (length dst.old * T.size) (stream_state S.state self.old) (stream_state S.state self.new)) }
        ensures asks { Asks (length dst.old * T.size) (gone (length dst.old * T.size) result) self.old self.new }
        ensures refused { IfErr result (StreamRefused S.state (length dst.old * T.size) self.old self.new) }
    {
        let total = self.need_forms::<T>(dst.len())?;
        read_forms(self.front(total), dst);
        self.skip(total);
        Ok(())
    }

    fn at_hand(&self) -> &[u8] {
        self.buffer.as_slice()
    }

    fn consume_unchecked(&mut self, n: usize)
        requires { n ≤ length self.old.at_hand }
        ensures loses { Loses n (stream_state S.state self.old) (stream_state S.state self.new) }
        ensures unasked { IsUnasked n self.old self.new }
    {
        self.skip(n);
    }

    fn borrow_exact(&mut self, _n: usize) -> ReadResult<L::Bytes> {
        Err(ReadError::UnsupportedZeroCopy)
    }

    fn borrow_exact_mut(&mut self, _n: usize) -> ReadResult<L::BytesMut> {
        Err(ReadError::UnsupportedZeroCopy)
    }

    /// The window shares the bytes at hand. It is `OutOfMemory` too where so many windows share them that
    /// they can't be counted.
    fn as_trusted_for(&mut self, n: usize) -> ReadResult<ReadWindow<L>>
        ensures ok { IfOk result (λ w. Windowed n (stream_state S.state self.old) (stream_state S.state self.new) (window_state w)) }
        ensures err { IfErr result (WindowRefused n (stream_state S.state self.old) (stream_state S.state self.new)) }
        ensures asks { Asks n (gone n result) self.old self.new }
        ensures refused { IfErr result (StreamWindowRefused S.state n self.old self.new) }
    {
        self.fetch(n)?;
        if self.ready() < n {
            return Err(ReadError::ReadSizeLimit(n));
        }
        Ok(ReadWindow::Counted(self.cut(n)?))
    }
}

/// A value is read from the front of what it has. It lends nothing, so that the lifetime is of no moment.
impl<S: Source + Drop> Input for StreamReader<S> {
    type Lends = Lifetime<'static>;

    type Reads = StreamReader<S>;

    ghost begins = { stream_state S.state };

    fn reader(self) -> StreamReader<S> {
        self
    }
}
