//! A writer that passes on to any sink as it goes.
ghost use Rattle.std.specs.Prelude.{◌≡◌, ℕ, ◌+◌, ◌*◌, ◌-◌, ◌<◌, ◌≤◌, ◌++◌, min, true, false, [], length, Err, IsOk, drop, vec_capacity, IfOk, IfErr, OnOk, IsTrue};
ghost use Rattle.std.specs.List.{All, flat_map};
ghost use Rattle.wincode_io.specs.Writers.{HasRoom, Took, Added, IsUnmoved, IsSoundWriter, BytesWriteRefused, finished, FinishRefused, byte_limit};
ghost use Rattle.wincode_io.specs.WriterLaws.{min_right};
ghost use Rattle.wincode_io.specs.FormCalls.{FormWriteRefused};
ghost use Rattle.wincode_io.specs.SinkWriters.{Sinking, Written, written_put, written_room, sink_writer, IsPassedOn, IsFinished, IsUnasked, IsUnaskedAtEnd, IsUnflushed, StaysFailed, IsOfSink, SinkRefused};
ghost use Rattle.wincode_io.specs.SinkLaws.{written_laws};

use super::error::{WriteError, WriteResult};
use super::passing::pass;
use super::sink::Sink;
use super::std_sink::StdSink;
use super::trace::Trace;
use super::writer::Writer;
use super::zero_copy::{ZeroCopy, size_of_form, total_size};
use std::alloc::Global;
use std::io::{self, Write};
use std::marker::Model;

/// How many bytes are kept at most, unless one call writes more.
const LIMIT: usize = 8192;

/// Writes to a sink through a buffer, in order.
///
/// To contracts it is the bytes that are kept, the sink, how many bytes were written, whether the sink has failed, and how
/// often the writer was finished. What was written are the bytes that the sink took, followed by those that are kept. The
/// sink isn't asked while the bytes that are kept and the new ones are 8192 or fewer, nor after its first failure. Only
/// `finish` flushes it.
///
/// Where it is dropped the bytes that are kept are lost: `finish` passes them on.
#[derive(Drop)]
pub struct StreamWriter<S: Sink> {
    sink: S,
    buffer: Vec<u8>,
    count: usize,
    has_failed: bool,
    /// A byte for each call of `finish`.
    ends: Trace,
}

impl<S: Sink> Model for StreamWriter<S> {
    ghost use Rattle.std.specs.Prelude.{◌≤◌, ◌<◌, ◌-◌, min, length, IsTrue, vec_capacity};
    ghost use Rattle.wincode_io.specs.Writers.{byte_limit};
    ghost use Rattle.wincode_io.specs.SinkWriters.{Sinking};

    ghost Value = { Sinking S };

    ghost view = { λ w.
        record {
          kept = w.buffer.items;
          sink = w.sink;
          count = w.count;
          has_failed = w.has_failed;
          finishes = length w.ends.bytes;
          spare = min (vec_capacity w.buffer - length w.buffer.items) (byte_limit - length w.buffer.items);
        } };

    ghost invariant = { λ w. (8192 ≤ vec_capacity w.buffer) × (IsTrue w.has_failed → 0 < (S.state w.sink).failures) };
}

impl<S: Sink> StreamWriter<S> {
    /// A writer to this sink, which has written nothing. It is `OutOfMemory` where memory for a buffer of 8192
    /// bytes is refused, and then the sink is dropped.
    pub fn new(alloc: Global, sink: S) -> WriteResult<Self>
    where
        S: Drop,
        ensures ok { IfOk result (λ w. (w.kept ≡ []) × (w.sink ≡ sink) × (w.count ≡ 0) × (w.has_failed ≡ false) × (w.finishes ≡ 0)) }
        ensures err { IfErr result (λ e. e ≡ WriteError.OutOfMemory) }
    {
        let Ok(buffer) = Vec::with_capacity(alloc, LIMIT) else {
            return Err(WriteError::OutOfMemory);
        };
        Ok(StreamWriter {
            sink,
            buffer,
            count: 0,
            has_failed: false,
            ends: Trace::new(),
        })
    }

    /// The sink, and the bytes that are kept: what it took and these, joined, is what was written.
    pub fn into_sink(self) -> (S, Vec<u8>)
        ensures sink { result.0 ≡ self.sink }
        ensures kept { result.1.items ≡ self.kept }
    {
        let StreamWriter {
            sink,
            buffer,
            count: _,
            has_failed: _,
            ends: _,
        } = self;
        (sink, buffer)
    }

    /// The sink.
    pub fn sink(&self) -> &S
        ensures { result.now ≡ self.now.sink }
    {
        &self.sink
    }

    /// The bytes that were written and that the sink hasn't taken yet.
    pub fn unsent(&self) -> &[u8]
        ensures { result.now ≡ self.now.kept }
    {
        self.buffer.as_slice()
    }

    /// How many bytes were written, since the writer was made.
    pub fn position(&self) -> usize
        ensures { result ≡ self.now.count }
    {
        self.count
    }

    /// Whether the sink has failed. Then it isn't asked again.
    pub fn has_failed(&self) -> bool
        ensures same { result ≡ self.now.has_failed }
        ensures failed { IsTrue result → 0 < (S.state self.now.sink).failures }
    {
        self.has_failed
    }

    /// Passes on the bytes that are kept.
    fn pass_on(&mut self) -> WriteResult<()>
        ensures ok { OnOk result (IsPassedOn S.state self.old self.new) }
        ensures unmoved { IsUnmoved (sink_writer S.state self.old) (sink_writer S.state self.new) }
        ensures device { IfErr result IsOfSink }
        ensures sound { OnOk result (IsSoundWriter (sink_writer S.state self.old) (sink_writer S.state self.new)) }
        ensures fewer { length self.new.kept ≤ length self.old.kept }
        ensures unflushed { IsUnflushed S.state self.old self.new }
        ensures err { IfErr result (λ e. BytesWriteRefused 0 (sink_writer S.state self.old) (sink_writer S.state self.new) e) }
        ensures unasked { IsUnasked self.old self.new }
        ensures refused { IfErr result (λ e. (n : ℕ) → SinkRefused S.state n self.old self.new e) }
    {
        if self.has_failed {
            return Err(WriteError::Io(io::Error::from(io::ErrorKind::Other)));
        }
        let passed = pass(&mut self.sink, self.buffer.as_slice());
        match passed.error {
            None => {
                self.buffer.clear();
                Ok(())
            }
            Some(e) => {
                self.has_failed = true;
                drop_front(&mut self.buffer, passed.taken);
                Err(WriteError::Io(e))
            }
        }
    }
}

/// Drops the first `n` bytes.
fn drop_front(bytes: &mut Vec<u8>, n: usize)
    requires { n ≤ length bytes.old.items }
    ensures items { bytes.new.items ≡ drop n bytes.old.items }
    ensures capacity { vec_capacity bytes.new ≡ vec_capacity bytes.old }
{
    bytes.drain(..n);
}

impl<W: Write> StreamWriter<StdSink<W>> {
    /// The writer of std's, and the bytes that are kept.
    pub fn into_inner(self) -> (W, Vec<u8>)
        ensures inner { result.0 ≡ self.sink.inner }
        ensures kept { result.1.items ≡ self.kept }
    {
        let (sink, kept) = self.into_sink();
        (sink.into_inner(), kept)
    }
}

/// Each call is refused as the trait says; and never by the sink where the bytes that are kept and the new ones are 8192 or
/// fewer.
impl<S: Sink> Writer for StreamWriter<S> {
    ghost Content = { Written };

    ghost put = { written_put };

    ghost room = { written_room };

    ghost Kept = { Unit };

    ghost state = { sink_writer S.state };

    ghost buffers = { true };

    fn make_room(&mut self, n: usize) -> WriteResult<()>
        ensures ok { OnOk result (HasRoom n (sink_writer S.state self.old) (sink_writer S.state self.new)) }
        ensures err { IfErr result (BytesWriteRefused n (sink_writer S.state self.old) (sink_writer S.state self.new)) }
        ensures bounded { OnOk result (0 < n → 8192 < length self.new.kept + n → self.new.kept ≡ []) }
        ensures unflushed { IsUnflushed S.state self.old self.new }
        ensures served { length self.old.kept + n ≤ 8192 → self.old.count + n ≤ byte_limit → IsOk result × (self.new ≡ self.old) }
        ensures unasked { IsUnasked self.old self.new }
        ensures refused { IfErr result (SinkRefused S.state n self.old self.new) }
    {
        if usize::MAX - self.count < n {
            return Err(WriteError::WriteSizeLimit(n));
        }
        if n <= LIMIT.saturating_sub(self.buffer.len()) {
            return Ok(());
        }
        self.pass_on()?;
        if LIMIT < n && self.buffer.reserve(n).is_err() {
            return Err(WriteError::OutOfMemory);
        }
        Ok(())
    }

    #[inline(always)]
    fn room_at_hand(&self) -> usize
        ensures ready { result ≤ (sink_writer S.state self.now).ready }
        ensures exact { result ≡ min (8192 - length self.now.kept) (byte_limit - self.now.count) }
    {
        LIMIT
            .saturating_sub(self.buffer.len())
            .min(usize::MAX - self.count)
    }

    fn write_ready(&mut self, src: &[u8])
        requires { length src.now ≤ (sink_writer S.state self.old).ready }
        ensures took { Took src.now (sink_writer S.state self.old) (sink_writer S.state self.new) }
        ensures ready { (sink_writer S.state self.old).ready ≤ (sink_writer S.state self.new).ready + length src.now }
        ensures kept { self.new.kept ≡ self.old.kept ++ src.now }
        ensures sink { self.new.sink ≡ self.old.sink }
        ensures failed { self.new.has_failed ≡ self.old.has_failed }
    {
        self.count += src.len();
        Writer::write_ready(&mut self.buffer, src);
    }

    fn write_ready_t<T: ZeroCopy>(&mut self, src: &T)
        requires { T.size ≤ (sink_writer S.state self.old).ready }
        ensures took { Took (T.form src.now) (sink_writer S.state self.old) (sink_writer S.state self.new) }
        ensures ready { (sink_writer S.state self.old).ready ≤ (sink_writer S.state self.new).ready + T.size }
        ensures is_valid { T.is_valid src.now }
        ensures kept { self.new.kept ≡ self.old.kept ++ T.form src.now }
        ensures sink { self.new.sink ≡ self.old.sink }
        ensures failed { self.new.has_failed ≡ self.old.has_failed }
    {
        self.count += size_of_form::<T>();
        Writer::write_ready_t(&mut self.buffer, src);
    }

    /// Writes the bytes, all or none. More than 8192 are kept only where they are those of this call.
    fn write(&mut self, src: &[u8]) -> WriteResult<()>
        ensures ok { OnOk result (Added src.now (sink_writer S.state self.old) (sink_writer S.state self.new)) }
        ensures err { IfErr result (BytesWriteRefused (length src.now) (sink_writer S.state self.old) (sink_writer S.state self.new)) }
        ensures bounded { OnOk result (0 < length src.now → 8192 < length self.new.kept → self.new.kept ≡ src.now) }
        ensures unflushed { IsUnflushed S.state self.old self.new }
        ensures served { length self.old.kept + length src.now ≤ 8192 → self.old.count + length src.now ≤ byte_limit → IsOk result × (self.new.sink ≡ self.old.sink) }
        ensures unasked { StaysFailed self.old self.new }
        ensures refused { IfErr result (SinkRefused S.state (length src.now) self.old self.new) }
    {
        self.make_room(src.len())?;
        self.write_ready(src);
        Ok(())
    }

    fn write_t<T: ZeroCopy>(&mut self, src: &T) -> WriteResult<()>
        ensures ok { OnOk result (Added (T.form src.now) (sink_writer S.state self.old) (sink_writer S.state self.new)) }
        ensures is_valid { OnOk result (T.is_valid src.now) }
        ensures vast { byte_limit < T.size → result ≡ Err (WriteError.WriteSizeLimit byte_limit) }
        ensures err { IfErr result (FormWriteRefused T.size (sink_writer S.state self.old) (sink_writer S.state self.new)) }
        ensures bounded { OnOk result (0 < T.size → 8192 < length self.new.kept → self.new.kept ≡ T.form src.now) }
        ensures unflushed { IsUnflushed S.state self.old self.new }
        ensures served { length self.old.kept + T.size ≤ 8192 → self.old.count + T.size ≤ byte_limit → IsOk result × (self.new.sink ≡ self.old.sink) }
        ensures unasked { StaysFailed self.old self.new }
        ensures refused { IfErr result (SinkRefused S.state T.size self.old self.new) }
    {
        let Some(size) = T::form_size() else {
            return Err(WriteError::WriteSizeLimit(usize::MAX));
        };
        self.make_room(size)?;
        self.write_ready_t(src);
        Ok(())
    }

    fn write_slice_t<T: ZeroCopy>(&mut self, src: &[T]) -> WriteResult<()>
        ensures ok { OnOk result (Added (flat_map T.form src.now) (sink_writer S.state self.old) (sink_writer S.state self.new)) }
        ensures is_valid { OnOk result (All T.is_valid src.now) }
        ensures vast { byte_limit < length src.now * T.size → result ≡ Err (WriteError.WriteSizeLimit byte_limit) }
        ensures err { IfErr result (FormWriteRefused (length src.now * T.size) (sink_writer S.state self.old) (sink_writer S.state self.new)) }
        ensures bounded { OnOk result (0 < length src.now * T.size → 8192 < length self.new.kept → self.new.kept ≡ flat_map T.form src.now) }
        ensures unflushed { IsUnflushed S.state self.old self.new }
        ensures served { length self.old.kept + length src.now * T.size ≤ 8192 → self.old.count + length src.now * T.size ≤ byte_limit → IsOk result × (self.new.sink ≡ self.old.sink) }
        ensures unasked { StaysFailed self.old self.new }
        ensures refused { IfErr result (SinkRefused S.state (length src.now * T.size) self.old self.new) }
    {
        let Some(total) = total_size::<T>(src.len()) else {
            return Err(WriteError::WriteSizeLimit(usize::MAX));
        };
        self.make_room(total)?;
        for value in src {
            self.write_ready_t(value);
        }
        Ok(())
    }

    /// Passes on the bytes that are kept, and flushes the sink.
    fn finish(&mut self) -> WriteResult<()>
        ensures unmoved { IsUnmoved (finished true (sink_writer S.state self.old)) (sink_writer S.state self.new) }
        ensures sound { OnOk result (IsSoundWriter (sink_writer S.state self.old) (sink_writer S.state self.new)) }
        ensures err { IfErr result (FinishRefused true (sink_writer S.state self.old) (sink_writer S.state self.new)) }
        ensures ok { OnOk result (IsFinished S.state self.old self.new) }
        ensures unasked { IsUnaskedAtEnd self.old self.new }
        ensures refused { IfErr result (SinkRefused S.state 0 self.old self.new) }
    {
        self.ends.note(&[0]);
        self.pass_on()?;
        match self.sink.flush() {
            Ok(()) => Ok(()),
            Err(e) => {
                self.has_failed = true;
                Err(WriteError::Io(e))
            }
        }
    }

    ghost writer_laws = { written_laws };

    ghost ready_room = { λ w. min_right w.spare (byte_limit - w.count) };
}
