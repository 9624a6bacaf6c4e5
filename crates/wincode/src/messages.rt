//! The values of a source, one after another.
ghost use Rattle.std.specs.Prelude.{◌≡◌, min, [], false, IsErrAnd, IfOk, IfErr, IfSome, IsSomeAnd, IsNone, IsTrue, ◌↔◌};
ghost use Rattle.wincode_base.specs.declared.error.ReadError.TheVariants as reading;
ghost use Rattle.wincode_io.specs.Readers.{StaysSound};
ghost use Rattle.wincode_io.specs.Streams.{stream_state};
ghost use Rattle.wincode_io.specs.declared.error.ReadError.TheVariants as reader;
ghost use Rattle.wincode_io.specs.Writers.{byte_limit};
ghost use Rattle.wincode.specs.Messages.{Advances, HasNoBytes, NextOutcome, NothingToRead, Remembers, RefusedAgain, is_failure, no_bytes};

use crate::io::{self, Lifetime, Reader, Source, StreamReader};
use crate::markers::SchemaReadOwned;
use crate::schema::{SchemaGet, SchemaRead};
use std::alloc::Global;
use std::io::ErrorKind;
use std::marker::{Model, PhantomData};
use wincode_base::error::{ReadError, ReadResult};
use wincode_base::meta::TypeMeta;

/// Why values without bytes are neither counted nor appended.
pub(crate) const NO_BYTES: &str = "values without bytes, which no log has a number of";

/// The values of a source, one after another, to its end: those of a log or a snapshot file.
///
/// `T` is their schema. Where its values have no bytes, as `()`, the first call of `next` refuses them.
/// To contracts it is the reader of the source, where in it the last whole value ended, whether a
/// value was refused, and whether by a failure of the source.
#[derive(Drop)]
pub struct Messages<S: Source, T> {
    alloc: Global,
    reader: StreamReader<S>,
    position: usize,
    is_refused: bool,
    has_failed: bool,
    values: PhantomData<T>,
}

impl<S: Source, T> Model for Messages<S, T> {
    ghost use Rattle.std.specs.Prelude.{◌≡◌, min, false};
    ghost use Rattle.wincode_io.specs.Writers.{byte_limit};
    ghost use Rattle.wincode.specs.Messages.{Progress};

    ghost Value = { Progress S };

    ghost view = { λ m. record { reader = m.reader; position = m.position; is_refused = m.is_refused; has_failed = m.has_failed } };

    ghost invariant = { λ m. m.is_refused ≡ false → m.position ≡ min m.reader.position byte_limit };
}

impl<S: Source, T> Messages<S, T> {
    /// The values of this source, of which nothing is read yet. It is `Io(OutOfMemory)` where memory for a
    /// buffer is refused, and then the source is dropped.
    pub fn new(alloc: Global, source: S) -> ReadResult<Self>
    where
        S: Drop,
        ensures ok { IfOk result (λ m. (m.position ≡ 0) × (m.reader.position ≡ 0) × (m.reader.at_hand ≡ []) × (m.reader.source ≡ source) × (m.is_refused ≡ false)) }
        ensures err { IfErr result (λ e. e ≡ reading.Io reader.OutOfMemory) }
    {
        match StreamReader::new(alloc, source) {
            Ok(reader) => Ok(Messages::of_reader(alloc, reader)),
            Err(error) => Err(ReadError::Io(error)),
        }
    }

    /// The values of what the reader has.
    pub fn of_reader(alloc: Global, reader: StreamReader<S>) -> Self
        ensures { result ≡ record { reader = reader; position = min reader.position byte_limit; is_refused = false; has_failed = false } }
    {
        let position = reader.position();
        Messages {
            alloc,
            reader,
            position,
            is_refused: false,
            has_failed: false,
            values: PhantomData,
        }
    }

    /// The reader, which stands behind the last value that was read, or where reading was refused. What the next value
    /// begins with only the caller can tell then: who does takes bytes from it, and goes on by `of_reader`.
    pub fn into_reader(self) -> StreamReader<S>
        ensures { result ≡ self.reader }
    {
        let Messages {
            alloc: _,
            reader,
            position: _,
            is_refused: _,
            has_failed: _,
            values: _,
        } = self;
        reader
    }

    /// Where the last whole value ended, or where the reader stood when there was none yet: how many bytes went by up to
    /// there, at most `usize::MAX`. Of a log that is cut off that is how long its whole part is.
    pub fn position(&self) -> usize
        ensures now { result ≡ self.now.position }
        ensures behind { self.now.is_refused ≡ false → result ≡ min self.now.reader.position byte_limit }
    {
        self.position
    }
}

impl<S: Source, T: SchemaReadOwned<Lifetime<'static>>> Messages<S, T> {
    /// The next value; none exactly where no byte is left where it would begin. A value that is cut off is
    /// an error, as `get` of its schema says, and so is a source that fails. Of a schema whose values have no bytes, as
    /// `()`, any number stands anywhere: it is `Custom`, and nothing is read.
    ///
    /// Behind an error nothing more is read, since the next value begins at no known place: each call is
    /// `Io(Io(e))` of kind Other behind a failure of the source, and else `Custom`. `into_reader` goes on.
    pub fn next(&mut self) -> Option<ReadResult<T::Dst>>
        ensures again { IsTrue self.old.is_refused → (self.new ≡ self.old) × IsSomeAnd result (λ r. IsErrAnd r (RefusedAgain self.old.has_failed)) }
        ensures none { IsNone result → (self.new.is_refused ≡ false) × StaysSound (stream_state S.state self.old.reader) (stream_state S.state self.new.reader)
            × (IsTrue (stream_state S.state self.old.reader).is_known → (stream_state S.state self.old.reader).rest ≡ []) }
        ensures empty { self.old.is_refused ≡ false → HasNoBytes T.SchemaRead.reading.meta
            → IsSomeAnd result (λ r. IsErrAnd r NothingToRead) × (self.new.reader ≡ self.old.reader) }
        ensures some { self.old.is_refused ≡ false → (HasNoBytes T.SchemaRead.reading.meta → ⊥) → IfSome result (NextOutcome T.SchemaRead.reading T.SchemaRead.model
            (stream_state S.state self.old.reader) (stream_state S.state self.new.reader)) }
        ensures remembered { IfSome result (Remembers self.new) }
        ensures position { Advances S.state T.SchemaRead.reading.reads T.SchemaRead.model self.old self.new result }
    {
        if self.is_refused {
            return Some(Err(refused_again(self.has_failed)));
        }
        let next = if has_no_bytes(T::type_meta()) {
            Some(Err(ReadError::Custom(NO_BYTES)))
        } else {
            next_of::<S, T>(self.alloc, &mut self.reader)
        };
        match &next {
            Some(Ok(_)) => self.position = self.reader.position(),
            Some(Err(error)) => {
                self.is_refused = true;
                self.has_failed = is_failure(error);
            }
            None => {}
        }
        next
    }
}

/// The next value that the reader has; none where no byte is left.
pub(crate) fn next_of<S: Source, T: SchemaReadOwned<Lifetime<'static>>>(
    alloc: Global,
    reader: &mut StreamReader<S>,
) -> Option<ReadResult<T::Dst>>
    ensures none { IsNone result → StaysSound (stream_state S.state reader.old) (stream_state S.state reader.new)
        × (IsTrue (stream_state S.state reader.old).is_known → (stream_state S.state reader.old).rest ≡ []) }
    ensures some { IfSome result (NextOutcome T.SchemaRead.reading T.SchemaRead.model (stream_state S.state reader.old) (stream_state S.state reader.new)) }
{
    let filled = <StreamReader<S> as Reader<Lifetime<'static>>>::fill(reader, 1);
    if let Err(error) = filled {
        return Some(Err(ReadError::Io(error)));
    }
    if reader.unread().is_empty() {
        return None;
    }
    Some(T::get(alloc, reader))
}

/// Whether no value has a byte, by what its schema announces of their size.
pub(crate) fn has_no_bytes(meta: TypeMeta) -> bool
    ensures { IsTrue result ↔ HasNoBytes meta }
{
    matches!(meta, TypeMeta::Static { size: 0, .. })
}

/// Whether a source failed.
fn is_failure(error: &ReadError) -> bool
    ensures { result ≡ is_failure error.now }
{
    match error {
        ReadError::Io(io::ReadError::Io(_)) => true,
        _ => false,
    }
}

/// Why nothing is read behind a refusal.
fn refused_again(has_failed: bool) -> ReadError
    ensures again { RefusedAgain has_failed result }
    ensures failure { is_failure result ≡ has_failed }
{
    if has_failed {
        return ReadError::Io(io::ReadError::Io(std::io::Error::from(ErrorKind::Other)));
    }
    ReadError::Custom("a value was refused, and where the next one begins is not known")
}
