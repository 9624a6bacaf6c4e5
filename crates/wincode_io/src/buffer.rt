//! Bytes that have come and were not read yet.
ghost use Rattle.std.specs.Prelude.{◌≡◌, ◌+◌, ◌-◌, ◌<◌, ◌≤◌, [], length, take, drop, slice_range, IfOk, IfErr, OnErr, OnOk, vec_len, vec_capacity};
ghost use Rattle.std.specs.Arc.{arc_value};
ghost use Rattle.wincode_io.specs.Sources.{Gave, Failed};
ghost use Rattle.wincode_io.specs.SourceReads.{Came, IsUnread};

use super::error::{ReadError, ReadResult};
use super::source::Source;
use super::window::CountedSliceReader;
use std::alloc::{AllocError, Global};
use std::io;
use std::marker::Model;
use std::sync::Arc;

/// How many bytes a source is asked for at most, and how many the buffer grows by.
const STEP: usize = 8192;

/// Those from a place to an end of bytes, behind which there may be room. Windows share them: then what
/// comes next goes into new ones. To contracts it is the bytes that have come.
#[derive(Drop)]
pub(crate) struct Buffer {
    bytes: Arc<Vec<u8>>,
    place: usize,
    end: usize,
}

impl Model for Buffer {
    ghost use Rattle.std.specs.Prelude.{ℕ, List, ◌≤◌, slice_range, vec_len};
    ghost use Rattle.std.specs.Arc.{arc_value};

    ghost Value = { List ℕ };

    ghost view = { λ b. slice_range (arc_value b.bytes).items b.place b.end };

    ghost invariant = { λ b. (b.place ≤ b.end) × (b.end ≤ vec_len (arc_value b.bytes)) };
}

impl Buffer {
    /// An empty one, with room for `STEP` bytes.
    pub(crate) fn new(alloc: Global) -> Result<Buffer, AllocError>
        ensures { IfOk result (λ b. b ≡ []) }
    {
        let bytes = vec![in alloc; 0u8; STEP]?;
        Ok(Buffer {
            bytes: Arc::new(alloc, bytes)?,
            place: 0,
            end: 0,
        })
    }

    /// The bytes.
    pub(crate) fn as_slice(&self) -> &[u8]
        ensures { result.now ≡ self.now }
    {
        let (place, end) = (self.place, self.end);
        let bytes = self.bytes.as_slice();
        &bytes[place..end]
    }

    /// The vector that they stand in, with those that are gone.
    pub(crate) fn memory(&self) -> &Vec<u8>
        ensures { length self.now ≤ vec_len result.now }
    {
        let (_place, _end) = (self.place, self.end);
        &self.bytes
    }

    /// Drops the first `n` bytes.
    #[tactic(auto, using(crate::proofs::Ranges::later))]
    pub(crate) fn consume(&mut self, n: usize)
        requires { n ≤ length self.old }
        ensures { self.new ≡ drop n self.old }
    {
        self.place += n;
    }

    /// A window of the first `n` bytes, which are gone from these.
    #[tactic(auto, using(crate::proofs::Ranges::earlier, crate::proofs::Ranges::later))]
    pub(crate) fn window(&mut self, n: usize) -> Result<CountedSliceReader, AllocError>
        requires { n ≤ length self.old }
        ensures front { IfOk result (λ w. w ≡ take n self.old) }
        ensures rest { OnOk result (self.new ≡ drop n self.old) }
        ensures kept { OnErr result (self.new ≡ self.old) }
    {
        let all = Arc::try_clone(&self.bytes)?;
        let place = self.place;
        let end = place + n;
        self.place = end;
        Ok(CountedSliceReader::within(all, place, end))
    }

    /// Asks the source once, for more bytes behind these. The number of bytes that came, at most `STEP`.
    pub(crate) fn read<S: Source>(&mut self, source: &mut S) -> ReadResult<usize>
        ensures ok { IfOk result (λ n. Came n self.old self.new (S.state source.old) (S.state source.new)) }
        ensures kept { OnErr result (self.new ≡ self.old) }
        ensures err { IfErr result (IsUnread (S.state source.old) (S.state source.new)) }
    {
        let at = self.end;
        if let Some(alone) = Arc::get_mut(&mut self.bytes) {
            if at < alone.len() {
                return match read_alone(source, alone, at) {
                    Ok(n) => {
                        self.end += n;
                        Ok(n)
                    }
                    Err(e) => Err(ReadError::Io(e)),
                };
            }
        }
        self.read_moved(source)
    }

    /// As `read`, of bytes behind which there is no room, or that a window shares.
    fn read_moved<S: Source>(&mut self, source: &mut S) -> ReadResult<usize>
        ensures ok { IfOk result (λ n. Came n self.old self.new (S.state source.old) (S.state source.new)) }
        ensures kept { OnErr result (self.new ≡ self.old) }
        ensures err { IfErr result (IsUnread (S.state source.old) (S.state source.new)) }
    {
        let size = self.end - self.place;
        let place = make_room(&mut self.bytes, self.place, self.end)?;
        self.place = place;
        self.end = place + size;
        match read_behind(source, &mut self.bytes, place + size) {
            Ok(n) => {
                self.end += n;
                Ok(n)
            }
            Err(e) => Err(e),
        }
    }
}

/// Makes room for a byte or more behind the bytes from `place` to `end`, which may move; the place where
/// they then are. It grows by at most `STEP`; bytes that a window shares are left to it, and copied.
fn make_room(bytes: &mut Arc<Vec<u8>>, place: usize, end: usize) -> ReadResult<usize>
    requires order { place ≤ end }
    requires within { end ≤ vec_len (arc_value bytes.old) }
    ensures same { IfOk result (λ p. slice_range (arc_value bytes.new).items p (p + (end - place)) ≡ slice_range (arc_value bytes.old).items place end) }
    ensures room { IfOk result (λ p. p + (end - place) < vec_len (arc_value bytes.new)) }
    ensures memory { vec_len (arc_value bytes.old) < vec_len (arc_value bytes.new) → vec_len (arc_value bytes.new) ≤ (end - place) + 8192 }
    ensures kept { OnErr result ((arc_value bytes.new).items ≡ (arc_value bytes.old).items) }
    ensures err { IfErr result (λ e. e ≡ ReadError.OutOfMemory) }
{
    match Arc::get_mut(bytes) {
        Some(alone) => make_room_alone(alone, place, end),
        None => {
            let Ok(copy) = copied(&bytes[place..end], *bytes.allocator()) else {
                return Err(ReadError::OutOfMemory);
            };
            *bytes = copy;
            Ok(0)
        }
    }
}

/// A copy of these bytes, with room for `STEP` further ones.
fn copied(bytes: &[u8], alloc: Global) -> Result<Arc<Vec<u8>>, AllocError>
    ensures front { IfOk result (λ v. slice_range (arc_value v).items 0 (length bytes.now) ≡ bytes.now) }
    ensures memory { IfOk result (λ v. vec_len (arc_value v) ≡ length bytes.now + 8192) }
{
    let size = bytes.len() + STEP;
    let mut copy = Vec::with_capacity(alloc, size)?;
    copy.extend_from_slice(bytes)?;
    copy.resize(size, 0)?;
    Ok(Arc::new(alloc, copy)?)
}

/// As `make_room`, of bytes that no window shares.
fn make_room_alone(bytes: &mut Vec<u8>, place: usize, end: usize) -> ReadResult<usize>
    requires order { place ≤ end }
    requires within { end ≤ vec_len bytes.old }
    ensures same { IfOk result (λ p. slice_range bytes.new.items p (p + (end - place)) ≡ slice_range bytes.old.items place end) }
    ensures room { IfOk result (λ p. p + (end - place) < vec_len bytes.new) }
    ensures memory { vec_len bytes.old < vec_len bytes.new → vec_len bytes.new ≤ (end - place) + 8192 }
    ensures kept { OnErr result (bytes.new.items ≡ bytes.old.items) }
    ensures err { IfErr result (λ e. e ≡ ReadError.OutOfMemory) }
{
    if end < bytes.len() {
        return Ok(place);
    }
    if place == end && !bytes.is_empty() {
        return Ok(0);
    }
    if 0 < place {
        bytes.drain(..place);
    }
    reserve_step(bytes)?;
    let filled = bytes.len();
    let room = STEP.min(bytes.capacity() - filled);
    if bytes.resize(filled + room, 0).is_err() {
        return Err(ReadError::OutOfMemory);
    }
    Ok(0)
}

/// Asks for memory for `STEP` bytes behind these, if there is none for one.
fn reserve_step(bytes: &mut Vec<u8>) -> ReadResult<()>
    ensures items { bytes.new.items ≡ bytes.old.items }
    ensures room { OnOk result (vec_len bytes.new < vec_capacity bytes.new) }
    ensures full { OnErr result (vec_capacity bytes.old ≤ vec_len bytes.old) }
    ensures memory { vec_capacity bytes.old < vec_capacity bytes.new → vec_capacity bytes.new ≤ vec_len bytes.old + 8192 }
    ensures err { IfErr result (λ e. e ≡ ReadError.OutOfMemory) }
{
    if bytes.len() < bytes.capacity() {
        return Ok(());
    }
    if bytes.reserve_exact(STEP).is_err() {
        return Err(ReadError::OutOfMemory);
    }
    Ok(())
}

/// Asks the source once, for at most `STEP` bytes from the place `at` on. Bytes that a window shares are
/// not written over.
fn read_behind<S: Source>(source: &mut S, bytes: &mut Arc<Vec<u8>>, at: usize) -> ReadResult<usize>
    requires { at < vec_len (arc_value bytes.old) }
    ensures front { take at (arc_value bytes.new).items ≡ take at (arc_value bytes.old).items }
    ensures size { vec_len (arc_value bytes.new) ≡ vec_len (arc_value bytes.old) }
    ensures within { IfOk result (λ n. (at + n ≤ length (arc_value bytes.new).items) × (n ≤ 8192)) }
    ensures ok { IfOk result (λ n. Gave 1 (slice_range (arc_value bytes.new).items at (at + n)) (S.state source.old) (S.state source.new)) }
    ensures err { IfErr result (IsUnread (S.state source.old) (S.state source.new)) }
{
    let Some(alone) = Arc::get_mut(bytes) else {
        return Err(ReadError::OutOfMemory);
    };
    match read_alone(source, alone, at) {
        Ok(n) => Ok(n),
        Err(e) => Err(ReadError::Io(e)),
    }
}

/// As `read_behind`, of bytes that no window shares.
fn read_alone<S: Source>(source: &mut S, bytes: &mut Vec<u8>, at: usize) -> io::Result<usize>
    requires { at < vec_len bytes.old }
    ensures front { take at bytes.new.items ≡ take at bytes.old.items }
    ensures size { vec_len bytes.new ≡ vec_len bytes.old }
    ensures within { IfOk result (λ n. (at + n ≤ length bytes.new.items) × (n ≤ 8192)) }
    ensures ok { IfOk result (λ n. Gave 1 (slice_range bytes.new.items at (at + n)) (S.state source.old) (S.state source.new)) }
    ensures err { IfErr result (Failed (S.state source.old) (S.state source.new)) }
{
    read_at(source, bytes.as_mut_slice(), at)
}

/// As `read_alone`, into a slice.
fn read_at<S: Source>(source: &mut S, bytes: &mut [u8], at: usize) -> io::Result<usize>
    requires { at < length bytes.old }
    ensures front { take at bytes.new ≡ take at bytes.old }
    ensures size { length bytes.new ≡ length bytes.old }
    ensures within { IfOk result (λ n. (at + n ≤ length bytes.new) × (n ≤ 8192)) }
    ensures ok { IfOk result (λ n. Gave 1 (slice_range bytes.new at (at + n)) (S.state source.old) (S.state source.new)) }
    ensures err { IfErr result (Failed (S.state source.old) (S.state source.new)) }
{
    let end = at + STEP.min(bytes.len() - at);
    source.read_some(&mut bytes[at..end])
}
