//! The reader of a source call by call: at its end, after failures, with windows, and how it asks.
use crate::pieces::in_pieces;
use example_schemas::faults::Pieces;
use std::alloc::Global;
use std::io::{self, ErrorKind, Read};
use std::test::Fail;
use wincode::deserialize_from;
use wincode::io::{
    Lending, Lifetime, ReadError, ReadResult, ReadWindow, Reader, StdSource, StreamReader,
};

type Any = Lifetime<'static>;

type Stream = StreamReader<Pieces>;

/// Pieces of these lengths, of the bytes 1, 2, 3 ..
fn reader(alloc: Global, lengths: &[usize], fails: Option<ErrorKind>) -> Result<Stream, Fail> {
    let mut all = Vec::new(alloc);
    let mut next = 0u8;
    for n in lengths {
        let mut piece = Vec::new(alloc);
        for _ in 0..*n {
            next = next.wrapping_add(1);
            piece.push(next)?;
        }
        all.push(piece)?;
    }
    Ok(StreamReader::new(alloc, Pieces::new(alloc, all, fails))?)
}

fn window_of<L: Lending, R: Reader<L>>(reader: &mut R, n: usize) -> ReadResult<ReadWindow<L>> {
    reader.as_trusted_for(n)
}

fn fill_buf<L: Lending, R: Reader<L>>(reader: &mut R, n: usize) -> ReadResult<&[u8]> {
    reader.fill_buf(n)
}

fn fill_exact<L: Lending, R: Reader<L>>(reader: &mut R, n: usize) -> ReadResult<&[u8]> {
    reader.fill_exact(n)
}

#[test]
fn three_bytes_in_all(rt: HostRuntime) -> Result<(), Fail> {
    let mut r = reader(rt.alloc(), &[1, 0, 2], None)?;
    let is_all = fill_buf::<Any, Stream>(&mut r, 9)? == [1u8, 2, 3].as_slice();
    let past = fill_exact::<Any, Stream>(&mut r, usize::MAX);
    let is_past = matches!(&past, Err(ReadError::ReadSizeLimit(usize::MAX)));
    let borrowed = <Stream as Reader<Any>>::borrow_exact(&mut r, 0);
    let is_unlent = matches!(&borrowed, Err(ReadError::UnsupportedZeroCopy));
    let window = window_of::<Any, Stream>(&mut r, 3)?;
    drop(window);
    let is_end = fill_buf::<Any, Stream>(&mut r, 1)?.is_empty();
    assert!(rt; [is_all, is_past, is_unlent, is_end] == [true; 4]);
    Ok(())
}

#[test]
fn three_bytes_consumed(rt: HostRuntime) -> Result<(), Fail> {
    let mut r = reader(rt.alloc(), &[3], None)?;
    let first = *<Stream as Reader<Any>>::peek(&mut r)?;
    <Stream as Reader<Any>>::consume(&mut r, 3)?;
    let is_end = <Stream as Reader<Any>>::peek(&mut r).is_err();
    assert!(rt; (first, is_end) == (1, true));
    Ok(())
}

#[test]
fn three_bytes_copied(rt: HostRuntime) -> Result<(), Fail> {
    let mut r = reader(rt.alloc(), &[1, 2], None)?;
    let mut bytes = [0u8; 3];
    <Stream as Reader<Any>>::copy_into_slice(&mut r, &mut bytes)?;
    let is_end = fill_buf::<Any, Stream>(&mut r, 1)?.is_empty();
    assert!(rt; (bytes, is_end) == ([1, 2, 3], true));
    Ok(())
}

#[test]
fn a_form_of_three_bytes(rt: HostRuntime) -> Result<(), Fail> {
    let mut r = reader(rt.alloc(), &[1, 2], None)?;
    let mut form: Option<[u8; 3]> = None;
    <Stream as Reader<Any>>::copy_into_t(&mut r, &mut form)?;
    let is_end = fill_buf::<Any, Stream>(&mut r, 1)?.is_empty();
    assert!(rt; (form, is_end) == (Some([1, 2, 3]), true));
    Ok(())
}

#[test]
fn three_forms_copied(rt: HostRuntime) -> Result<(), Fail> {
    let mut r = reader(rt.alloc(), &[1, 2], None)?;
    let mut forms = [0u8; 3];
    <Stream as Reader<Any>>::copy_into_slice_t(&mut r, &mut forms)?;
    let is_end = fill_buf::<Any, Stream>(&mut r, 1)?.is_empty();
    assert!(rt; (forms, is_end) == ([1, 2, 3], true));
    Ok(())
}

/// Windows in windows, which outlive one another and the bytes that come after them.
#[test]
fn windows_share_the_bytes(rt: HostRuntime) -> Result<(), Fail> {
    let mut r = reader(rt.alloc(), &[4, 6], None)?;
    let mut a = window_of::<Any, Stream>(&mut r, 8)?;
    a.consume(2)?;
    let mut b = a.as_trusted_for(5)?;
    let is_after = fill_buf::<Any, Stream>(&mut r, 9)? == [9u8, 10].as_slice();
    let is_inner = b.fill_buf(9)? == [3u8, 4, 5, 6, 7].as_slice();
    let is_past = b.as_trusted_for(6).is_err();
    let mut c = b.as_trusted_for(5)?;
    drop(b);
    let is_outer = a.fill_buf(9)? == [8u8].as_slice();
    let is_inmost = c.fill_buf(9)? == [3u8, 4, 5, 6, 7].as_slice();
    assert!(rt; [is_after, is_inner, is_past, is_outer, is_inmost] == [true; 5]);
    Ok(())
}

#[test]
fn a_failure_is_remembered(rt: HostRuntime) -> Result<(), Fail> {
    let mut r = reader(rt.alloc(), &[2, 1], Some(ErrorKind::TimedOut))?;
    for told in [ErrorKind::TimedOut, ErrorKind::Other] {
        let kind = kind_of(&fill_exact::<Any, Stream>(&mut r, 4));
        assert!(rt; kind == Some(told));
    }
    let first = *<Stream as Reader<Any>>::peek(&mut r)?;
    let mut form: Option<[u8; 2]> = None;
    <Stream as Reader<Any>>::copy_into_t(&mut r, &mut form)?;
    let last = fill_exact::<Any, Stream>(&mut r, 1)?;
    assert!(rt; (first, form, last) == (1, Some([1, 2]), [3u8].as_slice()));
    Ok(())
}

/// Reads nothing but an error of this kind, and counts.
#[derive(Drop)]
struct Broken {
    asked: usize,
}

impl Read for Broken {
    fn read(&mut self, _buf: &mut [u8]) -> io::Result<usize> {
        self.asked = self.asked.saturating_add(1);
        Err(io::Error::from(ErrorKind::TimedOut))
    }
}

/// The kind of the failure that is answered: none where anything else is.
fn kind_of<T>(answer: &ReadResult<T>) -> Option<ErrorKind> {
    match answer {
        Err(ReadError::Io(e)) => Some(e.kind()),
        _ => None,
    }
}

#[test]
fn the_source_is_not_asked_again(rt: HostRuntime) -> Result<(), Fail> {
    type Reads = StreamReader<StdSource<Broken>>;
    let mut r = StreamReader::new(rt.alloc(), StdSource::new(Broken { asked: 0 }))?;
    let first = kind_of(&fill_exact::<Any, Reads>(&mut r, 1));
    for _ in 0..2 {
        let kind = kind_of(&<Reads as Reader<Any>>::peek(&mut r));
        let is_unread = matches!(&fill_buf::<Any, Reads>(&mut r, 1), Err(ReadError::Io(_)));
        let is_inexact = matches!(&fill_exact::<Any, Reads>(&mut r, 1), Err(ReadError::Io(_)));
        let none = fill_buf::<Any, Reads>(&mut r, 0)?.len();
        let found = (kind, is_unread, is_inexact, none);
        assert!(rt; found == (Some(ErrorKind::Other), true, true, 0));
    }
    let asked = r.into_source().into_inner().asked;
    assert!(rt; (first, asked) == (Some(ErrorKind::TimedOut), 1));
    Ok(())
}

/// Gives nothing, and counts.
#[derive(Drop)]
struct Empty {
    asked: usize,
}

impl Read for Empty {
    fn read(&mut self, _buf: &mut [u8]) -> io::Result<usize> {
        self.asked = self.asked.saturating_add(1);
        Ok(0)
    }
}

#[test]
fn the_source_is_not_asked_behind_its_end(rt: HostRuntime) -> Result<(), Fail> {
    type Reads = StreamReader<StdSource<Empty>>;
    let mut r = StreamReader::new(rt.alloc(), StdSource::new(Empty { asked: 0 }))?;
    for _ in 0..2 {
        let refused = fill_exact::<Any, Reads>(&mut r, 5);
        let is_refused = matches!(&refused, Err(ReadError::ReadSizeLimit(5)));
        let rest = fill_buf::<Any, Reads>(&mut r, 1)?.len();
        <Reads as Reader<Any>>::consume(&mut r, 0)?;
        let mut window = window_of::<Any, Reads>(&mut r, 0)?;
        let inside = window.fill_buf(1)?.len();
        assert!(rt; (is_refused, rest, inside) == (true, 0, 0));
    }
    assert!(rt; r.into_source().into_inner().asked == 1);
    Ok(())
}

/// So many bytes, 0 to 250 again and again.
fn counted(alloc: Global, n: usize) -> Result<Vec<u8>, Fail> {
    let mut bytes = Vec::new(alloc);
    for i in 0..n {
        bytes.push((i % 251) as u8)?;
    }
    Ok(bytes)
}

#[test]
fn a_long_source(rt: HostRuntime) -> Result<(), Fail> {
    type Reads<'a> = StreamReader<StdSource<&'a [u8]>>;
    let bytes = counted(rt.alloc(), 30000)?;
    let mut r = StreamReader::new(rt.alloc(), StdSource::new(bytes.as_slice()))?;
    let (front, rest) = bytes.as_slice().split_at_checked(20000).ok_or("bytes")?;
    let last = rest.get(9999..).ok_or("a last one")?;
    let whole = fill_exact::<Any, Reads>(&mut r, 29999)?.len();
    let mut w = window_of::<Any, Reads>(&mut r, 20000)?;
    let is_front = w.fill_buf(20001)? == front;
    let is_rest = fill_buf::<Any, Reads>(&mut r, 20000)? == rest;
    <Reads as Reader<Any>>::consume(&mut r, 9999)?;
    let is_last = fill_exact::<Any, Reads>(&mut r, 1)? == last;
    assert!(rt; (whole, is_front, is_rest, is_last) == (29999, true, true, true));
    Ok(())
}

/// Gives a byte at a time, and is interrupted before each; the largest buffer that it was given.
#[derive(Drop)]
struct Interrupted<'a> {
    bytes: &'a [u8],
    is_turn: bool,
    largest: usize,
}

impl Read for Interrupted<'_> {
    fn read(&mut self, buf: &mut [u8]) -> io::Result<usize> {
        self.largest = self.largest.max(buf.len());
        self.is_turn = !self.is_turn;
        if self.is_turn {
            return Err(io::Error::from(ErrorKind::Interrupted));
        }
        let n = buf.len().min(1);
        self.bytes.read(&mut buf[..n])
    }
}

/// An interrupted read of std's is a failure, as any other error.
#[test]
fn an_interrupted_read_is_a_failure(rt: HostRuntime) -> Result<(), Fail> {
    let alloc = rt.alloc();
    let input = Interrupted {
        bytes: &[1, 2, 3],
        is_turn: false,
        largest: 0,
    };
    let mut reader = StreamReader::new(alloc, StdSource::new(input))?;
    let read = deserialize_from::<Lifetime, _, u16>(alloc, &mut reader);
    let kind = match read {
        Err(wincode::ReadError::Io(ReadError::Io(e))) => Some(e.kind()),
        _ => None,
    };
    let largest = reader.into_inner().largest;
    assert!(rt; (kind, largest) == (Some(ErrorKind::Interrupted), 8192));
    Ok(())
}

/// Gives the numbers from 0 on as bytes, so many of them, and takes no memory; the largest buffer that it
/// was given.
#[derive(Drop)]
struct Numbers {
    given: usize,
    size: usize,
    largest: usize,
}

impl Read for Numbers {
    fn read(&mut self, buf: &mut [u8]) -> io::Result<usize> {
        self.largest = self.largest.max(buf.len());
        let n = buf
            .len()
            .min(self.size.saturating_sub(self.given))
            .min(5000);
        for i in 0..n {
            buf[i] = (self.given.wrapping_add(i) % 251) as u8;
        }
        self.given = self.given.wrapping_add(n);
        Ok(n)
    }
}

type NumberReader = StreamReader<StdSource<Numbers>>;

fn number_reader(alloc: Global) -> ReadResult<NumberReader> {
    StreamReader::new(
        alloc,
        StdSource::new(Numbers {
            given: 0,
            size: 40000,
            largest: 0,
        }),
    )
}

/// Whether these are the numbers from this one on.
fn counts_from(bytes: &[u8], first: usize) -> bool {
    bytes
        .iter()
        .enumerate()
        .all(|(i, b)| usize::from(*b) == first.wrapping_add(i) % 251)
}

/// A reader of the numbers, for which memory is asked again where it was refused.
fn number_reader_again(alloc: Global) -> ReadResult<NumberReader> {
    match number_reader(alloc) {
        Err(ReadError::OutOfMemory) => number_reader(alloc),
        answer => answer,
    }
}

/// Brings many bytes to hand, again where memory was refused: whether the bytes so far were then kept.
fn fill_again(r: &mut NumberReader) -> ReadResult<bool> {
    match <NumberReader as Reader<Any>>::fill(r, 30000) {
        Ok(()) => Ok(true),
        Err(ReadError::OutOfMemory) => {
            let is_kept = counts_from(r.unread(), 0);
            <NumberReader as Reader<Any>>::fill(r, 30000)?;
            Ok(is_kept)
        }
        Err(e) => Err(e),
    }
}

/// A window behind so many bytes that were taken, again where memory was refused, and whether the bytes at hand were
/// then kept.
fn window_again(
    r: &mut NumberReader,
    n: usize,
    taken: usize,
) -> ReadResult<(ReadWindow<Any>, bool)> {
    let before = r.unread().len();
    match window_of::<Any, NumberReader>(r, n) {
        Ok(window) => Ok((window, true)),
        Err(ReadError::OutOfMemory) => {
            let is_kept = before <= r.unread().len() && counts_from(r.unread(), taken);
            Ok((window_of::<Any, NumberReader>(r, n)?, is_kept))
        }
        Err(e) => Err(e),
    }
}

/// Whether a window has so many of the numbers from this one on, through windows in it too.
fn is_counted(mut window: ReadWindow<Any>, n: usize, first: usize) -> ReadResult<bool> {
    let mut inner = window.as_trusted_for(n / 2)?;
    let mut inmost = inner.as_trusted_for(n / 4)?;
    let parts = [
        counts_from(inmost.fill_exact(n / 4)?, first),
        counts_from(inner.fill_exact(n / 2 - n / 4)?, first.wrapping_add(n / 4)),
        counts_from(window.fill_exact(n - n / 2)?, first.wrapping_add(n / 2)),
    ];
    Ok(parts == [true; 3])
}

/// Run with each growth refused in turn: it is `OutOfMemory`, the bytes so far are kept, and the same call
/// made again succeeds. No buffer that the source is given is longer than 8192 bytes.
#[test]
fn each_growth_refused(rt: HostRuntime) -> Result<(), Fail> {
    let mut r = number_reader_again(rt.alloc())?;
    assert!(rt; fill_again(&mut r)?);
    let mut taken = 0usize;
    for n in [10usize, 9000, 20, 20000, 100] {
        let (window, is_kept) = window_again(&mut r, n, taken)?;
        let is_whole = is_counted(window, n, taken)?;
        assert!(rt; [is_kept, is_whole] == [true; 2]);
        taken = taken.wrapping_add(n);
    }
    let rest = 40000usize.saturating_sub(taken);
    let is_rest = counts_from(fill_exact::<Any, NumberReader>(&mut r, rest)?, taken);
    let is_end = fill_exact::<Any, NumberReader>(&mut r, rest.wrapping_add(1)).is_err();
    let is_small = r.into_source().into_inner().largest <= 8192;
    assert!(rt; [is_rest, is_end, is_small] == [true; 3]);
    Ok(())
}

/// As many bytes as a mebibyte has, a hundred at a time, some of them by windows that stay: never more than 8191 are at
/// hand beyond those, and memory is asked for as many and 8192.
#[test]
fn a_mebibyte_in_small_reads(rt: HostRuntime) -> Result<(), Fail> {
    let alloc = rt.alloc();
    let source = StdSource::new(Numbers {
        given: 0,
        size: 1_048_600,
        largest: 0,
    });
    let mut r = StreamReader::new(alloc, source)?;
    let mut windows = Vec::new(alloc);
    let mut bytes = [0u8; 100];
    for i in 0..10_486usize {
        let is_read = if i % 500 == 499 {
            windows.push(window_of::<Any, NumberReader>(&mut r, 100)?)?;
            true
        } else {
            <NumberReader as Reader<Any>>::copy_into_slice(&mut r, &mut bytes)?;
            counts_from(&bytes, i.wrapping_mul(100))
        };
        let is_small = r.unread().len() <= 8191;
        assert!(rt; [is_read, is_small, r.capacity() <= 8291] == [true; 3]);
    }
    let rest = fill_buf::<Any, NumberReader>(&mut r, 1)?.len();
    assert!(rt; (windows.len(), rest) == (20, 0));
    Ok(())
}

/// What is brought to hand, and the memory for it, of a call that needs more than the buffer has.
#[test]
fn a_long_call_takes_what_it_needs(rt: HostRuntime) -> Result<(), Fail> {
    let mut r = number_reader(rt.alloc())?;
    for n in [10usize, 9_000, 9_001, 20_000, 30_000] {
        <NumberReader as Reader<Any>>::fill(&mut r, n)?;
        let size = r.unread().len();
        let is_enough = n <= size && size <= n.wrapping_add(8191);
        let is_small = r.capacity() <= n.wrapping_add(8192);
        assert!(rt; [is_enough, is_small] == [true; 2]);
    }
    <NumberReader as Reader<Any>>::consume(&mut r, 30_000)?;
    assert!(rt; r.unread().len() <= 8191);
    Ok(())
}

/// The kind of the failure that the call of this number answers, which needs three bytes; none where it succeeds.
fn failure_of<R: Reader<Any>>(reader: &mut R, call: usize) -> ReadResult<Option<ErrorKind>> {
    let mut bytes = [0u8; 3];
    let mut form: Option<[u8; 3]> = None;
    let answer = match call {
        0 => reader.fill(3),
        1 => reader.consume(3),
        2 => reader.fill_buf(3).map(|_| ()),
        3 => reader.fill_exact(3).map(|_| ()),
        4 => reader.copy_into_slice(&mut bytes),
        5 => reader.copy_into_t(&mut form),
        6 => reader.copy_into_slice_t(&mut bytes),
        7 => match reader.as_trusted_for(3) {
            Ok(_) => Ok(()),
            Err(e) => Err(e),
        },
        _ => reader.peek().map(|_| ()),
    };
    match answer {
        Ok(()) => Ok(None),
        Err(ReadError::Io(e)) => Ok(Some(e.kind())),
        Err(e) => Err(e),
    }
}

/// Whether each call answers a failure of kind Other.
fn fails_again<R: Reader<Any>>(reader: &mut R) -> ReadResult<bool> {
    for call in 0..9usize {
        if failure_of(reader, call)? != Some(ErrorKind::Other) {
            return Ok(false);
        }
    }
    Ok(true)
}

/// Where the source fails each call answers its error, and any call behind that `Io` of kind Other.
#[test]
fn each_call_at_a_failure(rt: HostRuntime) -> Result<(), Fail> {
    for first in 0..9usize {
        let mut r = StreamReader::new(rt.alloc(), StdSource::new(Broken { asked: 0 }))?;
        let kind = failure_of(&mut r, first)?;
        let is_failed = fails_again(&mut r)?;
        let asked = r.into_source().into_inner().asked;
        assert!(rt; (kind, is_failed, asked) == (Some(ErrorKind::TimedOut), true, 1));
    }
    Ok(())
}

/// Gives two bytes, then none, and counts.
#[derive(Drop)]
struct Two {
    asked: usize,
}

impl Read for Two {
    fn read(&mut self, buf: &mut [u8]) -> io::Result<usize> {
        self.asked = self.asked.saturating_add(1);
        if self.asked == 1 && 2 <= buf.len() {
            buf[0] = 1;
            buf[1] = 2;
            return Ok(2);
        }
        Ok(0)
    }
}

/// Whether the call of this number succeeds, or is refused for the three bytes that it needs.
fn is_at_end<R: Reader<Any>>(reader: &mut R, call: usize) -> bool {
    match failure_of(reader, call) {
        Ok(None) => true,
        Err(ReadError::ReadSizeLimit(n)) => n == 3,
        _ => false,
    }
}

/// A source that has ended isn't asked again while bytes are at hand, whatever call comes.
#[test]
fn each_call_behind_the_end(rt: HostRuntime) -> Result<(), Fail> {
    for first in 0..8usize {
        let mut r = StreamReader::new(rt.alloc(), StdSource::new(Two { asked: 0 }))?;
        for again in 0..8usize {
            for call in [first, again] {
                assert!(rt; is_at_end(&mut r, call));
            }
        }
        let is_kept = r.unread() == [1u8, 2].as_slice();
        let asked = r.into_source().into_inner().asked;
        assert!(rt; (is_kept, asked) == (true, 2));
    }
    Ok(())
}
