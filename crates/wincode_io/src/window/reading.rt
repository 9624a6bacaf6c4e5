//! Windows as readers.
ghost use Rattle.wincode_io.specs.Readers.{memory, counted, nothing, shared, for_writing};
ghost use Rattle.wincode_io.specs.Windows.{window_state};

use super::super::error::{ReadError, ReadResult};
use super::super::lending::Lending;
use super::super::reader::Reader;
use super::{
    CountedSliceReader, ReadWindow, TrustedSliceReader, TrustedSliceReaderZeroCopy,
    TrustedSliceReaderZeroCopyMut, between,
};
use std::sync::Arc;

impl<L: Lending> Reader<L> for TrustedSliceReaderZeroCopy<L> {
    ghost state = { λ w. memory shared w };

    fn fill(&mut self, _n: usize) -> ReadResult<()> {
        Ok(())
    }

    fn at_hand(&self) -> &[u8] {
        between::<L>(&self.all, self.place, self.end)
    }

    fn consume_unchecked(&mut self, n: usize) {
        self.place += n;
    }

    fn borrow_exact(&mut self, n: usize) -> ReadResult<L::Bytes> {
        let place = self.place;
        if n <= self.end - place {
            let end = place + n;
            self.place = end;
            Ok(L::part(&self.all, place, end))
        } else {
            Err(ReadError::ReadSizeLimit(n))
        }
    }

    fn borrow_exact_mut(&mut self, _n: usize) -> ReadResult<L::BytesMut> {
        Err(ReadError::UnsupportedZeroCopy)
    }

    fn as_trusted_for(&mut self, n: usize) -> ReadResult<ReadWindow<L>> {
        let place = self.place;
        if n <= self.end - place {
            let end = place + n;
            self.place = end;
            let all = self.all;
            Ok(ReadWindow::Shared(TrustedSliceReaderZeroCopy { all, place, end }))
        } else {
            Err(ReadError::ReadSizeLimit(n))
        }
    }
}

impl<L: Lending> Reader<L> for TrustedSliceReaderZeroCopyMut<L> {
    ghost state = { λ w. memory for_writing w };

    fn fill(&mut self, _n: usize) -> ReadResult<()> {
        Ok(())
    }

    fn at_hand(&self) -> &[u8] {
        let place = self.place;
        let all = L::bytes_of_mut(&self.all);
        &all[place..]
    }

    fn consume_unchecked(&mut self, n: usize) {
        // The bytes are a slice, so their number fits, and so does each place in them.
        let _length = L::bytes_of_mut(&self.all).len();
        self.place += n;
    }

    fn borrow_exact(&mut self, n: usize) -> ReadResult<L::Bytes> {
        if n <= self.at_hand().len() {
            Ok(L::share(self.cut(n)))
        } else {
            Err(ReadError::ReadSizeLimit(n))
        }
    }

    fn borrow_exact_mut(&mut self, n: usize) -> ReadResult<L::BytesMut> {
        if n <= self.at_hand().len() {
            Ok(self.cut(n))
        } else {
            Err(ReadError::ReadSizeLimit(n))
        }
    }

    fn as_trusted_for(&mut self, n: usize) -> ReadResult<ReadWindow<L>> {
        let front = self.borrow_exact_mut(n)?;
        Ok(ReadWindow::Writing(TrustedSliceReaderZeroCopyMut::<L>::new(front)))
    }
}

impl<L: Lending> Reader<L> for TrustedSliceReader<L> {
    ghost state = { λ w. memory nothing w };

    fn fill(&mut self, _n: usize) -> ReadResult<()> {
        Ok(())
    }

    fn at_hand(&self) -> &[u8] {
        between::<L>(&self.all, self.place, self.end)
    }

    fn consume_unchecked(&mut self, n: usize) {
        self.place += n;
    }

    fn borrow_exact(&mut self, _n: usize) -> ReadResult<L::Bytes> {
        Err(ReadError::UnsupportedZeroCopy)
    }

    fn borrow_exact_mut(&mut self, _n: usize) -> ReadResult<L::BytesMut> {
        Err(ReadError::UnsupportedZeroCopy)
    }

    fn as_trusted_for(&mut self, n: usize) -> ReadResult<ReadWindow<L>> {
        let place = self.place;
        if n <= self.end - place {
            let end = place + n;
            self.place = end;
            let all = self.all;
            Ok(ReadWindow::Plain(TrustedSliceReader { all, place, end }))
        } else {
            Err(ReadError::ReadSizeLimit(n))
        }
    }
}

impl<L: Lending> Reader<L> for CountedSliceReader {
    ghost state = { counted };

    fn fill(&mut self, _n: usize) -> ReadResult<()> {
        Ok(())
    }

    fn at_hand(&self) -> &[u8] {
        let (place, end) = (self.place, self.end);
        let all = self.all.as_slice();
        &all[place..end]
    }

    fn consume_unchecked(&mut self, n: usize) {
        self.place += n;
    }

    fn borrow_exact(&mut self, _size: usize) -> ReadResult<L::Bytes> {
        Err(ReadError::UnsupportedZeroCopy)
    }

    fn borrow_exact_mut(&mut self, _size: usize) -> ReadResult<L::BytesMut> {
        Err(ReadError::UnsupportedZeroCopy)
    }

    fn as_trusted_for(&mut self, n: usize) -> ReadResult<ReadWindow<L>> {
        let place = self.place;
        if self.end - place < n {
            return Err(ReadError::ReadSizeLimit(n));
        }
        let Ok(all) = Arc::try_clone(&self.all) else {
            return Err(ReadError::OutOfMemory);
        };
        let end = place + n;
        self.place = end;
        Ok(ReadWindow::Counted(CountedSliceReader { all, place, end }))
    }
}

impl<L: Lending> Reader<L> for ReadWindow<L> {
    ghost state = { window_state };

    fn fill(&mut self, _n: usize) -> ReadResult<()> {
        Ok(())
    }

    fn at_hand(&self) -> &[u8] {
        match self {
            ReadWindow::Shared(w) => w.at_hand(),
            ReadWindow::Writing(w) => w.at_hand(),
            ReadWindow::Plain(w) => w.at_hand(),
            ReadWindow::Counted(w) => <CountedSliceReader as Reader<L>>::at_hand(w),
        }
    }

    fn consume_unchecked(&mut self, n: usize) {
        match self {
            ReadWindow::Shared(w) => w.consume_unchecked(n),
            ReadWindow::Writing(w) => w.consume_unchecked(n),
            ReadWindow::Plain(w) => w.consume_unchecked(n),
            ReadWindow::Counted(w) => <CountedSliceReader as Reader<L>>::consume_unchecked(w, n),
        }
    }

    fn borrow_exact(&mut self, n: usize) -> ReadResult<L::Bytes> {
        match self {
            ReadWindow::Shared(w) => w.borrow_exact(n),
            ReadWindow::Writing(w) => w.borrow_exact(n),
            ReadWindow::Plain(w) => w.borrow_exact(n),
            ReadWindow::Counted(w) => <CountedSliceReader as Reader<L>>::borrow_exact(w, n),
        }
    }

    fn borrow_exact_mut(&mut self, n: usize) -> ReadResult<L::BytesMut> {
        match self {
            ReadWindow::Shared(w) => w.borrow_exact_mut(n),
            ReadWindow::Writing(w) => w.borrow_exact_mut(n),
            ReadWindow::Plain(w) => w.borrow_exact_mut(n),
            ReadWindow::Counted(w) => <CountedSliceReader as Reader<L>>::borrow_exact_mut(w, n),
        }
    }

    fn as_trusted_for(&mut self, n: usize) -> ReadResult<ReadWindow<L>> {
        match self {
            ReadWindow::Shared(w) => w.as_trusted_for(n),
            ReadWindow::Writing(w) => w.as_trusted_for(n),
            ReadWindow::Plain(w) => w.as_trusted_for(n),
            ReadWindow::Counted(w) => <CountedSliceReader as Reader<L>>::as_trusted_for(w, n),
        }
    }
}
