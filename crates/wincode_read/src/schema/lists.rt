//! Schemas of lists, behind a length of eight bytes.
//!
//! Items of one size are read through one window of all of them, taken before memory is asked for: where
//! fewer bytes are left it is `Io(ReadSizeLimit)` of the size of all items, and the reader stands behind
//! the length; where an item is refused, behind all items. A size past `usize::MAX` is
//! `LengthEncodingOverflow`. Other items are read one after another.
ghost use Rattle.std.proofs.Common.{lit≤};
ghost use Rattle.std.specs.Prelude.{List, map};
ghost use Rattle.wincode_io.specs.Joins.{Each};
ghost use Rattle.wincode_base.specs.LengthLaws.{bincode_laws};
ghost use Rattle.wincode_base.specs.Lengths.{bincode, preallocation_limit};
ghost use Rattle.wincode_base.specs.ListLaws.{list_read_laws};
ghost use Rattle.wincode_base.specs.Lists.{list_read};

mod cows;

use crate::schema::SchemaRead;
use crate::schema::from_items::get_list;
use std::alloc::Global;
use std::collections::{LinkedList, VecDeque};
use wincode_base::error::ReadResult;
use wincode_base::len::{BincodeLen, PREALLOCATION_LIMIT};
use wincode_base::meta::TypeMeta;
use wincode_io::{Lending, Reader};

impl<L: Lending, T: SchemaRead<L>> SchemaRead<L> for Vec<T> {
    type Dst = Vec<T::Dst>;

    ghost Value = { List T.Value };

    ghost model = { λ v. map T.model v.items };

    ghost is_valid = { Each T.is_valid };

    ghost reading = { list_read (bincode preallocation_limit) 24 T.reading };

    fn type_meta() -> TypeMeta {
        TypeMeta::Dynamic
    }

    fn prealloc_size() -> usize {
        24
    }

    fn read<R: Reader<L>>(
        alloc: Global,
        reader: &mut R,
        dst: &mut Option<Vec<T::Dst>>,
    ) -> ReadResult<()> {
        *dst = Some(get_list::<Vec<T::Dst>, BincodeLen<PREALLOCATION_LIMIT>, L, T, R>(
            alloc, reader,
        )?);
        Ok(())
    }

    #[inline(always)]
    fn read_at_once<R: Reader<L>>(
        alloc: Global,
        reader: &mut R,
        n: usize,
        into: &mut Vec<Self::Dst>,
    ) -> Option<ReadResult<()>> {
        let _ = (alloc, n);
        let _ = &*reader;
        let _ = &*into;
        None
    }

    #[inline(always)]
    fn blank() -> Option<Self::Dst> {
        None
    }

    #[inline(always)]
    fn decode(bytes: &[u8], place: &mut Self::Dst) -> bool {
        let _ = bytes.len();
        let _ = &*place;
        false
    }

    ghost read_laws = { list_read_laws (bincode preallocation_limit) (bincode_laws preallocation_limit) 24 (lit≤ tt) T.is_valid T.reading T.read_laws };
}

impl<L: Lending, T: SchemaRead<L>> SchemaRead<L> for VecDeque<T> {
    type Dst = VecDeque<T::Dst>;

    ghost Value = { List T.Value };

    ghost model = { λ q. map T.model q.items };

    ghost is_valid = { Each T.is_valid };

    ghost reading = { list_read (bincode preallocation_limit) 24 T.reading };

    fn type_meta() -> TypeMeta {
        TypeMeta::Dynamic
    }

    fn prealloc_size() -> usize {
        24
    }

    fn read<R: Reader<L>>(
        alloc: Global,
        reader: &mut R,
        dst: &mut Option<VecDeque<T::Dst>>,
    ) -> ReadResult<()> {
        *dst = Some(get_list::<VecDeque<T::Dst>, BincodeLen<PREALLOCATION_LIMIT>, L, T, R>(
            alloc, reader,
        )?);
        Ok(())
    }

    #[inline(always)]
    fn read_at_once<R: Reader<L>>(
        alloc: Global,
        reader: &mut R,
        n: usize,
        into: &mut Vec<Self::Dst>,
    ) -> Option<ReadResult<()>> {
        let _ = (alloc, n);
        let _ = &*reader;
        let _ = &*into;
        None
    }

    #[inline(always)]
    fn blank() -> Option<Self::Dst> {
        None
    }

    #[inline(always)]
    fn decode(bytes: &[u8], place: &mut Self::Dst) -> bool {
        let _ = bytes.len();
        let _ = &*place;
        false
    }

    ghost read_laws = { list_read_laws (bincode preallocation_limit) (bincode_laws preallocation_limit) 24 (lit≤ tt) T.is_valid T.reading T.read_laws };
}

impl<L: Lending, T: SchemaRead<L>> SchemaRead<L> for LinkedList<T> {
    type Dst = LinkedList<T::Dst>;

    ghost Value = { List T.Value };

    ghost model = { λ l. map T.model l };

    ghost is_valid = { Each T.is_valid };

    ghost reading = { list_read (bincode preallocation_limit) 24 T.reading };

    fn type_meta() -> TypeMeta {
        TypeMeta::Dynamic
    }

    fn prealloc_size() -> usize {
        24
    }

    fn read<R: Reader<L>>(
        alloc: Global,
        reader: &mut R,
        dst: &mut Option<LinkedList<T::Dst>>,
    ) -> ReadResult<()> {
        *dst = Some(get_list::<LinkedList<T::Dst>, BincodeLen<PREALLOCATION_LIMIT>, L, T, R>(
            alloc, reader,
        )?);
        Ok(())
    }

    #[inline(always)]
    fn read_at_once<R: Reader<L>>(
        alloc: Global,
        reader: &mut R,
        n: usize,
        into: &mut Vec<Self::Dst>,
    ) -> Option<ReadResult<()>> {
        let _ = (alloc, n);
        let _ = &*reader;
        let _ = &*into;
        None
    }

    #[inline(always)]
    fn blank() -> Option<Self::Dst> {
        None
    }

    #[inline(always)]
    fn decode(bytes: &[u8], place: &mut Self::Dst) -> bool {
        let _ = bytes.len();
        let _ = &*place;
        false
    }

    ghost read_laws = { list_read_laws (bincode preallocation_limit) (bincode_laws preallocation_limit) 24 (lit≤ tt) T.is_valid T.reading T.read_laws };
}
