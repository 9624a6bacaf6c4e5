//! Items that are lent or owned are written as the list of them.
ghost use Rattle.std.specs.Cow.{cow_slice_items};
ghost use Rattle.std.specs.Prelude.{◌≡◌, List, map};
ghost use Rattle.wincode_base.specs.Lengths.{bincode, preallocation_limit};
ghost use Rattle.wincode_base.specs.ListLaws.{list_write_laws};
ghost use Rattle.wincode_base.specs.Lists.{list_write};
ghost use Rattle.wincode_io.specs.Joins.{Each};

use crate::schema::SchemaWrite;
use crate::schema::runs::encode_list;
use crate::schema::to_items::{size_of_list, write_list};
use std::borrow::CowSlice;
use wincode_base::error::WriteResult;
use wincode_base::len::{BincodeLen, PREALLOCATION_LIMIT};
use wincode_base::meta::TypeMeta;
use wincode_base::sizes::ItemSize;
use wincode_io::Writer;

impl<'s, U: 's, T: SchemaWrite<Src = U>> SchemaWrite for CowSlice<'s, T> {
    type Src = CowSlice<'s, U>;

    ghost Value = { List T.Value };

    ghost model = { λ c. map T.model (cow_slice_items c) };

    ghost is_valid = { λ c. Each T.is_valid (cow_slice_items c) };

    ghost writing = { list_write (bincode preallocation_limit) 24 T.writing };

    fn type_meta() -> TypeMeta
        ensures { result ≡ (list_write (bincode preallocation_limit) 24 T.writing).meta }
    {
        TypeMeta::Dynamic
    }

    fn size_of(src: &CowSlice<'s, U>) -> WriteResult<usize> {
        size_of_list::<BincodeLen<PREALLOCATION_LIMIT>, T, &[U], 24>(&src.as_slice())
    }

    fn write<W: Writer>(writer: &mut W, src: &CowSlice<'s, U>) -> WriteResult<()> {
        let size = ItemSize::of(T::type_meta());
        write_list::<BincodeLen<PREALLOCATION_LIMIT>, T, &[U], W, 24>(writer, &src.as_slice(), size)
    }

    #[inline]
    fn encode_front(src: &CowSlice<'s, U>, dst: &mut [u8]) -> Option<usize> {
        encode_list::<BincodeLen<PREALLOCATION_LIMIT>, T, 24>(src.as_slice(), dst)
    }

    fn write_at_once<W: Writer>(
        writer: &mut W,
        items: &[CowSlice<'s, U>],
    ) -> Option<WriteResult<()>> {
        let _ = &*writer;
        let _items = items.len();
        None
    }

    #[inline(always)]
    fn known_size() -> Option<usize> {
        None
    }

    ghost write_laws = { list_write_laws (bincode preallocation_limit) 24 (λ c. cow_slice_items c) T.is_valid T.model T.writing T.write_laws };
}
