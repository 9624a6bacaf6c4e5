//! Written by `wincode_derive`: the schemas of what the module above declares.
ghost use Rattle.wincode_base.specs.PairLaws.{write_laws_by, reads_back_by};

use super::*;
use std::alloc::Global;
use wincode::io::{Lending, Reader, Writer};
use wincode::schema::tuples::{encode_front_members_4, size_of_members_4, write_members_4};
use wincode::{
    OneText, ReadResult, RoundTrip, SchemaGet, SchemaRead, SchemaReadOwned, SchemaWrite, TypeMeta,
    WriteResult,
};
use wincode_derive_support::laws::{FieldsOneText, FieldsReadOwned, Lawful};

type OrderFields = (u64, bool, String, Vec<u32>);

impl SchemaWrite for Order {
    type Src = Order;

    ghost Value = { ⟦<OrderFields as SchemaWrite>⟧.Value };

    ghost model = { λ x. ⟦<OrderFields as SchemaWrite>⟧.model (x.id, x.paid, x.buyer, x.items) };

    ghost is_valid = { λ x. ⟦<OrderFields as SchemaWrite>⟧.is_valid (x.id, x.paid, x.buyer, x.items) };

    ghost writing = { ⟦<OrderFields as SchemaWrite>⟧.writing };

    fn type_meta() -> TypeMeta {
        <OrderFields as SchemaWrite>::type_meta()
    }

    fn size_of(src: &Order) -> WriteResult<usize> {
        size_of_members_4::<u64, bool, String, Vec<u32>>(&src.id, &src.paid, &src.buyer, &src.items)
    }

    fn write<W: Writer>(writer: &mut W, src: &Order) -> WriteResult<()> {
        write_members_4::<u64, bool, String, Vec<u32>, W>(
            writer, &src.id, &src.paid, &src.buyer, &src.items,
        )
    }

    #[inline(always)]
    fn encode_front(src: &Order, dst: &mut [u8]) -> Option<usize> {
        encode_front_members_4::<u64, bool, String, Vec<u32>>(
            &src.id, &src.paid, &src.buyer, &src.items, dst,
        )
    }

    ghost write_laws = { write_laws_by (λ x. (x.id, x.paid, x.buyer, x.items)) ⟦<OrderFields as SchemaWrite>⟧.write_laws };
}

impl<L: Lending> SchemaRead<L> for Order {
    type Dst = Order;

    ghost Value = { ⟦<OrderFields as SchemaRead<L>>⟧.Value };

    ghost model = { λ x. ⟦<OrderFields as SchemaRead<L>>⟧.model (x.id, x.paid, x.buyer, x.items) };

    ghost is_valid = { ⟦<OrderFields as SchemaRead<L>>⟧.is_valid };

    ghost reading = { ⟦<OrderFields as SchemaRead<L>>⟧.reading };

    fn type_meta() -> TypeMeta {
        <OrderFields as SchemaRead<L>>::type_meta()
    }

    fn prealloc_size() -> usize {
        <OrderFields as SchemaRead<L>>::prealloc_size()
    }

    fn read<R: Reader<L>>(
        alloc: Global,
        reader: &mut R,
        dst: &mut Option<Order>,
    ) -> ReadResult<()> {
        match <OrderFields as SchemaGet<L>>::get(alloc, reader) {
            Ok(parts) => {
                let (id, paid, buyer, items) = parts;
                *dst = Some(Order {
                    id,
                    paid,
                    buyer,
                    items,
                });
                Ok(())
            }
            Err(error) => Err(error),
        }
    }

    ghost read_laws = { ⟦<OrderFields as Lawful<L>>⟧.read_laws };
}

impl<L: Lending> Lawful<L> for Order {
    type Dst = Order;

    ghost Value = { ⟦<OrderFields as Lawful<L>>⟧.Value };

    ghost model = { λ x. ⟦<OrderFields as Lawful<L>>⟧.model (x.id, x.paid, x.buyer, x.items) };

    ghost is_valid = { ⟦<OrderFields as Lawful<L>>⟧.is_valid };

    ghost reading = { ⟦<OrderFields as Lawful<L>>⟧.reading };

    ghost read_laws = { ⟦<OrderFields as Lawful<L>>⟧.read_laws };
}

impl<L: Lending> RoundTrip<L> for Order
where
    OrderFields: RoundTrip<L>,
{
    ghost reads_back = { reads_back_by (λ x. (x.id, x.paid, x.buyer, x.items)) bound-5.reads_back };
}

impl<L: Lending> OneText<L> for Order
where
    OrderFields: FieldsOneText<L>,
{
    ghost one_text = { bound-5.fields_one_text };
}

impl<L: Lending> SchemaReadOwned<L> for Order
where
    OrderFields: FieldsReadOwned<L>,
{
    ghost owned = { bound-5.fields_owned };
}
