//! Written by `wincode_derive`: the schemas of what the module above declares.
ghost use Rattle.wincode_base.specs.PairLaws.{write_laws_by, reads_back_by};

use super::*;
use std::alloc::Global;
use wincode::io::{Lending, Reader, Writer};
use wincode::schema::tuples::{
    encode_front_members_2, encode_front_members_4, size_of_members_2, size_of_members_4,
    write_members_2, write_members_4,
};
use wincode::{
    OneText, ReadResult, RoundTrip, SchemaGet, SchemaRead, SchemaReadOwned, SchemaWrite, TypeMeta,
    WriteResult,
};
use wincode_derive_support::laws::{FieldsOneText, FieldsReadOwned, Lawful};

type AccountFields = [u8; 32];

impl SchemaWrite for Account {
    type Src = Account;

    ghost Value = { ⟦<AccountFields as SchemaWrite>⟧.Value };

    ghost model = { λ x. ⟦<AccountFields as SchemaWrite>⟧.model x.0 };

    ghost is_valid = { λ x. ⟦<AccountFields as SchemaWrite>⟧.is_valid x.0 };

    ghost writing = { ⟦<AccountFields as SchemaWrite>⟧.writing };

    fn type_meta() -> TypeMeta {
        <AccountFields as SchemaWrite>::type_meta()
    }

    fn size_of(src: &Account) -> WriteResult<usize> {
        <[u8; 32] as SchemaWrite>::size_of(&src.0)
    }

    fn write<W: Writer>(writer: &mut W, src: &Account) -> WriteResult<()> {
        <[u8; 32] as SchemaWrite>::write::<W>(writer, &src.0)
    }

    #[inline(always)]
    fn encode_front(src: &Account, dst: &mut [u8]) -> Option<usize> {
        <[u8; 32] as SchemaWrite>::encode_front(&src.0, dst)
    }

    ghost write_laws = { write_laws_by (λ x. x.0) ⟦<AccountFields as SchemaWrite>⟧.write_laws };
}

impl<L: Lending> SchemaRead<L> for Account {
    type Dst = Account;

    ghost Value = { ⟦<AccountFields as SchemaRead<L>>⟧.Value };

    ghost model = { λ x. ⟦<AccountFields as SchemaRead<L>>⟧.model x.0 };

    ghost is_valid = { ⟦<AccountFields as SchemaRead<L>>⟧.is_valid };

    ghost reading = { ⟦<AccountFields as SchemaRead<L>>⟧.reading };

    fn type_meta() -> TypeMeta {
        <AccountFields as SchemaRead<L>>::type_meta()
    }

    fn prealloc_size() -> usize {
        <AccountFields as SchemaRead<L>>::prealloc_size()
    }

    fn read<R: Reader<L>>(
        alloc: Global,
        reader: &mut R,
        dst: &mut Option<Account>,
    ) -> ReadResult<()> {
        match <AccountFields as SchemaGet<L>>::get(alloc, reader) {
            Ok(parts) => {
                let a = parts;
                *dst = Some(Account(a));
                Ok(())
            }
            Err(error) => Err(error),
        }
    }

    #[inline(always)]
    fn blank() -> Option<Account> {
        let a = <AccountFields as SchemaRead<L>>::blank()?;
        Some(Account(a))
    }

    #[inline(always)]
    fn decode(bytes: &[u8], place: &mut Account) -> bool {
        let Some(mut parts) = <AccountFields as SchemaRead<L>>::blank() else {
            return false;
        };
        if !<AccountFields as SchemaRead<L>>::decode(bytes, &mut parts) {
            return false;
        }
        let a = parts;
        *place = Account(a);
        true
    }

    ghost read_laws = { ⟦<AccountFields as Lawful<L>>⟧.read_laws };
}

impl<L: Lending> Lawful<L> for Account {
    type Dst = Account;

    ghost Value = { ⟦<AccountFields as Lawful<L>>⟧.Value };

    ghost model = { λ x. ⟦<AccountFields as Lawful<L>>⟧.model x.0 };

    ghost is_valid = { ⟦<AccountFields as Lawful<L>>⟧.is_valid };

    ghost reading = { ⟦<AccountFields as Lawful<L>>⟧.reading };

    ghost read_laws = { ⟦<AccountFields as Lawful<L>>⟧.read_laws };
}

impl<L: Lending> RoundTrip<L> for Account
where
    AccountFields: RoundTrip<L>,
{
    ghost reads_back = { reads_back_by (λ x. x.0) bound-5.reads_back };
}

impl<L: Lending> OneText<L> for Account
where
    AccountFields: FieldsOneText<L>,
{
    ghost one_text = { bound-5.fields_one_text };
}

impl<L: Lending> SchemaReadOwned<L> for Account
where
    AccountFields: FieldsReadOwned<L>,
{
    ghost owned = { bound-5.fields_owned };
}

type TransferFields = ([u8; 32], [u8; 32], u64, Option<String>);

impl SchemaWrite for Transfer {
    type Src = Transfer;

    ghost Value = { ⟦<TransferFields as SchemaWrite>⟧.Value };

    ghost model = { λ x. ⟦<TransferFields as SchemaWrite>⟧.model (x.from, x.to, x.amount, x.memo) };

    ghost is_valid = { λ x. ⟦<TransferFields as SchemaWrite>⟧.is_valid (x.from, x.to, x.amount, x.memo) };

    ghost writing = { ⟦<TransferFields as SchemaWrite>⟧.writing };

    fn type_meta() -> TypeMeta {
        <TransferFields as SchemaWrite>::type_meta()
    }

    fn size_of(src: &Transfer) -> WriteResult<usize> {
        size_of_members_4::<[u8; 32], [u8; 32], u64, Option<String>>(
            &src.from,
            &src.to,
            &src.amount,
            &src.memo,
        )
    }

    fn write<W: Writer>(writer: &mut W, src: &Transfer) -> WriteResult<()> {
        write_members_4::<[u8; 32], [u8; 32], u64, Option<String>, W>(
            writer,
            &src.from,
            &src.to,
            &src.amount,
            &src.memo,
        )
    }

    #[inline(always)]
    fn encode_front(src: &Transfer, dst: &mut [u8]) -> Option<usize> {
        encode_front_members_4::<[u8; 32], [u8; 32], u64, Option<String>>(
            &src.from,
            &src.to,
            &src.amount,
            &src.memo,
            dst,
        )
    }

    ghost write_laws = { write_laws_by (λ x. (x.from, x.to, x.amount, x.memo)) ⟦<TransferFields as SchemaWrite>⟧.write_laws };
}

impl<L: Lending> SchemaRead<L> for Transfer {
    type Dst = Transfer;

    ghost Value = { ⟦<TransferFields as SchemaRead<L>>⟧.Value };

    ghost model = { λ x. ⟦<TransferFields as SchemaRead<L>>⟧.model (x.from, x.to, x.amount, x.memo) };

    ghost is_valid = { ⟦<TransferFields as SchemaRead<L>>⟧.is_valid };

    ghost reading = { ⟦<TransferFields as SchemaRead<L>>⟧.reading };

    fn type_meta() -> TypeMeta {
        <TransferFields as SchemaRead<L>>::type_meta()
    }

    fn prealloc_size() -> usize {
        <TransferFields as SchemaRead<L>>::prealloc_size()
    }

    fn read<R: Reader<L>>(
        alloc: Global,
        reader: &mut R,
        dst: &mut Option<Transfer>,
    ) -> ReadResult<()> {
        match <TransferFields as SchemaGet<L>>::get(alloc, reader) {
            Ok(parts) => {
                let (from, to, amount, memo) = parts;
                *dst = Some(Transfer {
                    from,
                    to,
                    amount,
                    memo,
                });
                Ok(())
            }
            Err(error) => Err(error),
        }
    }

    ghost read_laws = { ⟦<TransferFields as Lawful<L>>⟧.read_laws };
}

impl<L: Lending> Lawful<L> for Transfer {
    type Dst = Transfer;

    ghost Value = { ⟦<TransferFields as Lawful<L>>⟧.Value };

    ghost model = { λ x. ⟦<TransferFields as Lawful<L>>⟧.model (x.from, x.to, x.amount, x.memo) };

    ghost is_valid = { ⟦<TransferFields as Lawful<L>>⟧.is_valid };

    ghost reading = { ⟦<TransferFields as Lawful<L>>⟧.reading };

    ghost read_laws = { ⟦<TransferFields as Lawful<L>>⟧.read_laws };
}

impl<L: Lending> RoundTrip<L> for Transfer
where
    TransferFields: RoundTrip<L>,
{
    ghost reads_back = { reads_back_by (λ x. (x.from, x.to, x.amount, x.memo)) bound-5.reads_back };
}

impl<L: Lending> OneText<L> for Transfer
where
    TransferFields: FieldsOneText<L>,
{
    ghost one_text = { bound-5.fields_one_text };
}

impl<L: Lending> SchemaReadOwned<L> for Transfer
where
    TransferFields: FieldsReadOwned<L>,
{
    ghost owned = { bound-5.fields_owned };
}

type PaymentFields = (Account, u64);

impl SchemaWrite for Payment {
    type Src = Payment;

    ghost Value = { ⟦<PaymentFields as SchemaWrite>⟧.Value };

    ghost model = { λ x. ⟦<PaymentFields as SchemaWrite>⟧.model (x.to, x.amount) };

    ghost is_valid = { λ x. ⟦<PaymentFields as SchemaWrite>⟧.is_valid (x.to, x.amount) };

    ghost writing = { ⟦<PaymentFields as SchemaWrite>⟧.writing };

    fn type_meta() -> TypeMeta {
        <PaymentFields as SchemaWrite>::type_meta()
    }

    fn size_of(src: &Payment) -> WriteResult<usize> {
        size_of_members_2::<Account, u64>(&src.to, &src.amount)
    }

    fn write<W: Writer>(writer: &mut W, src: &Payment) -> WriteResult<()> {
        write_members_2::<Account, u64, W>(writer, &src.to, &src.amount)
    }

    #[inline(always)]
    fn encode_front(src: &Payment, dst: &mut [u8]) -> Option<usize> {
        encode_front_members_2::<Account, u64>(&src.to, &src.amount, dst)
    }

    ghost write_laws = { write_laws_by (λ x. (x.to, x.amount)) ⟦<PaymentFields as SchemaWrite>⟧.write_laws };
}

impl<L: Lending> SchemaRead<L> for Payment {
    type Dst = Payment;

    ghost Value = { ⟦<PaymentFields as SchemaRead<L>>⟧.Value };

    ghost model = { λ x. ⟦<PaymentFields as SchemaRead<L>>⟧.model (x.to, x.amount) };

    ghost is_valid = { ⟦<PaymentFields as SchemaRead<L>>⟧.is_valid };

    ghost reading = { ⟦<PaymentFields as SchemaRead<L>>⟧.reading };

    fn type_meta() -> TypeMeta {
        <PaymentFields as SchemaRead<L>>::type_meta()
    }

    fn prealloc_size() -> usize {
        <PaymentFields as SchemaRead<L>>::prealloc_size()
    }

    fn read<R: Reader<L>>(
        alloc: Global,
        reader: &mut R,
        dst: &mut Option<Payment>,
    ) -> ReadResult<()> {
        match <PaymentFields as SchemaGet<L>>::get(alloc, reader) {
            Ok(parts) => {
                let (to, amount) = parts;
                *dst = Some(Payment { to, amount });
                Ok(())
            }
            Err(error) => Err(error),
        }
    }

    #[inline(always)]
    fn blank() -> Option<Payment> {
        let (to, amount) = <PaymentFields as SchemaRead<L>>::blank()?;
        Some(Payment { to, amount })
    }

    #[inline(always)]
    fn decode(bytes: &[u8], place: &mut Payment) -> bool {
        let Some(mut parts) = <PaymentFields as SchemaRead<L>>::blank() else {
            return false;
        };
        if !<PaymentFields as SchemaRead<L>>::decode(bytes, &mut parts) {
            return false;
        }
        let (to, amount) = parts;
        *place = Payment { to, amount };
        true
    }

    ghost read_laws = { ⟦<PaymentFields as Lawful<L>>⟧.read_laws };
}

impl<L: Lending> Lawful<L> for Payment {
    type Dst = Payment;

    ghost Value = { ⟦<PaymentFields as Lawful<L>>⟧.Value };

    ghost model = { λ x. ⟦<PaymentFields as Lawful<L>>⟧.model (x.to, x.amount) };

    ghost is_valid = { ⟦<PaymentFields as Lawful<L>>⟧.is_valid };

    ghost reading = { ⟦<PaymentFields as Lawful<L>>⟧.reading };

    ghost read_laws = { ⟦<PaymentFields as Lawful<L>>⟧.read_laws };
}

impl<L: Lending> RoundTrip<L> for Payment
where
    PaymentFields: RoundTrip<L>,
{
    ghost reads_back = { reads_back_by (λ x. (x.to, x.amount)) bound-5.reads_back };
}

impl<L: Lending> OneText<L> for Payment
where
    PaymentFields: FieldsOneText<L>,
{
    ghost one_text = { bound-5.fields_one_text };
}

impl<L: Lending> SchemaReadOwned<L> for Payment
where
    PaymentFields: FieldsReadOwned<L>,
{
    ghost owned = { bound-5.fields_owned };
}

type DayFields = (u32, Vec<Payment>);

impl SchemaWrite for Day {
    type Src = Day;

    ghost Value = { ⟦<DayFields as SchemaWrite>⟧.Value };

    ghost model = { λ x. ⟦<DayFields as SchemaWrite>⟧.model (x.number, x.paid) };

    ghost is_valid = { λ x. ⟦<DayFields as SchemaWrite>⟧.is_valid (x.number, x.paid) };

    ghost writing = { ⟦<DayFields as SchemaWrite>⟧.writing };

    fn type_meta() -> TypeMeta {
        <DayFields as SchemaWrite>::type_meta()
    }

    fn size_of(src: &Day) -> WriteResult<usize> {
        size_of_members_2::<u32, Vec<Payment>>(&src.number, &src.paid)
    }

    fn write<W: Writer>(writer: &mut W, src: &Day) -> WriteResult<()> {
        write_members_2::<u32, Vec<Payment>, W>(writer, &src.number, &src.paid)
    }

    #[inline(always)]
    fn encode_front(src: &Day, dst: &mut [u8]) -> Option<usize> {
        encode_front_members_2::<u32, Vec<Payment>>(&src.number, &src.paid, dst)
    }

    ghost write_laws = { write_laws_by (λ x. (x.number, x.paid)) ⟦<DayFields as SchemaWrite>⟧.write_laws };
}

impl<L: Lending> SchemaRead<L> for Day {
    type Dst = Day;

    ghost Value = { ⟦<DayFields as SchemaRead<L>>⟧.Value };

    ghost model = { λ x. ⟦<DayFields as SchemaRead<L>>⟧.model (x.number, x.paid) };

    ghost is_valid = { ⟦<DayFields as SchemaRead<L>>⟧.is_valid };

    ghost reading = { ⟦<DayFields as SchemaRead<L>>⟧.reading };

    fn type_meta() -> TypeMeta {
        <DayFields as SchemaRead<L>>::type_meta()
    }

    fn prealloc_size() -> usize {
        <DayFields as SchemaRead<L>>::prealloc_size()
    }

    fn read<R: Reader<L>>(alloc: Global, reader: &mut R, dst: &mut Option<Day>) -> ReadResult<()> {
        match <DayFields as SchemaGet<L>>::get(alloc, reader) {
            Ok(parts) => {
                let (number, paid) = parts;
                *dst = Some(Day { number, paid });
                Ok(())
            }
            Err(error) => Err(error),
        }
    }

    ghost read_laws = { ⟦<DayFields as Lawful<L>>⟧.read_laws };
}

impl<L: Lending> Lawful<L> for Day {
    type Dst = Day;

    ghost Value = { ⟦<DayFields as Lawful<L>>⟧.Value };

    ghost model = { λ x. ⟦<DayFields as Lawful<L>>⟧.model (x.number, x.paid) };

    ghost is_valid = { ⟦<DayFields as Lawful<L>>⟧.is_valid };

    ghost reading = { ⟦<DayFields as Lawful<L>>⟧.reading };

    ghost read_laws = { ⟦<DayFields as Lawful<L>>⟧.read_laws };
}

impl<L: Lending> RoundTrip<L> for Day
where
    DayFields: RoundTrip<L>,
{
    ghost reads_back = { reads_back_by (λ x. (x.number, x.paid)) bound-5.reads_back };
}

impl<L: Lending> OneText<L> for Day
where
    DayFields: FieldsOneText<L>,
{
    ghost one_text = { bound-5.fields_one_text };
}

impl<L: Lending> SchemaReadOwned<L> for Day
where
    DayFields: FieldsReadOwned<L>,
{
    ghost owned = { bound-5.fields_owned };
}
