//! Written by `wincode_derive`: the schemas of what the module above declares.
ghost use Rattle.std.specs.Prelude.{◌≡◌, Ok, Err};
ghost use Rattle.wincode_base.specs.PairLaws.{write_laws_by, reads_back_by};
ghost use Rattle.sample_types.specs.declared.machine.Step.TheVariants.{
  Nop as Step-Nop,
  Halt as Step-Halt,
  Load as Step-Load,
  Store as Step-Store,
  Push as Step-Push,
  Pop as Step-Pop,
  Add as Step-Add,
  Jump as Step-Jump,
  Call as Step-Call,
  Return as Step-Return,
  Read as Step-Read,
  Write as Step-Write,
  Log as Step-Log,
};

use super::*;
use std::alloc::Global;
use wincode::io::{Lending, Reader, Writer};
use wincode::{
    OneText, ReadResult, RoundTrip, SchemaRead, SchemaReadOwned, SchemaWrite, TypeMeta, WriteResult,
};
use wincode_derive_support::enums::{
    EnumParts, EnumShape, encode_enum, read_enum, size_of_enum, write_enum,
};
use wincode_derive_support::laws::{FieldsOneText, FieldsReadOwned, Lawful, LawfulCases};
use wincode_derive_support::splits::{PartOneText, PartReadOwned, Split};
use wincode_derive_support::sums::{
    Case, CasesOneText, CasesRead, CasesReadOwned, CasesRoundTrip, CasesWrite, Last, OneOf,
};

/// The cases from the 1st on, by their tags.
pub struct StepFrom1;

type StepFrom1Cases = Case<0, (), Case<1, (), Case<2, u32, Case<3, u32, Last<4, u64>>>>>;

impl CasesWrite for StepFrom1 {
    type Src = Result<(), Result<(), Result<u32, Result<u32, u64>>>>;

    ghost Value = { ⟦<StepFrom1Cases as CasesWrite>⟧.Value };

    ghost model = { ⟦<StepFrom1Cases as CasesWrite>⟧.model };

    ghost is_valid = { ⟦<StepFrom1Cases as CasesWrite>⟧.is_valid };

    ghost tag = { ⟦<StepFrom1Cases as CasesWrite>⟧.tag };

    ghost own = { ⟦<StepFrom1Cases as CasesWrite>⟧.own };

    ghost part = { ⟦<StepFrom1Cases as CasesWrite>⟧.part };

    ghost part_laws = { ⟦<StepFrom1Cases as CasesWrite>⟧.part_laws };

    ghost answer = { ⟦<StepFrom1Cases as CasesWrite>⟧.answer };

    ghost answers = { ⟦<StepFrom1Cases as CasesWrite>⟧.answers };

    fn part_meta() -> TypeMeta {
        <StepFrom1Cases as CasesWrite>::part_meta()
    }

    fn tag_of(src: &Self::Src) -> WriteResult<usize> {
        <StepFrom1Cases as CasesWrite>::tag_of(src)
    }

    fn part_size(src: &Self::Src) -> WriteResult<usize> {
        <StepFrom1Cases as CasesWrite>::part_size(src)
    }

    fn write_part<W: Writer>(writer: &mut W, src: &Self::Src) -> WriteResult<()> {
        <StepFrom1Cases as CasesWrite>::write_part::<W>(writer, src)
    }
}

impl<L: Lending> CasesRead<L> for StepFrom1 {
    type Dst = Result<(), Result<(), Result<u32, Result<u32, u64>>>>;

    ghost Value = { ⟦<StepFrom1Cases as CasesRead<L>>⟧.Value };

    ghost model = { ⟦<StepFrom1Cases as CasesRead<L>>⟧.model };

    ghost is_valid = { ⟦<StepFrom1Cases as CasesRead<L>>⟧.is_valid };

    ghost tag = { ⟦<StepFrom1Cases as CasesRead<L>>⟧.tag };

    ghost own = { ⟦<StepFrom1Cases as CasesRead<L>>⟧.own };

    ghost part = { ⟦<StepFrom1Cases as CasesRead<L>>⟧.part };

    ghost refused = { ⟦<StepFrom1Cases as CasesRead<L>>⟧.refused };

    fn part_meta() -> TypeMeta {
        <StepFrom1Cases as CasesRead<L>>::part_meta()
    }

    fn prealloc_size() -> usize {
        <StepFrom1Cases as CasesRead<L>>::prealloc_size()
    }

    fn get_case<R: Reader<L>>(
        alloc: Global,
        reader: &mut R,
        given: usize,
    ) -> ReadResult<Self::Dst> {
        <StepFrom1Cases as CasesRead<L>>::get_case::<R>(alloc, reader, given)
    }

    ghost case_laws = { ⟦<StepFrom1Cases as LawfulCases<L>>⟧.case_laws };
}

impl<L: Lending> LawfulCases<L> for StepFrom1 {
    type Dst = Result<(), Result<(), Result<u32, Result<u32, u64>>>>;

    ghost Value = { ⟦<StepFrom1Cases as LawfulCases<L>>⟧.Value };

    ghost model = { ⟦<StepFrom1Cases as LawfulCases<L>>⟧.model };

    ghost is_valid = { ⟦<StepFrom1Cases as LawfulCases<L>>⟧.is_valid };

    ghost tag = { ⟦<StepFrom1Cases as LawfulCases<L>>⟧.tag };

    ghost own = { ⟦<StepFrom1Cases as LawfulCases<L>>⟧.own };

    ghost part = { ⟦<StepFrom1Cases as LawfulCases<L>>⟧.part };

    ghost refused = { ⟦<StepFrom1Cases as LawfulCases<L>>⟧.refused };

    ghost case_laws = { ⟦<StepFrom1Cases as LawfulCases<L>>⟧.case_laws };
}

impl<L: Lending> CasesRoundTrip<L> for StepFrom1
where
    StepFrom1Cases: CasesRoundTrip<L>,
{
    ghost back = { bound-5.back };
}

impl<L: Lending> CasesOneText<L> for StepFrom1
where
    StepFrom1Cases: PartOneText<L>,
{
    ghost cases_one_text = { bound-5.part_one_text };
}

impl<L: Lending> CasesReadOwned<L> for StepFrom1
where
    StepFrom1Cases: PartReadOwned<L>,
{
    ghost cases_owned = { bound-5.part_owned };
}

impl StepFrom1 {
    fn make(made_of: Result<(), Result<(), Result<u32, Result<u32, u64>>>>) -> Step
        ensures { ⟦<Step as EnumParts>⟧.parts result ≡ Ok made_of }
    {
        match made_of {
            Ok(()) => Step::Nop,
            Err(rest) => match rest {
                Ok(()) => Step::Halt,
                Err(rest) => match rest {
                    Ok(a) => Step::Load(a),
                    Err(rest) => match rest {
                        Ok(a) => Step::Store(a),
                        Err(a) => Step::Push(a),
                    },
                },
            },
        }
    }
}

/// The cases from the 6th on, by their tags.
pub struct StepFrom6;

type StepFrom6Cases = Case<5, (), Case<6, (), Case<7, u32, Case<8, u32, Last<9, ()>>>>>;

impl CasesWrite for StepFrom6 {
    type Src = Result<(), Result<(), Result<u32, Result<u32, ()>>>>;

    ghost Value = { ⟦<StepFrom6Cases as CasesWrite>⟧.Value };

    ghost model = { ⟦<StepFrom6Cases as CasesWrite>⟧.model };

    ghost is_valid = { ⟦<StepFrom6Cases as CasesWrite>⟧.is_valid };

    ghost tag = { ⟦<StepFrom6Cases as CasesWrite>⟧.tag };

    ghost own = { ⟦<StepFrom6Cases as CasesWrite>⟧.own };

    ghost part = { ⟦<StepFrom6Cases as CasesWrite>⟧.part };

    ghost part_laws = { ⟦<StepFrom6Cases as CasesWrite>⟧.part_laws };

    ghost answer = { ⟦<StepFrom6Cases as CasesWrite>⟧.answer };

    ghost answers = { ⟦<StepFrom6Cases as CasesWrite>⟧.answers };

    fn part_meta() -> TypeMeta {
        <StepFrom6Cases as CasesWrite>::part_meta()
    }

    fn tag_of(src: &Self::Src) -> WriteResult<usize> {
        <StepFrom6Cases as CasesWrite>::tag_of(src)
    }

    fn part_size(src: &Self::Src) -> WriteResult<usize> {
        <StepFrom6Cases as CasesWrite>::part_size(src)
    }

    fn write_part<W: Writer>(writer: &mut W, src: &Self::Src) -> WriteResult<()> {
        <StepFrom6Cases as CasesWrite>::write_part::<W>(writer, src)
    }
}

impl<L: Lending> CasesRead<L> for StepFrom6 {
    type Dst = Result<(), Result<(), Result<u32, Result<u32, ()>>>>;

    ghost Value = { ⟦<StepFrom6Cases as CasesRead<L>>⟧.Value };

    ghost model = { ⟦<StepFrom6Cases as CasesRead<L>>⟧.model };

    ghost is_valid = { ⟦<StepFrom6Cases as CasesRead<L>>⟧.is_valid };

    ghost tag = { ⟦<StepFrom6Cases as CasesRead<L>>⟧.tag };

    ghost own = { ⟦<StepFrom6Cases as CasesRead<L>>⟧.own };

    ghost part = { ⟦<StepFrom6Cases as CasesRead<L>>⟧.part };

    ghost refused = { ⟦<StepFrom6Cases as CasesRead<L>>⟧.refused };

    fn part_meta() -> TypeMeta {
        <StepFrom6Cases as CasesRead<L>>::part_meta()
    }

    fn prealloc_size() -> usize {
        <StepFrom6Cases as CasesRead<L>>::prealloc_size()
    }

    fn get_case<R: Reader<L>>(
        alloc: Global,
        reader: &mut R,
        given: usize,
    ) -> ReadResult<Self::Dst> {
        <StepFrom6Cases as CasesRead<L>>::get_case::<R>(alloc, reader, given)
    }

    ghost case_laws = { ⟦<StepFrom6Cases as LawfulCases<L>>⟧.case_laws };
}

impl<L: Lending> LawfulCases<L> for StepFrom6 {
    type Dst = Result<(), Result<(), Result<u32, Result<u32, ()>>>>;

    ghost Value = { ⟦<StepFrom6Cases as LawfulCases<L>>⟧.Value };

    ghost model = { ⟦<StepFrom6Cases as LawfulCases<L>>⟧.model };

    ghost is_valid = { ⟦<StepFrom6Cases as LawfulCases<L>>⟧.is_valid };

    ghost tag = { ⟦<StepFrom6Cases as LawfulCases<L>>⟧.tag };

    ghost own = { ⟦<StepFrom6Cases as LawfulCases<L>>⟧.own };

    ghost part = { ⟦<StepFrom6Cases as LawfulCases<L>>⟧.part };

    ghost refused = { ⟦<StepFrom6Cases as LawfulCases<L>>⟧.refused };

    ghost case_laws = { ⟦<StepFrom6Cases as LawfulCases<L>>⟧.case_laws };
}

impl<L: Lending> CasesRoundTrip<L> for StepFrom6
where
    StepFrom6Cases: CasesRoundTrip<L>,
{
    ghost back = { bound-5.back };
}

impl<L: Lending> CasesOneText<L> for StepFrom6
where
    StepFrom6Cases: PartOneText<L>,
{
    ghost cases_one_text = { bound-5.part_one_text };
}

impl<L: Lending> CasesReadOwned<L> for StepFrom6
where
    StepFrom6Cases: PartReadOwned<L>,
{
    ghost cases_owned = { bound-5.part_owned };
}

impl StepFrom6 {
    fn make(made_of: Result<(), Result<(), Result<u32, Result<u32, ()>>>>) -> Step
        ensures { ⟦<Step as EnumParts>⟧.parts result ≡ Err (Ok made_of) }
    {
        match made_of {
            Ok(()) => Step::Pop,
            Err(rest) => match rest {
                Ok(()) => Step::Add,
                Err(rest) => match rest {
                    Ok(a) => Step::Jump(a),
                    Err(rest) => match rest {
                        Ok(a) => Step::Call(a),
                        Err(()) => Step::Return,
                    },
                },
            },
        }
    }
}

/// The cases from the 11th on, by their tags.
pub struct StepFrom11;

type StepFrom11Cases = Case<10, (), Case<11, (), Last<12, String>>>;

impl CasesWrite for StepFrom11 {
    type Src = Result<(), Result<(), String>>;

    ghost Value = { ⟦<StepFrom11Cases as CasesWrite>⟧.Value };

    ghost model = { ⟦<StepFrom11Cases as CasesWrite>⟧.model };

    ghost is_valid = { ⟦<StepFrom11Cases as CasesWrite>⟧.is_valid };

    ghost tag = { ⟦<StepFrom11Cases as CasesWrite>⟧.tag };

    ghost own = { ⟦<StepFrom11Cases as CasesWrite>⟧.own };

    ghost part = { ⟦<StepFrom11Cases as CasesWrite>⟧.part };

    ghost part_laws = { ⟦<StepFrom11Cases as CasesWrite>⟧.part_laws };

    ghost answer = { ⟦<StepFrom11Cases as CasesWrite>⟧.answer };

    ghost answers = { ⟦<StepFrom11Cases as CasesWrite>⟧.answers };

    fn part_meta() -> TypeMeta {
        <StepFrom11Cases as CasesWrite>::part_meta()
    }

    fn tag_of(src: &Self::Src) -> WriteResult<usize> {
        <StepFrom11Cases as CasesWrite>::tag_of(src)
    }

    fn part_size(src: &Self::Src) -> WriteResult<usize> {
        <StepFrom11Cases as CasesWrite>::part_size(src)
    }

    fn write_part<W: Writer>(writer: &mut W, src: &Self::Src) -> WriteResult<()> {
        <StepFrom11Cases as CasesWrite>::write_part::<W>(writer, src)
    }
}

impl<L: Lending> CasesRead<L> for StepFrom11 {
    type Dst = Result<(), Result<(), String>>;

    ghost Value = { ⟦<StepFrom11Cases as CasesRead<L>>⟧.Value };

    ghost model = { ⟦<StepFrom11Cases as CasesRead<L>>⟧.model };

    ghost is_valid = { ⟦<StepFrom11Cases as CasesRead<L>>⟧.is_valid };

    ghost tag = { ⟦<StepFrom11Cases as CasesRead<L>>⟧.tag };

    ghost own = { ⟦<StepFrom11Cases as CasesRead<L>>⟧.own };

    ghost part = { ⟦<StepFrom11Cases as CasesRead<L>>⟧.part };

    ghost refused = { ⟦<StepFrom11Cases as CasesRead<L>>⟧.refused };

    fn part_meta() -> TypeMeta {
        <StepFrom11Cases as CasesRead<L>>::part_meta()
    }

    fn prealloc_size() -> usize {
        <StepFrom11Cases as CasesRead<L>>::prealloc_size()
    }

    fn get_case<R: Reader<L>>(
        alloc: Global,
        reader: &mut R,
        given: usize,
    ) -> ReadResult<Self::Dst> {
        <StepFrom11Cases as CasesRead<L>>::get_case::<R>(alloc, reader, given)
    }

    ghost case_laws = { ⟦<StepFrom11Cases as LawfulCases<L>>⟧.case_laws };
}

impl<L: Lending> LawfulCases<L> for StepFrom11 {
    type Dst = Result<(), Result<(), String>>;

    ghost Value = { ⟦<StepFrom11Cases as LawfulCases<L>>⟧.Value };

    ghost model = { ⟦<StepFrom11Cases as LawfulCases<L>>⟧.model };

    ghost is_valid = { ⟦<StepFrom11Cases as LawfulCases<L>>⟧.is_valid };

    ghost tag = { ⟦<StepFrom11Cases as LawfulCases<L>>⟧.tag };

    ghost own = { ⟦<StepFrom11Cases as LawfulCases<L>>⟧.own };

    ghost part = { ⟦<StepFrom11Cases as LawfulCases<L>>⟧.part };

    ghost refused = { ⟦<StepFrom11Cases as LawfulCases<L>>⟧.refused };

    ghost case_laws = { ⟦<StepFrom11Cases as LawfulCases<L>>⟧.case_laws };
}

impl<L: Lending> CasesRoundTrip<L> for StepFrom11
where
    StepFrom11Cases: CasesRoundTrip<L>,
{
    ghost back = { bound-5.back };
}

impl<L: Lending> CasesOneText<L> for StepFrom11
where
    StepFrom11Cases: PartOneText<L>,
{
    ghost cases_one_text = { bound-5.part_one_text };
}

impl<L: Lending> CasesReadOwned<L> for StepFrom11
where
    StepFrom11Cases: PartReadOwned<L>,
{
    ghost cases_owned = { bound-5.part_owned };
}

impl StepFrom11 {
    fn make(made_of: Result<(), Result<(), String>>) -> Step
        ensures { ⟦<Step as EnumParts>⟧.parts result ≡ Err (Err made_of) }
    {
        match made_of {
            Ok(()) => Step::Read,
            Err(rest) => match rest {
                Ok(()) => Step::Write,
                Err(a) => Step::Log(a),
            },
        }
    }
}

type StepCases = OneOf<<Step as EnumShape>::Tag, <Step as EnumShape>::Cases>;

impl EnumParts for Step {
    type Src = Step;

    type Parts = Result<
        Result<(), Result<(), Result<u32, Result<u32, u64>>>>,
        Result<
            Result<(), Result<(), Result<u32, Result<u32, ()>>>>,
            Result<(), Result<(), String>>,
        >,
    >;

    ghost parts = { elim [
      | Step-Nop ↦ Ok (Ok tt)
      | Step-Halt ↦ Ok (Err (Ok tt))
      | Step-Load a ↦ Ok (Err (Err (Ok a)))
      | Step-Store a ↦ Ok (Err (Err (Err (Ok a))))
      | Step-Push a ↦ Ok (Err (Err (Err (Err a))))
      | Step-Pop ↦ Err (Ok (Ok tt))
      | Step-Add ↦ Err (Ok (Err (Ok tt)))
      | Step-Jump a ↦ Err (Ok (Err (Err (Ok a))))
      | Step-Call a ↦ Err (Ok (Err (Err (Err (Ok a)))))
      | Step-Return ↦ Err (Ok (Err (Err (Err (Err tt)))))
      | Step-Read ↦ Err (Err (Ok tt))
      | Step-Write ↦ Err (Err (Err (Ok tt)))
      | Step-Log a ↦ Err (Err (Err (Err a)))
    ] };

    fn make(made_of: Self::Parts) -> Step {
        match made_of {
            Ok(parts) => StepFrom1::make(parts),
            Err(rest) => match rest {
                Ok(parts) => StepFrom6::make(parts),
                Err(parts) => StepFrom11::make(parts),
            },
        }
    }
}

impl EnumShape for Step {
    type Tag = u8;

    type Cases = Split<5, StepFrom1, Split<10, StepFrom6, StepFrom11>>;

    fn tag(src: &Step) -> usize {
        match src {
            Step::Nop => 0,
            Step::Halt => 1,
            Step::Load(_) => 2,
            Step::Store(_) => 3,
            Step::Push(_) => 4,
            Step::Pop => 5,
            Step::Add => 6,
            Step::Jump(_) => 7,
            Step::Call(_) => 8,
            Step::Return => 9,
            Step::Read => 10,
            Step::Write => 11,
            Step::Log(_) => 12,
        }
    }

    fn part_size(src: &Step) -> WriteResult<usize> {
        match src {
            Step::Nop => <() as SchemaWrite>::size_of(&()),
            Step::Halt => <() as SchemaWrite>::size_of(&()),
            Step::Load(a) => <u32 as SchemaWrite>::size_of(a),
            Step::Store(a) => <u32 as SchemaWrite>::size_of(a),
            Step::Push(a) => <u64 as SchemaWrite>::size_of(a),
            Step::Pop => <() as SchemaWrite>::size_of(&()),
            Step::Add => <() as SchemaWrite>::size_of(&()),
            Step::Jump(a) => <u32 as SchemaWrite>::size_of(a),
            Step::Call(a) => <u32 as SchemaWrite>::size_of(a),
            Step::Return => <() as SchemaWrite>::size_of(&()),
            Step::Read => <() as SchemaWrite>::size_of(&()),
            Step::Write => <() as SchemaWrite>::size_of(&()),
            Step::Log(a) => <String as SchemaWrite>::size_of(a),
        }
    }

    fn write_part<W: Writer>(writer: &mut W, src: &Step) -> WriteResult<()> {
        match src {
            Step::Nop => <() as SchemaWrite>::write::<W>(writer, &()),
            Step::Halt => <() as SchemaWrite>::write::<W>(writer, &()),
            Step::Load(a) => <u32 as SchemaWrite>::write::<W>(writer, a),
            Step::Store(a) => <u32 as SchemaWrite>::write::<W>(writer, a),
            Step::Push(a) => <u64 as SchemaWrite>::write::<W>(writer, a),
            Step::Pop => <() as SchemaWrite>::write::<W>(writer, &()),
            Step::Add => <() as SchemaWrite>::write::<W>(writer, &()),
            Step::Jump(a) => <u32 as SchemaWrite>::write::<W>(writer, a),
            Step::Call(a) => <u32 as SchemaWrite>::write::<W>(writer, a),
            Step::Return => <() as SchemaWrite>::write::<W>(writer, &()),
            Step::Read => <() as SchemaWrite>::write::<W>(writer, &()),
            Step::Write => <() as SchemaWrite>::write::<W>(writer, &()),
            Step::Log(a) => <String as SchemaWrite>::write::<W>(writer, a),
        }
    }

    fn encode_part(src: &Step, dst: &mut [u8]) -> Option<usize> {
        match src {
            Step::Nop => <() as SchemaWrite>::encode_front(&(), dst),
            Step::Halt => <() as SchemaWrite>::encode_front(&(), dst),
            Step::Load(a) => <u32 as SchemaWrite>::encode_front(a, dst),
            Step::Store(a) => <u32 as SchemaWrite>::encode_front(a, dst),
            Step::Push(a) => <u64 as SchemaWrite>::encode_front(a, dst),
            Step::Pop => <() as SchemaWrite>::encode_front(&(), dst),
            Step::Add => <() as SchemaWrite>::encode_front(&(), dst),
            Step::Jump(a) => <u32 as SchemaWrite>::encode_front(a, dst),
            Step::Call(a) => <u32 as SchemaWrite>::encode_front(a, dst),
            Step::Return => <() as SchemaWrite>::encode_front(&(), dst),
            Step::Read => <() as SchemaWrite>::encode_front(&(), dst),
            Step::Write => <() as SchemaWrite>::encode_front(&(), dst),
            Step::Log(a) => <String as SchemaWrite>::encode_front(a, dst),
        }
    }
}

impl SchemaWrite for Step {
    type Src = Step;

    ghost Value = { ⟦<StepCases as SchemaWrite>⟧.Value };

    ghost model = { λ x. ⟦<StepCases as SchemaWrite>⟧.model (⟦<Step as EnumParts>⟧.parts x) };

    ghost is_valid = { λ x. ⟦<StepCases as SchemaWrite>⟧.is_valid (⟦<Step as EnumParts>⟧.parts x) };

    ghost writing = { ⟦<StepCases as SchemaWrite>⟧.writing };

    fn type_meta() -> TypeMeta {
        <StepCases as SchemaWrite>::type_meta()
    }

    fn size_of(src: &Step) -> WriteResult<usize> {
        size_of_enum::<Step>(src)
    }

    fn write<W: Writer>(writer: &mut W, src: &Step) -> WriteResult<()> {
        write_enum::<Step, W>(writer, src)
    }

    #[inline(always)]
    fn encode_front(src: &Step, dst: &mut [u8]) -> Option<usize> {
        encode_enum::<Step>(src, dst)
    }

    ghost write_laws = { write_laws_by ⟦<Step as EnumParts>⟧.parts ⟦<StepCases as SchemaWrite>⟧.write_laws };
}

impl<L: Lending> SchemaRead<L> for Step {
    type Dst = Step;

    ghost Value = { ⟦<StepCases as SchemaRead<L>>⟧.Value };

    ghost model = { λ x. ⟦<StepCases as SchemaRead<L>>⟧.model (⟦<Step as EnumParts>⟧.parts x) };

    ghost is_valid = { ⟦<StepCases as SchemaRead<L>>⟧.is_valid };

    ghost reading = { ⟦<StepCases as SchemaRead<L>>⟧.reading };

    fn type_meta() -> TypeMeta {
        <StepCases as SchemaRead<L>>::type_meta()
    }

    fn prealloc_size() -> usize {
        <StepCases as SchemaRead<L>>::prealloc_size()
    }

    fn read<R: Reader<L>>(alloc: Global, reader: &mut R, dst: &mut Option<Step>) -> ReadResult<()> {
        read_enum::<L, StepCases, Step, R>(alloc, reader, dst)
    }

    ghost read_laws = { ⟦<StepCases as Lawful<L>>⟧.read_laws };
}

impl<L: Lending> Lawful<L> for Step {
    type Dst = Step;

    ghost Value = { ⟦<StepCases as Lawful<L>>⟧.Value };

    ghost model = { λ x. ⟦<StepCases as Lawful<L>>⟧.model (⟦<Step as EnumParts>⟧.parts x) };

    ghost is_valid = { ⟦<StepCases as Lawful<L>>⟧.is_valid };

    ghost reading = { ⟦<StepCases as Lawful<L>>⟧.reading };

    ghost read_laws = { ⟦<StepCases as Lawful<L>>⟧.read_laws };
}

impl<L: Lending> RoundTrip<L> for Step
where
    StepCases: RoundTrip<L>,
{
    ghost reads_back = { reads_back_by ⟦<Step as EnumParts>⟧.parts bound-5.reads_back };
}

impl<L: Lending> OneText<L> for Step
where
    StepCases: FieldsOneText<L>,
{
    ghost one_text = { bound-5.fields_one_text };
}

impl<L: Lending> SchemaReadOwned<L> for Step
where
    StepCases: FieldsReadOwned<L>,
{
    ghost owned = { bound-5.fields_owned };
}
