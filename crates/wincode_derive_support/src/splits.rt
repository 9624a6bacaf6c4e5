//! Cases in two parts, for an enum of many: one look at the tag says in which part its case is, and each part is proved
//! by itself.
ghost use Rattle.std.specs.Prelude.{◌≡◌, ◌<◌, ◌≤◌, max, Result};
ghost use Rattle.std.specs.Result.{result_map_both};
ghost use Rattle.wincode.specs.OneText.{IsOneText};
ghost use Rattle.wincode.specs.OneTextLaws.{sides_one_text, both_owned};
ghost use Rattle.wincode_base.specs.TagLaws.{sides_laws};
ghost use Rattle.wincode_base.specs.Tags.{sides_tag, IfSide, sides_read, sides_write};
ghost use Rattle.wincode_derive_support.specs.Splits.{split_own, SplitReadRefused};
ghost use Rattle.wincode_derive_support.specs.SplitLaws.{split_laws, split_back, split_answers};
ghost use Rattle.wincode_derive_support.specs.Sums.{sides_answer};

use crate::laws::LawfulCases;
use crate::sums::{CasesOneText, CasesRead, CasesReadOwned, CasesRoundTrip, CasesWrite, same_meta};
use std::alloc::Global;
use std::marker::PhantomData;
use wincode::error::write_length_encoding_overflow;
use wincode::io::{Lending, Reader, Writer};
use wincode::{ReadResult, TypeMeta, WriteResult};

/// The cases of both: the first has those with tags below `BOUND`, and the second the others. A value is `Ok` of one
/// of the first, or `Err` of one of the second.
pub struct Split<const BOUND: usize, A, B>(PhantomData<(A, B)>);

/// Each value of some cases has one encoding behind its tag: all cases have it that are written too and have
/// `CasesOneText`.
pub trait PartOneText<L: Lending>: CasesWrite + CasesRead<L, Dst = Self::Src> {
    ghost part_one_text: { IsOneText Self.CasesRead.part };
}

impl<L: Lending, C: CasesWrite + CasesRead<L, Dst = C::Src> + CasesOneText<L>> PartOneText<L> for C
where
    C::Src: Drop,
{
    ghost part_one_text = { C.cases_one_text };
}

/// Reading of some cases asks for no borrow: all cases have it that are written too and have `CasesReadOwned`.
pub trait PartReadOwned<L: Lending>: CasesWrite + CasesRead<L, Dst = Self::Src> {
    ghost part_owned: { Self.CasesRead.part.borrow ≡ 0 };
}

impl<L: Lending, C: CasesWrite + CasesRead<L, Dst = C::Src> + CasesReadOwned<L>> PartReadOwned<L>
    for C
where
    C::Src: Drop,
{
    ghost part_owned = { C.cases_owned };
}

impl<const BOUND: usize, A: CasesWrite, B: CasesWrite> CasesWrite for Split<BOUND, A, B> {
    type Src = Result<A::Src, B::Src>;

    ghost Value = { Result A.Value B.Value };

    ghost model = { result_map_both A.model B.model };

    ghost is_valid = { IfSide A.is_valid B.is_valid };

    ghost tag = { sides_tag A.tag B.tag };

    ghost own = { split_own BOUND A.tag A.own B.tag B.own };

    ghost part = { sides_write A.part B.part };

    ghost part_laws = { sides_laws A.is_valid B.is_valid A.model B.model A.part B.part A.part_laws B.part_laws };

    ghost answer = { sides_answer A.answer B.answer };

    ghost answers = { split_answers A.answer A.is_valid A.model A.part B.answer B.is_valid B.model B.part A.answers B.answers };

    fn part_meta() -> TypeMeta {
        same_meta(A::part_meta(), B::part_meta())
    }

    fn tag_of(src: &Result<A::Src, B::Src>) -> WriteResult<usize> {
        match src {
            Ok(first) => {
                let tag = A::tag_of(first)?;
                if tag >= BOUND {
                    return Err(write_length_encoding_overflow("usize::MAX"));
                }
                Ok(tag)
            }
            Err(other) => {
                let tag = B::tag_of(other)?;
                if tag < BOUND {
                    return Err(write_length_encoding_overflow("usize::MAX"));
                }
                Ok(tag)
            }
        }
    }

    fn part_size(src: &Result<A::Src, B::Src>) -> WriteResult<usize> {
        match src {
            Ok(first) => A::part_size(first),
            Err(other) => B::part_size(other),
        }
    }

    fn write_part<W: Writer>(writer: &mut W, src: &Result<A::Src, B::Src>) -> WriteResult<()> {
        match src {
            Ok(first) => A::write_part::<W>(writer, first),
            Err(other) => B::write_part::<W>(writer, other),
        }
    }
}

impl<L: Lending, const BOUND: usize, A: CasesRead<L>, B: CasesRead<L>> CasesRead<L>
    for Split<BOUND, A, B> {
    type Dst = Result<A::Dst, B::Dst>;

    ghost Value = { Result A.Value B.Value };

    ghost model = { result_map_both A.model B.model };

    ghost is_valid = { IfSide A.is_valid B.is_valid };

    ghost tag = { sides_tag A.tag B.tag };

    ghost own = { split_own BOUND A.tag A.own B.tag B.own };

    ghost part = { sides_read A.part B.part };

    ghost refused = { SplitReadRefused BOUND A.refused B.refused };

    fn part_meta() -> TypeMeta {
        same_meta(A::part_meta(), B::part_meta())
    }

    fn prealloc_size() -> usize {
        A::prealloc_size().max(B::prealloc_size())
    }

    fn get_case<R: Reader<L>>(
        alloc: Global,
        reader: &mut R,
        given: usize,
    ) -> ReadResult<Result<A::Dst, B::Dst>> {
        if given < BOUND {
            let first = A::get_case::<R>(alloc, reader, given)?;
            Ok(Ok(first))
        } else {
            let other = B::get_case::<R>(alloc, reader, given)?;
            Ok(Err(other))
        }
    }

    ghost case_laws = { split_laws BOUND A.case_laws B.case_laws };
}

impl<L: Lending, const BOUND: usize, A: CasesRoundTrip<L>, B: CasesRoundTrip<L>> CasesRoundTrip<L>
    for Split<BOUND, A, B>
where
    A::Src: Drop,
    B::Src: Drop,
{
    ghost back = { split_back BOUND A.back B.back };
}

impl<L: Lending, const BOUND: usize, A: CasesOneText<L>, B: CasesOneText<L>> CasesOneText<L>
    for Split<BOUND, A, B> {
    ghost cases_one_text = { sides_one_text A.cases_one_text B.cases_one_text };
}

impl<L: Lending, const BOUND: usize, A: CasesReadOwned<L>, B: CasesReadOwned<L>> CasesReadOwned<L>
    for Split<BOUND, A, B> {
    ghost cases_owned = { both_owned A.cases_owned B.cases_owned };
}

impl<L: Lending, const BOUND: usize, A: LawfulCases<L>, B: LawfulCases<L>> LawfulCases<L>
    for Split<BOUND, A, B> {
    type Dst = Result<A::Dst, B::Dst>;

    ghost Value = { Result A.Value B.Value };

    ghost model = { result_map_both A.model B.model };

    ghost is_valid = { IfSide A.is_valid B.is_valid };

    ghost tag = { sides_tag A.tag B.tag };

    ghost own = { split_own BOUND A.tag A.own B.tag B.own };

    ghost part = { sides_read A.part B.part };

    ghost refused = { SplitReadRefused BOUND A.refused B.refused };

    ghost case_laws = { split_laws BOUND A.case_laws B.case_laws };
}
