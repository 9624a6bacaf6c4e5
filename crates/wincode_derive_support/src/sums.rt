//! Schemas of one of several cases: a tag, and then what its case holds.
//!
//! The cases stand in a list of types, each with its tag: `OneOf<u32, Case<0, A, Case<1, B, Last<2, C>>>>` has the
//! values `Ok(a)`, `Err(Ok(b))` and `Err(Err(c))`, behind tags of four bytes. Of two cases with one tag the first alone
//! is read and written.
ghost use Rattle.std.specs.Prelude.{◌≡◌, ℕ, ◌≤◌, ◌<◌, ◌^◌, max, true, IfOk, IfErr, Result};
ghost use Rattle.std.specs.Result.{result_map_both};
ghost use Rattle.wincode.specs.OneText.{IsOneText};
ghost use Rattle.wincode.specs.OneTextLaws.{sides_one_text, both_owned};
ghost use Rattle.wincode_base.specs.Grammar.{ReadGrammar, WriteGrammar, WriteLaws, ReadRefusal};
ghost use Rattle.wincode_base.specs.Outcomes.{GetOutcome, WriteOutcome, IsSized, SizeRefused, IsOverflow, past_usize};
ghost use Rattle.wincode_base.specs.Pairs.{pair_meta};
ghost use Rattle.wincode_base.specs.TagLaws.{sides_laws, counted_laws};
ghost use Rattle.wincode_base.specs.Tags.{sides_tag, IfSide, sides_meta, sides_read, sides_write, counted_read, counted_write};
ghost use Rattle.wincode_derive_support.specs.Sums.{WriteAnswer, part_answer, sides_answer, IsAnswer, sides_own, case_read, CaseReadRefused, IsNameless, IsTagged, enum_read, enum_write};
ghost use Rattle.wincode_derive_support.specs.SumLaws.{last_answers, cases_answers, counted_answers, CaseLaws, CasesBack, last_case_laws, case_laws, counted_case_laws};
ghost use Rattle.wincode_derive_support.specs.SumLaws.{enum_read_laws, enum_write_laws, last_back, cases_back, counted_back, counted_one_text, enum_reads_back, enum_one_text};

use std::alloc::Global;
use std::marker::PhantomData;
use wincode::error::{invalid_tag_encoding, write_length_encoding_overflow};
use wincode::io::{Lending, Reader, Writer};
use wincode::{
    OneText, ReadResult, RoundTrip, SchemaGet, SchemaRead, SchemaReadOwned, SchemaWrite, TagCode,
    TypeMeta, WriteResult, read_tag, write_tag,
};
use wincode_base::sizes::{checked_sum, pair_meta};

/// The case with this tag, before others.
pub struct Case<const TAG: usize, A, Rest>(PhantomData<(A, Rest)>);

/// The last case.
pub struct Last<const TAG: usize, A>(PhantomData<A>);

/// The same cases, each value of which counts `BYTES` bytes, at least 1, against the limit of a list.
pub struct Counted<const BYTES: usize, C>(PhantomData<C>);

/// One of these cases, behind its tag.
pub struct OneOf<Tag, C>(PhantomData<(Tag, C)>);

/// Cases, in writing.
pub trait CasesWrite {
    type Src;

    // What contracts see of a value.
    ghost Value: { Type 0 };

    ghost model: { Self.Src → Value };

    // Which are its values.
    ghost is_valid: { Self.Src → Type 0 };

    ghost tag: { Value → ℕ };

    // No case before that of the value has its tag.
    ghost own: { Value → Type 0 };

    // What stands behind the tag.
    ghost part: { WriteGrammar Value };

    ghost part_laws: { WriteLaws is_valid model part };

    // What a write of what stands behind the tag answers, said of the value's case.
    ghost answer: { WriteAnswer Self.Src };

    ghost answers: { IsAnswer answer is_valid model part };

    /// The size that all cases have without their tags, or none.
    fn part_meta() -> TypeMeta
        ensures { result ≡ part.meta };

    /// The tag of the value's case. Where a case before it has the same, it is `LengthEncodingOverflow`.
    fn tag_of(src: &Self::Src) -> WriteResult<usize>
        ensures ok { IfOk result (λ t. own (model src.now) × (t ≡ tag (model src.now))) }
        ensures err { IfErr result (λ e. (own (model src.now) → ⊥) × IsOverflow past_usize e) };

    /// The size of what stands behind the tag, in bytes, as `SchemaWrite::size_of` of the case.
    fn part_size(src: &Self::Src) -> WriteResult<usize>
        ensures ok { IfOk result (IsSized part (model src.now)) }
        ensures err { IfErr result (SizeRefused part (model src.now)) };

    /// Writes what stands behind the tag, as `SchemaWrite::write` of the case.
    fn write_part<W: Writer>(writer: &mut W, src: &Self::Src) -> WriteResult<()>
        ensures { WriteOutcome part (W.state writer.old) (W.state writer.new) (model src.now) (is_valid src.now) result };
}

/// Cases, in reading.
pub trait CasesRead<L: Lending> {
    type Dst: Drop;

    // What contracts see of a value.
    ghost Value: { Type 0 };

    ghost model: { Self.Dst → Value };

    // Which are its values.
    ghost is_valid: { Value → Type 0 };

    ghost tag: { Value → ℕ };

    // No case before that of the value has its tag.
    ghost own: { Value → Type 0 };

    // What stands behind the tag.
    ghost part: { ReadGrammar Value };

    // How what stands behind a tag is refused.
    ghost refused: { ℕ → ReadRefusal };

    /// The size that all cases have without their tags, or none.
    fn part_meta() -> TypeMeta
        ensures { result ≡ part.meta };

    /// What the largest of the cases counts, in bytes, against the limit of a list.
    fn prealloc_size() -> usize
        ensures { result ≡ part.prealloc };

    /// Reads the case that the tag names. Where it names none, it is `InvalidTagEncoding` of it, and nothing is gone.
    fn get_case<R: Reader<L>>(alloc: Global, reader: &mut R, given: usize) -> ReadResult<Self::Dst>
        ensures { GetOutcome (case_read tag own part refused given) model (R.state reader.old) (R.state reader.new) result };

    ghost case_laws: { CaseLaws tag own is_valid part };
}

/// What is written of the cases reads back.
pub trait CasesRoundTrip<L: Lending>: CasesWrite + CasesRead<L, Dst = Self::Src> {
    ghost back: { CasesBack Self.CasesWrite.is_valid Self.CasesWrite.model Self.CasesWrite.tag Self.CasesWrite.own Self.CasesWrite.part
        Self.CasesRead.model Self.CasesRead.tag Self.CasesRead.own Self.CasesRead.part };
}

/// Each value of the cases has one encoding behind its tag.
pub trait CasesOneText<L: Lending>: CasesRead<L> {
    ghost cases_one_text: { IsOneText Self.part };
}

/// Reading of the cases asks for no borrow.
pub trait CasesReadOwned<L: Lending>: CasesRead<L> {
    ghost cases_owned: { Self.part.borrow ≡ 0 };
}

impl<const TAG: usize, A: SchemaWrite> CasesWrite for Last<TAG, A> {
    type Src = A::Src;

    ghost Value = { A.Value };

    ghost model = { A.model };

    ghost is_valid = { A.is_valid };

    ghost tag = { λ v. TAG };

    ghost own = { λ v. Unit {0} };

    ghost part = { A.writing };

    ghost part_laws = { A.write_laws };

    ghost answer = { part_answer A.is_valid A.model A.writing };

    ghost answers = { last_answers A.is_valid A.model A.writing };

    fn part_meta() -> TypeMeta {
        A::type_meta()
    }

    fn tag_of(_src: &A::Src) -> WriteResult<usize> {
        Ok(TAG)
    }

    fn part_size(src: &A::Src) -> WriteResult<usize> {
        A::size_of(src)
    }

    fn write_part<W: Writer>(writer: &mut W, src: &A::Src) -> WriteResult<()> {
        A::write::<W>(writer, src)
    }
}

impl<L: Lending, const TAG: usize, A: SchemaRead<L>> CasesRead<L> for Last<TAG, A> {
    type Dst = A::Dst;

    ghost Value = { A.Value };

    ghost model = { A.model };

    ghost is_valid = { A.is_valid };

    ghost tag = { λ v. TAG };

    ghost own = { λ v. Unit {0} };

    ghost part = { A.reading };

    ghost refused = { CaseReadRefused TAG A.reading IsNameless };

    fn part_meta() -> TypeMeta {
        A::type_meta()
    }

    fn prealloc_size() -> usize {
        A::prealloc_size()
    }

    fn get_case<R: Reader<L>>(alloc: Global, reader: &mut R, given: usize) -> ReadResult<A::Dst> {
        if given != TAG {
            return Err(invalid_tag_encoding(given));
        }
        let value = A::get(alloc, reader)?;
        Ok(value)
    }

    ghost case_laws = { last_case_laws TAG A.read_laws };
}

impl<L: Lending, const TAG: usize, A: RoundTrip<L>> CasesRoundTrip<L> for Last<TAG, A>
where
    A::Src: Drop,
{
    ghost back = { last_back TAG A.reads_back };
}

impl<L: Lending, const TAG: usize, A: OneText<L>> CasesOneText<L> for Last<TAG, A> {
    ghost cases_one_text = { A.one_text };
}

impl<L: Lending, const TAG: usize, A: SchemaReadOwned<L>> CasesReadOwned<L> for Last<TAG, A> {
    ghost cases_owned = { A.owned };
}

/// The size that both have, if they have one.
pub fn same_meta(first: TypeMeta, second: TypeMeta) -> TypeMeta
    ensures { result ≡ sides_meta first second }
{
    match (first, second) {
        (TypeMeta::Static { size: a, .. }, TypeMeta::Static { size: b, .. }) => {
            if a == b {
                TypeMeta::Static {
                    size: a,
                    zero_copy: false,
                }
            } else {
                TypeMeta::Dynamic
            }
        }
        _ => TypeMeta::Dynamic,
    }
}

impl<const TAG: usize, A: SchemaWrite, Rest: CasesWrite> CasesWrite for Case<TAG, A, Rest> {
    type Src = Result<A::Src, Rest::Src>;

    ghost Value = { Result A.Value Rest.Value };

    ghost model = { result_map_both A.model Rest.model };

    ghost is_valid = { IfSide A.is_valid Rest.is_valid };

    ghost tag = { sides_tag (λ v. TAG) Rest.tag };

    ghost own = { sides_own TAG Rest.tag Rest.own };

    ghost part = { sides_write A.writing Rest.part };

    ghost part_laws = { sides_laws A.is_valid Rest.is_valid A.model Rest.model A.writing Rest.part A.write_laws Rest.part_laws };

    ghost answer = { sides_answer (part_answer A.is_valid A.model A.writing) Rest.answer };

    ghost answers = { cases_answers A.is_valid A.model A.writing Rest.answer Rest.is_valid Rest.model Rest.part Rest.answers };

    fn part_meta() -> TypeMeta {
        same_meta(A::type_meta(), Rest::part_meta())
    }

    fn tag_of(src: &Result<A::Src, Rest::Src>) -> WriteResult<usize> {
        match src {
            Ok(_) => Ok(TAG),
            Err(other) => {
                let tag = Rest::tag_of(other)?;
                if tag == TAG {
                    return Err(write_length_encoding_overflow("usize::MAX"));
                }
                Ok(tag)
            }
        }
    }

    fn part_size(src: &Result<A::Src, Rest::Src>) -> WriteResult<usize> {
        match src {
            Ok(first) => A::size_of(first),
            Err(other) => Rest::part_size(other),
        }
    }

    fn write_part<W: Writer>(writer: &mut W, src: &Result<A::Src, Rest::Src>) -> WriteResult<()> {
        match src {
            Ok(first) => A::write::<W>(writer, first),
            Err(other) => Rest::write_part::<W>(writer, other),
        }
    }
}

impl<L: Lending, const TAG: usize, A: SchemaRead<L>, Rest: CasesRead<L>> CasesRead<L>
    for Case<TAG, A, Rest> {
    type Dst = Result<A::Dst, Rest::Dst>;

    ghost Value = { Result A.Value Rest.Value };

    ghost model = { result_map_both A.model Rest.model };

    ghost is_valid = { IfSide A.is_valid Rest.is_valid };

    ghost tag = { sides_tag (λ v. TAG) Rest.tag };

    ghost own = { sides_own TAG Rest.tag Rest.own };

    ghost part = { sides_read A.reading Rest.part };

    ghost refused = { CaseReadRefused TAG A.reading Rest.refused };

    fn part_meta() -> TypeMeta {
        same_meta(A::type_meta(), Rest::part_meta())
    }

    fn prealloc_size() -> usize {
        A::prealloc_size().max(Rest::prealloc_size())
    }

    fn get_case<R: Reader<L>>(
        alloc: Global,
        reader: &mut R,
        given: usize,
    ) -> ReadResult<Result<A::Dst, Rest::Dst>> {
        if given == TAG {
            let first = A::get(alloc, reader)?;
            Ok(Ok(first))
        } else {
            let other = Rest::get_case::<R>(alloc, reader, given)?;
            Ok(Err(other))
        }
    }

    ghost case_laws = { case_laws TAG A.read_laws Rest.case_laws };
}

impl<L: Lending, const TAG: usize, A: RoundTrip<L>, Rest: CasesRoundTrip<L>> CasesRoundTrip<L>
    for Case<TAG, A, Rest>
where
    A::Src: Drop,
    Rest::Src: Drop,
{
    ghost back = { cases_back TAG A.reads_back Rest.back };
}

impl<L: Lending, const TAG: usize, A: OneText<L>, Rest: CasesOneText<L>> CasesOneText<L>
    for Case<TAG, A, Rest> {
    ghost cases_one_text = { sides_one_text A.one_text Rest.cases_one_text };
}

impl<L: Lending, const TAG: usize, A: SchemaReadOwned<L>, Rest: CasesReadOwned<L>> CasesReadOwned<L>
    for Case<TAG, A, Rest> {
    ghost cases_owned = { both_owned A.owned Rest.cases_owned };
}

impl<const BYTES: usize, C: CasesWrite> CasesWrite for Counted<BYTES, C> {
    type Src = C::Src;

    ghost Value = { C.Value };

    ghost model = { C.model };

    ghost is_valid = { C.is_valid };

    ghost tag = { C.tag };

    ghost own = { C.own };

    ghost part = { counted_write (max BYTES 1) C.part };

    ghost part_laws = { counted_laws (max BYTES 1) C.part_laws };

    ghost answer = { C.answer };

    ghost answers = { counted_answers (max BYTES 1) C.answer C.is_valid C.model C.part C.answers };

    fn part_meta() -> TypeMeta {
        C::part_meta()
    }

    fn tag_of(src: &C::Src) -> WriteResult<usize> {
        C::tag_of(src)
    }

    fn part_size(src: &C::Src) -> WriteResult<usize> {
        C::part_size(src)
    }

    fn write_part<W: Writer>(writer: &mut W, src: &C::Src) -> WriteResult<()> {
        C::write_part::<W>(writer, src)
    }
}

impl<L: Lending, const BYTES: usize, C: CasesRead<L>> CasesRead<L> for Counted<BYTES, C> {
    type Dst = C::Dst;

    ghost Value = { C.Value };

    ghost model = { C.model };

    ghost is_valid = { C.is_valid };

    ghost tag = { C.tag };

    ghost own = { C.own };

    ghost part = { counted_read (max BYTES 1) C.part };

    ghost refused = { C.refused };

    fn part_meta() -> TypeMeta {
        C::part_meta()
    }

    fn prealloc_size() -> usize {
        BYTES.max(1)
    }

    fn get_case<R: Reader<L>>(alloc: Global, reader: &mut R, given: usize) -> ReadResult<C::Dst> {
        C::get_case::<R>(alloc, reader, given)
    }

    ghost case_laws = { counted_case_laws BYTES C.case_laws };
}

impl<L: Lending, const BYTES: usize, C: CasesRoundTrip<L>> CasesRoundTrip<L> for Counted<BYTES, C>
where
    C::Src: Drop,
{
    ghost back = { counted_back (max BYTES 1) C.back };
}

impl<L: Lending, const BYTES: usize, C: CasesOneText<L>> CasesOneText<L> for Counted<BYTES, C> {
    ghost cases_one_text = { counted_one_text (max BYTES 1) C.cases_one_text };
}

impl<L: Lending, const BYTES: usize, C: CasesReadOwned<L>> CasesReadOwned<L> for Counted<BYTES, C> {
    ghost cases_owned = { C.cases_owned };
}

/// The tag, where it fits the scheme.
fn fitting_tag<Tag: TagCode>(tag: usize) -> WriteResult<usize>
    ensures ok { IfOk result (λ t. (t ≡ tag) × (tag < 256 ^ Tag.size)) }
    ensures err { IfErr result (λ e. (256 ^ Tag.size ≤ tag) × IsOverflow past_usize e) }
{
    if tag > Tag::max_tag() {
        return Err(write_length_encoding_overflow("usize::MAX"));
    }
    Ok(tag)
}

/// The tag of the value's case, where it has one of its own that fits the scheme.
fn own_tag<Tag: TagCode, C: CasesWrite>(src: &C::Src) -> WriteResult<usize>
    ensures ok { IfOk result (λ t. IsTagged Tag.size C.tag C.own (C.model src.now) × (t ≡ C.tag (C.model src.now))) }
    ensures err { IfErr result (λ e. (IsTagged Tag.size C.tag C.own (C.model src.now) → ⊥) × IsOverflow past_usize e) }
{
    let tag = C::tag_of(src)?;
    fitting_tag::<Tag>(tag)
}

/// The size that every encoding has whose part behind the tag has this, if it has one.
fn tagged_meta<Tag: TagCode>(part: TypeMeta) -> TypeMeta
    ensures { result ≡ pair_meta (TypeMeta.Static Tag.size true) part }
{
    pair_meta(
        TypeMeta::Static {
            size: Tag::tag_size(),
            zero_copy: true,
        },
        part,
    )
}

impl<Tag: TagCode, C: CasesWrite> SchemaWrite for OneOf<Tag, C> {
    type Src = C::Src;

    ghost Value = { C.Value };

    ghost model = { C.model };

    ghost is_valid = { λ x. IsTagged Tag.size C.tag C.own (C.model x) × C.is_valid x };

    ghost writing = { enum_write Tag.size C.tag C.own C.part };

    fn type_meta() -> TypeMeta {
        tagged_meta::<Tag>(C::part_meta())
    }

    fn size_of(src: &C::Src) -> WriteResult<usize> {
        own_tag::<Tag, C>(src)?;
        checked_sum(Tag::tag_size(), C::part_size(src)?)
    }

    fn write<W: Writer>(writer: &mut W, src: &C::Src) -> WriteResult<()> {
        let tag = own_tag::<Tag, C>(src)?;
        write_tag::<Tag, W>(writer, tag)?;
        C::write_part::<W>(writer, src)
    }

    #[inline(always)]
    fn write_at_once<W: Writer>(writer: &mut W, items: &[Self::Src]) -> Option<WriteResult<()>> {
        let _ = &*writer;
        let _items = items.len();
        None
    }

    #[inline(always)]
    fn known_size() -> Option<usize> {
        None
    }

    #[inline(always)]
    fn encode_front(src: &Self::Src, dst: &mut [u8]) -> Option<usize> {
        let _ = src;
        let _len = dst.len();
        None
    }

    ghost write_laws = { enum_write_laws Tag.size C.tag C.own C.part_laws };
}

/// A tag, and then the case that it names.
fn get_one_of<Tag: TagCode, L: Lending, C: CasesRead<L>, R: Reader<L>>(
    alloc: Global,
    reader: &mut R,
) -> ReadResult<C::Dst>
    ensures { GetOutcome (enum_read Tag.size C.tag C.own C.part C.refused) C.model (R.state reader.old) (R.state reader.new) result }
{
    let tag = read_tag::<Tag, L, R>(reader)?;
    C::get_case::<R>(alloc, reader, tag)
}

impl<L: Lending, Tag: TagCode, C: CasesRead<L>> SchemaRead<L> for OneOf<Tag, C> {
    type Dst = C::Dst;

    ghost Value = { C.Value };

    ghost model = { C.model };

    ghost is_valid = { C.is_valid };

    ghost reading = { enum_read Tag.size C.tag C.own C.part C.refused };

    fn type_meta() -> TypeMeta {
        tagged_meta::<Tag>(C::part_meta())
    }

    fn prealloc_size() -> usize {
        C::prealloc_size()
    }

    fn read<R: Reader<L>>(
        alloc: Global,
        reader: &mut R,
        dst: &mut Option<C::Dst>,
    ) -> ReadResult<()> {
        *dst = Some(get_one_of::<Tag, L, C, R>(alloc, reader)?);
        Ok(())
    }

    #[inline(always)]
    fn read_at_once<R: Reader<L>>(
        alloc: Global,
        reader: &mut R,
        n: usize,
        into: &mut Vec<Self::Dst>,
    ) -> Option<ReadResult<()>> {
        let _ = (alloc, n);
        let _ = &*reader;
        let _ = &*into;
        None
    }

    #[inline(always)]
    fn blank() -> Option<Self::Dst> {
        None
    }

    #[inline(always)]
    fn decode(bytes: &[u8], place: &mut Self::Dst) -> bool {
        let _ = bytes.len();
        let _ = &*place;
        false
    }

    ghost read_laws = { enum_read_laws Tag.size C.case_laws };
}

impl<L: Lending, Tag: TagCode, C: CasesRoundTrip<L>> RoundTrip<L> for OneOf<Tag, C>
where
    C::Src: Drop,
{
    ghost reads_back = { enum_reads_back Tag.size C.back };
}

impl<L: Lending, Tag: TagCode, C: CasesOneText<L>> OneText<L> for OneOf<Tag, C> {
    ghost one_text = { enum_one_text Tag.size C.cases_one_text };
}

impl<L: Lending, Tag: TagCode, C: CasesReadOwned<L>> SchemaReadOwned<L> for OneOf<Tag, C> {
    ghost owned = { C.cases_owned };
}
