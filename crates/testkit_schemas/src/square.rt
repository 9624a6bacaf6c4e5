//! A struct of the repository's own as the key of maps, with its schema by hand.
ghost use Rattle.std.specs.Prelude.{true, refl};
ghost use Rattle.std.proofs.Common.{lit≤};
ghost use Rattle.wincode_base.specs.KeyLaws.{nat_alike, pair_alike};
ghost use Rattle.wincode_base.specs.LeafLaws.{number_reads_back, number_read_laws};
ghost use Rattle.wincode.specs.OneTextLaws.{number_one_text, pair_one_text, windowed_one_text};
ghost use Rattle.wincode_base.specs.PairLaws.{pair_reads_back, write_laws_by, reads_back_by, windowed_reads_back, pair_read_laws, windowed_read_laws};

use std::alloc::Global;
use wincode::io::{Lending, Reader, Writer};
use wincode::schema::tuples::{size_of_members_2, write_members_2};
use wincode::{
    Key, OneText, ReadResult, RoundTrip, SchemaGet, SchemaRead, SchemaReadOwned, SchemaWrite,
    TypeMeta, WriteResult,
};

/// A square of a board.
#[derive(Debug, Clone, Copy, PartialEq, Eq, PartialOrd, Ord, Hash)]
pub struct Square {
    pub row: u8,
    pub column: u8,
}

/// A square is written and read as the tuple of its fields.
type Fields = (u8, u8);

impl SchemaWrite for Square {
    type Src = Square;

    ghost Value = { ⟦<Fields as SchemaWrite>⟧.Value };

    ghost model = { λ s. ⟦<Fields as SchemaWrite>⟧.model (s.row, s.column) };

    ghost is_valid = { λ s. ⟦<Fields as SchemaWrite>⟧.is_valid (s.row, s.column) };

    ghost writing = { ⟦<Fields as SchemaWrite>⟧.writing };

    fn type_meta() -> TypeMeta {
        <Fields as SchemaWrite>::type_meta()
    }

    fn size_of(src: &Square) -> WriteResult<usize> {
        size_of_members_2::<u8, u8>(&src.row, &src.column)
    }

    fn write<W: Writer>(writer: &mut W, src: &Square) -> WriteResult<()> {
        write_members_2::<u8, u8, W>(writer, &src.row, &src.column)
    }

    ghost write_laws = { write_laws_by (λ s. (s.row, s.column)) ⟦<Fields as SchemaWrite>⟧.write_laws };
}

impl<L: Lending> SchemaRead<L> for Square {
    type Dst = Square;

    ghost Value = { ⟦<Fields as SchemaRead<L>>⟧.Value };

    ghost model = { λ s. ⟦<Fields as SchemaRead<L>>⟧.model (s.row, s.column) };

    ghost is_valid = { ⟦<Fields as SchemaRead<L>>⟧.is_valid };

    ghost reading = { ⟦<Fields as SchemaRead<L>>⟧.reading };

    fn type_meta() -> TypeMeta {
        <Fields as SchemaRead<L>>::type_meta()
    }

    fn prealloc_size() -> usize {
        <Fields as SchemaRead<L>>::prealloc_size()
    }

    fn read<R: Reader<L>>(
        alloc: Global,
        reader: &mut R,
        dst: &mut Option<Square>,
    ) -> ReadResult<()> {
        let (row, column) = <Fields as SchemaGet<L>>::get(alloc, reader)?;
        *dst = Some(Square { row, column });
        Ok(())
    }

    ghost read_laws = { windowed_read_laws (pair_read_laws (number_read_laws 1 true (lit≤ tt)) (number_read_laws 1 true (lit≤ tt))) };
}

impl<L: Lending> RoundTrip<L> for Square {
    ghost reads_back = { reads_back_by (λ s. (s.row, s.column)) (windowed_reads_back (pair_reads_back (number_reads_back 1 true) (number_reads_back 1 true))) };
}

/// Squares of which the same is seen are equal: row by row, and column by column.
impl<L: Lending> Key<L> for Square {
    ghost alike = { λ s t. pair_alike nat_alike nat_alike (s.row, s.column) (t.row, t.column) };
}

impl<L: Lending> OneText<L> for Square {
    ghost one_text = { windowed_one_text (pair_one_text (number_one_text 1 true) (number_one_text 1 true)) };
}

impl<L: Lending> SchemaReadOwned<L> for Square {
    ghost owned = { refl };
}
