//! How values of a type are written.
ghost use Rattle.std.specs.Prelude.{◌≡◌, ◌≤◌, length, take, map, IfSome, IsNone, IsTrue, IfOk, IfErr};
ghost use Rattle.wincode_io.specs.Joins.{Each};
ghost use Rattle.wincode_base.specs.Grammar.{WriteGrammar, WriteLaws};
ghost use Rattle.wincode_base.specs.Lists.{items_write};
ghost use Rattle.wincode_base.specs.Outcomes.{IsSized, IsEncoded, SizeRefused, WriteOutcome};

mod arrays;
mod as_forms;
mod bounds;
mod boxes;
mod encoded;
mod heaps;
mod in_window;
mod leaves;
mod lists;
mod made;
mod maps;
mod pod;
mod references;
pub mod runs;
mod short;
mod strings;
pub mod tags;
pub mod to_items;
pub mod tuples;
mod views;
mod wrapped;

use wincode_base::error::WriteResult;
use wincode_base::meta::TypeMeta;
use wincode_io::Writer;

/// The longest encoding, in bytes, that is put together before it is written.
const LONGEST: usize = 64;

/// Writes the values of a type.
///
/// An implementation writes `type_meta`, `size_of` and `write`. The others have bodies. `known_size`, `encode_front`
/// and `write_at_once` are for speed alone: what they don't do, `size_of` and `write` do.
pub trait SchemaWrite {
    type Src;

    // What contracts see of a value.
    ghost Value: { Type 0 };

    ghost model: { Self.Src → Value };

    // Which are its values.
    ghost is_valid: { Self.Src → Type 0 };

    ghost writing: { WriteGrammar Value };

    // What stands above the last function can be named by a quote, as in the laws of a struct.
    ghost write_laws: { WriteLaws is_valid model writing };

    /// The size that every encoding has, or none.
    fn type_meta() -> TypeMeta
        ensures { result ≡ writing.meta };

    /// The length, in bytes, of every encoding that may be written for the value. It is refused where the
    /// value can't be written or its size is past `usize::MAX`, by this crate's own schemas as
    /// `LengthEncodingOverflow`.
    fn size_of(src: &Self::Src) -> WriteResult<usize>
        ensures ok { IfOk result (IsSized writing (model src.now)) }
        ensures err { IfErr result (SizeRefused writing (model src.now)) };

    /// Writes one encoding of the value, where the value can be written and its size fits the room. A
    /// refused write has added what the schema's grammar says, of a value that can be written a beginning
    /// of one of its encodings.
    fn write<W: Writer>(writer: &mut W, src: &Self::Src) -> WriteResult<()>
        ensures { WriteOutcome writing (W.state writer.old) (W.state writer.new) (model src.now) (is_valid src.now) result };

    /// Writes one encoding of each item, one after another, all or nothing, and gives what this answers; or answers
    /// `None`, and has written nothing.
    #[inline(always)]
    fn write_at_once<W: Writer>(writer: &mut W, items: &[Self::Src]) -> Option<WriteResult<()>>
        ensures done { IfSome result (λ r. WriteOutcome (items_write writing) (W.state writer.old) (W.state writer.new) (map model items.now) (Each is_valid items.now) r) }
        ensures left { IsNone result → W.state writer.new ≡ W.state writer.old }
    {
        let _ = &*writer;
        let _items = items.len();
        None
    }

    /// The size, in bytes, of every encoding of every value, where each value can be written and this is known
    /// without looking at it.
    #[inline(always)]
    fn known_size() -> Option<usize>
        ensures { IfSome result (λ n. (x : Self.Src) → IsSized writing (model x) n) }
    {
        None
    }

    /// Puts an encoding of the value over the front of the bytes, and gives how many it has; or answers `None`, as
    /// where there are fewer, and may have put any bytes there.
    #[inline(always)]
    fn encode_front(src: &Self::Src, dst: &mut [u8]) -> Option<usize>
        ensures { IfSome result (λ n. (n ≤ length dst.new) × IsEncoded writing (model src.now) (take n dst.new) × is_valid src.now) }
    {
        let _ = src;
        let _len = dst.len();
        None
    }

    /// Puts an encoding of the value over all of the bytes, where it has as many; or answers `false`, and may
    /// have put any bytes there.
    #[inline(always)]
    final fn encode(src: &Self::Src, dst: &mut [u8]) -> bool
        ensures { IsTrue result → IsEncoded writing (model src.now) dst.new × is_valid src.now }
    {
        match Self::encode_front(src, dst) {
            Some(size) => size == dst.len(),
            None => false,
        }
    }

    /// Puts an encoding of each item, one after another, over all of the bytes, where they have as many; or
    /// answers `false`, and may have put any bytes there.
    #[inline(always)]
    final fn put_items(items: &[Self::Src], dst: &mut [u8]) -> bool
        ensures { IsTrue result → IsEncoded (items_write writing) (map model items.now) dst.new × Each is_valid items.now }
    {
        let size = match Self::type_meta() {
            TypeMeta::Static { size, .. } => size,
            TypeMeta::Dynamic => return false,
        };
        if items.len().checked_mul(size) != Some(dst.len()) {
            return false;
        }
        for i in 0..items.len() {
            let at = i * size;
            if !Self::encode(&items[i], &mut dst[at..at + size]) {
                return false;
            }
        }
        true
    }

    /// Writes one encoding of each item, one after another. Refused, where all of them can be written, it
    /// has added a beginning of these encodings joined.
    #[inline]
    final fn write_items<W: Writer>(writer: &mut W, items: &[Self::Src]) -> WriteResult<()>
        ensures { WriteOutcome (items_write writing) (W.state writer.old) (W.state writer.new) (map model items.now) (Each is_valid items.now) result }
    {
        if let Some(result) = Self::write_at_once::<W>(writer, items) {
            return result;
        }
        let size = match Self::type_meta() {
            TypeMeta::Static { size, .. } => size,
            TypeMeta::Dynamic => usize::MAX,
        };
        let mut block = [0; LONGEST];
        let bytes = &mut block[..size.min(LONGEST)];
        for item in items {
            if size <= LONGEST && Self::encode(item, bytes) {
                writer.write(bytes)?;
            } else {
                Self::write(writer, item)?;
            }
        }
        Ok(())
    }
}
