//! Many floats at once, from the bytes at hand.
ghost use Rattle.std.specs.Prelude.{◌≡◌, [], ◌++◌, ℕ, List, length, map, false, true, to_bits, from_bits, IsTrue};
ghost use Rattle.wincode_base.specs.Leaves.{number_read};
ghost use Rattle.wincode_base.specs.Made.{AreBits, made_read};
ghost use Rattle.wincode_base.specs.FloatLaws.{form_of_float};
ghost use Rattle.wincode_base.specs.Outcomes.{Adds};
ghost use Rattle.wincode_io.specs.Bytes.{IsBytes};
ghost use Rattle.wincode_io.specs.Joins.{AreItems};
ghost use lib.Ieee.{binary32, binary64};

use crate::schema::SchemaRead;
use crate::schema::at_hand::front_at_hand;
use std::num;
use wincode_io::{Lending, Reader, ZeroCopy, see_bytes};

/// A float, which each number makes whose bits it has.
pub(crate) trait OfBits<A: ZeroCopy>: Copy {
    // Its own bits.
    ghost seen: { Self → A };

    // The float of these bits.
    ghost of: { A → Self };

    // Which bytes read as a float with which bits.
    ghost reads: { List ℕ → A → Type 0 };

    fn of_bits(bits: A) -> Self
        ensures { result ≡ of bits };

    ghost form_reads: { (b : List ℕ) → IsBytes b → length b ≡ A.size → reads b (seen (of (A.value b))) };
}

impl OfBits<u32> for f32 {
    ghost seen = { to_bits binary32 };

    ghost of = { from_bits binary32 };

    ghost reads = { (made_read (λ v. v) (AreBits binary32) [] (number_read 4 true)).reads };

    #[inline(always)]
    fn of_bits(bits: u32) -> f32 {
        num::f32_from_bits_with_nan(bits)
    }

    ghost form_reads = { form_of_float binary32 4 };
}

impl OfBits<u64> for f64 {
    ghost seen = { to_bits binary64 };

    ghost of = { from_bits binary64 };

    ghost reads = { (made_read (λ v. v) (AreBits binary64) [] (number_read 8 true)).reads };

    #[inline(always)]
    fn of_bits(bits: u64) -> f64 {
        num::f64_from_bits_with_nan(bits)
    }

    ghost form_reads = { form_of_float binary64 8 };
}

/// Adds the `n` floats whose bits the bytes are, one after another, where they are as many: one growth, and one pass. Where
/// it answers that it did not, the list is as it was.
fn take_floats<A: ZeroCopy, T: OfBits<A>>(bytes: &[u8], n: usize, into: &mut Vec<T>) -> bool
    ensures added { IsTrue result → (ds : List T) × (into.new.items ≡ into.old.items ++ ds) × AreItems n T.reads bytes.now (map T.seen ds) }
    ensures left { result ≡ false → into.new.items ≡ into.old.items }
{
    let before = into.len();
    let Some(size) = A::form_size() else {
        return false;
    };
    if size == 0 || n.checked_mul(size) != Some(bytes.len()) || into.reserve(n).is_err() {
        return false;
    }
    see_bytes(bytes);
    let added = into.extend(
        bytes.chunks_exact(size).map(
            |form: &[u8]| -> T
                requires { length form.now ≡ A.size }
                ensures { result ≡ T.of (A.value form.now) }
            { T::of_bits(A::of_form(form)) },
        ),
    );
    if added.is_err() {
        into.truncate(before);
        return false;
    }
    true
}

/// Adds `n` floats to the list, where their bytes are at hand and there is memory. Else the reader and the list are as they
/// were.
pub(crate) fn add_floats<L: Lending, A: ZeroCopy + SchemaRead<L>, T: OfBits<A>, R: Reader<L>>(
    reader: &mut R,
    n: usize,
    into: &mut Vec<T>,
) -> bool
    ensures added { IsTrue result → Adds n T.reads T.seen (R.state reader.old) (R.state reader.new) into.old.items into.new.items }
    ensures left { result ≡ false → R.state reader.new ≡ R.state reader.old }
    ensures same { result ≡ false → into.new.items ≡ into.old.items }
{
    let Some(bytes) = front_at_hand::<L, R>(reader, n, A::type_meta()) else {
        return false;
    };
    let total = bytes.len();
    if !take_floats(bytes, n, into) {
        return false;
    }
    reader.consume_unchecked(total);
    true
}
