//! The size of a whole, from what is known of its parts.
ghost use Rattle.std.specs.Prelude.{◌≡◌, ◌+◌, ◌^◌, ◌≤◌, false, IfOk, IfErr, true, ◌<◌};
ghost use Rattle.wincode_base.specs.Arrays.{times_meta};
ghost use Rattle.wincode_base.specs.JoinedSizes.{JoinedSize, JoinedSizeRefused};
ghost use Rattle.wincode_base.specs.Outcomes.{IsOverflow, past_usize};
ghost use Rattle.wincode_base.specs.Pairs.{pair_meta};
ghost use Rattle.wincode_base.specs.ItemSizes.{item_size, pair_size, run_size, behind_size};
ghost use Rattle.wincode_base.specs.Tags.{sides_meta};
ghost use Rattle.wincode_base.specs.Strings.{reference_meta};
ghost use Rattle.wincode_base.specs.Views.{form_meta};
ghost use Rattle.wincode_base.specs.declared.meta.TypeMeta.TheVariants.{Dynamic};

use crate::error::{WriteResult, write_length_encoding_overflow};
use crate::meta::TypeMeta;
use wincode_io::ZeroCopy;

/// The size of each item of a list.
#[derive(Clone, Copy)]
pub enum ItemSize {
    /// Every encoding has so many bytes.
    Bytes(usize),
    /// Every encoding has more bytes than `usize::MAX`.
    Vast,
    /// The encodings may differ in size.
    Unknown,
}

impl ItemSize {
    /// The size of an item of which so much is known.
    pub fn of(item: TypeMeta) -> ItemSize
        ensures { result ≡ item_size item }
    {
        match item {
            TypeMeta::Static { size, .. } => ItemSize::Bytes(size),
            TypeMeta::Dynamic => ItemSize::Unknown,
        }
    }

    /// The size of two parts of which so much is known, one after the other.
    pub fn of_pair(first: TypeMeta, second: TypeMeta) -> ItemSize
        ensures { result ≡ pair_size first second }
    {
        match (first, second) {
            (TypeMeta::Static { size: a, .. }, TypeMeta::Static { size: b, .. }) => {
                match a.checked_add(b) {
                    Some(size) => ItemSize::Bytes(size),
                    None => ItemSize::Vast,
                }
            }
            _ => ItemSize::Unknown,
        }
    }

    /// The size of `n` such items, in bytes, or none where it is past `usize::MAX` or not known.
    pub fn times(self, n: usize) -> Option<usize>
        ensures { result ≡ run_size n self }
    {
        match self {
            ItemSize::Bytes(size) => n.checked_mul(size),
            ItemSize::Vast if n == 0 => Some(0),
            _ => None,
        }
    }

    /// The size of `n` such items behind `before` bytes, or none where it is past `usize::MAX` or not
    /// known.
    pub fn times_behind(self, before: usize, n: usize) -> Option<usize>
        ensures { result ≡ behind_size before (run_size n self) }
    {
        let items = self.times(n)?;
        before.checked_add(items)
    }
}

/// The size of `n` items, or none.
#[inline]
pub fn times_meta(n: usize, item: TypeMeta) -> TypeMeta
    ensures { result ≡ times_meta n item }
{
    match item {
        TypeMeta::Static { size, zero_copy } => match n.checked_mul(size) {
            Some(size) => TypeMeta::Static { size, zero_copy },
            None => TypeMeta::Dynamic,
        },
        TypeMeta::Dynamic => TypeMeta::Dynamic,
    }
}

/// The size of what is held in memory of its own, which is no list of bytes.
#[inline]
pub fn reference_meta(meta: TypeMeta) -> TypeMeta
    ensures { result ≡ reference_meta meta }
{
    match meta {
        TypeMeta::Static { size, .. } => TypeMeta::Static {
            size,
            zero_copy: false,
        },
        TypeMeta::Dynamic => TypeMeta::Dynamic,
    }
}

/// The size of two parts, one after the other.
#[inline]
pub fn pair_meta(first: TypeMeta, second: TypeMeta) -> TypeMeta
    ensures { result ≡ pair_meta first second }
{
    match (first, second) {
        (TypeMeta::Static { size: a, .. }, TypeMeta::Static { size: b, .. }) => {
            match a.checked_add(b) {
                Some(size) => TypeMeta::Static {
                    size,
                    zero_copy: false,
                },
                None => TypeMeta::Dynamic,
            }
        }
        _ => TypeMeta::Dynamic,
    }
}

/// The size of a part and what stands behind it.
#[inline]
pub fn checked_sum(first: usize, second: usize) -> WriteResult<usize>
    ensures ok { IfOk result (λ n. n ≡ first + second) }
    ensures err { IfErr result (λ e. (2 ^ 64 ≤ first + second) × IsOverflow past_usize e) }
{
    match first.checked_add(second) {
        Some(size) => Ok(size),
        None => Err(write_length_encoding_overflow("usize::MAX")),
    }
}

/// The size of two parts, one after the other, of whose sizes either may be refused: the refusal of the first
/// that is. A caller without a branch of its own is checked in less than half of the time.
#[inline]
pub fn joined_size(first: WriteResult<usize>, second: WriteResult<usize>) -> WriteResult<usize>
    ensures ok { IfOk result (JoinedSize first second) }
    ensures err { IfErr result (JoinedSizeRefused first second) }
{
    checked_sum(first?, second?)
}

/// The size of a result with such a tag, whose sides have these sizes.
#[inline]
pub fn result_meta(tag_size: usize, one: TypeMeta, other: TypeMeta) -> TypeMeta
    ensures { result ≡ pair_meta (TypeMeta.Static tag_size true) (sides_meta one other) }
{
    match (one, other) {
        (TypeMeta::Static { size, .. }, TypeMeta::Static { size: same, .. }) if size == same => {
            match size.checked_add(tag_size) {
                Some(size) => TypeMeta::Static {
                    size,
                    zero_copy: false,
                },
                None => TypeMeta::Dynamic,
            }
        }
        _ => TypeMeta::Dynamic,
    }
}

/// The size of a form, or none.
#[inline]
pub fn form_meta<T: ZeroCopy>(zero_copy: bool) -> TypeMeta
    ensures { result ≡ form_meta T.size zero_copy }
{
    match T::form_size() {
        Some(size) => TypeMeta::Static { size, zero_copy },
        None => TypeMeta::Dynamic,
    }
}
