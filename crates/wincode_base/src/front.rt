//! Bytes over the front of others.
ghost use Rattle.std.specs.Prelude.{◌≡◌, ◌<◌, ◌≤◌, length, take, drop, IfSome};
ghost use Rattle.std.specs.Option.{IfNone};

/// Puts the bytes over the front of others, and gives how many they are; or answers `None`, where there are fewer, and
/// has put none.
#[inline(always)]
pub fn put_front(src: &[u8], dst: &mut [u8]) -> Option<usize>
    ensures put { IfSome result (λ n. (n ≤ length dst.new) × (take n dst.new ≡ src.now)) }
    ensures behind { IfSome result (λ n. drop n dst.new ≡ drop n dst.old) }
    ensures fewer { IfNone result ((length dst.old < length src.now) × (dst.new ≡ dst.old)) }
{
    let size = src.len();
    if dst.len() < size {
        return None;
    }
    dst[..size].copy_from_slice(src);
    Some(size)
}
