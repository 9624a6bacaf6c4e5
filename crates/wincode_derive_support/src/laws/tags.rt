//! Written by `tools/templates`: the laws of reading options and results.
ghost use Rattle.std.proofs.Common.{lit≤};
ghost use Rattle.std.specs.Option.{option_map};
ghost use Rattle.std.specs.Prelude.{Option, Result};
ghost use Rattle.std.specs.Result.{result_map_both};
ghost use Rattle.wincode_base.specs.TagLaws.{option_read_laws, result_read_laws};
ghost use Rattle.wincode_base.specs.Tags.{option_read, IfPart, result_read, IfSide};

use crate::laws::Lawful;
use wincode::containers;
use wincode::io::Lending;

impl<L: Lending, T: Lawful<L>> Lawful<L> for Option<T> {
    type Dst = Option<T::Dst>;

    ghost Value = { Option T.Value };

    ghost model = { option_map T.model };

    ghost is_valid = { IfPart T.is_valid };

    ghost reading = { option_read 1 T.reading };

    ghost read_laws = { option_read_laws 1 (lit≤ tt) T.is_valid T.reading T.read_laws };
}

impl<L: Lending, T: Lawful<L>, E: Lawful<L>> Lawful<L> for Result<T, E> {
    type Dst = Result<T::Dst, E::Dst>;

    ghost Value = { Result T.Value E.Value };

    ghost model = { result_map_both T.model E.model };

    ghost is_valid = { IfSide T.is_valid E.is_valid };

    ghost reading = { result_read 4 T.reading E.reading };

    ghost read_laws = { result_read_laws 4 (lit≤ tt) T.is_valid E.is_valid T.reading E.reading T.read_laws E.read_laws };
}

impl<L: Lending, T: Lawful<L>> Lawful<L> for containers::Option<T, u8> {
    type Dst = Option<T::Dst>;

    ghost Value = { Option T.Value };

    ghost model = { option_map T.model };

    ghost is_valid = { IfPart T.is_valid };

    ghost reading = { option_read 1 T.reading };

    ghost read_laws = { option_read_laws 1 (lit≤ tt) T.is_valid T.reading T.read_laws };
}

impl<L: Lending, T: Lawful<L>, E: Lawful<L>> Lawful<L> for containers::Result<T, E, u8> {
    type Dst = Result<T::Dst, E::Dst>;

    ghost Value = { Result T.Value E.Value };

    ghost model = { result_map_both T.model E.model };

    ghost is_valid = { IfSide T.is_valid E.is_valid };

    ghost reading = { result_read 1 T.reading E.reading };

    ghost read_laws = { result_read_laws 1 (lit≤ tt) T.is_valid E.is_valid T.reading E.reading T.read_laws E.read_laws };
}

impl<L: Lending, T: Lawful<L>> Lawful<L> for containers::Option<T, u16> {
    type Dst = Option<T::Dst>;

    ghost Value = { Option T.Value };

    ghost model = { option_map T.model };

    ghost is_valid = { IfPart T.is_valid };

    ghost reading = { option_read 2 T.reading };

    ghost read_laws = { option_read_laws 2 (lit≤ tt) T.is_valid T.reading T.read_laws };
}

impl<L: Lending, T: Lawful<L>, E: Lawful<L>> Lawful<L> for containers::Result<T, E, u16> {
    type Dst = Result<T::Dst, E::Dst>;

    ghost Value = { Result T.Value E.Value };

    ghost model = { result_map_both T.model E.model };

    ghost is_valid = { IfSide T.is_valid E.is_valid };

    ghost reading = { result_read 2 T.reading E.reading };

    ghost read_laws = { result_read_laws 2 (lit≤ tt) T.is_valid E.is_valid T.reading E.reading T.read_laws E.read_laws };
}

impl<L: Lending, T: Lawful<L>> Lawful<L> for containers::Option<T, u32> {
    type Dst = Option<T::Dst>;

    ghost Value = { Option T.Value };

    ghost model = { option_map T.model };

    ghost is_valid = { IfPart T.is_valid };

    ghost reading = { option_read 4 T.reading };

    ghost read_laws = { option_read_laws 4 (lit≤ tt) T.is_valid T.reading T.read_laws };
}

impl<L: Lending, T: Lawful<L>, E: Lawful<L>> Lawful<L> for containers::Result<T, E, u32> {
    type Dst = Result<T::Dst, E::Dst>;

    ghost Value = { Result T.Value E.Value };

    ghost model = { result_map_both T.model E.model };

    ghost is_valid = { IfSide T.is_valid E.is_valid };

    ghost reading = { result_read 4 T.reading E.reading };

    ghost read_laws = { result_read_laws 4 (lit≤ tt) T.is_valid E.is_valid T.reading E.reading T.read_laws E.read_laws };
}

impl<L: Lending, T: Lawful<L>> Lawful<L> for containers::Option<T, u64> {
    type Dst = Option<T::Dst>;

    ghost Value = { Option T.Value };

    ghost model = { option_map T.model };

    ghost is_valid = { IfPart T.is_valid };

    ghost reading = { option_read 8 T.reading };

    ghost read_laws = { option_read_laws 8 (lit≤ tt) T.is_valid T.reading T.read_laws };
}

impl<L: Lending, T: Lawful<L>, E: Lawful<L>> Lawful<L> for containers::Result<T, E, u64> {
    type Dst = Result<T::Dst, E::Dst>;

    ghost Value = { Result T.Value E.Value };

    ghost model = { result_map_both T.model E.model };

    ghost is_valid = { IfSide T.is_valid E.is_valid };

    ghost reading = { result_read 8 T.reading E.reading };

    ghost read_laws = { result_read_laws 8 (lit≤ tt) T.is_valid E.is_valid T.reading E.reading T.read_laws E.read_laws };
}
