//! Written by `tools/templates`: the laws of reading integers.
ghost use Rattle.std.proofs.Common.{lit≤};
ghost use Rattle.std.specs.Int.{w8, w16, w32, w64, w128};
ghost use Rattle.std.specs.Prelude.{ℕ, ℤ, ◌<◌, ◌^◌, FitsSigned, true, false, refl};
ghost use Rattle.wincode_base.specs.LeafLaws.{number_read_laws, signed_read_laws};
ghost use Rattle.wincode_base.specs.Leaves.{number_read, signed_read};

use crate::laws::Lawful;
use wincode::io::Lending;

impl<L: Lending> Lawful<L> for u8 {
    type Dst = u8;

    ghost Value = { ℕ };

    ghost model = { λ v. v };

    ghost is_valid = { λ v. v < 256 ^ 1 };

    ghost reading = { number_read 1 true };

    ghost read_laws = { number_read_laws 1 true (lit≤ tt) };
}

impl<L: Lending> Lawful<L> for u16 {
    type Dst = u16;

    ghost Value = { ℕ };

    ghost model = { λ v. v };

    ghost is_valid = { λ v. v < 256 ^ 2 };

    ghost reading = { number_read 2 true };

    ghost read_laws = { number_read_laws 2 true (lit≤ tt) };
}

impl<L: Lending> Lawful<L> for u32 {
    type Dst = u32;

    ghost Value = { ℕ };

    ghost model = { λ v. v };

    ghost is_valid = { λ v. v < 256 ^ 4 };

    ghost reading = { number_read 4 true };

    ghost read_laws = { number_read_laws 4 true (lit≤ tt) };
}

impl<L: Lending> Lawful<L> for u64 {
    type Dst = u64;

    ghost Value = { ℕ };

    ghost model = { λ v. v };

    ghost is_valid = { λ v. v < 256 ^ 8 };

    ghost reading = { number_read 8 true };

    ghost read_laws = { number_read_laws 8 true (lit≤ tt) };
}

impl<L: Lending> Lawful<L> for u128 {
    type Dst = u128;

    ghost Value = { ℕ };

    ghost model = { λ v. v };

    ghost is_valid = { λ v. v < 256 ^ 16 };

    ghost reading = { number_read 16 true };

    ghost read_laws = { number_read_laws 16 true (lit≤ tt) };
}

impl<L: Lending> Lawful<L> for usize {
    type Dst = usize;

    ghost Value = { ℕ };

    ghost model = { λ v. v };

    ghost is_valid = { λ v. v < 256 ^ 8 };

    ghost reading = { number_read 8 false };

    ghost read_laws = { number_read_laws 8 false (lit≤ tt) };
}

impl<L: Lending> Lawful<L> for i8 {
    type Dst = i8;

    ghost Value = { ℤ };

    ghost model = { λ v. v };

    ghost is_valid = { FitsSigned w8 };

    ghost reading = { signed_read w8 true };

    ghost read_laws = { signed_read_laws w8 refl true (lit≤ tt) };
}

impl<L: Lending> Lawful<L> for i16 {
    type Dst = i16;

    ghost Value = { ℤ };

    ghost model = { λ v. v };

    ghost is_valid = { FitsSigned w16 };

    ghost reading = { signed_read w16 true };

    ghost read_laws = { signed_read_laws w16 refl true (lit≤ tt) };
}

impl<L: Lending> Lawful<L> for i32 {
    type Dst = i32;

    ghost Value = { ℤ };

    ghost model = { λ v. v };

    ghost is_valid = { FitsSigned w32 };

    ghost reading = { signed_read w32 true };

    ghost read_laws = { signed_read_laws w32 refl true (lit≤ tt) };
}

impl<L: Lending> Lawful<L> for i64 {
    type Dst = i64;

    ghost Value = { ℤ };

    ghost model = { λ v. v };

    ghost is_valid = { FitsSigned w64 };

    ghost reading = { signed_read w64 true };

    ghost read_laws = { signed_read_laws w64 refl true (lit≤ tt) };
}

impl<L: Lending> Lawful<L> for i128 {
    type Dst = i128;

    ghost Value = { ℤ };

    ghost model = { λ v. v };

    ghost is_valid = { FitsSigned w128 };

    ghost reading = { signed_read w128 true };

    ghost read_laws = { signed_read_laws w128 refl true (lit≤ tt) };
}

impl<L: Lending> Lawful<L> for isize {
    type Dst = isize;

    ghost Value = { ℤ };

    ghost model = { λ v. v };

    ghost is_valid = { FitsSigned w64 };

    ghost reading = { signed_read w64 false };

    ghost read_laws = { signed_read_laws w64 refl false (lit≤ tt) };
}
