//! Written by `tools/templates`: keys of maps and items of heaps that are integers.
ghost use Rattle.wincode_base.specs.KeyLaws.{int_alike, int_decidable, nat_alike, nat_decidable};

use crate::keys::{Key, Told};
use wincode_io::Lending;

impl<L: Lending> Key<L> for u8 {
    ghost alike = { nat_alike };
}

impl<L: Lending> Told<L> for u8 {
    ghost told = { nat_decidable };
}

impl<L: Lending> Key<L> for u16 {
    ghost alike = { nat_alike };
}

impl<L: Lending> Told<L> for u16 {
    ghost told = { nat_decidable };
}

impl<L: Lending> Key<L> for u32 {
    ghost alike = { nat_alike };
}

impl<L: Lending> Told<L> for u32 {
    ghost told = { nat_decidable };
}

impl<L: Lending> Key<L> for u64 {
    ghost alike = { nat_alike };
}

impl<L: Lending> Told<L> for u64 {
    ghost told = { nat_decidable };
}

impl<L: Lending> Key<L> for u128 {
    ghost alike = { nat_alike };
}

impl<L: Lending> Told<L> for u128 {
    ghost told = { nat_decidable };
}

impl<L: Lending> Key<L> for usize {
    ghost alike = { nat_alike };
}

impl<L: Lending> Told<L> for usize {
    ghost told = { nat_decidable };
}

impl<L: Lending> Key<L> for i8 {
    ghost alike = { int_alike };
}

impl<L: Lending> Told<L> for i8 {
    ghost told = { int_decidable };
}

impl<L: Lending> Key<L> for i16 {
    ghost alike = { int_alike };
}

impl<L: Lending> Told<L> for i16 {
    ghost told = { int_decidable };
}

impl<L: Lending> Key<L> for i32 {
    ghost alike = { int_alike };
}

impl<L: Lending> Told<L> for i32 {
    ghost told = { int_decidable };
}

impl<L: Lending> Key<L> for i64 {
    ghost alike = { int_alike };
}

impl<L: Lending> Told<L> for i64 {
    ghost told = { int_decidable };
}

impl<L: Lending> Key<L> for i128 {
    ghost alike = { int_alike };
}

impl<L: Lending> Told<L> for i128 {
    ghost told = { int_decidable };
}

impl<L: Lending> Key<L> for isize {
    ghost alike = { int_alike };
}

impl<L: Lending> Told<L> for isize {
    ghost told = { int_decidable };
}
