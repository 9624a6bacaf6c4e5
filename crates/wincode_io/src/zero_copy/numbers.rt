//! The byte forms of numbers: the lowest byte first, a signed one as its two's complement.
ghost use Rattle.std.specs.Prelude.{◌≡◌, ◌^◌, ◌<◌, length, FitsSigned};
ghost use Rattle.std.specs.Int.{w8, w16, w32, w64, w128, cast_signed, cast_unsigned};
ghost use Rattle.std.proofs.Common.{refl};
ghost use Rattle.wincode_io.specs.Numbers.{le, worth};
ghost use Rattle.wincode_io.specs.FormLaws.{number_form, signed_form};

use super::ZeroCopy;

/// All of the bytes, as an array.
fn whole_array<const N: usize>(bytes: &[u8]) -> [u8; N]
    requires { length bytes.now ≡ N }
    ensures { result ≡ bytes.now }
{
    let mut array = [0u8; N];
    array.copy_from_slice(bytes);
    array
}

impl ZeroCopy for u8 {
    ghost is_valid = { λ v. v < 256 ^ 1 };

    ghost size = { 1 };

    ghost form = { λ v. le 1 v };

    ghost value = { λ b. worth b };

    fn form_size() -> Option<usize> {
        Some(1)
    }

    fn of_form(bytes: &[u8]) -> u8 {
        u8::from_le_bytes(whole_array(bytes))
    }

    fn put_form(&self, dst: &mut [u8]) {
        dst.copy_from_slice(&self.to_le_bytes());
    }

    ghost byte_form = { number_form 1 };
}

impl ZeroCopy for u16 {
    ghost is_valid = { λ v. v < 256 ^ 2 };

    ghost size = { 2 };

    ghost form = { λ v. le 2 v };

    ghost value = { λ b. worth b };

    fn form_size() -> Option<usize> {
        Some(2)
    }

    fn of_form(bytes: &[u8]) -> u16 {
        u16::from_le_bytes(whole_array(bytes))
    }

    fn put_form(&self, dst: &mut [u8]) {
        dst.copy_from_slice(&self.to_le_bytes());
    }

    ghost byte_form = { number_form 2 };
}

impl ZeroCopy for u32 {
    ghost is_valid = { λ v. v < 256 ^ 4 };

    ghost size = { 4 };

    ghost form = { λ v. le 4 v };

    ghost value = { λ b. worth b };

    fn form_size() -> Option<usize> {
        Some(4)
    }

    fn of_form(bytes: &[u8]) -> u32 {
        u32::from_le_bytes(whole_array(bytes))
    }

    fn put_form(&self, dst: &mut [u8]) {
        dst.copy_from_slice(&self.to_le_bytes());
    }

    ghost byte_form = { number_form 4 };
}

impl ZeroCopy for u64 {
    ghost is_valid = { λ v. v < 256 ^ 8 };

    ghost size = { 8 };

    ghost form = { λ v. le 8 v };

    ghost value = { λ b. worth b };

    fn form_size() -> Option<usize> {
        Some(8)
    }

    fn of_form(bytes: &[u8]) -> u64 {
        u64::from_le_bytes(whole_array(bytes))
    }

    fn put_form(&self, dst: &mut [u8]) {
        dst.copy_from_slice(&self.to_le_bytes());
    }

    ghost byte_form = { number_form 8 };
}

impl ZeroCopy for u128 {
    ghost is_valid = { λ v. v < 256 ^ 16 };

    ghost size = { 16 };

    ghost form = { λ v. le 16 v };

    ghost value = { λ b. worth b };

    fn form_size() -> Option<usize> {
        Some(16)
    }

    fn of_form(bytes: &[u8]) -> u128 {
        u128::from_le_bytes(whole_array(bytes))
    }

    fn put_form(&self, dst: &mut [u8]) {
        dst.copy_from_slice(&self.to_le_bytes());
    }

    ghost byte_form = { number_form 16 };
}

impl ZeroCopy for i8 {
    ghost is_valid = { λ v. FitsSigned w8 v };

    ghost size = { 1 };

    ghost form = { λ v. le 1 (cast_unsigned w8 v) };

    ghost value = { λ b. cast_signed w8 (worth b) };

    fn form_size() -> Option<usize> {
        Some(1)
    }

    fn of_form(bytes: &[u8]) -> i8 {
        u8::of_form(bytes).cast_signed()
    }

    fn put_form(&self, dst: &mut [u8]) {
        self.cast_unsigned().put_form(dst);
    }

    ghost byte_form = { signed_form w8 1 refl };
}

impl ZeroCopy for i16 {
    ghost is_valid = { λ v. FitsSigned w16 v };

    ghost size = { 2 };

    ghost form = { λ v. le 2 (cast_unsigned w16 v) };

    ghost value = { λ b. cast_signed w16 (worth b) };

    fn form_size() -> Option<usize> {
        Some(2)
    }

    fn of_form(bytes: &[u8]) -> i16 {
        u16::of_form(bytes).cast_signed()
    }

    fn put_form(&self, dst: &mut [u8]) {
        self.cast_unsigned().put_form(dst);
    }

    ghost byte_form = { signed_form w16 2 refl };
}

impl ZeroCopy for i32 {
    ghost is_valid = { λ v. FitsSigned w32 v };

    ghost size = { 4 };

    ghost form = { λ v. le 4 (cast_unsigned w32 v) };

    ghost value = { λ b. cast_signed w32 (worth b) };

    fn form_size() -> Option<usize> {
        Some(4)
    }

    fn of_form(bytes: &[u8]) -> i32 {
        u32::of_form(bytes).cast_signed()
    }

    fn put_form(&self, dst: &mut [u8]) {
        self.cast_unsigned().put_form(dst);
    }

    ghost byte_form = { signed_form w32 4 refl };
}

impl ZeroCopy for i64 {
    ghost is_valid = { λ v. FitsSigned w64 v };

    ghost size = { 8 };

    ghost form = { λ v. le 8 (cast_unsigned w64 v) };

    ghost value = { λ b. cast_signed w64 (worth b) };

    fn form_size() -> Option<usize> {
        Some(8)
    }

    fn of_form(bytes: &[u8]) -> i64 {
        u64::of_form(bytes).cast_signed()
    }

    fn put_form(&self, dst: &mut [u8]) {
        self.cast_unsigned().put_form(dst);
    }

    ghost byte_form = { signed_form w64 8 refl };
}

impl ZeroCopy for i128 {
    ghost is_valid = { λ v. FitsSigned w128 v };

    ghost size = { 16 };

    ghost form = { λ v. le 16 (cast_unsigned w128 v) };

    ghost value = { λ b. cast_signed w128 (worth b) };

    fn form_size() -> Option<usize> {
        Some(16)
    }

    fn of_form(bytes: &[u8]) -> i128 {
        u128::of_form(bytes).cast_signed()
    }

    fn put_form(&self, dst: &mut [u8]) {
        self.cast_unsigned().put_form(dst);
    }

    ghost byte_form = { signed_form w128 16 refl };
}
