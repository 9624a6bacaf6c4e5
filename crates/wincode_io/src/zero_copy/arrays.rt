//! The byte forms of arrays: those of the items, one after another.
ghost use Rattle.std.specs.Prelude.{◌≡◌, ℕ, ◌*◌, ◌<◌, List, length};
ghost use Rattle.std.specs.List.{All, flat_map};
ghost use Rattle.wincode_io.specs.Forms.{part, values};
ghost use Rattle.wincode_io.specs.FormLaws.{array_form};

use super::{ZeroCopy, form_at, put_forms, read_forms, total_size};
use std::array::from_fn;

impl<T: ZeroCopy, const N: usize> ZeroCopy for [T; N] {
    ghost is_valid = { λ v. (length v ≡ N) × All T.is_valid v };

    ghost size = { N * T.size };

    ghost form = { λ v. flat_map T.form v };

    ghost value = { λ b. values T.value T.size N b };

    fn form_size() -> Option<usize> {
        total_size::<T>(N)
    }

    fn of_form(bytes: &[u8]) -> [T; N] {
        array_of_forms(bytes)
    }

    fn put_form(&self, dst: &mut [u8]) {
        put_forms(self, dst);
    }

    ghost byte_form = { array_form N T.byte_form };
}

/// The values of `N` forms.
fn array_of_forms<T: ZeroCopy, const N: usize>(bytes: &[u8]) -> [T; N]
    requires { length bytes.now ≡ N * T.size }
    ensures { result ≡ values T.value T.size N bytes.now }
{
    if N == 0 {
        return from_fn(
            |i: usize| -> T
                requires sized { length bytes.now ≡ N * T.size }
                requires within { i < N }
                ensures { result ≡ T.value (part T.size bytes.entry.now i) }
            { form_at::<T>(bytes, N, i) },
        );
    }
    let first = form_at::<T>(bytes, N, 0);
    let mut array = [first; N];
    read_forms(bytes, &mut array);
    array
}
