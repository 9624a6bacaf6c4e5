//! Types of one's own that tell whether their values are within their limits, and what is written so.
ghost use Rattle.std.specs.Prelude.{IfOk};

use crate::transfer::{Account, Payment};
use crate::turn::Turn;
use std::alloc::Global;
use wincode::io::Lending;
use wincode::{LimitError, Limited, LimitedShape, RoundTrip};

/// The limits of its fields, as they are written.
impl Limited for Account {
    fn counts() -> usize {
        <[u8; 32] as Limited>::counts()
    }

    fn has_no_limits() -> bool {
        <[u8; 32] as Limited>::has_no_limits()
    }

    fn is_within(src: &Account) -> bool {
        <[u8; 32] as Limited>::is_within(&src.0)
    }
}

impl Limited for Payment {
    fn counts() -> usize {
        <(Account, u64) as Limited>::counts()
    }

    fn has_no_limits() -> bool {
        <(Account, u64) as Limited>::has_no_limits()
    }

    fn is_within(src: &Payment) -> bool {
        Account::is_within(&src.to) && <u64 as Limited>::is_within(&src.amount)
    }
}

impl LimitedShape for Turn {
    fn parts_are_within(&self) -> bool {
        let _ = *self;
        true
    }
}

/// The bytes of the value, which are read as it.
pub fn to_read_back<L: Lending, T: RoundTrip<L> + Limited>(
    alloc: Global,
    src: &T::Src,
) -> Result<Vec<u8>, LimitError>
    ensures { IfOk result (λ v. T.SchemaRead.reading.reads v.items (T.SchemaRead.model src.now)) }
{
    <T as Limited>::serialize_limited(alloc, src)
}
