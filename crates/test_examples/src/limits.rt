//! Lists of structs of one's own, up to what they count against their limit.
use example_schemas::limits::to_read_back;
use example_schemas::transfer::{Account, Payment};
use example_schemas::turn::Turn;
use std::alloc::Global;
use std::test::Fail;
use wincode::io::Lifetime;
use wincode::{By, LimitError, Limited, serialize_limited};

/// An account counts 32.
#[test]
fn lists_of_accounts(rt: HostRuntime) -> Result<(), Fail> {
    let alloc = rt.alloc();
    for (n, is_due) in [(131_072, true), (131_073, false)] {
        let accounts = Vec::from_elem(alloc, Account([7; 32]), n)?;
        assert!(rt; serialize_limited(alloc, &accounts).is_ok() == is_due);
    }
    Ok(())
}

/// So many payments.
fn payments(alloc: Global, n: u64) -> Result<Vec<Payment>, Fail> {
    let mut payments = Vec::new(alloc);
    for amount in 0..n {
        payments.push(Payment {
            to: Account([7; 32]),
            amount,
        })?;
    }
    Ok(payments)
}

/// A payment counts 40.
#[test]
fn lists_of_payments(rt: HostRuntime) -> Result<(), Fail> {
    let alloc = rt.alloc();
    let most = payments(alloc, 104_857)?;
    let bytes = to_read_back::<Lifetime<'static>, Vec<Payment>>(alloc, &most)?;
    let more = serialize_limited(alloc, &payments(alloc, 104_858)?);
    let is_past = matches!(&more, Err(LimitError::PastLimit));
    assert!(rt; (bytes.len(), is_past) == (4_194_288, true));
    Ok(())
}

#[test]
fn lists_by_shape(rt: HostRuntime) -> Result<(), Fail> {
    let alloc = rt.alloc();
    let turns = vec![in alloc; Turn::Right, Turn::Left]?;
    let bytes = <Vec<By<Turn>> as Limited>::serialize_limited(alloc, &turns)?;
    assert!(rt; bytes.as_slice() == [2u8, 0, 0, 0, 0, 0, 0, 0, 1, 0].as_slice());
    Ok(())
}
