//! A byte form of a caller's own, and forms that are put over others.
use example_schemas::forms::{Address, replace_at, replace_first, replace_whole};
use std::test::Fail;
use wincode::containers::{self, Pod};
use wincode::io::{self, Lifetime, Reader, Writer, ZeroCopy};
use wincode::laws::edit_one;
use wincode::len::ShortU16Len;
use wincode::{SchemaGet, SchemaWrite, TypeMeta};

#[test]
fn an_address_is_its_bytes(rt: HostRuntime) -> Result<(), Fail> {
    let mut written = Vec::new(rt.alloc());
    written.write_t(&Address([7; 32]))?;
    let mut reader = written.as_slice();
    let mut read = None;
    Reader::<Lifetime>::copy_into_t(&mut reader, &mut read)?;
    let read = read.map(|it: Address| it.0);
    assert!(rt; (written.as_slice(), read) == ([7u8; 32].as_slice(), Some([7; 32])));
    Ok(())
}

#[test]
fn a_short_address_stays(rt: HostRuntime) {
    let mut short = [4u8, 3, 5, 6, 7, 8, 9];
    let is_refused = Address::from_bytes_mut(&mut short).is_err();
    assert!(rt; (is_refused, short) == (true, [4, 3, 5, 6, 7, 8, 9]));
}

#[test]
fn the_first_form_is_replaced(rt: HostRuntime) -> Result<(), Fail> {
    let mut bytes = [1u8; 34];
    replace_first(&mut bytes, Address([7; 32]))?;
    let mut want = [7u8; 34];
    want[32] = 1;
    want[33] = 1;
    let mut short = [1u8; 31];
    let refused = replace_first(&mut short, Address([9; 32]));
    let is_short = matches!(&refused, Err(io::ReadError::ReadSizeLimit(32)));
    assert!(rt; (bytes, is_short, short) == (want, true, [1; 31]));
    Ok(())
}

#[test]
fn forms_are_replaced(rt: HostRuntime) {
    let mut forms = [1u8, 0, 2, 0, 3, 0];
    replace_at(&mut forms, 3, 2, 515u16);
    let mut form = [1u8, 0];
    replace_whole(&mut form, 772u16);
    assert!(rt; (forms, form) == ([1, 0, 2, 0, 3, 2], [4, 3]));
}

/// The schema of a list of addresses announces what an address is.
#[test]
fn forms_of_a_caller(rt: HostRuntime) -> Result<(), Fail> {
    let alloc = rt.alloc();
    let meta = TypeMeta::Static {
        size: 32,
        zero_copy: true,
    };
    type Addresses = containers::Vec<Pod<Address>, ShortU16Len>;
    let one = vec![in alloc; Address([7; 32])]?;
    let mut text = Vec::new(alloc);
    <Addresses as SchemaWrite>::write(&mut text, &one)?;
    let mut want = [7u8; 33];
    want[0] = 1;
    let mut reader = want.as_slice();
    let back = <Addresses as SchemaGet<Lifetime>>::get(alloc, &mut reader)?;
    let is_back = back.len() == 1 && back[0].0 == [7; 32];
    let announced = <Pod<Address> as SchemaWrite>::type_meta();
    assert!(rt; (text.as_slice(), is_back, announced) == (want.as_slice(), true, meta));
    Ok(())
}

#[test]
fn a_form_of_a_caller_is_edited(rt: HostRuntime) -> Result<(), Fail> {
    let mut bytes = [1u8; 33];
    edit_one::<Address>(&mut bytes, &[Address([2; 32]), Address([7; 32])])?;
    let mut after = [7u8; 33];
    after[32] = 1;
    assert!(rt; bytes == after);
    Ok(())
}
