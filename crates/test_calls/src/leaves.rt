//! Numbers and references, by their values in Rust.
use std::alloc::Global;
use std::test::Fail;
use wincode::io::Lifetime;
use wincode::{SchemaGet, SchemaWrite, TypeMeta, serialize};

#[test]
fn numbers_written(rt: HostRuntime) -> Result<(), Fail> {
    let alloc = rt.alloc();
    let low = serialize(alloc, &-2i16)?;
    let wide = serialize(alloc, &(1u128 << 64))?;
    let minus = serialize(alloc, &-1isize)?;
    let due = (
        [254u8, 255].as_slice(),
        [0u8, 0, 0, 0, 0, 0, 0, 0, 1, 0, 0, 0, 0, 0, 0, 0].as_slice(),
        [255u8; 8].as_slice(),
    );
    assert!(rt; (low.as_slice(), wide.as_slice(), minus.as_slice()) == due);
    Ok(())
}

#[test]
fn numbers_read(rt: HostRuntime) -> Result<(), Fail> {
    let alloc = rt.alloc();
    let mut minus = [255u8; 8].as_slice();
    let most = <usize as SchemaGet<Lifetime>>::get(alloc, &mut minus)?;
    let mut three = [1u8, 2, 3].as_slice();
    let number = <u16 as SchemaGet<Lifetime>>::get(alloc, &mut three)?;
    assert!(rt; (most, number, three) == (usize::MAX, 513, [3u8].as_slice()));
    Ok(())
}

fn lent_text_written(alloc: Global) -> Result<Vec<u8>, Fail> {
    let mut out = Vec::new(alloc);
    <&str as SchemaWrite>::write(&mut out, &"é")?;
    Ok(out)
}

#[test]
fn borrowed_parts(rt: HostRuntime) -> Result<(), Fail> {
    let text = lent_text_written(rt.alloc())?;
    let number = <&u32 as SchemaWrite>::type_meta();
    let lent = <&String as SchemaWrite>::type_meta();
    let size = <&u32 as SchemaWrite>::size_of(&&7)?;
    let due = TypeMeta::Static {
        size: 4,
        zero_copy: false,
    };
    let bytes = [2u8, 0, 0, 0, 0, 0, 0, 0, 195, 169].as_slice();
    let found = (text.as_slice(), number, lent, size);
    assert!(rt; found == (bytes, due, TypeMeta::Dynamic, 4));
    Ok(())
}
