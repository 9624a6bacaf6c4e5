//! Arrays: what a refusal leaves, and what it drops.
ghost use Rattle.std.specs.Prelude.{◌≡◌};

use std::alloc::AllocError;
use std::rc::Rc;
use std::test::Fail;
use wincode::io::Lifetime;
use wincode::{ReadError, SchemaRead};
use wincode_collect::{ItemSource, array_of};

#[test]
fn refused_arrays(rt: HostRuntime) -> Result<(), Fail> {
    let mut dst = Some([true, true, true]);
    let mut reader = [0u8, 5, 1, 9].as_slice();
    let bad = <[bool; 3] as SchemaRead<Lifetime>>::read(rt.alloc(), &mut reader, &mut dst);
    let is_refused = matches!(&bad, Err(ReadError::InvalidBoolEncoding(5)));
    let due = (true, [9u8].as_slice(), Some([true, true, true]));
    assert!(rt; (is_refused, reader, dst) == due);
    Ok(())
}

/// Gives a shared number so many times, and is then refused.
#[derive(Drop)]
struct Shares {
    shared: Rc<u64>,
    left: usize,
}

impl ItemSource<Rc<u64>, AllocError> for Shares {
    ghost gives = { λ s r t. s ≡ s };

    fn next(&mut self) -> Result<Rc<u64>, AllocError> {
        if self.left == 0 {
            return Err(AllocError);
        }
        self.left -= 1;
        self.shared.clone()
    }
}

/// How often the number is shared while an array of it is held, and the last item.
fn held(shared: &Rc<u64>, source: &mut Shares) -> Result<(usize, u64), AllocError> {
    let held: [Rc<u64>; 3] = array_of(source)?;
    Ok((Rc::strong_count(shared), *held[2]))
}

/// Whether a second array is refused.
fn is_refused(source: &mut Shares) -> bool {
    let refused: Result<[Rc<u64>; 3], AllocError> = array_of(source);
    refused.is_err()
}

#[test]
fn a_refusal_drops_what_was_read(rt: HostRuntime) -> Result<(), Fail> {
    let shared = Rc::new(rt.alloc(), 5u64)?;
    let mut source = Shares {
        shared: shared.clone()?,
        left: 5,
    };
    let (count, last) = held(&shared, &mut source)?;
    let dropped = Rc::strong_count(&shared);
    let refused = is_refused(&mut source);
    let after = (refused, source.left, Rc::strong_count(&shared));
    assert!(rt; ((count, last, dropped), after) == ((5, 5, 2), (true, 0, 2)));
    let none: [Rc<u64>; 0] = array_of(&mut source)?;
    assert!(rt; none.len() == 0);
    Ok(())
}
