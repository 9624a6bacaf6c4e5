//! What is written within its limits reads back, and what is past one of them is refused before it is written, as it would
//! be when it is read.
use std::alloc::Global;
use std::collections::{BTreeMap, BTreeSet, BinaryHeap, HashMap, HashSet, LinkedList, VecDeque};
use std::net::{Ipv6Addr, SocketAddr, SocketAddrV6};
use std::rc::{Rc, RcSlice};
use std::test::Fail;
use testkit_schemas::byte_len::ByteLen;
use wincode::io::{Lifetime, Ref, SliceRef, StreamReader};
use wincode::len::{BincodeLen, ShortU16, ShortU16Len};
use wincode::serde::{Deserialize, Serialize};
use wincode::{
    LimitError, Limited, LimitedLen, ReadError, RoundTrip, SchemaGet, WriteError, containers,
    deserialize, serialize, serialize_limited,
};

/// Whether the value is written, where that is due, and its bytes are read; or else is refused as past a limit, and its
/// bytes are refused for a limit when they are read.
fn is_answered<T: Limited + RoundTrip<Lifetime<'static>>>(
    alloc: Global,
    value: &T::Src,
    is_due: bool,
) -> Result<bool, Fail>
where
    T::Src: Drop,
{
    let bytes = <T as Serialize>::serialize(alloc, value)?;
    let mut reader = StreamReader::new(alloc, bytes.as_slice())?;
    let back = <T as SchemaGet<Lifetime<'static>>>::get(alloc, &mut reader);
    Ok(match <T as Limited>::serialize_limited(alloc, value) {
        Ok(written) => is_due && written.len() == bytes.len() && back.is_ok(),
        Err(LimitError::PastLimit) => {
            !is_due && matches!(&back, Err(ReadError::PreallocationSizeLimit { .. }))
        }
        Err(LimitError::Write(_)) => false,
    })
}

type Limit = BincodeLen<3>;

/// A list of at most three bytes.
type Few = containers::Vec<u8, Limit>;

/// Lengths around that limit, and whether they are within it.
const ROWS: [(usize, bool); 4] = [(0, true), (3, true), (4, false), (9, false)];

/// So many bytes.
fn bytes_of(alloc: Global, n: usize) -> Result<Vec<u8>, Fail> {
    Ok(Vec::from_elem(alloc, 97u8, n)?)
}

/// How many bytes the value is written as within its limits: none where it is past one.
fn limited_size<T: Limited<Src = T>>(alloc: Global, value: &T) -> Result<Option<usize>, Fail> {
    match serialize_limited(alloc, value) {
        Ok(bytes) => Ok(Some(bytes.len())),
        Err(LimitError::PastLimit) => Ok(None),
        Err(error) => Err(error.into()),
    }
}

#[test]
fn lists_of_numbers(rt: HostRuntime) -> Result<(), Fail> {
    let alloc = rt.alloc();
    let mut numbers = Vec::from_elem(alloc, 7u64, 524_289)?;
    let is_past = is_answered::<Vec<u64>>(alloc, &numbers, false)?;
    numbers.truncate(524_288);
    assert!(rt; (is_past, limited_size(alloc, &numbers)?) == (true, Some(4_194_312)));
    Ok(())
}

#[test]
fn lists_of_bytes(rt: HostRuntime) -> Result<(), Fail> {
    let alloc = rt.alloc();
    let mut bytes = bytes_of(alloc, 4_194_305)?;
    let is_past = is_answered::<Vec<u8>>(alloc, &bytes, false)?;
    bytes.truncate(4_194_304);
    assert!(rt; (is_past, limited_size(alloc, &bytes)?) == (true, Some(4_194_312)));
    Ok(())
}

#[test]
fn texts(rt: HostRuntime) -> Result<(), Fail> {
    let alloc = rt.alloc();
    let mut text = String::from_utf8(bytes_of(alloc, 4_194_305)?)?;
    let is_past = is_answered::<String>(alloc, &text, false)?;
    text.pop();
    assert!(rt; (is_past, limited_size(alloc, &text)?) == (true, Some(4_194_312)));
    Ok(())
}

#[test]
fn texts_that_are_lent(rt: HostRuntime) -> Result<(), Fail> {
    let alloc = rt.alloc();
    for (n, size) in [(4_194_305, None), (4_194_304, Some(4_194_312))] {
        let text = String::from_utf8(bytes_of(alloc, n)?)?;
        assert!(rt; limited_size(alloc, &text.as_str())? == size);
    }
    Ok(())
}

/// Items that count 65.
#[test]
fn items_of_one_size(rt: HostRuntime) -> Result<(), Fail> {
    let alloc = rt.alloc();
    for (n, is_due) in [(64_527, true), (64_528, false)] {
        let list = Vec::from_elem(alloc, ([7u8; 64], true), n)?;
        assert!(rt; limited_size(alloc, &list)?.is_some() == is_due);
    }
    Ok(())
}

/// Pairs of a map that count 4104.
#[test]
fn pairs_of_one_size(rt: HostRuntime) -> Result<(), Fail> {
    let alloc = rt.alloc();
    for (n, is_due) in [(1022u64, true), (1023, false)] {
        let mut pairs = BTreeMap::new(alloc);
        for key in 0..n {
            pairs.insert(key, [7u64; 512])?;
        }
        assert!(rt; limited_size(alloc, &pairs)?.is_some() == is_due);
    }
    Ok(())
}

/// So many bytes in a heap.
fn heap_of(alloc: Global, n: usize) -> Result<BinaryHeap<u8>, Fail> {
    let mut heap = BinaryHeap::new(alloc);
    for item in bytes_of(alloc, n)? {
        heap.push(item)?;
    }
    Ok(heap)
}

#[test]
fn lists_of_each_kind(rt: HostRuntime) -> Result<(), Fail> {
    let alloc = rt.alloc();
    for (n, is_due) in ROWS {
        let list = is_answered::<Few>(alloc, &bytes_of(alloc, n)?, is_due)?;
        let queue = VecDeque::from_vec(bytes_of(alloc, n)?);
        let queue = is_answered::<containers::VecDeque<u8, Limit>>(alloc, &queue, is_due)?;
        let heap = heap_of(alloc, n)?;
        let heap = is_answered::<containers::BinaryHeap<u8, Limit>>(alloc, &heap, is_due)?;
        assert!(rt; [list, queue, heap] == [true; 3]);
    }
    Ok(())
}

#[test]
fn slices_of_each_kind(rt: HostRuntime) -> Result<(), Fail> {
    let alloc = rt.alloc();
    for (n, is_due) in ROWS {
        let slice = bytes_of(alloc, n)?.into_boxed_slice();
        let boxed = is_answered::<containers::BoxedSlice<u8, Limit>>(alloc, &slice, is_due)?;
        let slice = RcSlice::from_vec(bytes_of(alloc, n)?)?;
        let shared = is_answered::<containers::RcSlice<u8, Limit>>(alloc, &slice, is_due)?;
        assert!(rt; [boxed, shared] == [true; 2]);
    }
    Ok(())
}

/// Whether a list of so many bytes, of which the scheme has no encoding, is refused as past its limit.
fn is_past<Len: LimitedLen>(alloc: Global, n: usize) -> Result<bool, Fail> {
    let bytes = bytes_of(alloc, n)?;
    let answer = <containers::Vec<u8, Len> as Limited>::serialize_limited(alloc, &bytes);
    Ok(matches!(answer, Err(LimitError::PastLimit)))
}

#[test]
fn lengths_without_an_encoding(rt: HostRuntime) -> Result<(), Fail> {
    let alloc = rt.alloc();
    type Short = containers::Vec<u8, ShortU16Len>;
    let short = is_answered::<Short>(alloc, &bytes_of(alloc, 65_535)?, true)?;
    type Byte = containers::Vec<u8, ByteLen>;
    let byte = is_answered::<Byte>(alloc, &bytes_of(alloc, 255)?, true)?;
    let is_short_past = is_past::<ShortU16Len>(alloc, 65_536)?;
    let is_byte_past = is_past::<ByteLen>(alloc, 256)?;
    assert!(rt; [short, byte, is_short_past, is_byte_past] == [true; 4]);
    Ok(())
}

/// Whether a pair with a list of so many bytes, or with none, is answered so.
fn is_pair_answered(alloc: Global, size: Option<usize>, is_due: bool) -> Result<bool, Fail> {
    let list = match size {
        Some(n) => Some(bytes_of(alloc, n)?),
        None => None,
    };
    is_answered::<(u8, Option<Few>)>(alloc, &(7, list), is_due)
}

/// Inside of what has parts the limit is looked at too.
#[test]
fn parts(rt: HostRuntime) -> Result<(), Fail> {
    let alloc = rt.alloc();
    for (n, is_due) in ROWS {
        assert!(rt; is_pair_answered(alloc, Some(n), is_due)?);
    }
    assert!(rt; is_pair_answered(alloc, None, true)?);
    Ok(())
}

#[test]
fn sides_of_results(rt: HostRuntime) -> Result<(), Fail> {
    let alloc = rt.alloc();
    for (n, is_due) in ROWS {
        let side: Result<Vec<u8>, u8> = Ok(bytes_of(alloc, n)?);
        let first = is_answered::<Result<Few, u8>>(alloc, &side, is_due)?;
        let side: Result<u8, Vec<u8>> = Err(bytes_of(alloc, n)?);
        let second = is_answered::<containers::Result<u8, Few, u8>>(alloc, &side, is_due)?;
        assert!(rt; [first, second] == [true; 2]);
    }
    Ok(())
}

#[test]
fn parts_that_are_held(rt: HostRuntime) -> Result<(), Fail> {
    let alloc = rt.alloc();
    for (n, is_due) in ROWS {
        let held = Box::new(alloc, Some(bytes_of(alloc, n)?))?;
        let boxed = is_answered::<Box<containers::Option<Few, u16>>>(alloc, &held, is_due)?;
        let held = Rc::new(alloc, [bytes_of(alloc, 1)?, bytes_of(alloc, n)?])?;
        let shared = is_answered::<Rc<[Few; 2]>>(alloc, &held, is_due)?;
        assert!(rt; [boxed, shared] == [true; 2]);
    }
    Ok(())
}

/// A list of two bytes, and one of so many.
fn lists_of(alloc: Global, n: usize) -> Result<Vec<Vec<u8>>, Fail> {
    Ok(vec![in alloc; bytes_of(alloc, 2)?, bytes_of(alloc, n)?]?)
}

/// So as a list of links.
fn links_of(alloc: Global, n: usize) -> Result<LinkedList<Vec<u8>>, Fail> {
    Ok(LinkedList::from_array(alloc, [bytes_of(alloc, 2)?, bytes_of(alloc, n)?])?)
}

/// Of a list of lists each one is looked at.
#[test]
fn lists_of_lists(rt: HostRuntime) -> Result<(), Fail> {
    let alloc = rt.alloc();
    for (n, is_due) in ROWS {
        let lists = is_answered::<Vec<Few>>(alloc, &lists_of(alloc, n)?, is_due)?;
        let queue = VecDeque::from_vec(lists_of(alloc, n)?);
        let queue = is_answered::<VecDeque<Few>>(alloc, &queue, is_due)?;
        let links = is_answered::<LinkedList<Few>>(alloc, &links_of(alloc, n)?, is_due)?;
        assert!(rt; [lists, queue, links] == [true; 3]);
    }
    Ok(())
}

#[test]
fn a_list_of_large_lists(rt: HostRuntime) -> Result<(), Fail> {
    let alloc = rt.alloc();
    let outer = vec![in alloc; items_of(alloc, 1)?, items_of(alloc, 1025)?]?;
    assert!(rt; is_answered::<Vec<Vec<[u64; 512]>>>(alloc, &outer, false)?);
    Ok(())
}

#[test]
fn values_of_maps(rt: HostRuntime) -> Result<(), Fail> {
    let alloc = rt.alloc();
    for (n, is_due) in ROWS {
        let map = BTreeMap::from_array(alloc, [(7u8, bytes_of(alloc, n)?)])?;
        let ordered = is_answered::<BTreeMap<u8, Few>>(alloc, &map, is_due)?;
        let map = HashMap::from_array(alloc, [(7u8, bytes_of(alloc, n)?)])?;
        let hashed = is_answered::<HashMap<u8, Few>>(alloc, &map, is_due)?;
        assert!(rt; [ordered, hashed] == [true; 2]);
    }
    Ok(())
}

/// A list of so many items that count 4096 each.
fn items_of(alloc: Global, n: usize) -> Result<Vec<[u64; 512]>, Fail> {
    Ok(Vec::from_elem(alloc, [7u64; 512], n)?)
}

/// Whether a map with a key of so many items is within its limits.
fn is_key_within(alloc: Global, n: usize) -> Result<bool, Fail> {
    let map = BTreeMap::from_array(alloc, [(items_of(alloc, n)?, 7u8)])?;
    Ok(limited_size(alloc, &map)?.is_some())
}

/// So of a set of one list.
fn is_item_within(alloc: Global, n: usize) -> Result<bool, Fail> {
    let set = BTreeSet::from_array(alloc, [items_of(alloc, n)?])?;
    Ok(limited_size(alloc, &set)?.is_some())
}

/// So of a heap of one list.
fn is_heap_within(alloc: Global, n: usize) -> Result<bool, Fail> {
    let mut heap = BinaryHeap::new(alloc);
    heap.push(items_of(alloc, n)?)?;
    Ok(limited_size(alloc, &heap)?.is_some())
}

#[test]
fn keys_and_items(rt: HostRuntime) -> Result<(), Fail> {
    let alloc = rt.alloc();
    for (n, is_due) in [(2, true), (1024, true), (1025, false)] {
        let key = is_key_within(alloc, n)?;
        let item = is_item_within(alloc, n)?;
        let heap = is_heap_within(alloc, n)?;
        assert!(rt; [key, item, heap] == [is_due; 3]);
    }
    Ok(())
}

#[test]
fn items_that_are_hashed(rt: HostRuntime) -> Result<(), Fail> {
    let alloc = rt.alloc();
    let set = HashSet::from_array(alloc, [bytes_of(alloc, 2)?])?;
    assert!(rt; is_answered::<HashSet<Vec<u8>>>(alloc, &set, true)?);
    Ok(())
}

#[test]
fn without_limits(rt: HostRuntime) -> Result<(), Fail> {
    let alloc = rt.alloc();
    let three = is_answered::<(bool, char, ())>(alloc, &(true, 'a', ()), true)?;
    let forms = is_answered::<[containers::Pod<u32>; 2]>(alloc, &[1, 2], true)?;
    let short = is_answered::<ShortU16>(alloc, &ShortU16(7), true)?;
    let item = is_answered::<containers::Elem<i8>>(alloc, &-1, true)?;
    let options = vec![in alloc; Some(7), None]?;
    let options = is_answered::<Vec<Option<u16>>>(alloc, &options, true)?;
    assert!(rt; [three, forms, short, item, options] == [true; 5]);
    Ok(())
}

/// A flow label, a scope, and whether an address with them is within its limits: neither is written, so that any other
/// address is read for it.
const SCOPES: [(u32, u32, bool); 4] = [(0, 0, true), (9, 0, false), (0, 7, false), (1, 1, false)];

#[test]
fn addresses_of_sockets(rt: HostRuntime) -> Result<(), Fail> {
    let alloc = rt.alloc();
    let plain = SocketAddrV6::new(Ipv6Addr::LOCALHOST, 80, 0, 0);
    for (flow, scope, is_within) in SCOPES {
        let address = SocketAddrV6::new(Ipv6Addr::LOCALHOST, 80, flow, scope);
        let either = SocketAddr::V6(address);
        let bytes = serialize(alloc, &address)?;
        let back: SocketAddrV6 = deserialize(alloc, bytes.as_slice())?;
        let size = limited_size(alloc, &address)?;
        let either_size = limited_size(alloc, &either)?;
        let due = if is_within {
            (Some(18), Some(22))
        } else {
            (None, None)
        };
        assert!(rt; (back == plain, size, either_size) == (true, due.0, due.1));
    }
    Ok(())
}

/// What was lent is written within its limits.
#[test]
fn what_is_lent(rt: HostRuntime) -> Result<(), Fail> {
    let alloc = rt.alloc();
    let bytes = [2, 0, 0, 0, 0, 0, 0, 0, 5, 6];
    let lent: &[u8] = <&[u8] as Deserialize<Lifetime>>::deserialize(alloc, &bytes)?;
    let forms = <SliceRef<u8> as Deserialize<Lifetime>>::deserialize(alloc, &bytes)?;
    let form = <Ref<u16> as Deserialize<Lifetime>>::deserialize(alloc, &bytes)?;
    let lent = serialize_limited(alloc, &lent)?;
    let forms = serialize_limited(alloc, &forms)?;
    let form = serialize_limited(alloc, &form)?;
    let found = [lent.as_slice(), forms.as_slice(), form.as_slice()];
    assert!(rt; found == [bytes.as_slice(), bytes.as_slice(), [2u8, 0].as_slice()]);
    Ok(())
}

#[test]
fn refusals_print(rt: HostRuntime) -> Result<(), Fail> {
    let alloc = rt.alloc();
    let past = format!(in alloc; "{}", LimitError::PastLimit)?;
    let memory = format!(in alloc; "{}", LimitError::from(WriteError::OutOfMemory))?;
    let plain = format!(in alloc; "{}", WriteError::OutOfMemory)?;
    let due = [
        "a length is past the limit by which it is read",
        plain.as_str(),
    ];
    assert!(rt; [past.as_str(), memory.as_str()] == due);
    Ok(())
}
