//! Every public path of `wincode`: a module, type, trait or function that is moved or renamed fails here.

/// What stands at the top.
mod top {
    pub use wincode::{
        By, Error, ExactError, Key, LimitError, Limited, LimitedLen, LimitedShape, Messages,
        OneText, ReadError, ReadResult, Result, RoundTrip, SchemaGet, SchemaRead, SchemaReadOwned,
        SchemaWrite, Shape, TagCode, Told, TypeMeta, VERSION, WriteError, WriteResult, ZeroCopy,
        append_message, copy_front, deserialize, deserialize_exact, deserialize_from,
        deserialize_mut, read_tag, rewrite, serialize, serialize_into, serialize_limited,
        serialized_size, whole_length, write_tag,
    };
}

/// What stands in modules of its own.
mod modules {
    pub use wincode::containers::{
        BinaryHeap, BoxedSlice, Elem, Option, Pod, RcSlice, Result, Vec, VecDeque,
    };
    pub use wincode::exact::ExactError;
    pub use wincode::laws::{edit_in_place, edit_one};
    pub use wincode::len::{
        BincodeLen, NO_LIMIT, PREALLOCATION_LIMIT, SeqLen, ShortU16, ShortU16Len, short_vec,
    };
    pub use wincode::limits::{LimitError, Limited, LimitedLen, LimitedShape};
    pub use wincode::logs::{append_message, whole_length};
    pub use wincode::markers::{OneText, SchemaReadOwned};
    pub use wincode::meta::TypeMeta;
    pub use wincode::schema::{RoundTrip, SchemaGet, SchemaRead, SchemaWrite};
    pub use wincode::serde::{Deserialize, DeserializeOwned, Serialize};
    pub use wincode::shape::{By, Shape};
    pub use wincode::tag::{TagCode, read_tag, write_tag};
}

/// Lengths by the paths of their own module.
mod short_lengths {
    pub use wincode::len::short_vec::{ShortU16, ShortU16Len};
}

/// The errors, and what makes each.
mod errors {
    pub use wincode::error::{
        Error, ReadError, ReadResult, Result, WriteError, WriteResult, invalid_bool_encoding,
        invalid_char_lead, invalid_tag_encoding, invalid_utf8_encoding, pointer_sized_decode_error,
        preallocation_size_limit, read_length_encoding_overflow, unaligned_pointer_read,
        write_length_encoding_overflow,
    };
}

/// The modules of schemas, and the members of structs.
mod schemas {
    pub use wincode::schema::tuples;
    pub use wincode::schema::tuples::{
        Member, Members2, Members3, Members4, Members5, Members6, Members7, Members8,
        size_of_members_2, size_of_members_3, size_of_members_4, size_of_members_5,
        size_of_members_6, size_of_members_7, size_of_members_8, size_of_members_9,
        size_of_members_10, size_of_members_11, size_of_members_12, write_members_2,
        write_members_3, write_members_4, write_members_5, write_members_6, write_members_7,
        write_members_8, write_members_9, write_members_10, write_members_11, write_members_12,
    };
}

/// Readers and writers, as `wincode` passes them on.
mod inputs {
    pub use wincode::io::{
        Borrowed, CountedSliceReader, Cursor, Held, Input, InputMut, Lending, Lifetime, MemorySink,
        ReadError, ReadResult, ReadWindow, Reader, Ref, RefMut, SharedBytes, Sink, SliceRef,
        SliceRefMut, SliceView, SliceWriter, Source, StdSink, StdSource, StreamReader,
        StreamWriter, TrustedSliceReader, TrustedSliceReaderZeroCopy,
        TrustedSliceReaderZeroCopyMut, TrustedSliceWriter, Unfinished, View, WriteError,
        WriteResult, WriteWindow, Writer, ZeroCopy, copy_into_array, fill_array, see_bytes,
        size_of_form, total_size,
    };
}

use std::test::Fail;

/// The paths lead to what they are named by.
#[test]
fn paths(rt: HostRuntime) -> Result<(), Fail> {
    let text = top::serialize(rt.alloc(), &7u16)?;
    let number: modules::ShortU16 = short_lengths::ShortU16(7);
    let size = <short_lengths::ShortU16Len as modules::SeqLen>::write_bytes_needed(7)?;
    let bad = errors::invalid_bool_encoding(2);
    let is_bad = matches!(&bad, top::ReadError::InvalidBoolEncoding(2));
    let form = inputs::size_of_form::<u32>();
    let found = (text.as_slice(), number.0, size, is_bad, form, top::VERSION);
    assert!(rt; found == ([7u8, 0].as_slice(), 7, 1, true, 4, "0.1.0"));
    Ok(())
}
