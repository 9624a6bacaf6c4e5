//! What most programs name: `use wincode::prelude::*`.

pub use crate::io::{Cursor, Lending, Lifetime, Reader, Source, StdSource, StreamReader, Writer};
pub use crate::len::{BincodeLen, SeqLen, ShortU16, ShortU16Len};
pub use crate::serde::{Deserialize, DeserializeOwned, Serialize};
pub use crate::{
    By, Key, LimitError, Limited, Messages, OneText, ReadError, ReadResult, RoundTrip, SchemaGet,
    SchemaRead, SchemaReadOwned, SchemaWrite, Shape, TypeMeta, WriteError, WriteResult, containers,
    deserialize, deserialize_exact, deserialize_from, deserialize_mut, serialize, serialize_into,
    serialize_limited, serialized_size,
};
