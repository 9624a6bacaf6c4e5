//! Members of a tuple, one after another, and members that are sized and written by reference.
pub use wincode_base::parts::{
    Member, Members2, Members3, Members4, Members5, Members6, Members7, Members8, Members9,
    Members10, Members11, Members12,
};
pub use wincode_write::schema::tuples::{
    encode_front_members_2, encode_front_members_3, encode_front_members_4, encode_front_members_5,
    encode_front_members_6, encode_front_members_7, encode_front_members_8, encode_front_members_9,
    encode_front_members_10, encode_front_members_11, encode_front_members_12, size_of_members_2,
    size_of_members_3, size_of_members_4, size_of_members_5, size_of_members_6, size_of_members_7,
    size_of_members_8, size_of_members_9, size_of_members_10, size_of_members_11,
    size_of_members_12, write_members_2, write_members_3, write_members_4, write_members_5,
    write_members_6, write_members_7, write_members_8, write_members_9, write_members_10,
    write_members_11, write_members_12,
};
