//! The tags of a key that no value begins with.

pub const GROUP_END: u8 = 0x21;

pub const HASH: u8 = 0x47;
