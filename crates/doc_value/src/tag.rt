//! The tags that values begin with, by the kind of value.

pub const FALSE: u8 = 0x46;

pub const INT64: u8 = 0x49;

pub const COLUMN_ID: u8 = 0x4B;

pub const STRING: u8 = 0x53;

pub const TRUE: u8 = 0x54;
