//! The tag of a versioned key that no value or document key begins with.

pub const HYBRID_TIME: u8 = 0x23;
