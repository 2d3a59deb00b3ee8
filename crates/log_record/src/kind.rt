//! The bytes by which records, isolations, operations and aborts are told apart.

pub const LEASE: u8 = 0x01;

pub const WRITE: u8 = 0x02;

pub const APPLY: u8 = 0x03;

pub const CLEAN: u8 = 0x04;

pub const SINGLE: u8 = 0x05;

pub const BEGIN: u8 = 0x06;

pub const COMMIT: u8 = 0x07;

pub const ABORT: u8 = 0x08;

pub const FORGET: u8 = 0x09;

/// Snapshot isolation.
pub const SNAPSHOT: u8 = 0x00;

pub const DELETE: u8 = 0x00;

pub const PUT: u8 = 0x01;

/// An abort by the owner.
pub const OWN: u8 = 0x00;

/// An abort by another transaction.
pub const OTHER: u8 = 0x01;
