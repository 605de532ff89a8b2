//! The bytes with a meaning of their own in the spelling of a certificate.

/// The first four bytes, "CKT1".
pub(crate) const MAGIC: [u8; 4] = [0x43, 0x4B, 0x54, 0x31];

/// The term `false`.
pub(crate) const FALSE: u8 = 0x17;

/// The term `true`.
pub(crate) const TRUE: u8 = 0x18;

/// The formula `bottom`.
pub(crate) const BOTTOM: u8 = 0x30;

/// A term as a formula.
pub(crate) const HOLDS: u8 = 0x31;

/// An implication of two formulas.
pub(crate) const IMP: u8 = 0x32;

/// A hypothesis by its index.
pub(crate) const HYP: u8 = 0x40;

/// A proof of an implication, under a new hypothesis.
pub(crate) const LAM: u8 = 0x41;

/// A proof of an implication, applied to one of its premise.
pub(crate) const APP: u8 = 0x42;

/// The node of the program `skip`.
pub(crate) const SKIP: u8 = 0x60;

/// The count of declared names.
pub(crate) const NO_NAMES: u8 = 0;

/// All bytes of a number but the last have this bit.
pub(crate) const HIGH_BIT: u8 = 0x80;
