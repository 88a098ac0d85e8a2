//! The columns of the status table, a mask for each status before the operation.

/// The mask of each status alone.
pub const ONLY: [u8; 8] = [0x01, 0x02, 0x04, 0x08, 0x10, 0x20, 0x40, 0x80];

/// `acquire`, where it returns.
pub const ACQUIRE_PASSES: [u8; 8] = [0x00, 0x04, 0x08, 0x10, 0x10, 0x40, 0x40, 0x80];

/// `acquire`, where it throws.
pub const ACQUIRE_THROWS: [u8; 8] = [0x01, 0x00, 0x00, 0x00, 0x00, 0x00, 0x00, 0x80];

/// `release`, where it returns.
pub const RELEASE_PASSES: [u8; 8] = [0x00, 0x00, 0x02, 0x04, 0x18, 0x20, 0x20, 0x80];

/// `release`, where it throws.
pub const RELEASE_THROWS: [u8; 8] = [0x01, 0x02, 0x00, 0x00, 0x00, 0x00, 0x00, 0x80];

/// `isHeld`, where it returns.
pub const IS_HELD_PASSES: [u8; 8] = [0x00, 0x02, 0x04, 0x08, 0x10, 0x20, 0x40, 0x80];

/// `isHeld` and `setReferenceCounted`, where they throw.
pub const CALL_THROWS: [u8; 8] = [0x01, 0x00, 0x00, 0x00, 0x00, 0x00, 0x00, 0x80];

/// `setReferenceCounted(false)`, where it returns.
pub const UNCOUNTED_PASSES: [u8; 8] = [0x00, 0x20, 0x40, 0x40, 0x40, 0x20, 0x40, 0x80];

/// `setReferenceCounted(true)`, where it returns.
pub const COUNTED_PASSES: [u8; 8] = [0x00, 0x02, 0x04, 0x08, 0x10, 0x02, 0x1c, 0x80];

/// Either of these two, where the argument is not known.
pub const EITHER_PASSES: [u8; 8] = [0x00, 0x22, 0x44, 0x48, 0x50, 0x22, 0x5c, 0x80];

/// A call that is not reached.
pub const NOWHERE: [u8; 8] = [0x00; 8];

/// A store of a new lock.
pub const STORE_PASSES: [u8; 8] = [0x02, 0x02, 0x80, 0x80, 0x80, 0x02, 0x80, 0x80];

/// A store of null, or a clearing.
pub const NULL_PASSES: [u8; 8] = [0x01, 0x01, 0x80, 0x80, 0x80, 0x01, 0x80, 0x80];

/// A test of the field against null, the zero branch.
pub const ZERO_IF_NULL: u8 = 0x81;

/// A test of the field against null, the other branch.
pub const NONZERO_IF_NULL: u8 = 0xfe;

/// A test of whether the field's lock is held, the zero branch.
pub const ZERO_IF_HELD: u8 = 0xa3;

/// A test of whether the field's lock is held, the other branch.
pub const NONZERO_IF_HELD: u8 = 0xdc;
