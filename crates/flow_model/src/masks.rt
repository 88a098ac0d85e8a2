//! The status table on masks: each call acts on each status of the mask by the table.
ghost use Rattle.std.specs.Prelude.{◌≡◌, ◌<◌, ◌+◌, ℕ, slice_index};
ghost use Rattle.app_model.specs.Masks.{in_mask, IsIn};
ghost use Rattle.flow_model.specs.Images.{IsImage, IsCut, IsImageBelow};
ghost use Rattle.flow_model.specs.Status.{acquire_passes, acquire_throws, release_passes, release_throws, is_held_passes, call_throws, mode_passes, mode_throws, store_passes, null_passes, zero_if_null, nonzero_if_null, zero_if_held, nonzero_if_held};

use crate::status;
use app_model::Tag;

/// The statuses with which an operation returns, and with which it throws, as masks.
#[derive(Clone, Copy, Debug, PartialEq, Eq)]
pub struct Outcome {
    pub normal: u8,
    pub thrown: u8,
}

/// The statuses with which a test takes its zero branch, and the other, as masks.
#[derive(Clone, Copy, Debug, PartialEq, Eq)]
pub struct Branches {
    pub zero: u8,
    pub nonzero: u8,
}

/// `acquire` of the field's lock.
pub fn after_acquire(mask: u8) -> Outcome
    ensures normal { IsImage acquire_passes mask result.normal }
    ensures thrown { IsImage acquire_throws mask result.thrown }
{
    Outcome {
        normal: image(&status::ACQUIRE_PASSES, mask),
        thrown: image(&status::ACQUIRE_THROWS, mask),
    }
}

/// `release` of the field's lock.
pub fn after_release(mask: u8) -> Outcome
    ensures normal { IsImage release_passes mask result.normal }
    ensures thrown { IsImage release_throws mask result.thrown }
{
    Outcome {
        normal: image(&status::RELEASE_PASSES, mask),
        thrown: image(&status::RELEASE_THROWS, mask),
    }
}

/// `isHeld` of the field's lock.
pub fn after_is_held(mask: u8) -> Outcome
    ensures normal { IsImage is_held_passes mask result.normal }
    ensures thrown { IsImage call_throws mask result.thrown }
{
    Outcome {
        normal: image(&status::IS_HELD_PASSES, mask),
        thrown: image(&status::CALL_THROWS, mask),
    }
}

/// `setReferenceCounted` of the field's lock, by the tag of its argument.
pub fn after_mode(mask: u8, argument: Tag) -> Outcome
    ensures normal { IsImage (mode_passes argument) mask result.normal }
    ensures thrown { IsImage (mode_throws argument) mask result.thrown }
{
    match argument {
        Tag::Bot => Outcome {
            normal: image(&status::NOWHERE, mask),
            thrown: image(&status::NOWHERE, mask),
        },
        Tag::Zero => after_mode_by(&status::UNCOUNTED_PASSES, mask),
        Tag::Solid => after_mode_by(&status::COUNTED_PASSES, mask),
        Tag::Held(_) | Tag::Any | Tag::Field(_) | Tag::New(_) | Tag::Mixed => after_mode_by(
            &status::EITHER_PASSES,
            mask,
        ),
    }
}

fn after_mode_by(passes: &[u8; 8], mask: u8) -> Outcome
    ensures normal { IsImage (slice_index passes.now) mask result.normal }
    ensures thrown { IsImage call_throws mask result.thrown }
{
    Outcome {
        normal: image(passes, mask),
        thrown: image(&status::CALL_THROWS, mask),
    }
}

/// A store of a new lock into the field.
pub fn after_store(mask: u8) -> u8
    ensures { IsImage store_passes mask result }
{
    image(&status::STORE_PASSES, mask)
}

/// A store of null into the field, or its clearing.
pub fn after_null(mask: u8) -> u8
    ensures { IsImage null_passes mask result }
{
    image(&status::NULL_PASSES, mask)
}

/// A test of the field against null.
pub fn null_test(mask: u8) -> Branches
    ensures zero { IsCut mask zero_if_null result.zero }
    ensures nonzero { IsCut mask nonzero_if_null result.nonzero }
{
    Branches {
        zero: mask & status::ZERO_IF_NULL,
        nonzero: mask & status::NONZERO_IF_NULL,
    }
}

/// A test of whether the field's lock is held.
pub fn held_test(mask: u8) -> Branches
    ensures zero { IsCut mask zero_if_held result.zero }
    ensures nonzero { IsCut mask nonzero_if_held result.nonzero }
{
    Branches {
        zero: mask & status::ZERO_IF_HELD,
        nonzero: mask & status::NONZERO_IF_HELD,
    }
}

/// Where a column of the status table leads from the statuses of a mask.
pub fn image(column: &[u8; 8], mask: u8) -> u8
    ensures { IsImage (slice_index column.now) mask result }
{
    let mut image = 0u8;
    for s in 0..8 {
        image = with_status(column, mask, s, image);
    }
    image
}

// The image with what the column has at one more status, where the mask has it.
fn with_status(column: &[u8; 8], mask: u8, s: usize, image: u8) -> u8
    requires status { s < 8 }
    requires below { IsImageBelow (slice_index column.now) mask s image }
    ensures { IsImageBelow (slice_index column.now) mask (s + 1) result }
{
    if has_status(mask, s) {
        image | column[s]
    } else {
        image
    }
}

/// Whether a mask has a status.
pub fn has_status(mask: u8, s: usize) -> bool
    requires { s < 8 }
    ensures { result ≡ in_mask mask s }
{
    (mask >> s) & 1 == 1
}
