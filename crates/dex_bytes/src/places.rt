//! LEB128 numbers one after another.
ghost use Rattle.std.specs.Prelude.{◌≡◌, ◌≤◌, ◌<◌, length, MatchOption};
ghost use Rattle.dex_bytes.specs.Places.{IsUleb, uleb_value, uleb_next};

use crate::leb128::uleb;

/// The unsigned number at a place and the place after it, where one stands there. The place may be
/// past the end: no number stands there.
pub fn number_from(bytes: &[u8], at: usize) -> Option<(u32, usize)>
    ensures { MatchOption result (¬ IsUleb bytes.now at) (λ r. IsUleb bytes.now at
        × (r.0 ≡ uleb_value bytes.now at) × (r.1 ≡ uleb_next bytes.now at) × (r.1 ≤ length bytes.now)) }
{
    if at > bytes.len() {
        return None;
    }
    match uleb(bytes, at) {
        Ok(found) => Some(found),
        Err(_) => None,
    }
}
