//! LEB128 numbers at places that may be past the end.
ghost use Rattle.std.specs.Prelude.{◌≡◌, ◌<◌, ◌≤◌, length, IfOk};
ghost use Rattle.dex_bytes.specs.Leb128.{uleb_at, sleb_at};
ghost use Rattle.dex_code.specs.Reading.{numbers_end};

use dex_bytes::{DexFault, sleb, uleb};

/// The unsigned number at a place, and the place after it.
#[tactic(auto, using(crate::proofs::Lebs::uleb_past, crate::proofs::Lebs::uleb_later))]
pub fn uleb_from(bytes: &[u8], at: usize) -> Result<(u32, usize), DexFault>
    ensures value { result ≡ uleb_at bytes.now at }
    ensures later { IfOk result (λ number. at ≤ number.1) }
{
    if at > bytes.len() {
        return Err(DexFault::Short(at));
    }
    let number = uleb(bytes, at)?;
    Ok(number)
}

/// The signed number at a place, and the place after it.
#[tactic(auto, using(crate::proofs::Lebs::sleb_past, crate::proofs::Lebs::sleb_later))]
pub fn sleb_from(bytes: &[u8], at: usize) -> Result<(i32, usize), DexFault>
    ensures value { result ≡ sleb_at bytes.now at }
    ensures later { IfOk result (λ number. at ≤ number.1) }
{
    if at > bytes.len() {
        return Err(DexFault::Short(at));
    }
    let number = sleb(bytes, at)?;
    Ok(number)
}

/// The place after so many unsigned numbers.
pub fn numbers_end_from(bytes: &[u8], at: usize, count: u64) -> Result<usize, DexFault>
    ensures value { result ≡ numbers_end bytes.now at count }
    ensures later { IfOk result (λ end. at ≤ end) }
{
    let mut end = at;
    for i in 0..count {
        let (_, next) = uleb_from(bytes, end)?;
        end = next;
    }
    Ok(end)
}
