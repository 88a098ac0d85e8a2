//! Text in MUTF-8.
ghost use Rattle.std.specs.Prelude.{◌≡◌, ℕ, ◌<◌, ◌≤◌, List, length, drop, slice_index, ◌↔◌};
ghost use Rattle.dex_bytes.specs.Mutf8.{trails_after, step_of, mutf8_at, IsText, IsFirstBad, BeginsText};

use crate::fault::DexFault;

// What is still to come of a text before its zero byte: bytes that go on a unit, and then whole
// units.
#[derive(Clone, Copy)]
struct Wanted {
    trails: u8,
    units: u32,
}

// What a byte of a text does.
#[derive(Clone, Copy)]
enum Step {
    More(Wanted),
    End,
    Fault,
}

/// The place of the zero byte after the text of so many UTF-16 units at `at`. `Mutf8` names the first
/// byte that cannot stand there; `Short(at)` comes where the bytes end first.
#[tactic(auto, unfolding(crate::specs::Mutf8::mutf8_at))]
pub fn mutf8(bytes: &[u8], at: usize, units: u32) -> Result<usize, DexFault>
    requires { at ≤ length bytes.now }
    ensures { result ≡ mutf8_at bytes.now at units }
{
    let (_, rest) = bytes.split_at(at);
    let mut wanted = Wanted { trails: 0, units };
    for (i, byte) in rest.iter().enumerate() {
        match step_at(wanted, *byte) {
            Step::More(next) => wanted = next,
            Step::End => return Ok(at + i),
            Step::Fault => return Err(DexFault::Mutf8(at + i)),
        }
    }
    Err(DexFault::Short(at))
}

fn step_at(wanted: Wanted, byte: u8) -> Step
    ensures { result ≡ step_of wanted byte }
{
    let Wanted { trails, units } = wanted;
    if trails > 0 {
        return match byte {
            0x80..0xc0 => Step::More(Wanted {
                trails: trails - 1,
                units,
            }),
            _ => Step::Fault,
        };
    }
    if units > 0 {
        return match trails_of(byte) {
            Some(trails) => Step::More(Wanted {
                trails,
                units: units - 1,
            }),
            None => Step::Fault,
        };
    }
    if byte == 0 { Step::End } else { Step::Fault }
}

// How many bytes go on the unit that this byte begins, where it can begin one.
fn trails_of(byte: u8) -> Option<u8>
    ensures { result ≡ trails_after byte }
{
    match byte {
        0x01..0x80 => Some(0),
        0xc0..0xe0 => Some(1),
        0xe0..0xf0 => Some(2),
        _ => None,
    }
}

/// What the grammar says of the places that `mutf8` gives. A text ends at the first zero byte from
/// its place on. `Mutf8` names the first byte that no text of so many units has there, and `Short`
/// comes where some text begins with all bytes that are left.
pub fn text_laws()
    ensures text { (bs : List ℕ) (at units e : ℕ) → (mutf8_at bs at units ≡ Ok e) ↔ IsText bs at units e }
    ensures ends { (bs : List ℕ) (at units e k : ℕ) → IsText bs at units e → at ≤ k → k < e
        → 0 < slice_index bs k }
    ensures bad { (bs : List ℕ) (at units p : ℕ) → mutf8_at bs at units ≡ Err (DexFault.Mutf8 p)
        → IsFirstBad bs at units p }
    ensures cut { (bs : List ℕ) (at units p : ℕ) → mutf8_at bs at units ≡ Err (DexFault.Short p)
        → (p ≡ at) × BeginsText (drop at bs) units }
{}
