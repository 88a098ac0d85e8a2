//! The checksum of a DEX file.
ghost use Rattle.std.specs.Prelude.{◌≡◌, ◌+◌, ◌*◌, ◌%◌, ◌<◌, ◌≤◌, length, sum};
ghost use Rattle.dex_bytes.specs.Checksum.{sum_of_sums, adler_of};

// The largest prime below 2^16.
const MODULUS: u32 = 65_521;

// So many bytes can be added before the second sum may pass 32 bits.
const BLOCK_LEN: usize = 5_552;

// The two sums so far.
#[derive(Clone, Copy)]
struct Sums {
    first: u32,
    second: u32,
}

/// The Adler-32 of the bytes.
#[tactic(auto, unfolding(crate::specs::Checksum::adler_from))]
pub fn adler32(bytes: &[u8]) -> u32
    ensures { result ≡ adler_of bytes.now }
{
    let mut sums = Sums {
        first: 1,
        second: 0,
    };
    let mut rest = bytes;
    while !rest.is_empty() {
        let (block, later) = rest.split_at(rest.len().min(BLOCK_LEN));
        sums = with_block(sums, block);
        rest = later;
    }
    (sums.second << 16) + sums.first
}

// The sums after a block more.
fn with_block(sums: Sums, block: &[u8]) -> Sums
    requires len { length block.now ≤ BLOCK_LEN }
    requires first { sums.first < MODULUS }
    requires second { sums.second < MODULUS }
    ensures first { result.first ≡ (sums.first + sum block.now) % MODULUS }
    ensures second { result.second ≡ (sums.second + sum_of_sums sums.first block.now) % MODULUS }
{
    let Sums {
        mut first,
        mut second,
    } = sums;
    for byte in block {
        first += u32::from(*byte);
        second += first;
    }
    Sums {
        first: first % MODULUS,
        second: second % MODULUS,
    }
}
