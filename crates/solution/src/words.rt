//! Masks of eight statuses, and words of eight rows of eight statuses. A word is a relation: its row e has the statuses to
//! which e leads.
ghost use Rattle.std.specs.Prelude.{◌≡◌, ◌<◌, ◌≤◌, ◌&&◌, ℕ, true, not};
ghost use Rattle.app_model.specs.Masks.{in_mask};
ghost use Rattle.solution.specs.Words.{has, IsMask, AreRows, IsShifted, Leads, Joined, JoinedBy, Itself, IsOne};

// Status 0 in each row.
const COLUMN: u64 = 0x0101_0101_0101_0101;

// Each status in its own row.
const DIAGONAL: u64 = 0x8040_2010_0804_0201;

/// Whether the mask has the status.
fn has_status(mask: u8, status: u8) -> bool
    requires { status < 8 }
    ensures { result ≡ in_mask mask status }
{
    (mask >> status) & 1 == 1
}

/// No status of the mask is below it.
pub fn first_of(mask: u8) -> u8
    ensures { (s : ℕ) → in_mask mask s ≡ true → result ≤ s }
{
    mask.trailing_zeros() as u8
}

/// All statuses of the mask are below it.
pub fn end_of(mask: u8) -> u8
    ensures above { (s : ℕ) → in_mask mask s ≡ true → s < result }
    ensures limit { result ≤ 8 }
{
    8 - mask.leading_zeros() as u8
}

/// A row of a word.
pub fn row_of(word: u64, entry: u8) -> u8
    requires { entry < 8 }
    ensures { (t : ℕ) → in_mask result t ≡ has word entry t }
{
    ((word >> (8 * entry as u32)) & 255) as u8
}

/// A mask as a row of a word.
pub fn shifted(mask: u8, entry: u8) -> u64
    requires { entry < 8 }
    ensures { IsShifted mask entry result }
{
    (mask as u64) << (8 * entry as u32)
}

/// The mask of one status.
pub fn single(status: u8) -> u8
    requires { status < 8 }
    ensures { IsMask (λ t. t ≡ status) result }
{
    1 << status
}

/// The word of one status in one row.
pub fn one(entry: u8, status: u8) -> u64
    requires entry { entry < 8 }
    requires status { status < 8 }
    ensures { AreRows (IsOne entry status) 8 result }
{
    shifted(single(status), entry)
}

fn lead_one(mask: u8, word: u64, status: u8) -> u8
    requires { status < 8 }
    ensures { IsMask (Leads mask word status) result }
{
    if has_status(mask, status) {
        row_of(word, status)
    } else {
        0
    }
}

/// Where the statuses of a mask lead by the rows of a word.
pub fn lead(mask: u8, word: u64) -> u8
    ensures { IsMask (λ t. (s : ℕ) × Leads mask word s t) result }
{
    let mut out = 0;
    for status in 0..8u8 {
        out |= lead_one(mask, word, status);
    }
    out
}

// Row `status` of the second word, in each row of the first that has this status.
fn spread(a: u64, b: u64, status: u8) -> u64
    requires { status < 8 }
    ensures { AreRows (JoinedBy a b status) 8 result }
{
    let rows = (a >> status) & COLUMN;
    rows * row_of(b, status) as u64
}

/// Each row of a word, led on by the rows of another.
pub fn join(a: u64, b: u64) -> u64
    ensures { AreRows (Joined a b) 8 result }
{
    if b == 0 {
        return 0;
    }
    let mut word = 0;
    for status in 0..8u8 {
        word |= spread(a, b, status);
    }
    word
}

/// What a word has and another one has not.
pub fn without(word: u64, other: u64) -> u64
    ensures { (e s : ℕ) → has result e s ≡ (has word e s && not (has other e s)) }
{
    word & !other
}

/// The statuses of all rows.
pub fn all_of(word: u64) -> u8
    ensures { IsMask (λ t. (e : ℕ) × (has word e t ≡ true)) result }
{
    let mut out = 0;
    for entry in 0..8u8 {
        out |= row_of(word, entry);
    }
    out
}

/// Each status of a mask in its own row.
pub fn itself(mask: u8) -> u64
    ensures { AreRows (Itself mask) 8 result }
{
    (mask as u64 * COLUMN) & DIAGONAL
}
