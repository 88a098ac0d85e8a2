//! What the rules of scope ask of an application, known before they are looked at.
//!
//! - `cases` is what is looked at: an application with its call graph, its component list and its tags.
//! - `kinds` and `names` say by number what the rules ask of the text of a type and of a name.
//! - `lock_code` says what the instructions of a method do with locks.
//! - `bits` has sets of lock fields, `fields` what is known of each lock field.
#![tactic(auto)]

mod bits;
mod cases;
mod fields;
mod kinds;
mod lock_code;
mod names;

pub use bits::{bit_of, has_lock};
pub use cases::Case;
pub use fields::{
    Seen, faulty_locks, field_of_lock, find_seen, inherits, is_static, lock_count, made_type,
    may_own, static_locks,
};
pub use kinds::{KindRow, kind_at, kind_rows};
pub use lock_code::{has_locks, has_others, is_lock_ins, lock_words, name_of};
pub use names::{NameRow, name_rows};
