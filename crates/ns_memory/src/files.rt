//! Files as a map from names to bytes: one more of them, and a piece of one.
ghost use Rattle.std.specs.Prelude.{◌≡◌, ◌-◌, ℕ, List, Some, min, take, drop, length, string_bytes, OnOk, OnErr, if◌then◌else◌};
ghost use Rattle.std.specs.Str.{bytes_eq};
ghost use Rattle.ns_memory.specs.Files.{file_in};

use ns_base::OutOfMemory;
use std::collections::BTreeMap;

/// The bytes of each name.
pub(crate) type Files = BTreeMap<String, Vec<u8>>;

/// The file `name` has these bytes from now on.
pub(crate) fn put(files: &mut Files, name: String, bytes: Vec<u8>) -> Result<(), OutOfMemory>
    ensures added { OnOk result ((n : List ℕ) →
        file_in files.new n ≡
        (if bytes_eq n (string_bytes name) then Some bytes.items else file_in files.old n)) }
    ensures err { OnErr result ((n : List ℕ) → file_in files.new n ≡ file_in files.old n) }
{
    match files.insert(name, bytes) {
        Ok(_) => Ok(()),
        Err(_) => Err(OutOfMemory),
    }
}

/// Copies the file's bytes from `at` on to the front of `into`, at most `most`, and says how many.
pub(crate) fn fill(file: &[u8], at: u64, most: usize, into: &mut [u8]) -> usize
    ensures given { result ≡ min most (min (length into.old) (length file.now - at)) }
    ensures bytes { take result into.new ≡ take result (drop at file.now) }
    ensures rest { drop result into.new ≡ drop result into.old }
{
    let (_, left) = file.split_at(file.len().min(at as usize));
    let n = most.min(into.len().min(left.len()));
    let (given, _) = left.split_at(n);
    let (front, _) = into.split_at_mut(n);
    front.copy_from_slice(given);
    n
}
