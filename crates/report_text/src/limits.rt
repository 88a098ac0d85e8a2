//! The refusal of a count that exceeds its limit.
ghost use Rattle.std.specs.Prelude.{◌≡◌, IfOk};
ghost use Rattle.report_text.specs.Limits.{counted_name, over_limit_text};

use ns_base::Counted;
use std::alloc::{AllocError, Global};

/// What was counted exceeds its limit.
pub fn over_limit(alloc: Global, which: Counted) -> Result<Vec<u8>, AllocError>
    ensures { IfOk result (λ text. text.items ≡ over_limit_text which) }
{
    let mut text = b"limit ".to_vec(alloc)?;
    text.extend_from_slice(name_of_counted(which))?;
    text.push(b'\n')?;
    Ok(text)
}

fn name_of_counted(which: Counted) -> &'static [u8]
    ensures { result.now ≡ counted_name which }
{
    match which {
        Counted::Files => b"Files",
        Counted::FileBytes => b"FileBytes",
        Counted::ListBytes => b"ListBytes",
        Counted::CertBytes => b"CertBytes",
        Counted::Strings => b"Strings",
        Counted::TypeLists => b"TypeLists",
        Counted::Members => b"Members",
        Counted::Handlers => b"Handlers",
        Counted::Units => b"Units",
        Counted::Locks => b"Locks",
        Counted::Sites => b"Sites",
        Counted::Components => b"Components",
        Counted::Targets => b"Targets",
        Counted::TagCells => b"TagCells",
    }
}
