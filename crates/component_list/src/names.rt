//! Classes by name.
ghost use Rattle.std.specs.Prelude.{IfOk};
ghost use Rattle.component_list.specs.Binding.{HasNames};

use app_model::App;
use ns_base::ClassNo;
use std::alloc::{AllocError, Global};
use std::collections::HashMap;

/// The number of the first class of each name.
pub(crate) fn index_classes(alloc: Global, app: &App) -> Result<HashMap<&[u8], u32>, AllocError>
    ensures { IfOk result (λ names. HasNames app.now names.entries) }
{
    let mut names = HashMap::new(alloc);
    let mut left = app.class_count();
    // From the last one on, so that the first one of a name stays.
    while left > 0 {
        left -= 1;
        let name = app.type_text(app.class(ClassNo(left)).name);
        names.insert(name, left)?;
    }
    Ok(names)
}
