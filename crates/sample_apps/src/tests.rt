//! What crosses crates, over the applications of `data/`, whose files `samples` has as digits.
ghost use Rattle.std.specs.Prelude.{◌≤◌, IfOk, length};
ghost use Rattle.ns_base.specs.Answers.{limit_of};
ghost use Rattle.ns_base.specs.declared.answers.Counted.TheVariants.{Sites};
ghost use Rattle.app_model.specs.Sites.{sites_below};

use crate::link_file;
use app_model::App;
use std::alloc::Global;
use std::test::Fail;

mod calls;
mod hierarchy;
mod logs;
mod reports;
mod rows;
mod samples;
mod scope;
mod solutions;
mod tags;
mod wrong_reports;

// The application of a file, which is given by its digits.
fn read_app(alloc: Global, digits: &[&str]) -> Result<App, Fail>
    ensures { IfOk result (λ app. sites_below app (length app.methods) ≤ limit_of Sites) }
{
    let bytes: Vec<u8> = hex::decode(alloc, digits.concat(alloc)?.as_bytes())?;
    if bytes.len() > 33_554_432 {
        return Err("a small file".into());
    }
    match link_file(alloc, &bytes) {
        Ok(app) => Ok(app),
        Err(_) => Err("a file that is linked".into()),
    }
}
