//! The program `nosleep`: proves, from the bytes of a DEX file, that no wake lock is held when stated
//! callbacks end. `top` has the top call; `main` hands it the real outside.
#![tactic(auto)]

mod adapters;
mod answer;
mod certifying;
mod checking;
mod contents;
mod events;
mod files;
mod finding;
mod judging;
mod reading;
mod refusing;
mod telling;
#[cfg(test)]
mod tests;
mod top;
mod words;
mod writing;

use adapters::{FileShelf, Output};
use ns_base::{Exit, Watcher, number};
use std::alloc::AllocError;
use std::env;
use std::io::{self, ErrorKind};
use std::process::ExitCode;
use std::rt::Env;
use watchers::{CountWatcher, JsonWatcher};

fn main(rt: HostRuntime) -> ExitCode {
    let Ok(words) = words_of(&rt) else {
        return ExitCode::from(number(Exit::Memory));
    };
    let mut shelf = FileShelf::new(rt.alloc(), &rt);
    let mut out = Output::new(io::writer(&rt));
    let mut watchers: Vec<Box<dyn Watcher>> = Vec::new(rt.alloc());
    let json = JsonWatcher::new(rt.alloc(), Output::new(rt.stderr()));
    let count = CountWatcher::new(rt.alloc(), Output::new(rt.stderr()));
    let (Ok(json), Ok(count)) = (Box::new(rt.alloc(), json), Box::new(rt.alloc(), count)) else {
        return ExitCode::from(number(Exit::Memory));
    };
    if watchers.push(json).is_err() || watchers.push(count).is_err() {
        return ExitCode::from(number(Exit::Memory));
    }
    ExitCode::from(number(top::nosleep(rt.alloc(), &words, &mut shelf, &mut out, &mut watchers)))
}

// The words of the command line but the program's own name. Where one is no text there are none, which is no form.
fn words_of(rt: &(impl Env + AllocGlobal)) -> Result<Vec<String>, AllocError> {
    let mut words = Vec::new(rt.alloc());
    match env::args(rt) {
        Ok(all) => {
            for word in all.skip(1) {
                words.push(word)?;
            }
        }
        Err(error) if error.kind() == ErrorKind::OutOfMemory => return Err(AllocError),
        Err(_) => {}
    }
    Ok(words)
}
