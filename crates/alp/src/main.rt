// The file tool: writes, reads, examines and shows pages that stand in files (`alp help` says how). What it does to bytes is the
// library's, proved; what it does to files is kept small. It never overwrites a file, and a refusal leaves none behind.
#![tactic(auto)]

mod args;
mod choose;
mod examine;
mod read;
mod rooms;
mod say;
mod show;
mod write;

use crate::args::{Job, first_word};
use crate::say::{Failure, HELP, tell};
use sentences::Output;
use std::env::Env;
use std::fs::Files;
use std::io;

fn run(rt: &(impl Env + Files + Alloc), to: &mut Output) -> Result<(), Failure> {
    match first_word(rt) {
        Some(Job::Write) => write::run(rt, to),
        Some(Job::Read) => read::run(rt, to),
        Some(Job::Examine) => examine::run(rt, to),
        Some(Job::Show) => show::run(rt, to),
        Some(Job::Help) => {
            to.show(HELP);
            Ok(())
        }
        None => Err(Failure::Usage("the first word is write, read, examine, show or help")),
    }
}

fn main(rt: HostRuntime) -> io::Result<()> {
    let mut to = Output::new(rt.stdout(), rt.stderr());
    if let Err(failure) = run(&rt, &mut to) {
        tell(&mut to, failure);
    }
    to.finish()
}
