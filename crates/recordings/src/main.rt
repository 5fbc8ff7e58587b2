// Runs document 01's recordings, the edges of the fast rounding, sums at the end of the kind's range, a page read vector by vector, vectors whose
// pair is chosen, a column written into outputs of edge lengths, and columns of edge lengths through the library and prints what each call
// answers and gives; the gate holds the output to what an independent program over exact fractions gives.
// The data stand in a table for each kind: they are recorded, and no kind's follow from the other's.
#![tactic(auto)]

mod chosen;
mod columns;
mod examined;
mod lent;
mod pages;
mod refused;
mod rounded;
mod show;
mod starred;
mod sums;
mod vectors;

use crate::show::Recorder;
use sentences::Output;
use std::io;

fn all(to: &mut Recorder) {
    starred::run(to);
    refused::run(to);
    examined::run(to);
    rounded::run(to);
    sums::run(to);
    vectors::run(to);
    chosen::run(to);
    lent::run(to);
    columns::run(to);
}

fn main(rt: HostRuntime) -> io::Result<()> {
    let mut to = Recorder::new(Output::new(rt.stdout(), rt.stderr()));
    all(&mut to);
    to.finish()
}
