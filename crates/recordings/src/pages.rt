// What reader and examiner make of a page.
use crate::show::{Recorder, Small, Values, filled, repeated, untouched};
use examiner::examine;
use reader::read;

// A page under its name.
pub type Page = (&'static str, &'static [u8]);

// The values that the reader gives, and the examiner's answer.
pub fn both<V: Small>(to: &mut Recorder, name: &str, page: &[u8]) {
    let mut out: [V; 24] = repeated(untouched());
    let answer = read(page, &mut out);
    to.line(
        format_args!("{name} read"),
        answer,
        Values(filled(&out, answer)),
    );
    to.line(format_args!("{name} examine"), examine::<V>(page), "");
}

pub fn each<V: Small>(to: &mut Recorder, pages: &[Page]) {
    for (name, page) in pages {
        both::<V>(to, name, page);
    }
}
