// Calls whose answer is a count or a refusal.
use crate::page::Page;
use schedule::fault::Fault;
use schedule::fourfold::Sole;
use schedule::text::{Listing, write_text};
use std::io;
use writer::recording::Recording;

fn say(page: &mut Page, call: &str, answer: Result<usize, Fault>) -> io::Result<()> {
    match answer {
        Ok(n) => page.line(format_args!("{call}: {n}")),
        Err(fault) => page.line(format_args!("{call}: {fault}")),
    }
}

// The refusals of an offer, in the order in which they are tried, and of a close.
pub(crate) fn offer_cases(page: &mut Page, sole: Sole) -> io::Result<()> {
    let mut buffer = [7u64; 3];
    let mut recording = Recording::open(sole);
    say(
        page,
        "offer 1 2 3 4",
        recording.offer(&[1, 2, 3, 4], &mut buffer),
    )?;
    say(
        page,
        "offer 1 32 3",
        recording.offer(&[1, 32, 3], &mut buffer),
    )?;
    say(
        page,
        "offer 1 2 into none",
        recording.offer(&[1, 2], &mut []),
    )?;
    say(
        page,
        "offer 1 31 3",
        recording.offer(&[1, 31, 3], &mut buffer),
    )?;
    say(page, "offer none", recording.offer(&[], &mut []))?;
    say(page, "offer 5", recording.offer(&[5], &mut buffer))?;
    page.line(format_args!("buffer{}", Listing(&buffer)))?;
    let closed = recording
        .close(&mut buffer)
        .map_err(|refused| refused.fault);
    say(page, "close into 3", closed)
}

pub(crate) fn text_cases(page: &mut Page) -> io::Result<()> {
    let mut text = [0u8; 8];
    say(page, "text 25 into 8", write_text(25, &mut text))?;
    say(page, "text 26 into 8", write_text(26, &mut text))?;
    say(page, "text 13 into none", write_text(13, &mut []))
}
