// Worked cases, a line each, and a count at the end. tools/cases_reference.py works out what they have to print.
#![tactic(auto)]

mod answers;
mod kind;
mod packing;
mod page;
mod reading;
mod writing;

use answers::{offer_cases, text_cases};
use kind::Kind;
use packing::pack_cases;
use page::Page;
use schedule::fourfold::Sole;
use std::io;

const SOLE: Kind<false> = Kind {
    name: "SOLE",
    widths: &[5, 7, 8, 16, 24],
    takes: &[
        &[1, 2, 1, 32, 0],
        &[0, 2, 1, 0, 2],
        &[0, 16, 31, 1, 2],
        &[0, 12, 30, 0, 0],
        &[0, 1, 0, 2, 1],
        &[0, 6, 2, 2, 1],
        &[0, 0, 0, 0, 0],
        &[0, 0, 0, 8, 1],
        &[12, 3, 26, 6, 1],
        &[12, 32, 40, 99, 3],
        &[12],
    ],
    streams: &[
        &[12, 3, 26, 6, 1],
        &[0, 0, 27, 6, 1],
        &[12, 3, 26, 6, 32],
        &[32, 3, 26, 6, 1],
        &[12, 31, 31, 6, 1],
        &[1, 2, 1, 6, 1],
        &[0, 1, 0, 6, 1],
        &[0, 0, 27, 8, 1],
        &[31, 3, 26, 31, 31],
        &[0, 2, 1],
        &[12, 3],
        &[],
    ],
};

const LOSE: Kind<true> = Kind {
    name: "LOSE",
    widths: &[5, 8, 16, 24, 32],
    takes: &[
        &[0, 1, 8, 3, 3, 1],
        &[12, 7, 9, 10, 8, 1],
        &[31, 31, 0, 1, 0, 1],
        &[0, 2, 1, 1, 0, 0],
        &[14, 9, 2, 1, 14, 9],
    ],
    streams: &[
        &[12, 7, 9, 10, 8, 1],
        &[12, 7, 9, 10, 8, 40],
        &[33, 7, 9, 10, 8, 1],
        &[31, 31, 9, 10, 8, 1],
        &[0, 1, 31, 31, 0, 1],
        &[0, 1],
        &[8, 3, 3, 1],
    ],
};

fn main(rt: HostRuntime) -> io::Result<()> {
    let mut page = Page { rt: &rt, lines: 0 };
    SOLE.cases(&mut page)?;
    if let Ok(sole) = Sole::new(5) {
        offer_cases(&mut page, sole)?;
    }
    text_cases(&mut page)?;
    LOSE.cases(&mut page)?;
    pack_cases(&mut page)?;
    println!(rt; "{} cases", page.lines)
}
