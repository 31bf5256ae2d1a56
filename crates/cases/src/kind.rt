// The cases of one kind of schedule.
use crate::page::{Ends, Page, checksum, mix};
use crate::reading::{Taken, read_back};
use crate::writing::{sample, written, written_cut};
use access::lookup;
use schedule::fourfold::Fourfold;
use schedule::interface::Schedule;
use schedule::text::Listing;
use std::{fmt, io};

// A kind's name, the widths that it is asked for, and at width 5 blocks that are taken and streams that are looked up
// in, lawful ones and damaged ones.
pub(crate) struct Kind<const LEADS: bool> {
    pub(crate) name: &'static str,
    pub(crate) widths: &'static [u64],
    pub(crate) takes: &'static [&'static [u64]],
    pub(crate) streams: &'static [&'static [u64]],
}

impl<const LEADS: bool> Kind<LEADS> {
    pub(crate) fn cases(&self, page: &mut Page) -> io::Result<()> {
        for width in self.widths {
            match Fourfold::<LEADS>::new(*width) {
                Ok(schedule) => {
                    self.longest_case(page, *width, schedule)?;
                    self.lookup_longest(page, *width, schedule)?;
                }
                Err(fault) => page.line(format_args!("{}: {fault}", self.name))?,
            }
        }
        match Fourfold::<LEADS>::new(5) {
            Ok(schedule) => self.cases_at_5(page, schedule),
            Err(_) => Ok(()),
        }
    }

    fn cases_at_5<S: Schedule + Copy>(&self, page: &mut Page, schedule: S) -> io::Result<()> {
        self.cut_cases(page, schedule)?;
        for blocks in self.takes {
            let taken = Taken { schedule, blocks };
            page.line(format_args!("{} 5 taking{}:{taken}", self.name, Listing(blocks)))?;
        }
        for stream in self.streams {
            let found = Places { schedule, stream };
            page.line(format_args!("{} 5 looking in{}:{found}", self.name, Listing(stream)))?;
        }
        Ok(())
    }

    // The longest recording of a schedule, written; and its stream, joined with others, read back.
    fn longest_case<S: Schedule + Copy>(
        &self,
        page: &mut Page,
        width: u64,
        schedule: S,
    ) -> io::Result<()> {
        let alloc = page.rt.alloc();
        let blocks = sample(alloc, &schedule, schedule.longest())?;
        let mut stream = written(alloc, schedule, &blocks)?;
        print!(page.rt;
            "{} {width}: {} blocks, {} written:{}, checksum {}",
            self.name,
            blocks.len(),
            stream.len(),
            Ends(&stream),
            checksum(&stream)
        )?;
        let (two, _) = blocks.split_at(blocks.len().min(2));
        for recording in [two, &[], &blocks] {
            stream.extend_from_slice(&written(alloc, schedule, recording)?)?;
        }
        let back = read_back(alloc, schedule, &stream)?;
        page.line(format_args!(
            "; joined and read back: {}, checksum {}",
            back.len(),
            checksum(&back)
        ))
    }

    // The longest recording, looked up at every place from 0 on and some beyond. An answer is a block, and a refusal its
    // number and place.
    fn lookup_longest<S: Schedule + Copy>(
        &self,
        page: &mut Page,
        width: u64,
        schedule: S,
    ) -> io::Result<()> {
        let alloc = page.rt.alloc();
        let n = schedule.longest();
        let stream = written(alloc, schedule, &sample(alloc, &schedule, n)?)?;
        let (found, total) = (0..n.saturating_add(5)).fold((0u64, 0), |(found, total), p| {
            match lookup(&schedule, &stream, p) {
                Ok(block) => (found.wrapping_add(1), mix(total, block)),
                Err(fault) => (
                    found,
                    mix(total, fault.number().wrapping_add(fault.place())),
                ),
            }
        });
        page.line(format_args!(
            "{} {width}: {found} blocks found, checksum {total}",
            self.name
        ))
    }

    // Every way to cut the longest recording at width 5.
    fn cut_cases<S: Schedule + Copy>(&self, page: &mut Page, schedule: S) -> io::Result<()> {
        let alloc = page.rt.alloc();
        let blocks = sample(alloc, &schedule, schedule.longest())?;
        for cuts in 0..16 {
            let stream = written_cut(alloc, schedule, &blocks, cuts)?;
            page.line(format_args!("{} 5 cut {cuts}:{}", self.name, Listing(&stream)))?;
        }
        Ok(())
    }
}

// What stands at every place up to 6 of a stream.
#[derive(Clone, Copy)]
struct Places<'a, S: Schedule + Copy> {
    schedule: S,
    stream: &'a [u64],
}

impl<S: Schedule + Copy> fmt::Display for Places<'_, S> {
    fn fmt<W: fmt::Write>(&self, f: &mut fmt::Formatter<W>) -> fmt::Result {
        for p in 0..7 {
            match lookup(&self.schedule, self.stream, p) {
                Ok(block) => write!(f, " {block}")?,
                Err(fault) => write!(f, " {fault}")?,
            }
        }
        Ok(())
    }
}
