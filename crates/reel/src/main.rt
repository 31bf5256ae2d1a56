// Reads lines from standard input, and acts on each by its letter. docs/REEL.md has the lines.
#![tactic(auto)]

use command::{CutOff, Lines};
use lane::{longest_recording, open_lane};
use reader::reader::Reader;
use schedule::fault::Fault;
use schedule::fourfold::{Lose, Sole};
use schedule::interface::Schedule;
use schedule::text::Listing;
use std::io::Read;
use std::{io, mem};
use writer::recording::Recording;

// An open recording and a reader on one schedule.
#[derive(Drop)]
struct Lane<S: Schedule> {
    schedule: S,
    recording: Recording<S>,
    reader: Reader<S>,
}

// The lane that is open, of either kind. There are two kinds, so an enum: a `dyn` would need a trait of the lane's calls.
#[derive(Drop)]
enum Open {
    Sole(Lane<Sole>),
    Lose(Lane<Lose>),
}

// The runtime is passed to each call, as a handle is.
impl<S: Schedule + Copy> Lane<S> {
    fn open(schedule: S) -> Lane<S> {
        let (recording, reader) = open_lane(schedule);
        Lane {
            schedule,
            recording,
            reader,
        }
    }

    // A piece of m blocks completes pairs of at most m + 1 blocks.
    fn offer(&mut self, rt: &HostRuntime, piece: &[u64]) -> io::Result<()> {
        let mut buffer = vec![in rt.alloc(); 0u64; piece.len().saturating_add(1)]?;
        match self.recording.offer(piece, &mut buffer) {
            Ok(n) => println!(rt; "O{}", Listing(&buffer[0..n])),
            Err(fault) => println!(rt; "O {fault}"),
        }
    }

    // A close writes at most four blocks.
    fn close(&mut self, rt: &HostRuntime) -> io::Result<()> {
        let mut buffer = [0u64; 4];
        let recording = mem::replace(&mut self.recording, Recording::open(self.schedule));
        match recording.close(&mut buffer) {
            Ok(n) => println!(rt; "C{}", Listing(&buffer[0..n])),
            Err(refused) => {
                self.recording = refused.kept;
                println!(rt; "C {}", refused.fault)
            }
        }
    }

    // Takes blocks up to the first that is refused.
    fn take(&mut self, rt: &HostRuntime, blocks: &[u64]) -> io::Result<()> {
        print!(rt; "T")?;
        for block in blocks {
            match self.reader.take(*block) {
                Ok(brought) => print!(rt; " {brought}")?,
                Err(fault) => return println!(rt; " {fault}"),
            }
        }
        println!(rt; "")
    }

    fn stop(&mut self, rt: &HostRuntime) -> io::Result<()> {
        let reader = mem::replace(&mut self.reader, Reader::new(self.schedule));
        match reader.stop() {
            Ok(()) => println!(rt; "E"),
            Err(refused) => {
                self.reader = refused.kept;
                println!(rt; "E {}", refused.fault)
            }
        }
    }

    fn act(&mut self, rt: &HostRuntime, letter: char, numbers: &[u64]) -> io::Result<()> {
        match (letter, numbers) {
            ('O', piece) => self.offer(rt, piece),
            ('C', []) => self.close(rt),
            ('T', blocks) => self.take(rt, blocks),
            ('E', []) => self.stop(rt),
            _ => println!(rt; "?"),
        }
    }
}

// A run of the program: what it prints with, and the lane that is open.
#[derive(Drop)]
struct Session<'a> {
    rt: &'a HostRuntime,
    open: Option<Open>,
}

impl Session<'_> {
    fn unknown(&self) -> io::Result<()> {
        println!(self.rt; "?")
    }

    // Opens a lane on a schedule that was made; where its width is refused, what was open stays open. The closure takes the
    // schedule, since a bound that names `Lane<S>` cannot be stated.
    fn make<S: Schedule + Copy, F: FnOnce(S) -> Open>(
        &mut self,
        letter: char,
        width: u64,
        made: Result<S, Fault>,
        to_open: F,
    ) -> io::Result<()>
        requires { F.IsAlwaysCallable to_open }
    {
        match made {
            Ok(schedule) => {
                let n = longest_recording(&schedule);
                self.open = Some(to_open(schedule));
                println!(self.rt; "{letter} {width} {n}")
            }
            Err(fault) => println!(self.rt; "{letter} {fault}"),
        }
    }

    // A match on the letter shows how many numbers each takes, which a table of closures would hide.
    fn act(&mut self, letter: char, numbers: &[u64]) -> io::Result<()> {
        match (letter, numbers) {
            ('S', [width]) => self.make(letter, *width, Sole::new(*width), |schedule| {
                Open::Sole(Lane::open(schedule))
            }),
            ('L', [width]) => self.make(letter, *width, Lose::new(*width), |schedule| {
                Open::Lose(Lane::open(schedule))
            }),
            _ => match &mut self.open {
                Some(Open::Sole(lane)) => lane.act(self.rt, letter, numbers),
                Some(Open::Lose(lane)) => lane.act(self.rt, letter, numbers),
                None => self.unknown(),
            },
        }
    }

    fn read_line(&mut self, text: &[u8]) -> io::Result<()> {
        match command::parse(self.rt.alloc(), text)? {
            Some(line) => self.act(line.letter, &line.numbers),
            None => self.unknown(),
        }
    }
}

fn main(rt: HostRuntime) -> io::Result<()> {
    let limit = command::limit();
    let mut input = Vec::new(rt.alloc());
    let _ = rt.stdin().take(limit as u64 + 1).read_to_end(&mut input)?;
    let lines = Lines::new(&input);
    let cut = lines.cut;
    let mut session = Session {
        rt: &rt,
        open: None,
    };
    for line in lines {
        match line {
            Ok(text) => session.read_line(text)?,
            Err(CutOff) => session.unknown()?,
        }
    }
    if cut {
        eprintln!(rt; "reel: only the first {limit} bytes count")?;
    }
    Ok(())
}
