// When it is time to speak.
use crate::say::say;
use console::Source;
use pace::{due, lines_in, rate};
use std::env::Env;
use std::fs;
use std::fs::File;
use std::io::{Read, Seek, SeekFrom};
use std::time::{SystemTime, UNIX_EPOCH};

// The input's bytes, or 0 where they are not known, how many of them are read and how much is done; the clock's second at the line
// before, and what was done then, where there was such a line.
#[derive(Clone, Copy)]
pub struct Meter {
    pub size: u64,
    pub read: u64,
    pub done: u64,
    pub second: u64,
    pub told: Option<u64>,
}

// Whether the program's argument at this place is the word.
pub fn is_argument(rt: HostRuntime, at: usize, wanted: &[u8]) -> bool {
    let mut word = [0u8; 4096];
    match rt.arg(at, &mut word) {
        Ok(length) => &word[..length] == wanted,
        Err(_) => false,
    }
}

// Whether the program's argument at this place asks for it.
pub fn asked(rt: HostRuntime, at: usize) -> bool {
    is_argument(rt, at, b"--progress")
}

// The clock's second.
fn second(rt: HostRuntime) -> u64 {
    let Ok(now) = SystemTime::now(&rt) else {
        return 0;
    };
    let Ok(past) = now.duration_since(UNIX_EPOCH) else {
        return 0;
    };
    past.as_secs()
}

// A place in a file; none where the system has none.
fn place_at(file: &File, to: SeekFrom) -> Option<u64> {
    let mut moved = file;
    moved.seek(to).ok()
}

// How many bytes are left of a file, whose position stays; 0 of what is no file.
fn left_of(file: &File) -> u64 {
    let Some(here) = place_at(file, SeekFrom::Current(0)) else {
        return 0;
    };
    let Some(end) = place_at(file, SeekFrom::End(0)) else {
        return 0;
    };
    if place_at(file, SeekFrom::Start(here)).is_none() {
        return 0;
    }
    end.saturating_sub(here)
}

// The number in the first line of what the system says of standard input: `pos:`, blanks and the place in decimal.
fn place_said(text: &[u8]) -> u64 {
    let mut place: u64 = 0;
    for b in text {
        if *b == b'\n' {
            return place;
        }
        if b'0' <= *b && *b <= b'9' {
            place = place.wrapping_mul(10).wrapping_add(u64::from(*b - b'0'));
        }
    }
    place
}

// Where standard input stands; 0 where the system does not say.
fn standard_place(rt: HostRuntime) -> u64 {
    let mut text = [0u8; 256];
    let Ok(file) = File::open(&rt, "/proc/self/fdinfo/0") else {
        return 0;
    };
    let mut opened = &file;
    let Ok(size) = opened.read(&mut text) else {
        return 0;
    };
    place_said(&text[..size])
}

// How many bytes are left of standard input; 0 where it is no file. It is not opened anew: a pipe that no one writes to any more
// would be waited for.
fn left_of_standard(rt: HostRuntime) -> u64 {
    let Ok(known) = fs::metadata(&rt, "/proc/self/fd/0") else {
        return 0;
    };
    if !known.is_file() {
        return 0;
    }
    known.len().saturating_sub(standard_place(rt))
}

fn size_of(rt: HostRuntime, source: Source<'_>) -> u64 {
    match source {
        Source::Standard => left_of_standard(rt),
        Source::Opened(file) => left_of(file),
    }
}

// Before the first line; none where no line is wanted, and then nothing is asked of the system.
pub fn begin(rt: HostRuntime, wanted: bool, source: Source<'_>) -> Option<Meter> {
    if !wanted {
        return None;
    }
    Some(Meter {
        size: size_of(rt, source),
        read: 0,
        done: 0,
        second: second(rt),
        told: None,
    })
}

// A line, and that it was said. The first has no rate, since it comes in the middle of a second.
fn spoken(rt: HostRuntime, meter: Meter, unit: &[u8], now: u64) -> Meter {
    let pace = match meter.told {
        Some(told) => Some(rate(meter.done, told, now, meter.second)),
        None => None,
    };
    say(rt, unit, meter.done, pace, meter.read, meter.size);
    Meter {
        second: now,
        told: Some(meter.done),
        ..meter
    }
}

// A line is said where the clock is in another second than at the line before.
fn tell(rt: HostRuntime, meter: Meter, unit: &[u8]) -> Meter {
    let now = second(rt);
    if now == meter.second {
        return meter;
    }
    spoken(rt, meter, unit, now)
}

// After a block of lines, of which so many bytes came.
pub fn lines(rt: HostRuntime, meter: Option<Meter>, block: &[u8], size: usize) -> Option<Meter> {
    let before = meter?;
    let after = Meter {
        done: before.done.wrapping_add(lines_in(block, size)),
        read: before.read.wrapping_add(size as u64),
        ..before
    };
    if due(block.len(), size, before.read, after.read) {
        return Some(tell(rt, after, b" lines"));
    }
    Some(after)
}

// After a job, before which so many were done, and so many bytes of the list are read. The clock is asked at every 64th.
pub fn jobs(rt: HostRuntime, meter: Option<Meter>, done: u64, read: u64) -> Option<Meter> {
    let before = meter?;
    if done & 63 == 0 {
        let after = Meter {
            done,
            read,
            ..before
        };
        return Some(tell(rt, after, b" jobs"));
    }
    Some(before)
}
