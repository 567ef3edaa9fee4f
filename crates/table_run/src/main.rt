// A packed work list and a listing made by anyone, held against our answers (document 02, 2026-11): arguments are the tolerance
// in steps, the list and the listing, and --progress where it is to be said how far the work has come. Both files are read as
// they come, side by side. What is wrong with them is the answer; what keeps it from being found is said on standard error.
#![tactic(auto)]

mod inputs;
mod say;

ghost use Rattle.io.specs.Counts.{IsPrefixLen};

use crate::inputs::{check, tolerance_of};
use crate::say::{complain, say_checked, say_unopened};
use console::Source;
use std::env::Env;
use std::fs::File;
use std::io;
use swing_read::Line;

// Bytes are the longest path that the system takes.
const PATH: usize = 4096;

// The program's argument at this place, at the start of `text`: its length, 0 of one that is missing or too long.
fn argument(rt: HostRuntime, at: usize, text: &mut [u8; PATH]) -> usize
    ensures { IsPrefixLen result text.new }
{
    match rt.arg(at, text) {
        Ok(length) => length,
        Err(_) => 0,
    }
}

// What the system says of a file that it did not open, without its number.
fn said_of(rt: HostRuntime, path: &[u8], error: io::Error) {
    match format!(in rt.alloc(); "{error}") {
        Ok(text) => {
            let said = text.as_str();
            match said.split_once(" (os error ") {
                Some((words, _)) => say_unopened(rt, path, words),
                None => say_unopened(rt, path, said),
            }
        }
        Err(_) => say_unopened(rt, path, "cannot be opened"),
    }
}

// The file of that name, open; where it is none, that was said.
fn opened(rt: HostRuntime, path: &[u8]) -> Option<File> {
    match str::from_utf8(path) {
        Ok(name) => match File::open(&rt, name) {
            Ok(file) => Some(file),
            Err(error) => {
                said_of(rt, path, error);
                None
            }
        },
        Err(_) => {
            say_unopened(rt, path, "Invalid argument");
            None
        }
    }
}

fn with_claims(rt: HostRuntime, tolerance: u64, list: &File) {
    let mut path = [0u8; PATH];
    let length = argument(rt, 3, &mut path);
    let Some(claims) = opened(rt, &path[..length]) else {
        return;
    };
    let wanted = progress::asked(rt, 4);
    let checked = check(
        rt,
        tolerance,
        Source::Opened(list),
        Source::Opened(&claims),
        wanted,
    );
    if let Some(verdict) = checked {
        say_checked(rt, verdict);
    }
}

fn with_list(rt: HostRuntime, tolerance: u64) {
    let mut path = [0u8; PATH];
    let length = argument(rt, 2, &mut path);
    if let Some(list) = opened(rt, &path[..length]) {
        with_claims(rt, tolerance, &list);
    }
}

fn main(rt: HostRuntime) {
    let mut text = [0u8; PATH];
    let length = argument(rt, 1, &mut text);
    match tolerance_of(&text[..length]) {
        Some(Line::One(tolerance)) => with_list(rt, tolerance),
        Some(Line::Three(_, _, _)) | None => complain(rt),
    }
}
