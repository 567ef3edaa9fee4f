// What a program reads and writes: a block is read, bytes are written, and where that fails it is said on standard error.
#![tactic(auto)]

mod say;

ghost use Rattle.std.specs.Io.{ReadsAtMost};
ghost use Rattle.console.specs.Got.{Within};

pub use crate::say::{say_bad, say_number, say_refused};
use std::fs::File;
use std::io;
use std::io::{Print, Read};
use writing::{OUT, least};

// What a read led to. (Each caller takes all three ways: a Result of an Option, or a size of 0 for the end, would say it less plainly.)
#[derive(Clone, Copy)]
pub enum Got {
    // So many bytes came.
    Bytes(usize),
    // The input has ended.
    End,
    // The read failed, and that was said.
    Failed,
}

// What is read: standard input, or a file that is open.
#[derive(Clone, Copy)]
pub enum Source<'a> {
    Standard,
    Opened(&'a File),
}

fn read_once(rt: HostRuntime, source: Source<'_>, block: &mut [u8]) -> io::Result<usize>
    ensures { ReadsAtMost result block.new }
{
    match source {
        Source::Standard => rt.stdin().read(block),
        Source::Opened(file) => {
            let mut opened = file;
            opened.read(block)
        }
    }
}

// Bytes to standard error; where that fails there is no place left to say so.
pub fn complain(rt: HostRuntime, text: &[u8]) -> bool {
    rt.stderr().write_all(text).is_ok()
}

// Reads once, into the start of the block.
pub fn read_from(rt: HostRuntime, source: Source<'_>, block: &mut [u8]) -> Got
    ensures { Within result block.new }
{
    match read_once(rt, source, block) {
        Ok(size) => {
            if size == 0 {
                return Got::End;
            }
            Got::Bytes(size)
        }
        Err(_) => {
            complain(rt, b"gatewren: cannot read\n");
            Got::Failed
        }
    }
}

// The same of standard input.
pub fn read_block(rt: HostRuntime, block: &mut [u8]) -> Got
    ensures { Within result block.new }
{
    read_from(rt, Source::Standard, block)
}

// Bytes to standard output; whether they were written.
pub fn write_out(rt: HostRuntime, text: &[u8]) -> bool {
    rt.stdout().write_all(text).is_ok()
}

fn written_from(rt: HostRuntime, out: &[u8], used: usize) -> bool {
    write_out(rt, &out[..least(out.len(), used)])
}

// Writes the first `used` bytes, all of `out` where that is more; whether they were written.
pub fn written(rt: HostRuntime, out: &[u8; OUT], used: usize) -> bool {
    if written_from(rt, out, used) {
        return true;
    }
    complain(rt, b"gatewren: cannot write\n");
    false
}
