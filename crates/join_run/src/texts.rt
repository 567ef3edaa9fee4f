// The lines of report texts, one after the other.
use console::{say_bad, say_number};
use refusals::Refusal;
use report_read::{is_header, take_line};
use report_text::LINES;
use report_words::join_reports;
use writing::{least, push};

pub const BLOCK: usize = 2048;

// So much is held of a line; a report's has 556 bytes at most, with its end.
pub const LINE: usize = 640;

// Which line may come next, 0 a header and 1 more than its number else; how many lines came, and how much is held of the next.
#[derive(Clone, Copy)]
pub struct Standing {
    pub next: usize,
    pub lines: u64,
    pub held: usize,
}

pub fn begin() -> Standing {
    Standing {
        next: 0,
        lines: 0,
        held: 0,
    }
}

// What is wrong with a line.
#[derive(Clone, Copy)]
enum Wrong {
    // No report has it there.
    Bad,
    // Its report cannot be joined to the others.
    Refused(Refusal),
}

// A text is whole: its report is joined to the others.
fn whole(total: &mut [u64; 384], words: &mut [u64; 384]) -> Result<usize, Wrong> {
    let joined = join_reports(total, words);
    *words = [0u64; 384];
    match joined {
        Ok(()) => Ok(0),
        Err(refusal) => Err(Wrong::Refused(refusal)),
    }
}

// Which line may come after it.
fn line_taken(
    total: &mut [u64; 384],
    words: &mut [u64; 384],
    next: usize,
    line: &[u8],
) -> Result<usize, Wrong> {
    if next == 0 {
        if is_header(line) {
            return Ok(1);
        }
        return Err(Wrong::Bad);
    }
    match take_line(words, next - 1, line) {
        Some(q) => {
            if q >= LINES {
                return whole(total, words);
            }
            Ok(q + 1)
        }
        None => Err(Wrong::Bad),
    }
}

// After a line, the one that is held; None where something was wrong, which was said.
fn line_end(
    rt: HostRuntime,
    held: &[u8],
    total: &mut [u64; 384],
    words: &mut [u64; 384],
    stands: Standing,
) -> Option<Standing> {
    let lines = std::num::wrapping_add_u64(stands.lines, 1);
    let size = least(held.len(), stands.held);
    match line_taken(total, words, stands.next, &held[..size]) {
        Ok(next) => Some(Standing {
            next,
            lines,
            held: 0,
        }),
        Err(Wrong::Bad) => {
            say_bad(rt, lines);
            None
        }
        Err(Wrong::Refused(refusal)) => {
            say_number(rt, refusal.number());
            None
        }
    }
}

// One byte more.
fn byte(
    rt: HostRuntime,
    b: u8,
    held: &mut [u8; LINE],
    total: &mut [u64; 384],
    words: &mut [u64; 384],
    stands: Standing,
) -> Option<Standing> {
    if b == b'\n' {
        return line_end(rt, held, total, words, stands);
    }
    let n = push(held, stands.held, b);
    Some(Standing { held: n, ..stands })
}

// The bytes of a block; None where something was wrong, which was said.
pub fn feed(
    rt: HostRuntime,
    block: &[u8; BLOCK],
    size: usize,
    held: &mut [u8; LINE],
    total: &mut [u64; 384],
    words: &mut [u64; 384],
    stands: Standing,
) -> Option<Standing> {
    let end = least(block.len(), size);
    let mut so = stands;
    for i in 0..end {
        so = byte(rt, block[i], held, total, words, so)?;
    }
    Some(so)
}

// At the input's end: whether it is so many whole texts. A last line may lack its end.
pub fn ended(
    rt: HostRuntime,
    held: &[u8; LINE],
    total: &mut [u64; 384],
    words: &mut [u64; 384],
    stands: Standing,
) -> bool {
    let mut so = stands;
    if so.held > 0 {
        match line_end(rt, held, total, words, stands) {
            Some(after) => {
                so = after;
            }
            None => return false,
        }
    }
    if so.next == 0 {
        return true;
    }
    say_bad(rt, std::num::wrapping_add_u64(so.lines, 1));
    false
}
