// The jobs of a packed file, one after the other, through a window that moves over it.
#![tactic(auto)]

ghost use Rattle.std.specs.Prelude.{◌≤◌, length};

use console::{Got, Source, read_from};
use packed::{Job, read_job};
use refusals::Refusal;
use writing::least;

// What stands in the window: the file's place at which it begins, the place in it of the next job and how many bytes came; and
// whether the file has ended.
#[derive(Clone, Copy)]
pub struct Window {
    pub from: u64,
    pub at: usize,
    pub size: usize,
    pub over: bool,
}

#[derive(Clone, Copy)]
pub enum Pulled {
    // The job, and the window after it.
    Job(Job, Window),
    // No job is left.
    End,
    Refused(Refusal),
    // A read failed, and that was said.
    Failed,
}

// Before the first job.
pub fn begin() -> Window {
    Window {
        from: 0,
        at: 0,
        size: 0,
        over: false,
    }
}

// A list that stops inside a job is refused only where the file has ended.
fn stopped(refusal: Refusal, over: bool) -> Option<Pulled> {
    if over {
        return Some(Pulled::Refused(refusal));
    }
    match refusal {
        Refusal::ListCut => None,
        _ => Some(Pulled::Refused(refusal)),
    }
}

// What the window shows; None where more has to be read before anything is known.
fn look(window: &[u8], w: Window) -> Option<Pulled> {
    let size = least(window.len(), w.size);
    match read_job(&window[..size], w.at) {
        Ok(Some(got)) => {
            let job = got.job;
            let at = got.next;
            Some(Pulled::Job(job, Window { at, size, ..w }))
        }
        Ok(None) => {
            if w.over {
                return Some(Pulled::End);
            }
            None
        }
        Err(refusal) => stopped(refusal, w.over),
    }
}

// The bytes from `at` to `size` go to the window's start; how many they are.
fn shift(window: &mut [u8], at: usize, size: usize) -> usize
    ensures { result ≤ length window.new }
{
    let end = least(window.len(), size);
    let start = least(end, at);
    window.copy_within(start..end, 0);
    end - start
}

// Reads once more, behind what is not yet a job; None where the read failed, which was said.
fn refill(rt: HostRuntime, source: Source<'_>, window: &mut [u8], w: Window) -> Option<Window> {
    let kept = shift(window, w.at, w.size);
    let from = std::num::wrapping_add_u64(w.from, w.at as u64);
    match read_from(rt, source, &mut window[kept..]) {
        Got::Bytes(n) => Some(Window {
            from,
            at: 0,
            size: std::num::wrapping_add_usize(kept, n),
            over: false,
        }),
        Got::End => Some(Window {
            from,
            at: 0,
            size: kept,
            over: true,
        }),
        Got::Failed => None,
    }
}

// The file's place of the next job.
pub fn place(w: Window) -> u64 {
    std::num::wrapping_add_u64(w.from, w.at as u64)
}

// The next job; the window is read on as far as it takes.
pub fn pull(rt: HostRuntime, source: Source<'_>, window: &mut [u8; 4096], w: Window) -> Pulled {
    let mut stands = w;
    // A proved loop has to end, and nothing says that the file does: so many turns no run uses up.
    for _ in 0..u64::MAX {
        if let Some(seen) = look(window, stands) {
            return seen;
        }
        match refill(rt, source, window, stands) {
            Some(next) => {
                stands = next;
            }
            None => return Pulled::Failed,
        }
    }
    Pulled::Failed
}
