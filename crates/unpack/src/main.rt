// A packed work list from standard input, as lines of the listing's form to standard output (document 02, 2026-03). A
// refusal ends it, and is said on standard error with the place, counted from 0, at which its job begins; the jobs before
// it are written.
#![tactic(auto)]

use console::{Got, read_block, say_refused, written};
use unpack_stream::{BLOCK, HELD, feed, left_over};
use writing::OUT;

// Writes what comes until it ends or is refused.
fn unpack_all(rt: HostRuntime, out: &mut [u8; OUT]) {
    let mut block = [0u8; BLOCK];
    let mut held = [0u8; HELD];
    let mut n: usize = 0;
    let mut place: u64 = 0;
    // A proved loop has to end, and nothing says that the input does: so many turns no run uses up.
    for _ in 0..u64::MAX {
        match read_block(rt, &mut block) {
            Got::Bytes(size) => {
                let fed = feed(&block, size, &mut held, n, out);
                place = std::num::wrapping_add_u64(place, fed.taken as u64);
                if written(rt, out, fed.used) {
                    n = fed.held;
                } else {
                    return;
                }
                if let Some(refusal) = fed.stop {
                    say_refused(rt, place, refusal.number());
                    return;
                }
            }
            Got::End => {
                if let Some(refusal) = left_over(n) {
                    say_refused(rt, place, refusal.number());
                }
                return;
            }
            Got::Failed => {
                return;
            }
        }
    }
}

fn main(rt: HostRuntime) {
    let mut out = [0u8; OUT];
    unpack_all(rt, &mut out);
}
