// Lines of the listing's form from standard input, as a packed work list to standard output (document 02, 2026-03). A bad
// line ends it, and its number, counted from 1, is said on standard error; what came before it is written.
#![tactic(auto)]

use console::{Got, read_block, say_bad, written};
use pack_stream::{BLOCK, HELD, feed, finish};
use writing::OUT;

// Writes what comes until it ends or a line is bad.
fn pack_all(rt: HostRuntime, out: &mut [u8; OUT]) {
    let mut block = [0u8; BLOCK];
    let mut held = [0u8; HELD];
    let mut n: usize = 0;
    let mut lines: u64 = 0;
    // A proved loop has to end, and nothing says that the input does: so many turns no run uses up.
    for _ in 0..u64::MAX {
        match read_block(rt, &mut block) {
            Got::Bytes(size) => {
                let fed = feed(&block, size, &mut held, n, out);
                lines = std::num::wrapping_add_u64(lines, fed.lines as u64);
                if written(rt, out, fed.used) {
                    n = fed.held;
                } else {
                    return;
                }
                if fed.bad {
                    say_bad(rt, lines);
                    return;
                }
            }
            Got::End => {
                let fed = finish(&held, n, out);
                if written(rt, out, fed.used) {
                    if fed.bad {
                        say_bad(rt, std::num::wrapping_add_u64(lines, fed.lines as u64));
                    }
                }
                return;
            }
            Got::Failed => {
                return;
            }
        }
    }
}

fn main(rt: HostRuntime) {
    let mut out = [0u8; OUT];
    pack_all(rt, &mut out);
}
