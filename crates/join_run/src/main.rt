// Report texts one after another from standard input, as `cat` puts them, to one report's text on standard output (document 02,
// 2026-05). A line that no report has there is said on standard error with its number, counted from 1, and so is 18; there is no
// report then.
#![tactic(auto)]

mod texts;

use crate::texts::{BLOCK, LINE, begin, ended, feed};
use console::{Got, read_block};
use report_say::say_report;
use writing::OUT;

// Joins what comes until it ends or a line is bad.
fn join_all(rt: HostRuntime, out: &mut [u8; OUT]) {
    let mut total = [0u64; 384];
    let mut words = [0u64; 384];
    let mut block = [0u8; BLOCK];
    let mut held = [0u8; LINE];
    let mut stands = begin();
    // A proved loop has to end, and nothing says that the input does: so many turns no run uses up.
    for _ in 0..u64::MAX {
        match read_block(rt, &mut block) {
            Got::Bytes(size) => {
                match feed(rt, &block, size, &mut held, &mut total, &mut words, stands) {
                    Some(after) => {
                        stands = after;
                    }
                    None => return,
                }
            }
            Got::End => {
                if ended(rt, &held, &mut total, &mut words, stands) {
                    say_report(rt, &total, out);
                }
                return;
            }
            Got::Failed => {
                return;
            }
        }
    }
}

fn main(rt: HostRuntime) {
    let mut out = [0u8; OUT];
    join_all(rt, &mut out);
}
