// Standard input to standard output, for the two programs that answer calls: what is written is listing_stream's to say. The flag
// `profile` says who answers, as there; `wanted` whether it is said how far the work has come.
#![tactic(auto)]

use console::{Got, Source, read_block, written};
use listing_stream::{BLOCK, HELD, begin, feed, finish};
use writing::OUT;

// Replies to what comes until it ends.
fn reply_to_all(rt: HostRuntime, profile: bool, wanted: bool, out: &mut [u8; OUT]) {
    let mut block = [0u8; BLOCK];
    let mut held = [0u8; HELD];
    let mut n: usize = 0;
    let mut meter = progress::begin(rt, wanted, Source::Standard);
    // A proved loop has to end, and nothing says that the input does: so many turns no run uses up.
    for _ in 0..u64::MAX {
        match read_block(rt, &mut block) {
            Got::Bytes(size) => {
                let fed = feed(profile, &block, size, &mut held, n, out);
                if written(rt, out, fed.used) {
                    n = fed.held;
                    meter = progress::lines(rt, meter, &block, size);
                } else {
                    return;
                }
            }
            Got::End => {
                let used = finish(profile, &held, n, out);
                written(rt, out, used);
                return;
            }
            Got::Failed => {
                return;
            }
        }
    }
}

// The header, and a line for each that comes.
pub fn run(rt: HostRuntime, profile: bool, wanted: bool) {
    let mut out = [0u8; OUT];
    let used = begin(profile, &mut out);
    if written(rt, &out, used) {
        reply_to_all(rt, profile, wanted, &mut out);
    }
}
