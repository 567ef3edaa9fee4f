// Standard input to standard output, for the two programs of the bench: what is written is bench_stream's to say. The flags say
// whether the lines are peaks, whether the tallies are told at the end, and whether it is said how far the work has come.
#![tactic(auto)]

use bench_stream::{BLOCK, HELD, begin, feed, finish};
use console::{Got, Source, read_block, written};
use writing::OUT;

pub fn run(rt: HostRuntime, decays: bool, summary: bool, wanted: bool) {
    let mut out = [0u8; OUT];
    let mut block = [0u8; BLOCK];
    let mut held = [0u8; HELD];
    let mut state = begin(decays);
    let mut n: usize = 0;
    let mut meter = progress::begin(rt, wanted, Source::Standard);
    // A proved loop has to end, and nothing says that the input does: so many turns no run uses up.
    for _ in 0..u64::MAX {
        match read_block(rt, &mut block) {
            Got::Bytes(size) => {
                let fed = feed(&block, size, state, &mut held, n, &mut out);
                if written(rt, &out, fed.used) {
                    state = fed.state;
                    n = fed.held;
                    meter = progress::lines(rt, meter, &block, size);
                } else {
                    return;
                }
            }
            Got::End => {
                let used = finish(summary, state, &held, n, &mut out);
                written(rt, &out, used);
                return;
            }
            Got::Failed => return,
        }
    }
}
