// Standard input to standard output, for the two programs of the swing's lines: what is written is swing_stream's to say.
#![tactic(auto)]

use console::{Got, read_block, written};
use swing_stream::{BLOCK, State, feed, finish};
use writing::OUT;

pub fn run(rt: HostRuntime, begin: State) {
    let mut out = [0u8; OUT];
    let mut block = [0u8; BLOCK];
    let mut state = begin;
    // A proved loop has to end, and nothing says that the input does: so many turns no run uses up.
    for _ in 0..u64::MAX {
        match read_block(rt, &mut block) {
            Got::Bytes(size) => {
                let fed = feed(&block, size, state, &mut out);
                if written(rt, &out, fed.used) {
                    state = fed.state;
                } else {
                    return;
                }
            }
            Got::End => {
                let used = finish(state, &mut out);
                written(rt, &out, used);
                return;
            }
            Got::Failed => return,
        }
    }
}
