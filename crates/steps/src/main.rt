// The step log (document 02, 2026-01): a total, then a reading a line, and the new total at the end.
#![tactic(auto)]

fn main(rt: HostRuntime) {
    swing_run::run(rt, swing_stream::steps_begin());
}
