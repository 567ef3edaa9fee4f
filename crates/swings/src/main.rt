// The swing's lines (document 02, 2026-01): `L h g` in whole micrometres, one a line, and a period for each.
#![tactic(auto)]

fn main(rt: HostRuntime) {
    swing_run::run(rt, swing_stream::swings_begin());
}
