// Successive peaks to their logarithmic decrement: `A B`, one a line.
#![tactic(auto)]

fn main(rt: HostRuntime) {
    bench_run::run(rt, true, false, false);
}
