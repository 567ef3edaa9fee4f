// Knees to verdicts: `ID L h g T LIMIT`, one a line. The argument --summary asks for the tallies at the end, and --progress,
// before or after it, for how far the work has come; the shell lets no other in.
#![tactic(auto)]

use progress::{asked, is_argument};

fn summary(rt: HostRuntime, at: usize) -> bool {
    is_argument(rt, at, b"--summary")
}

fn main(rt: HostRuntime) {
    if asked(rt, 1) {
        bench_run::run(rt, false, summary(rt, 2), true);
        return;
    }
    bench_run::run(rt, false, summary(rt, 1), asked(rt, 2));
}
