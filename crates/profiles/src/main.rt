// The listing through the bench profile (document 02, 2026-14): reads calls from standard input, one a line, and writes a header
// and a line for each, by the profile's entries.
#![tactic(auto)]

fn main(rt: HostRuntime) {
    listing_run::run(rt, true, false);
}
