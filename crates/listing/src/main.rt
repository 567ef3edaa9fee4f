// The listing (document 01): reads calls from standard input, one a line, and writes a header and a line for each. The
// argument --progress asks for how far it has come; the shell lets no other in.
#![tactic(auto)]

fn main(rt: HostRuntime) {
    listing_run::run(rt, false, progress::asked(rt, 1));
}
