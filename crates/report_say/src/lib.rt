// A report's text on standard output.
#![tactic(auto)]

use console::written;
use report_text::{LINES, put_header, put_line};
use writing::OUT;

// All its lines go into one buffer: they are some twelve thousand bytes at most.
pub fn say_report(rt: HostRuntime, words: &[u64; 384], out: &mut [u8; OUT]) -> bool {
    let mut used = put_header(out, 0);
    for q in 0..LINES {
        used = put_line(words, q, out, used);
    }
    written(rt, out, used)
}
