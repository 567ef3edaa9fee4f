// Calls with numbers as people write them: each line of standard input is a name and decimals, and has an answer line. The
// argument `table` asks for a heading and rows that a spreadsheet opens, `hex` for the same with the values' bits; without one a
// line is for people. What is said to a line is `spoken_read`'s, its text `spoken_write`'s.
#![tactic(auto)]

use console::written;
use progress::is_argument;
use rows::{BLOCK, ROW, begin, next};
use spoken_parts::{Form, Said};
use spoken_read::said_to;
use spoken_write::{put_line, put_reply};
use writing::OUT;

// The answer line at the start of `out`, and its length.
fn put_answer(form: Form, line: &[u8], out: &mut [u8]) -> usize {
    put_reply(said_to(line), form, line, out, 0)
}

// Each line is answered before the next is waited for.
fn reply_to_all(rt: HostRuntime, form: Form, out: &mut [u8; OUT]) {
    let mut block = [0u8; BLOCK];
    let mut held = [0u8; ROW];
    let mut rows = begin();
    // A proved loop has to end, and nothing says that the input does: so many turns no run uses up.
    for _ in 0..u64::MAX {
        rows = next(rt, rows, &mut block, &mut held);
        if rows.whole {
            let n = rows.row;
            let used = put_answer(form, &held[..n], out);
            if !written(rt, out, used) {
                return;
            }
        } else {
            return;
        }
    }
}

fn headed(rt: HostRuntime, form: Form, out: &mut [u8; OUT]) -> bool {
    if form.table {
        let used = put_line(Said::Heading, form, out, 0);
        return written(rt, out, used);
    }
    true
}

fn main(rt: HostRuntime) {
    let mut out = [0u8; OUT];
    let hex = is_argument(rt, 1, b"hex");
    let form = Form {
        table: hex || is_argument(rt, 1, b"table"),
        hex,
    };
    if headed(rt, form, &mut out) {
        reply_to_all(rt, form, &mut out);
    }
}
