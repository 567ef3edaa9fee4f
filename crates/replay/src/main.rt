// Runs the oracle's fixed list through the proved entries and compares values, counts and numbers. The list is this program's
// standard input: a header, then rows such as `RF 4010000000000000 4010000000000000 4010000000000000 = 3FE0000000000000 0` or
// `.. = refused 3`, of which some end in ` s`, a mark of the oracle's that is passed over here.
#![tactic(auto)]

mod row;

use crate::row::{Verdict, judge};
use console::write_out;
use rows::{BLOCK, ROW, begin, next};
use writing::{least, put_decimal};

// How many rows that differ are shown.
const SHOWN: u64 = 5;

#[derive(Clone, Copy)]
struct Tally {
    // rows of each entry, in the order RC, RF, RD, RG, RJ, CEL, and of all; those that differ, likewise
    rows: [u64; 7],
    differ: [u64; 7],
    // rows in another form
    odd: u64,
    // whether the next row is the header
    header: bool,
}

fn more(x: u64) -> u64 {
    if x < u64::MAX {
        return x + 1;
    }
    x
}

fn count(tally: Tally, entry: usize) -> Tally {
    let mut t = tally;
    if entry < 6 {
        t.rows[entry] = more(t.rows[entry]);
        t.rows[6] = more(t.rows[6]);
    }
    t
}

fn count_differing(tally: Tally, entry: usize) -> Tally {
    let mut t = count(tally, entry);
    if entry < 6 {
        t.differ[entry] = more(t.differ[entry]);
        t.differ[6] = more(t.differ[6]);
    }
    t
}

fn count_odd(tally: Tally) -> Tally {
    let mut t = tally;
    t.odd = more(t.odd);
    t
}

fn take_header(row: &[u8], tally: Tally) -> Tally {
    let mut t = tally;
    t.header = false;
    if check::same(row, b"gatewren calls 3") {
        return t;
    }
    count_odd(t)
}

fn take_row(rt: HostRuntime, row: &[u8], tally: Tally) -> Tally {
    if tally.header {
        return take_header(row, tally);
    }
    match judge(rt, row, tally.differ[6] < SHOWN) {
        Verdict::Agrees(entry) => count(tally, entry),
        Verdict::Differs(entry) => count_differing(tally, entry),
        Verdict::Odd => count_odd(tally),
    }
}

// Every row, one after the other. One that is longer than `held` is cut, and then in another form.
fn take_rows(rt: HostRuntime, tally: Tally) -> Tally {
    let mut block = [0u8; BLOCK];
    let mut held = [0u8; ROW];
    let mut t = tally;
    let mut rows = begin();
    // A proved loop has to end, and nothing says that the input does: so many turns no run uses up.
    for _ in 0..u64::MAX {
        rows = next(rt, rows, &mut block, &mut held);
        if rows.whole {
            let n = rows.row;
            t = take_row(rt, &held[..n], t);
        } else {
            return t;
        }
    }
    t
}

fn put(rt: HostRuntime, number: u64) {
    let mut text = [0u8; 20];
    let used = put_decimal(number, 19, &mut text, 0);
    write_out(rt, &text[..least(text.len(), used)]);
}

fn report(rt: HostRuntime, name: &[u8], rows: u64, differ: u64) {
    write_out(rt, name);
    write_out(rt, b" ");
    put(rt, rows);
    write_out(rt, b" rows, ");
    put(rt, differ);
    write_out(rt, b" differ\n");
}

fn report_all(rt: HostRuntime, t: Tally) {
    report(rt, b"RC", t.rows[0], t.differ[0]);
    report(rt, b"RF", t.rows[1], t.differ[1]);
    report(rt, b"RD", t.rows[2], t.differ[2]);
    report(rt, b"RG", t.rows[3], t.differ[3]);
    report(rt, b"RJ", t.rows[4], t.differ[4]);
    report(rt, b"CEL", t.rows[5], t.differ[5]);
    report(rt, b"all", t.rows[6], t.differ[6]);
    put(rt, t.odd);
    write_out(rt, b" rows in another form\n");
}

fn main(rt: HostRuntime) {
    report_all(
        rt,
        take_rows(
            rt,
            Tally {
                rows: [0; 7],
                differ: [0; 7],
                odd: 0,
                header: true,
            },
        ),
    );
}
