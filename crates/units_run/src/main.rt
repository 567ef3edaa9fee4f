// Demand 3 run through the proved entries: each call of its standard input, which has the form of the listing's, is asked again
// with its arguments multiplied by every power of four that keeps them in range, and the answers are compared.
#![tactic(auto)]

mod pair;

ghost use Rattle.std.specs.Prelude.{◌<◌};

use crate::pair::{Verdict, asked, judge, place};
use calls::Call;
use console::write_out;
use listing_read::call_of;
use rows::{BLOCK, ROW, begin, next};
use writing::{least, put_decimal};

// Calls are shown until so many pairs differ.
const SHOWN: u64 = 5;

#[derive(Clone, Copy)]
struct Tally {
    // calls of each entry, in the order RC, RF, RD, RG, RJ, and of all; pairs, those refused alike, those that differ, likewise
    calls: [u64; 6],
    pairs: [u64; 6],
    refused: [u64; 6],
    differ: [u64; 6],
    // rows in another form, or of which demand 3 does not speak
    odd: u64,
}

fn more(x: u64) -> u64 {
    if x < u64::MAX {
        return x + 1;
    }
    x
}

fn count_odd(tally: Tally) -> Tally {
    let mut t = tally;
    t.odd = more(t.odd);
    t
}

fn count_call(tally: Tally, entry: usize) -> Tally {
    let mut t = tally;
    if entry < 5 {
        t.calls[entry] = more(t.calls[entry]);
        t.calls[5] = more(t.calls[5]);
    }
    t
}

fn count_pair(tally: Tally, entry: usize) -> Tally {
    let mut t = tally;
    if entry < 5 {
        t.pairs[entry] = more(t.pairs[entry]);
        t.pairs[5] = more(t.pairs[5]);
    }
    t
}

fn count_refused(tally: Tally, entry: usize) -> Tally {
    let mut t = count_pair(tally, entry);
    if entry < 5 {
        t.refused[entry] = more(t.refused[entry]);
        t.refused[5] = more(t.refused[5]);
    }
    t
}

fn count_differing(tally: Tally, entry: usize) -> Tally {
    let mut t = count_pair(tally, entry);
    if entry < 5 {
        t.differ[entry] = more(t.differ[entry]);
        t.differ[5] = more(t.differ[5]);
    }
    t
}

fn count(tally: Tally, entry: usize, verdict: Verdict) -> Tally {
    match verdict {
        Verdict::Outside => tally,
        Verdict::Values => count_pair(tally, entry),
        Verdict::Refusals => count_refused(tally, entry),
        Verdict::Differ => count_differing(tally, entry),
    }
}

fn take_call(call: Call, tally: Tally) -> Tally {
    let entry = place(call);
    let mut t = count_call(tally, entry);
    let first = answers::answer_of(call);
    for j in 0..129 {
        t = count(t, entry, judge(call, first, j));
    }
    t
}

fn show(rt: HostRuntime, row: &[u8]) {
    write_out(rt, b"differs for some k: ");
    write_out(rt, row);
    write_out(rt, b"\n");
}

fn take_asked(rt: HostRuntime, row: &[u8], call: Call, tally: Tally) -> Tally {
    let before = tally.differ[5];
    let t = take_call(call, tally);
    if before < SHOWN {
        if before < t.differ[5] {
            show(rt, row);
        }
    }
    t
}

fn take_row(rt: HostRuntime, row: &[u8], tally: Tally) -> Tally {
    match call_of(row) {
        Some(call) => {
            if asked(call) {
                return take_asked(rt, row, call, tally);
            }
            count_odd(tally)
        }
        None => count_odd(tally),
    }
}

// Every row, one after the other. One that is longer than `held` is cut, and then in another form.
fn take_rows(rt: HostRuntime, tally: Tally) -> Tally {
    let mut block = [0u8; BLOCK];
    let mut held = [0u8; ROW];
    let mut t = tally;
    let mut rows = begin();
    // A proved loop has to end, and nothing says that the input does: so many turns no run uses up.
    for _ in 0..u64::MAX {
        rows = next(rt, rows, &mut block, &mut held);
        if rows.whole {
            let n = rows.row;
            t = take_row(rt, &held[..n], t);
        } else {
            return t;
        }
    }
    t
}

fn put(rt: HostRuntime, number: u64, what: &[u8]) {
    let mut text = [0u8; 20];
    let used = put_decimal(number, 19, &mut text, 0);
    write_out(rt, &text[..least(text.len(), used)]);
    write_out(rt, what);
}

fn report(rt: HostRuntime, name: &[u8], t: Tally, entry: usize)
    requires { entry < 6 }
{
    write_out(rt, name);
    put(rt, t.calls[entry], b" calls, ");
    put(rt, t.pairs[entry], b" pairs, of which ");
    put(rt, t.refused[entry], b" refused alike, ");
    put(rt, t.differ[entry], b" differ\n");
}

fn report_all(rt: HostRuntime, t: Tally) {
    report(rt, b"RC ", t, 0);
    report(rt, b"RF ", t, 1);
    report(rt, b"RD ", t, 2);
    report(rt, b"RG ", t, 3);
    report(rt, b"RJ ", t, 4);
    report(rt, b"all ", t, 5);
    put(rt, t.odd, b" rows in another form or out of range\n");
}

fn main(rt: HostRuntime) {
    report_all(
        rt,
        take_rows(
            rt,
            Tally {
                calls: [0; 6],
                pairs: [0; 6],
                refused: [0; 6],
                differ: [0; 6],
                odd: 0,
            },
        ),
    );
}
