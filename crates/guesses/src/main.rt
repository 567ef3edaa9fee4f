// How good the guesses of the root and of the power -3/2 are: over numbers by chance, how often each way to the answer was taken,
// told by the very functions that `sqrt` and `pow_neg_3_2` are. The answers are proved whatever a guess gives, so that a spoilt
// one would only cost time; the file `stdout` has the counts, and a guess that became worse, or better, shows here.
#![tactic(auto)]

mod chance;

use crate::chance::{Range, draw};
use console::write_out;
use root::certain;
use root_guess::{by_ahead, by_row, ready, row, two_factors};
use writing::{least, put_decimal};

const NUMBERS: u64 = 20_000;

// How often each way was taken: the rule for what is no number above zero first, and then from the quickest down.
#[derive(Clone, Copy)]
struct Tally {
    ways: [u64; 5],
}

fn more(x: u64) -> u64 {
    if x < u64::MAX {
        return x + 1;
    }
    x
}

fn count(tally: Tally, way: usize) -> Tally {
    let mut t = tally;
    if way < 5 {
        t.ways[way] = more(t.ways[way]);
    }
    t
}

fn root_way(x: f64) -> usize {
    let found = root::find(x);
    let way = found.way;
    match way {
        root::Way::Rule => 0,
        root::Way::Guess => 1,
        root::Way::Second => 2,
        root::Way::Neighbour => 3,
        root::Way::Bisection => 4,
    }
}

fn power_way(x: f64) -> usize {
    let found = power::find(x);
    let way = found.way;
    match way {
        power::Way::Rule => 0,
        power::Way::Bound => 1,
        power::Way::Product => 2,
        power::Way::Neighbour => 3,
        power::Way::Digits => 4,
    }
}

// Of the guess that is made beside others, which a loop tests itself: 1 where it was told to be the root, else 0.
fn beside_way(x: f64) -> usize {
    if x > 0.0 {
        let b = f64::to_bits(x);
        let s = by_row(b, row(b));
        if s > 0.0 {
            if certain(b, f64::to_bits(s)) {
                return 1;
            }
        }
    }
    0
}

// Of the guess in a chain of roots, likewise, made ready from a number that is off by a part in 8,192.
fn ahead_way(x: f64) -> usize {
    if x > 0.0 {
        let k = ready(x + x * 0.0001220703125);
        let s = by_ahead(x, k, two_factors(x, k));
        if s > 0.0 {
            if certain(f64::to_bits(x), f64::to_bits(s)) {
                return 1;
            }
        }
    }
    0
}

#[derive(Clone, Copy)]
struct Tallies {
    root: Tally,
    beside: Tally,
    ahead: Tally,
    power: Tally,
}

fn counted(range: Range) -> Tallies {
    let mut root = Tally { ways: [0; 5] };
    let mut beside = Tally { ways: [0; 5] };
    let mut ahead = Tally { ways: [0; 5] };
    let mut power = Tally { ways: [0; 5] };
    let mut seed: u64 = 1;
    for _ in 0..NUMBERS {
        let d = draw(range, seed);
        seed = d.seed;
        root = count(root, root_way(d.x));
        beside = count(beside, beside_way(d.x));
        ahead = count(ahead, ahead_way(d.x));
        power = count(power, power_way(d.x));
    }
    Tallies {
        root,
        beside,
        ahead,
        power,
    }
}

fn put(rt: HostRuntime, number: u64, what: &[u8]) {
    let mut text = [0u8; 20];
    let used = put_decimal(number, 19, &mut text, 0);
    write_out(rt, &text[..least(text.len(), used)]);
    write_out(rt, what);
}

fn report_root(rt: HostRuntime, t: Tally) {
    put(rt, t.ways[1], b" by the guess, ");
    put(rt, t.ways[2], b" by a second guess, ");
    put(rt, t.ways[3], b" by a neighbour, ");
    put(rt, t.ways[4], b" by bisection, ");
    put(rt, t.ways[0], b" by rule\n");
}

fn report_beside(rt: HostRuntime, t: Tally) {
    put(rt, t.ways[1], b" told at once, ");
    put(rt, t.ways[0], b" not\n");
}

fn report_power(rt: HostRuntime, t: Tally) {
    put(rt, t.ways[1], b" by the bound, ");
    put(rt, t.ways[2], b" by the exact product, ");
    put(rt, t.ways[3], b" by a neighbour, ");
    put(rt, t.ways[4], b" by digits, ");
    put(rt, t.ways[0], b" by rule\n");
}

fn report(rt: HostRuntime, name: &[u8], t: Tallies) {
    write_out(rt, name);
    write_out(rt, b", root: ");
    let root = t.root;
    report_root(rt, root);
    write_out(rt, name);
    write_out(rt, b", root beside others: ");
    let beside = t.beside;
    report_beside(rt, beside);
    write_out(rt, name);
    write_out(rt, b", root in a chain: ");
    let ahead = t.ahead;
    report_beside(rt, ahead);
    write_out(rt, name);
    write_out(rt, b", power: ");
    let power = t.power;
    report_power(rt, power);
}

fn main(rt: HostRuntime) {
    report(rt, b"from 2^-10 to 2^10", counted(Range::Near));
    report(rt, b"of any exponent", counted(Range::All));
    report(rt, b"subnormal", counted(Range::Least));
}
