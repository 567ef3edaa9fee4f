// The state between two bytes, and what a byte and a line's end do to it.
ghost use Rattle.std.specs.Prelude.{◌≡◌, ◌≤◌, length, take};
ghost use Rattle.bench_stream.specs.Lines.{start_row, state_from, state_after, state_heard, name_after, held_length};

use bench_read::{Row, feed_row, knee_start, naming, peaks_start};
use bench_replies::tallied;
use bench_write::{Said, Tally};
use writing::push;

// Whether the lines are peaks, what is read of a line that has not ended, and the tallies of those that have.
#[derive(Clone, Copy)]
pub struct State {
    pub decays: bool,
    pub row: Row,
    pub tally: Tally,
}

fn start_row(decays: bool) -> Row
    ensures { result ≡ start_row decays }
{
    if decays {
        return peaks_start();
    }
    knee_start()
}

// Before the first byte.
pub fn begin(decays: bool) -> State
    ensures { result ≡ state_from decays }
{
    State {
        decays,
        row: start_row(decays),
        tally: Tally {
            passed: 0,
            dragging: 0,
            refused: 0,
            bad: 0,
        },
    }
}

// A byte that ends no line, taken in the state's place: a state is long to copy.
#[tactic(auto, unfolding(crate::specs::Lines::state_after))]
pub fn after_byte(s: &mut State, b: u8)
    ensures { s.new ≡ state_after s.old b }
{
    feed_row(&mut s.row, b);
}

// A line has ended, with that reply.
pub fn after_line(s: State, reply: Said) -> State
    ensures { result ≡ state_heard s reply }
{
    State {
        row: start_row(s.decays),
        tally: tallied(s.tally, reply),
        ..s
    }
}

// How many bytes of the name are held after one byte more of the line.
pub fn held_after(s: State, b: u8, held: &mut [u8], n: usize) -> usize
    requires held_len { length held.old ≡ held_length }
    requires n_le_held_length { n ≤ held_length }
    ensures held_after { take result held.new ≡ name_after s.row (take n held.old) b }
    ensures upper_bound { result ≤ held_length }
{
    if naming(s.row, b) {
        return push(held, n, b);
    }
    n
}
