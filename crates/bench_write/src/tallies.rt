// A day's tallies, a line each.
ghost use Rattle.std.specs.Prelude.{◌≡◌};
ghost use Rattle.bench_write.specs.Texts.{knees_of};
ghost use Rattle.bench_write.specs.Pieces.{label_piece, count_at, count_piece, tallies_piece};

use phrases::Piece;

#[derive(Clone, Copy)]
pub struct Tally {
    pub passed: u64,
    pub dragging: u64,
    pub refused: u64,
    pub bad: u64,
}

fn knees(t: Tally) -> u64
    ensures { result ≡ knees_of t }
{
    std::num::wrapping_add_u64(std::num::wrapping_add_u64(t.passed, t.dragging), t.refused)
}

// What stands at a line's start.
fn label(line: u64) -> Piece
    ensures { result ≡ label_piece line }
{
    match line {
        0 => Piece::Letters(0x6b6e_6565_7320, 6), // knees
        1 => Piece::Letters(0x70_6173_7365_6420, 7), // passed
        2 => Piece::Letters(0x6472_6167_7320, 6), // drags
        3 => Piece::Letters(0x7265_6675_7365_6420, 8), // refused
        _ => Piece::Letters(0x6261_6420, 4), // bad
    }
}

// What is counted there.
fn count(t: Tally, line: u64) -> u64
    ensures { result ≡ count_at t line }
{
    match line {
        0 => knees(t),
        1 => t.passed,
        2 => t.dragging,
        3 => t.refused,
        _ => t.bad,
    }
}

// A line's label, its number, its end.
pub fn count_piece(line: u64, n: u64, i: u64) -> Piece
    ensures { result ≡ count_piece line n i }
{
    match i {
        0 => label(line),
        1 => Piece::Number(n),
        _ => Piece::Letters(0x0a, 1),
    }
}

// Three pieces a line.
pub fn tallies_piece(t: Tally, i: u64) -> Piece
    ensures { result ≡ tallies_piece t i }
{
    count_piece(i / 3, count(t, i / 3), i % 3)
}
