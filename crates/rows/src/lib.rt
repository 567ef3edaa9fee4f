// The rows of a file or of standard input, one after the other: each is held without its end, as much of it as there is room for.
#![tactic(auto)]

ghost use Rattle.std.specs.Prelude.{◌≡◌, ◌≤◌, length};
ghost use Rattle.io.specs.Counts.{IsPrefixLen};

use console::{Got, Source, read_from};
use writing::{least, push};

// So many bytes of a row are held; the rest of a longer one is lost.
pub const ROW: usize = 128;

pub const BLOCK: usize = 2048;

// The next byte's place in the block, how many bytes of the block came, how many are held of a row, whether it is whole, and
// whether a read failed.
#[derive(Clone, Copy)]
pub struct Rows {
    pub at: usize,
    pub size: usize,
    pub row: usize,
    pub whole: bool,
    pub failed: bool,
}

// Before the first row.
pub fn begin() -> Rows
    ensures { result.row ≡ 0 }
{
    Rows {
        at: 0,
        size: 0,
        row: 0,
        whole: false,
        failed: false,
    }
}

// The bytes up to the row's end, or all that are left of the block.
fn scan(rows: Rows, block: &[u8], held: &mut [u8]) -> Rows
    requires { rows.row ≤ length held.old }
    ensures { result.row ≤ length held.new }
{
    let size = least(block.len(), rows.size);
    let mut row = rows.row;
    for at in rows.at..size {
        let b = block[at];
        if b == b'\n' {
            return Rows {
                at: at + 1,
                size,
                row,
                whole: true,
                failed: false,
            };
        }
        row = push(held, row, b);
    }
    Rows {
        at: size,
        size,
        row,
        whole: false,
        failed: false,
    }
}

// Reads on in the middle of a row. It is whole where the input has ended, if anything is held of it.
fn read_on(rt: HostRuntime, source: Source<'_>, row: usize, block: &mut [u8]) -> Rows
    ensures { result.row ≤ row }
{
    match read_from(rt, source, block) {
        Got::Bytes(size) => Rows {
            at: 0,
            size,
            row,
            whole: false,
            failed: false,
        },
        Got::End => Rows {
            at: 0,
            size: 0,
            row,
            whole: row > 0,
            failed: false,
        },
        Got::Failed => Rows {
            at: 0,
            size: 0,
            row: 0,
            whole: false,
            failed: true,
        },
    }
}

// The next row, at the start of `held`; there is none where it is not whole. A read that fails ends the rows.
pub fn next_of(
    rt: HostRuntime,
    source: Source<'_>,
    rows: Rows,
    block: &mut [u8; BLOCK],
    held: &mut [u8; ROW],
) -> Rows
    ensures { IsPrefixLen result.row held.new }
{
    let mut so_far = Rows {
        at: rows.at,
        size: rows.size,
        row: 0,
        whole: false,
        failed: false,
    };
    // A proved loop has to end, and nothing says that a row does: so many turns no run uses up.
    for _ in 0..u64::MAX {
        so_far = scan(so_far, block, held);
        if so_far.whole {
            return so_far;
        }
        so_far = read_on(rt, source, so_far.row, block);
        if so_far.size == 0 {
            return so_far;
        }
    }
    begin()
}

// The same of standard input.
pub fn next(rt: HostRuntime, rows: Rows, block: &mut [u8; BLOCK], held: &mut [u8; ROW]) -> Rows
    ensures { IsPrefixLen result.row held.new }
{
    next_of(rt, Source::Standard, rows, block, held)
}
