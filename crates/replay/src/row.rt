// One row of the list: a call, ` =`, and what the oracle answers to it.
ghost use Rattle.std.specs.Prelude.{◌≤◌, length};

use calls::Call;
use console::write_out;
use listing_read::call_of;
use listing_write::LONGEST;

// What a row led to, with the entry's place in the order RC, RF, RD, RG, RJ, CEL.
#[derive(Clone, Copy)]
pub enum Verdict {
    Agrees(usize),
    Differs(usize),
    // The row has another form.
    Odd,
}

fn place(call: Call) -> usize {
    match call {
        Call::Rc(_, _) => 0,
        Call::Rf(_, _, _) => 1,
        Call::Rd(_, _, _) => 2,
        Call::Rg(_, _, _) => 3,
        Call::Rj(_, _, _, _) => 4,
        Call::Cel(_, _, _, _) => 5,
    }
}

// Where the first such byte stands, or the row's length.
fn first(row: &[u8], byte: u8) -> usize
    ensures { result ≤ length row.now }
{
    row.iter().position(|b| *b == byte).unwrap_or(row.len())
}

// Where the answer ends: before the mark ` s`, if there is one.
fn end(row: &[u8]) -> usize
    ensures { result ≤ length row.now }
{
    let n = row.len();
    if n < 2 {
        return n;
    }
    if row[n - 1] == b's' {
        if row[n - 2] == b' ' {
            return n - 2;
        }
    }
    n
}

// Whether the answer's line says, after its name and up to its end, what the row says.
fn says(line: &[u8], said: &[u8]) -> bool {
    let n = line.len();
    let at = first(line, b' ');
    if n < 1 {
        return false;
    }
    if n - 1 < at {
        return false;
    }
    check::same(&line[at..n - 1], said)
}

fn show(rt: HostRuntime, row: &[u8], line: &[u8]) {
    write_out(rt, b"the list: ");
    write_out(rt, row);
    write_out(rt, b"\n    here: ");
    write_out(rt, line);
}

fn compare(rt: HostRuntime, call: Call, said: &[u8], row: &[u8], shown: bool) -> Verdict {
    let mut text = [0u8; LONGEST];
    let n = listing_write::answer_text(call, answers::answer_of(call), &mut text);
    if says(&text[..n], said) {
        return Verdict::Agrees(place(call));
    }
    if shown {
        show(rt, row, &text[..n]);
    }
    Verdict::Differs(place(call))
}

// A row that differs is shown where that is asked for.
pub(crate) fn judge(rt: HostRuntime, row: &[u8], shown: bool) -> Verdict {
    let at = first(row, b'=');
    let last = end(row);
    if at < 1 {
        return Verdict::Odd;
    }
    if last <= at {
        return Verdict::Odd;
    }
    if row[at - 1] != b' ' {
        return Verdict::Odd;
    }
    match call_of(&row[..at - 1]) {
        Some(call) => compare(rt, call, &row[at + 1..last], row, shown),
        None => Verdict::Odd,
    }
}
