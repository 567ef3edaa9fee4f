// A line on standard error, as `progress: 120034 lines, 20012 a second, 62 %`.
use console::complain;
use pace::{known, percent};
use writing::{least, put_decimal, put_text};

// A number between two texts; the place after them.
fn put_number(before: &[u8], n: u64, after: &[u8], text: &mut [u8], at: usize) -> usize {
    let number = put_text(before, text, at);
    let end = put_decimal(n, 19, text, number);
    put_text(after, text, end)
}

fn put_pace(pace: Option<u64>, text: &mut [u8], at: usize) -> usize {
    match pace {
        Some(each) => put_number(b", ", each, b" a second", text, at),
        None => at,
    }
}

fn put_share(read: u64, size: u64, text: &mut [u8], at: usize) -> usize {
    if known(size) {
        return put_number(b", ", percent(read, size), b" %", text, at);
    }
    at
}

fn write_line(rt: HostRuntime, text: &mut [u8], at: usize) {
    let used = put_text(b"\n", text, at);
    complain(rt, &text[..least(text.len(), used)]);
}

// What was done, how much of it in a second where that is told, and what part of the input is read where its size is known.
pub fn say(rt: HostRuntime, unit: &[u8], done: u64, pace: Option<u64>, read: u64, size: u64) {
    let mut text = [0u8; 128];
    let paced = put_number(b"progress: ", done, unit, &mut text, 0);
    let shared = put_pace(pace, &mut text, paced);
    let end = put_share(read, size, &mut text, shared);
    write_line(rt, &mut text, end);
}
