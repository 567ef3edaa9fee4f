// What is said on standard error, with its place.
use crate::complain;
use writing::{least, put_decimal, put_text};

fn say(rt: HostRuntime, text: &[u8], used: usize) {
    complain(rt, &text[..least(text.len(), used)]);
}

// A refusal, and the byte, counted from 0, at which its job begins.
pub fn say_refused(rt: HostRuntime, place: u64, number: u32) {
    let mut text = [0u8; 64];
    let byte = put_text(b"byte ", &mut text, 0);
    let at = put_decimal(place, 19, &mut text, byte);
    let refused = put_text(b": refused ", &mut text, at);
    let told = put_decimal(number as u64, 9, &mut text, refused);
    let used = put_text(b"\n", &mut text, told);
    say(rt, &text, used);
}

// A refusal that has no place.
pub fn say_number(rt: HostRuntime, number: u32) {
    let mut text = [0u8; 64];
    let refused = put_text(b"refused ", &mut text, 0);
    let told = put_decimal(number as u64, 9, &mut text, refused);
    let used = put_text(b"\n", &mut text, told);
    say(rt, &text, used);
}

// A line that has no form, counted from 1.
pub fn say_bad(rt: HostRuntime, line: u64) {
    let mut text = [0u8; 64];
    let name = put_text(b"line ", &mut text, 0);
    let number = put_decimal(line, 19, &mut text, name);
    let used = put_text(b": bad line\n", &mut text, number);
    say(rt, &text, used);
}
