// What is said: the answer on standard output, and where there is none why, on standard error.
use claim::Checked;
use console::write_out;
use writing::{least, put_decimal, put_text};

fn say(rt: HostRuntime, text: &[u8], used: usize) {
    if write_out(rt, &text[..least(text.len(), used)]) {
        return;
    }
    console::complain(rt, b"gatewren: cannot write\n");
}

// The answer's words into the text; how many bytes.
fn put_checked(checked: Checked, text: &mut [u8]) -> usize {
    match checked {
        Checked::Accepted => put_text(b"accepted\n", text, 0),
        Checked::BadRow(row) => {
            let word = put_text(b"bad row ", text, 0);
            // A row is counted from 1 where people read it.
            let end = put_decimal(std::num::wrapping_add_u64(row, 1), 19, text, word);
            put_text(b"\n", text, end)
        }
        Checked::Refused(refusal) => {
            let word = put_text(b"refused ", text, 0);
            let end = put_decimal(refusal.number() as u64, 9, text, word);
            put_text(b"\n", text, end)
        }
    }
}

pub fn say_checked(rt: HostRuntime, checked: Checked) {
    let mut text = [0u8; 64];
    let used = put_checked(checked, &mut text);
    say(rt, &text, used);
}

pub fn complain(rt: HostRuntime) {
    console::complain(
        rt,
        b"gatewren: the tolerance is a number of steps, decimal and below 2^64\n",
    );
}

// Why a file could not be opened, after its name.
pub fn say_unopened(rt: HostRuntime, path: &[u8], why: &str) {
    console::complain(rt, path);
    console::complain(rt, b": ");
    console::complain(rt, why.as_bytes());
    console::complain(rt, b"\n");
}
