// A number in groups of seven bits, written.
ghost use Rattle.std.specs.Prelude.{◌+◌, ◌≤◌, length};
ghost use Rattle.writing.specs.Written.{Put};
ghost use Rattle.packed_number.specs.Numbers.{number_bytes};

// Writes a number from `at` on; the place after it.
pub fn put_number(n: u64, out: &mut [u8], place: usize) -> usize
    requires { place + length (number_bytes n) ≤ length out.old }
    ensures { Put out.old place (number_bytes n) out.new result }
{
    let mut rest = n;
    let mut at = place;
    for left in (0..9usize).rev() {
        if rest < 128 {
            out[at] = rest as u8;
            return at + 1;
        }
        out[at] = 128 + (rest % 128) as u8;
        rest = rest / 128;
        at += 1;
    }
    out[at] = rest as u8;
    at + 1
}
