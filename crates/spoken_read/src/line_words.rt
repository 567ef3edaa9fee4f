// The words of a line, by their places: what lies between blanks, tabs and a carriage return.
ghost use Rattle.std.specs.Prelude.{◌≡◌, ◌<◌, ◌≤◌, length};
ghost use Rattle.spoken_read.specs.Words.{is_blank, begins_at, ends_at};

#[tactic(auto, unfolding(crate::specs::Words::is_blank))]
fn is_blank(b: u8) -> bool
    ensures { result ≡ is_blank b }
{
    matches!(b, b' ' | b'\t' | b'\r')
}

// Where the next word begins from `at` on, or the line's end.
pub fn begins(line: &[u8], at: usize) -> usize
    requires { at ≤ length line.now }
    ensures { (result ≡ begins_at line.now at) × (at ≤ result) × (result ≤ length line.now) }
{
    for i in at..line.len() {
        if !is_blank(line[i]) {
            return i;
        }
    }
    line.len()
}

// Where the word ends that begins at `at`.
pub fn ends(line: &[u8], at: usize) -> usize
    requires { at < length line.now }
    ensures { (result ≡ ends_at line.now at) × (at < result) × (result ≤ length line.now) }
{
    for i in at + 1..line.len() {
        if is_blank(line[i]) {
            return i;
        }
    }
    line.len()
}
