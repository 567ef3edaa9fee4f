// How much there is room for.
ghost use Rattle.std.specs.Prelude.{◌≡◌, ◌+◌, ◌≤◌, min, leb};

// So many bytes of replies there is room for at once: what io's large buffer has.
pub const OUT: usize = 65536;

// Whether `room` more bytes fit into `length` bytes after the first `at`.
pub fn has_room(length: usize, at: usize, room: usize) -> bool
    ensures { result ≡ leb (at + room) length }
{
    if length < at {
        return false;
    }
    room <= length - at
}

// The lesser of two sizes.
pub fn least(a: usize, b: usize) -> usize
    ensures { (result ≤ a) × (result ≤ b) × (result ≡ min a b) }
{
    a.min(b)
}
