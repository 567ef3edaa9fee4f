// A list looked through: whether it is sound, and how many jobs it has.
ghost use Rattle.std.specs.Prelude.{◌≡◌};
ghost use Rattle.packed.specs.Reading.{read_all};
ghost use Rattle.worklist.specs.Count.{count_of};

use packed::read_job;
use refusals::Refusal;

// Each read says itself where the next one begins, so there is no index to count.
pub fn count_jobs(list: &[u8]) -> Result<u64, Refusal>
    ensures { result ≡ count_of 0 (read_all list.now) }
{
    let mut n: u64 = 0;
    let mut place: usize = 0;
    while let Some(got) = read_job(list, place)? {
        place = got.next;
        n += 1;
    }
    Ok(n)
}
