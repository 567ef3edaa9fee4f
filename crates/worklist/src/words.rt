// A job as five words in a row: its function's number, then four arguments. The two functions are what C sees, so they give
// numbers.
ghost use Rattle.packed.specs.Reading.{read_at};
ghost use Rattle.worklist.specs.Words.{WriteWords, ReadWords};

use packed::Job;

// What a read says where nothing is left: no number for no.
const NOTHING_LEFT: u32 = 4294967295;

// Writes the job at the place and moves it past: 0, 16 or 17.
pub fn write_words(bytes: &mut [u8], place: &mut usize, job: &[u64; 5]) -> u32
    ensures { WriteWords bytes.old place.old job.now
        bytes.new place.new result }
{
    let given = Job {
        function: job[0],
        a: job[1],
        b: job[2],
        c: job[3],
        d: job[4],
    };
    match packed::write_job(bytes, *place, given) {
        Ok(next) => {
            *place = next;
            0
        }
        Err(refusal) => refusal.number(),
    }
}

// Reads the job at the place and moves it past: 0, 14, 15, 16 or NOTHING_LEFT.
pub fn read_words(bytes: &[u8], place: &mut usize, job: &mut [u64; 5]) -> u32
    ensures { ReadWords (read_at bytes.now place.old) place.old job.old
        place.new job.new result }
{
    match packed::read_job(bytes, *place) {
        Ok(Some(got)) => {
            let next = got.next;
            let found = got.job;
            *job = [found.function, found.a, found.b, found.c, found.d];
            *place = next;
            0
        }
        Ok(None) => NOTHING_LEFT,
        Err(refusal) => refusal.number(),
    }
}
