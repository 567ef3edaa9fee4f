// Work lists for C (document 02, 2026-03): a job is five words in a row. Refused, nothing is touched.
ghost use Rattle.packed.specs.Reading.{read_at};
ghost use Rattle.worklist.specs.Words.{WriteWords, ReadWords};

#[unsafe(no_mangle)]
pub extern "C" fn gatewren_write_job(bytes: &mut [u8], place: &mut usize, job: &[u64; 5]) -> u32
    ensures { WriteWords bytes.old place.old job.now bytes.new
        place.new result }
{
    worklist::write_words(bytes, place, job)
}

#[unsafe(no_mangle)]
pub extern "C" fn gatewren_read_job(bytes: &[u8], place: &mut usize, job: &mut [u64; 5]) -> u32
    ensures { ReadWords (read_at bytes.now place.old) place.old job.old
        place.new job.new result }
{
    worklist::read_words(bytes, place, job)
}
