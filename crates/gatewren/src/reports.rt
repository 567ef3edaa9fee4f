// Reports for C (document 02, 2026-05): 384 words that the caller owns, zero words being the report of no list. Refused, none of
// them is touched.
ghost use Rattle.std.specs.Prelude.{◌≡◌, ◌%◌, ◌^◌};
ghost use Rattle.refusals.specs.Numbers.{code_of};
ghost use Rattle.report_words.specs.Words.{word_at, refused_at, sum_at};
ghost use Rattle.report_words.specs.Room.{join_judged, join_after};
ghost use Rattle.report.specs.Report.{report_judged, list_after};

use refusals::code;

#[unsafe(no_mangle)]
pub extern "C" fn gatewren_report_list(words: &mut [u64; 384], list: &[u8]) -> u32
    ensures value { result ≡ code_of (report_judged words.old list.now) }
    ensures words_after { words.new ≡ list_after words.old list.now }
{
    code(report::report_list(words, list))
}

#[unsafe(no_mangle)]
pub extern "C" fn gatewren_report_join(words: &mut [u64; 384], other: &[u64; 384]) -> u32
    ensures value { result ≡ code_of (join_judged words.old other.now) }
    ensures words_after { words.new ≡ join_after words.old other.now }
{
    code(report_words::join_reports(words, other))
}

#[unsafe(no_mangle)]
pub extern "C" fn gatewren_report_calls(words: &[u64; 384], function: u32) -> u64
    ensures { result ≡ word_at words.now function 0 }
{
    report_words::calls_of(words, function as u64)
}

#[unsafe(no_mangle)]
pub extern "C" fn gatewren_report_refused(words: &[u64; 384], function: u32, number: u32) -> u64
    ensures { result ≡ refused_at words.now function number }
{
    report_words::refused_of(words, function as u64, number as u64)
}

#[unsafe(no_mangle)]
pub extern "C" fn gatewren_report_rounds(words: &[u64; 384], function: u32) -> u64
    ensures { result ≡ word_at words.now function 28 }
{
    report_words::rounds_of(words, function as u64)
}

// A count of rounds has 32 digits.
#[unsafe(no_mangle)]
pub extern "C" fn gatewren_report_most(words: &[u64; 384], function: u32) -> u32
    ensures { result ≡ word_at words.now function 29 % 2 ^ 32 }
{
    (report_words::most_of(words, function as u64) % 0x1_0000_0000) as u32
}

#[unsafe(no_mangle)]
pub extern "C" fn gatewren_report_sum(words: &[u64; 384], function: u32) -> f64
    ensures { result ≡ sum_at words.now function }
{
    report_words::sum_of(words, function as u64)
}
