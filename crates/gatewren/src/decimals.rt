// Numbers as people write them, for C: a text to its f64, and an f64 to its shortest text.
ghost use Rattle.std.specs.Prelude.{◌≡◌};
ghost use Rattle.writing.specs.Written.{Tried};
ghost use Rattle.decimal_read.specs.Read.{read_of};
ghost use Rattle.decimal_text.specs.Text.{text_of};
ghost use Rattle.gatewren.specs.Decimals.{read_number, read_value, read_place};

use decimal_read::{NoDecimal, read};
use decimal_text::put_number;
use refusals::Refusal;

fn reading_told(reading: Result<f64, NoDecimal>, value: &mut f64, place: &mut usize) -> u32
    ensures value { result ≡ read_number reading }
    ensures value_after { value.new ≡ read_value reading value.old }
    ensures place_after { place.new ≡ read_place reading place.old }
{
    match reading {
        Ok(x) => {
            *value = x;
            0
        }
        Err(NoDecimal::TooLarge) => Refusal::TooLarge.number(),
        Err(NoDecimal::NoNumber(at)) => {
            *place = at;
            Refusal::NoNumber.number()
        }
    }
}

#[unsafe(no_mangle)]
pub extern "C" fn gatewren_read_decimal(text: &[u8], value: &mut f64, place: &mut usize) -> u32
    ensures value { result ≡ read_number (read_of text.now) }
    ensures value_after { value.new ≡ read_value (read_of text.now) value.old }
    ensures place_after { place.new ≡ read_place (read_of text.now) place.old }
{
    reading_told(read(text), value, place)
}

// Where there is no room for the longest text, nothing is written.
#[unsafe(no_mangle)]
pub extern "C" fn gatewren_write_decimal(x: f64, text: &mut [u8]) -> usize
    ensures { Tried 24 text.old 0 (text_of x) text.new result }
{
    put_number(x, text, 0)
}
