// An answer as C sees it: 0 with the value, its rounds, its road and its rescalings written, or the number of the refusal with
// none of them touched.
#![tactic(auto)]

ghost use Rattle.std.specs.Prelude.{◌≡◌};
ghost use Rattle.c_answer.specs.Told.{number_of, value_after, rounds_after, road_after, rescalings_after};

use carlson::answer::Answer;

pub fn told(
    a: Answer,
    value: &mut f64,
    rounds: &mut u32,
    road: &mut u32,
    rescalings: &mut u32,
) -> u32
    ensures value { result ≡ number_of a }
    ensures value_after { value.new ≡ value_after a value.old }
    ensures rounds_after { rounds.new ≡ rounds_after a rounds.old }
    ensures road_after { road.new ≡ road_after a road.old }
    ensures rescalings_after { rescalings.new ≡ rescalings_after a rescalings.old }
{
    match a {
        Ok(found) => {
            *value = found.value;
            *rounds = found.way.rounds;
            *road = found.road.number();
            *rescalings = found.way.rescalings;
            0
        }
        Err(refusal) => refusal.number(),
    }
}
