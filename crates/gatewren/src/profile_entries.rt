// The bench profile's entries for C (document 02, 2026-14): the same of the four places as the base's.
ghost use Rattle.std.specs.Prelude.{◌≡◌};
ghost use Rattle.profile.specs.Profile.{profile_rc, profile_rf, profile_rd, profile_rg, profile_rj};
ghost use Rattle.c_answer.specs.Told.{number_of, value_after, rounds_after, road_after, rescalings_after};

use c_answer::told;

#[unsafe(no_mangle)]
pub extern "C" fn gatewren_profile_rc(
    x: f64,
    y: f64,
    value: &mut f64,
    rounds: &mut u32,
    road: &mut u32,
    rescalings: &mut u32,
) -> u32
    ensures value { result ≡ number_of (profile_rc x y) }
    ensures value_after { value.new ≡ value_after (profile_rc x y) value.old }
    ensures rounds_after { rounds.new ≡ rounds_after (profile_rc x y) rounds.old }
    ensures road_after { road.new ≡ road_after (profile_rc x y) road.old }
    ensures rescalings_after { rescalings.new ≡ rescalings_after (profile_rc x y) rescalings.old }
{
    told(profile::profile_rc(x, y), value, rounds, road, rescalings)
}

#[unsafe(no_mangle)]
pub extern "C" fn gatewren_profile_rf(
    x: f64,
    y: f64,
    z: f64,
    value: &mut f64,
    rounds: &mut u32,
    road: &mut u32,
    rescalings: &mut u32,
) -> u32
    ensures value { result ≡ number_of (profile_rf x y z) }
    ensures value_after { value.new ≡ value_after (profile_rf x y z) value.old }
    ensures rounds_after { rounds.new ≡ rounds_after (profile_rf x y z) rounds.old }
    ensures road_after { road.new ≡ road_after (profile_rf x y z) road.old }
    ensures rescalings_after { rescalings.new ≡ rescalings_after (profile_rf x y z) rescalings.old }
{
    told(
        profile::profile_rf(x, y, z),
        value,
        rounds,
        road,
        rescalings,
    )
}

#[unsafe(no_mangle)]
pub extern "C" fn gatewren_profile_rd(
    x: f64,
    y: f64,
    z: f64,
    value: &mut f64,
    rounds: &mut u32,
    road: &mut u32,
    rescalings: &mut u32,
) -> u32
    ensures value { result ≡ number_of (profile_rd x y z) }
    ensures value_after { value.new ≡ value_after (profile_rd x y z) value.old }
    ensures rounds_after { rounds.new ≡ rounds_after (profile_rd x y z) rounds.old }
    ensures road_after { road.new ≡ road_after (profile_rd x y z) road.old }
    ensures rescalings_after { rescalings.new ≡ rescalings_after (profile_rd x y z) rescalings.old }
{
    told(
        profile::profile_rd(x, y, z),
        value,
        rounds,
        road,
        rescalings,
    )
}

#[unsafe(no_mangle)]
pub extern "C" fn gatewren_profile_rg(
    x: f64,
    y: f64,
    z: f64,
    value: &mut f64,
    rounds: &mut u32,
    road: &mut u32,
    rescalings: &mut u32,
) -> u32
    ensures value { result ≡ number_of (profile_rg x y z) }
    ensures value_after { value.new ≡ value_after (profile_rg x y z) value.old }
    ensures rounds_after { rounds.new ≡ rounds_after (profile_rg x y z) rounds.old }
    ensures road_after { road.new ≡ road_after (profile_rg x y z) road.old }
    ensures rescalings_after { rescalings.new ≡ rescalings_after (profile_rg x y z) rescalings.old }
{
    told(
        profile::profile_rg(x, y, z),
        value,
        rounds,
        road,
        rescalings,
    )
}

#[unsafe(no_mangle)]
pub extern "C" fn gatewren_profile_rj(
    x: f64,
    y: f64,
    z: f64,
    p: f64,
    value: &mut f64,
    rounds: &mut u32,
    road: &mut u32,
    rescalings: &mut u32,
) -> u32
    ensures value { result ≡ number_of (profile_rj x y z p) }
    ensures value_after { value.new ≡ value_after (profile_rj x y z p) value.old }
    ensures rounds_after { rounds.new ≡ rounds_after (profile_rj x y z p) rounds.old }
    ensures road_after { road.new ≡ road_after (profile_rj x y z p) road.old }
    ensures rescalings_after { rescalings.new ≡ rescalings_after (profile_rj x y z p) rescalings.old }
{
    told(
        profile::profile_rj(x, y, z, p),
        value,
        rounds,
        road,
        rescalings,
    )
}
