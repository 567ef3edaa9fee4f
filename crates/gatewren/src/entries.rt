// The entries for C: 0 with the value, its rounds, its road and its rescalings written, or the number of the refusal with
// none of them touched.
ghost use Rattle.std.specs.Prelude.{◌≡◌};
ghost use Rattle.elliprc.specs.Rc.{rc};
ghost use Rattle.elliprf.specs.Rf.{rf};
ghost use Rattle.elliprd.specs.Rd.{rd};
ghost use Rattle.elliprg.specs.Rg.{rg};
ghost use Rattle.elliprj.specs.Rj.{rj_of_positive, rj_of_negative};
ghost use Rattle.cel.specs.Cel.{cel};
ghost use Rattle.c_answer.specs.Told.{number_of, value_after, rounds_after, road_after, rescalings_after};

use c_answer::told;

#[unsafe(no_mangle)]
pub extern "C" fn gatewren_rc(
    x: f64,
    y: f64,
    value: &mut f64,
    rounds: &mut u32,
    road: &mut u32,
    rescalings: &mut u32,
) -> u32
    ensures value { result ≡ number_of (rc x y) }
    ensures value_after { value.new ≡ value_after (rc x y) value.old }
    ensures rounds_after { rounds.new ≡ rounds_after (rc x y) rounds.old }
    ensures road_after { road.new ≡ road_after (rc x y) road.old }
    ensures rescalings_after { rescalings.new ≡ rescalings_after (rc x y) rescalings.old }
{
    told(elliprc::elliprc(x, y), value, rounds, road, rescalings)
}

#[unsafe(no_mangle)]
pub extern "C" fn gatewren_rf(
    x: f64,
    y: f64,
    z: f64,
    value: &mut f64,
    rounds: &mut u32,
    road: &mut u32,
    rescalings: &mut u32,
) -> u32
    ensures value { result ≡ number_of (rf x y z) }
    ensures value_after { value.new ≡ value_after (rf x y z) value.old }
    ensures rounds_after { rounds.new ≡ rounds_after (rf x y z) rounds.old }
    ensures road_after { road.new ≡ road_after (rf x y z) road.old }
    ensures rescalings_after { rescalings.new ≡ rescalings_after (rf x y z) rescalings.old }
{
    told(elliprf::elliprf(x, y, z), value, rounds, road, rescalings)
}

#[unsafe(no_mangle)]
pub extern "C" fn gatewren_rd(
    x: f64,
    y: f64,
    z: f64,
    value: &mut f64,
    rounds: &mut u32,
    road: &mut u32,
    rescalings: &mut u32,
) -> u32
    ensures value { result ≡ number_of (rd x y z) }
    ensures value_after { value.new ≡ value_after (rd x y z) value.old }
    ensures rounds_after { rounds.new ≡ rounds_after (rd x y z) rounds.old }
    ensures road_after { road.new ≡ road_after (rd x y z) road.old }
    ensures rescalings_after { rescalings.new ≡ rescalings_after (rd x y z) rescalings.old }
{
    told(elliprd::elliprd(x, y, z), value, rounds, road, rescalings)
}

#[unsafe(no_mangle)]
pub extern "C" fn gatewren_rg(
    x: f64,
    y: f64,
    z: f64,
    value: &mut f64,
    rounds: &mut u32,
    road: &mut u32,
    rescalings: &mut u32,
) -> u32
    ensures value { result ≡ number_of (rg x y z) }
    ensures value_after { value.new ≡ value_after (rg x y z) value.old }
    ensures rounds_after { rounds.new ≡ rounds_after (rg x y z) rounds.old }
    ensures road_after { road.new ≡ road_after (rg x y z) road.old }
    ensures rescalings_after { rescalings.new ≡ rescalings_after (rg x y z) rescalings.old }
{
    told(elliprg::elliprg(x, y, z), value, rounds, road, rescalings)
}

#[unsafe(no_mangle)]
pub extern "C" fn gatewren_rj_positive(
    x: f64,
    y: f64,
    z: f64,
    p: f64,
    value: &mut f64,
    rounds: &mut u32,
    road: &mut u32,
    rescalings: &mut u32,
) -> u32
    ensures value { result ≡ number_of (rj_of_positive x y z p) }
    ensures value_after { value.new ≡ value_after (rj_of_positive x y z p) value.old }
    ensures rounds_after { rounds.new ≡ rounds_after (rj_of_positive x y z p) rounds.old }
    ensures road_after { road.new ≡ road_after (rj_of_positive x y z p) road.old }
    ensures rescalings_after { rescalings.new ≡ rescalings_after (rj_of_positive x y z p) rescalings.old }
{
    told(
        elliprj::elliprj_positive(x, y, z, p),
        value,
        rounds,
        road,
        rescalings,
    )
}

#[unsafe(no_mangle)]
pub extern "C" fn gatewren_rj_negative(
    x: f64,
    y: f64,
    z: f64,
    p: f64,
    value: &mut f64,
    rounds: &mut u32,
    road: &mut u32,
    rescalings: &mut u32,
) -> u32
    ensures value { result ≡ number_of (rj_of_negative x y z p) }
    ensures value_after { value.new ≡ value_after (rj_of_negative x y z p) value.old }
    ensures rounds_after { rounds.new ≡ rounds_after (rj_of_negative x y z p) rounds.old }
    ensures road_after { road.new ≡ road_after (rj_of_negative x y z p) road.old }
    ensures rescalings_after { rescalings.new ≡ rescalings_after (rj_of_negative x y z p) rescalings.old }
{
    told(
        elliprj::elliprj_negative(x, y, z, p),
        value,
        rounds,
        road,
        rescalings,
    )
}

#[unsafe(no_mangle)]
pub extern "C" fn gatewren_cel(
    kc: f64,
    p: f64,
    a: f64,
    b: f64,
    value: &mut f64,
    rounds: &mut u32,
    road: &mut u32,
    rescalings: &mut u32,
) -> u32
    ensures value { result ≡ number_of (cel kc p a b) }
    ensures value_after { value.new ≡ value_after (cel kc p a b) value.old }
    ensures rounds_after { rounds.new ≡ rounds_after (cel kc p a b) rounds.old }
    ensures road_after { road.new ≡ road_after (cel kc p a b) road.old }
    ensures rescalings_after { rescalings.new ≡ rescalings_after (cel kc p a b) rescalings.old }
{
    told(cel::cel(kc, p, a, b), value, rounds, road, rescalings)
}
