// RJ near its zero RJ(2q, 2q, 3q, -q), for rising x, y, z: the third-order expansion there (elliprj.rs, elliprj_pv_near_zero).
// The reduction would subtract nearly equal values and lose the small result's sign.
ghost use Rattle.std.specs.Prelude.{◌≡◌};
ghost use Rattle.rj_near_zero.specs.NearZero.{
  largest_of,
  distant,
  deltas_of,
  linear_of,
  error_of,
  quadratic_of,
  cubic_of,
  taylor_of,
  near_zero,
};

use binary64::{abs, max};
use fused::mul_add;
use root::sqrt;

const ROOT_EPSILON: f64 = 1.4901161193847656e-8; // 2 ^ -26, the root of 2 ^ -52

// The arguments' distances from 2q, 2q and 3q.
#[derive(Clone, Copy)]
pub struct Deltas {
    pub x: f64,
    pub y: f64,
    pub z: f64,
}

fn largest(x: f64, y: f64, z: f64) -> f64
    ensures { result ≡ largest_of x y z }
{
    max(max(abs(x), abs(y)), abs(z))
}

// The first test, with rounded distances, passes over what is far away.
fn far_off(x: f64, y: f64, z: f64, q: f64, radius: f64) -> bool
    ensures { result ≡ distant x y z q radius }
{
    largest(x - 2.0 * q, y - 2.0 * q, z - 3.0 * q) > radius
}

// The distances with one rounding each.
fn deltas_of(x: f64, y: f64, z: f64, q: f64) -> Deltas
    ensures { result ≡ deltas_of x y z q }
{
    Deltas {
        x: mul_add(-2.0, q, x),
        y: mul_add(-2.0, q, y),
        z: mul_add(-3.0, q, z),
    }
}

fn linear(raw: f64, dz: f64) -> f64
    ensures { result ≡ linear_of raw dz }
{
    mul_add(0.05188661383050757, raw, 0.030423254727293472 * dz)
}

// What the rounding of the product and of the two coefficients lost.
fn linear_error(raw: f64, dz: f64) -> f64
    ensures { result ≡ error_of raw dz }
{
    mul_add(0.030423254727293472, dz, -(0.030423254727293472 * dz)) + 2.57998712160197e-18 * raw
        - 1.0674999957272549e-18 * dz
}

fn quadratic(sum: f64, product: f64, dz: f64) -> f64
    ensures { result ≡ quadratic_of sum product dz }
{
    -0.024380373980361945 * sum * sum + 0.03250716530714926 * product
        - 0.010731679551607051 * sum * dz
        - 0.010479605394661824 * dz * dz
}

fn cubic(sum: f64, product: f64, dz: f64) -> f64
    ensures { result ≡ cubic_of sum product dz }
{
    0.0101259759655333 * sum * sum * sum - 0.02430234231727992 * sum * product
        + 0.004141427326475685 * sum * sum * dz
        - 0.005521903101967579 * product * dz
        + 0.0028089569663743764 * sum * dz * dz
        + 0.0031555894162704945 * dz * dz * dz
}

fn value_of(d: Deltas, q: f64) -> f64
    ensures { result ≡ taylor_of d q }
{
    let raw = d.x + d.y;
    let first = linear(raw, d.z) + linear_error(raw, d.z);
    let sum = raw / q;
    let product = (d.x / q) * (d.y / q);
    let dz = d.z / q;
    (first / q + (quadratic(sum, product, dz) + cubic(sum, product, dz))) / q / sqrt(q)
}

// The expansion's value, or none where the arguments are too far from the zero.
pub fn elliprj_pv_near_zero(x: f64, y: f64, z: f64, q: f64) -> Option<f64>
    ensures { result ≡ near_zero x y z q }
{
    let radius = q * ROOT_EPSILON;
    if far_off(x, y, z, q, radius) {
        return None;
    }
    let d = deltas_of(x, y, z, q);
    if largest(d.x, d.y, d.z) <= radius / 4.0 {
        return Some(value_of(d, q));
    }
    None
}
