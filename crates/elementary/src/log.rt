// log2, by a guess that the series of 2^t certifies. 01's rules leave the result of a positive number open within one part
// in 131,072 of E, so the promise limits it there; everywhere else it says what it is.
ghost use Rattle.std.specs.Prelude.{◌≡◌, ◌*◌, ◌<◌, ◌≤◌};
ghost use Rattle.elementary.specs.Logarithm.{Log2, Ranged, unit, fixed_at, power_at, log_series, units_past128, guess_of, root_of, fraction_of, nearest_sum, positive_of};
ghost use Rattle.elementary.specs.Functions.{log2_of};

use crate::polynomial::Polynomial;
use crate::power::series;
use exact::format::narrow;

// The fraction of a logarithm counts in units of 2^-45. The search by halving ends at 2^25 of them.
const UNIT: u64 = 1 << 45;

const NEAR: u64 = 1 << 25;

// The guess is taken where the series is within this factor, 1 + 2^-26, of the number.
const SLACK: f64 = 1.0000000149011612;

// Patterns of doubles: 1, 128, and the lowest digit of the exponent.
const ONE: u64 = 0x3ff0_0000_0000_0000;

const ONE_TWENTY_EIGHT: u64 = 0x4060_0000_0000_0000;

const EXPONENT: u64 = 1 << 52;

// 2 / (k ln 2) for the odd k from 13 down to 1.
const LOG_SERIES: Polynomial<6> = Polynomial {
    highest: 0.22195308321368667,
    lower: [
        0.2623081892525388,
        0.3205988979753252,
        0.4121985831111324,
        0.5770780163555853,
        0.9617966939259756,
        2.8853900817779268,
    ],
};

// a / 2^45
fn fixed(a: u64) -> f64
    requires { a ≤ 150 * unit }
    ensures { result ≡ fixed_at a }
{
    (a as f64) * 0.000000000000028421709430404007434844970703125
}

// 2^(k / 2^45), by the series.
fn power_at(k: u64) -> f64
    requires { k ≤ unit }
    ensures { result ≡ power_at k }
{
    series(fixed(k))
}

// 128 and about log2 of an m from 1 to 2: the series of log2 (m / one) in (m - one) / (m + one) through the 13th power, for a `one`
// of 1 or 2.
#[tactic(auto, unfolding(crate::specs::Kernel::horner_f, crate::specs::Logarithm::log_series))]
fn log_series(one: f64, m: f64) -> f64
    ensures { result ≡ log_series one m }
{
    let s = (m - one) / (m + one);
    s * LOG_SERIES.at(s * s) + (one + 127.0)
}

// y - 128 in units of 2^-45, for a y from 128 to 129: there the last digit of a double is one unit, so the bits count them.
fn units_past_128(y: f64) -> u64
    ensures { result ≡ units_past128 y }
{
    if y.is_nan() {
        return 0;
    }
    let k = std::num::wrapping_sub_u64(f64::to_bits(y), ONE_TWENTY_EIGHT);
    if k < UNIT { k } else { 0 }
}

// About log2 of m in units of 2^-45. `fraction` tests it.
fn guess(m: f64) -> u64
    ensures { result ≡ guess_of m }
{
    let one = if m < 1.4142135623730951 { 1.0 } else { 2.0 };
    units_past_128(log_series(one, m))
}

// log2 of m in units of 2^-45, by halving: for an m whose guess fails the test. The width, and no index, is what counts down.
fn root(m: f64) -> u64
    ensures { result ≡ root_of m }
{
    let mut k: u64 = 0;
    let mut w = UNIT;
    while NEAR < w {
        let half = w / 2;
        let n = k + half;
        if m < power_at(n) {
            w = half;
        } else {
            k = n;
            w = w - half;
        }
    }
    k
}

// log2 of m in units of 2^-45: the guess, where the series there is within one part in 2^26 of m.
fn fraction(m: f64) -> u64
    ensures { result ≡ fraction_of m }
{
    let k = guess(m);
    let v = power_at(k);
    if m * SLACK < v || v * SLACK < m {
        return root(m);
    }
    k
}

// The single nearest to n - 1023 + k / 2^45.
fn nearest_sum(n: u64, k: u64) -> f32
    requires least { 874 ≤ n }
    requires most { n ≤ 1150 }
    requires part { k < unit }
    ensures { result ≡ nearest_sum n k }
{
    if n < 1023 {
        -narrow(fixed((1023 - n) * UNIT - k))
    } else {
        narrow(fixed((n - 1023) * UNIT + k))
    }
}

// log2 of an x from 2^-149 to 2^128: its exponent, and the logarithm of its digits.
fn positive(x: f64) -> f32
    requires { Ranged x }
    ensures { result ≡ positive_of x }
{
    let bits: u64 = f64::to_bits(x);
    let m = f64::from_bits(ONE + bits % EXPONENT);
    nearest_sum(bits / EXPONENT, fraction(m))
}

// log2 x.
pub fn log2(x: f32) -> f32
    ensures { (result ≡ log2_of x) × Log2 x result }
{
    if x.is_nan() {
        return x;
    }
    if x < 0.0 {
        return f32::NAN;
    }
    if x == f32::INFINITY {
        return f32::NAN;
    }
    if x > 0.0 {
        return positive(x as f64);
    }
    f32::NEG_INFINITY
}
