// The seven float functions under plain names, for programs in other languages: the Rust linked with these calls the port's
// own, so that every bit of the two can be compared. Each C name needs its function.
#![tactic(auto)]

ghost use Rattle.std.specs.Prelude.{◌≡◌};
ghost use Rattle.elementary.specs.Functions.{cos_of, exp2_of, exp_of, log2_of, pow10_of, sin_of, sinh_of};
ghost use Rattle.elementary.specs.Promise.{PowerOf};
ghost use Rattle.elementary.specs.Hyperbolic.{Sinh};
ghost use Rattle.elementary.specs.Logarithm.{Log2};
ghost use Rattle.elementary.specs.Trigonometric.{Sine, Cosine};

#[unsafe(no_mangle)]
pub extern "C" fn fx_exp(x: f32) -> f32
    ensures { (result ≡ exp_of x) × PowerOf 1442695040888963407 1000000000000000000 x result }
{
    elementary::power::exp(x)
}

#[unsafe(no_mangle)]
pub extern "C" fn fx_exp2(x: f32) -> f32
    ensures { (result ≡ exp2_of x) × PowerOf 1 1 x result }
{
    elementary::power::exp2(x)
}

#[unsafe(no_mangle)]
pub extern "C" fn fx_pow10(x: f32) -> f32
    ensures { (result ≡ pow10_of x) × PowerOf 3321928094887362348 1000000000000000000 x result }
{
    elementary::power::pow10(x)
}

#[unsafe(no_mangle)]
pub extern "C" fn fx_log2(x: f32) -> f32
    ensures { (result ≡ log2_of x) × Log2 x result }
{
    elementary::log::log2(x)
}

#[unsafe(no_mangle)]
pub extern "C" fn fx_sin(x: f32) -> f32
    ensures { (result ≡ sin_of x) × Sine x result }
{
    elementary::trig::sin(x)
}

#[unsafe(no_mangle)]
pub extern "C" fn fx_cos(x: f32) -> f32
    ensures { (result ≡ cos_of x) × Cosine x result }
{
    elementary::trig::cos(x)
}

#[unsafe(no_mangle)]
pub extern "C" fn fx_sinh(x: f32) -> f32
    ensures { (result ≡ sinh_of x) × Sinh x result }
{
    elementary::hyperbolic::sinh(x)
}
