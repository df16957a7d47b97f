// Sine and cosine, evaluated in doubles and narrowed. From 0 to 3.2 the rules leave the result open within 1/4,194,304 of the
// series, and for the sine up to 1.5 within that part of it, so the promises limit it there; everywhere else it is a NaN.
ghost use Rattle.std.specs.Prelude.{◌≡◌};
ghost use Rattle.elementary.specs.Trigonometric.{Sine, Cosine};
ghost use Rattle.elementary.specs.Functions.{sin_of, cos_of};

use crate::polynomial::Polynomial;
use exact::format::narrow;

// The largest single that is not above 3.2.
const LAST: f32 = 3.1999998;

// 2^-12. Below it the sine is x and the cosine 1.
const SMALL: f32 = 0.000244140625;

// The sine's terms with a plus, x^1/1! to x^17/17!, divided by x; the polynomials here are in x^4.
const SINE_PLUS: Polynomial<4> = Polynomial {
    highest: 0.0000000000000028114572543455206,
    lower: [
        0.00000000016059043836821613,
        0.0000027557319223985893,
        0.008333333333333333,
        1.0,
    ],
};

// The sine's terms with a minus, x^3/3! to x^15/15!, divided by x^3.
const SINE_MINUS: Polynomial<3> = Polynomial {
    highest: 0.0000000000007647163731819816,
    lower: [
        0.00000002505210838544172,
        0.0001984126984126984,
        0.16666666666666666,
    ],
};

// The cosine's terms with a plus, x^0/0! to x^16/16!.
const COSINE_PLUS: Polynomial<4> = Polynomial {
    highest: 0.00000000000004779477332387385,
    lower: [
        0.00000000208767569878681,
        0.0000248015873015873,
        0.041666666666666664,
        1.0,
    ],
};

// The cosine's terms with a minus, x^2/2! to x^18/18!, divided by x^2.
const COSINE_MINUS: Polynomial<4> = Polynomial {
    highest: 0.00000000000000015619206968586225,
    lower: [
        0.000000000011470745597729725,
        0.0000002755731922398589,
        0.001388888888888889,
        0.5,
    ],
};

// The sine of x.
pub fn sin(x: f32) -> f32
    ensures { (result ≡ sin_of x) × Sine x result }
{
    if x > LAST {
        return f32::NAN;
    }
    if x >= SMALL {
        let y = x as f64;
        let z = y * y;
        let w = z * z;
        let plus = SINE_PLUS.at(w);
        let minus = SINE_MINUS.at(w);
        return narrow(y * (plus - z * minus));
    }
    if x >= 0.0 {
        return x;
    }
    f32::NAN
}

// The cosine of x. Its range tests are those of `sin`, but each range has its own value: a shared body would take the sum and the
// small value as closures, for three comparisons.
pub fn cos(x: f32) -> f32
    ensures { (result ≡ cos_of x) × Cosine x result }
{
    if x > LAST {
        return f32::NAN;
    }
    if x >= SMALL {
        let y = x as f64;
        let z = y * y;
        let w = z * z;
        let plus = COSINE_PLUS.at(w);
        let minus = COSINE_MINUS.at(w);
        return narrow(plus - z * minus);
    }
    if x >= 0.0 {
        return 1.0;
    }
    f32::NAN
}
