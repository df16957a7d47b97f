// How near to the result 01 asks a value to be, where its rules leave it open.

#[derive(Clone, Copy)]
pub enum Tolerance {
    // within one part in 4,194,304 of it
    Part,
    // within 1/4,194,304
    Bound,
    // its power of two within one part in 131,072
    PowerPart,
}

impl Tolerance {
    pub fn admits(self, value: f64, expected: f64) -> bool {
        let off = (value - expected).abs();
        match self {
            Tolerance::Part => off <= expected.abs() / 4194304.0,
            Tolerance::Bound => off <= 1.0 / 4194304.0,
            Tolerance::PowerPart => off <= 0.000011,
        }
    }
}
