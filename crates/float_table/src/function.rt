// The seven functions, and their names in the rows.
use std::fmt;

#[derive(Clone, Copy)]
pub enum Function {
    Exp2,
    Exp,
    Pow10,
    Log2,
    Sin,
    Cos,
    Sinh,
}

impl Function {
    pub fn of(self, x: f32) -> f32 {
        match self {
            Function::Exp2 => elementary::power::exp2(x),
            Function::Exp => elementary::power::exp(x),
            Function::Pow10 => elementary::power::pow10(x),
            Function::Log2 => elementary::log::log2(x),
            Function::Sin => elementary::trig::sin(x),
            Function::Cos => elementary::trig::cos(x),
            Function::Sinh => elementary::hyperbolic::sinh(x),
        }
    }
}

impl fmt::Display for Function {
    fn fmt<W: fmt::Write>(&self, f: &mut fmt::Formatter<W>) -> fmt::Result {
        f.write_str(match *self {
            Function::Exp2 => "exp2",
            Function::Exp => "exp",
            Function::Pow10 => "pow10",
            Function::Log2 => "log2",
            Function::Sin => "sin",
            Function::Cos => "cos",
            Function::Sinh => "sinh",
        })
    }
}
