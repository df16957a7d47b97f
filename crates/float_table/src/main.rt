// Writes the seven float functions at the edges that 01 names: the function, the argument's bits and the result's.
// answers.py has worked out the results to 60 digits, without the port.
#![tactic(auto)]

mod function;
mod tables;
mod tolerance;

use exact::format::widen;
use exact::order::{bits_f32, from_bits_f32};
use std::io;
use tables::Row;

fn write(rt: &impl Print) -> io::Result<()> {
    tables::ROWS.iter().try_for_each(|r| row(rt, *r))
}

// What cannot be written is lost: the program ends as it does where all is written.
fn main(rt: HostRuntime) {
    let _ = write(&rt);
}

// Where the rules leave the result open: the result to 60 digits, where the port's is near it.
fn row(rt: &impl Print, row: Row) -> io::Result<()> {
    let (function, argument, expected, open) = row;
    let value = function.of(from_bits_f32(argument));
    let bits = bits_f32(value);
    match open {
        None => println!(rt; "{function} {argument:08x} {bits:08x}"),
        Some(tolerance) => {
            if tolerance.admits(widen(value), widen(from_bits_f32(expected))) {
                println!(rt; "{function} {argument:08x} near {expected:08x}")
            } else {
                println!(rt; "{function} {argument:08x} far {bits:08x}")
            }
        }
    }
}
