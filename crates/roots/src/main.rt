// Takes the root of each published operand and prints both, as bits, and the step that gave it, a line each.

#![tactic(auto)]

use floats::{b2_math, bits};
use sqrt::root;
use sqrt::root::Rooted;
use std::io;

mod vectors;

fn print_root(rt: &impl Print, operand: u32) -> io::Result<()> {
    let x = bits::f32_from_bits(operand);
    let root = bits::f32_to_bits(b2_math::b2_sqrt(x));
    let step = match root::root_by_steps(x) {
        Rooted::Special(_) => "special",
        Rooted::Exact(_) => "exact",
        Rooted::Rounded(_) => "rounded",
    };
    println!(rt; "{operand:08x} {root:08x} {step}")
}

fn print_roots(rt: &impl Print, operands: &[u32]) -> io::Result<()> {
    for operand in operands {
        print_root(rt, *operand)?;
    }
    Ok(())
}

fn main(rt: HostRuntime) -> io::Result<()> {
    let special = vectors::SPECIAL;
    let exact = vectors::EXACT;
    let rounded = vectors::ROUNDED;
    print_roots(&rt, &special)?;
    print_roots(&rt, &exact)?;
    print_roots(&rt, &rounded)
}
