// The fields of frames and answers.
ghost use Rattle.std.specs.Prelude.{◌≡◌, ◌+◌, ◌*◌, ◌≤◌, length, take, replicate};
ghost use Rattle.algebra.specs.Buffer.{over};
ghost use Rattle.rounding.specs.Literals.{zero32};
ghost use Rattle.floats.specs.B2Math.{vec2};
ghost use Rattle.lines.specs.Fields.{byte_at, number_at, float_at, vector_at};
ghost use Rattle.lines.specs.Fields.{points_at, rotation_at, placement_at};
ghost use Rattle.lines.specs.Fields.{number_bytes, float_bytes, vector_bytes};

use floats::b2_math::{B2Rot, B2Transform, B2vec2};
use floats::bits;

// The byte at a place, 0 past the end.
pub fn byte(bytes: &[u8], at: usize) -> u8
    ensures { result ≡ byte_at bytes.now at }
{
    if at < bytes.len() {
        return bytes[at];
    }
    0
}

pub fn number(bytes: &[u8], at: usize) -> u32
    requires { at + 4 ≤ length bytes.now }
    ensures { result ≡ number_at bytes.now at }
{
    u32::from_be_bytes([bytes[at], bytes[at + 1], bytes[at + 2], bytes[at + 3]])
}

pub fn float(bytes: &[u8], at: usize) -> f32
    requires { at + 4 ≤ length bytes.now }
    ensures { result ≡ float_at bytes.now at }
{
    bits::f32_from_bits(number(bytes, at))
}

pub fn vector(bytes: &[u8], at: usize) -> B2vec2
    requires { at + 8 ≤ length bytes.now }
    ensures { result ≡ vector_at bytes.now at }
{
    let x = float(bytes, at);
    let y = float(bytes, at + 4);
    B2vec2 { x, y }
}

// n points, in the first places; places past them hold the origin.
pub fn points<const N: usize>(bytes: &[u8], at: usize, n: usize) -> [B2vec2; N]
    requires { (at + 8 * n ≤ length bytes.now) × (n ≤ N) }
    ensures { (take n result ≡ points_at bytes.now at n) × (length result ≡ N)
        × (result ≡ over (points_at bytes.now at n) (replicate N (vec2 zero32 zero32))) }
{
    let mut ps = [B2vec2 { x: 0.0, y: 0.0 }; N];
    for k in 0..n {
        ps[k] = vector(bytes, at + 8 * k);
    }
    ps
}

pub fn rotation(bytes: &[u8], at: usize) -> B2Rot
    requires { at + 8 ≤ length bytes.now }
    ensures { result ≡ rotation_at bytes.now at }
{
    let s = float(bytes, at);
    let c = float(bytes, at + 4);
    B2Rot { s, c }
}

pub fn placement(bytes: &[u8], at: usize) -> B2Transform
    requires { at + 16 ≤ length bytes.now }
    ensures { result ≡ placement_at bytes.now at }
{
    let p = vector(bytes, at);
    let q = rotation(bytes, at + 8);
    B2Transform { p, q }
}

// Each writer gets what is left of a lent buffer, from the field's place on.
pub fn put_number(out: &mut [u8], n: u32)
    requires { 4 ≤ length out.old }
    ensures { out.new ≡ over (number_bytes n) out.old }
{
    out[..4].copy_from_slice(&n.to_be_bytes());
}

pub fn put_float(out: &mut [u8], x: f32)
    requires { 4 ≤ length out.old }
    ensures { out.new ≡ over (float_bytes x) out.old }
{
    put_number(out, bits::f32_to_bits(x));
}

pub fn put_vector(out: &mut [u8], v: B2vec2)
    requires { 8 ≤ length out.old }
    ensures { out.new ≡ over (vector_bytes v) out.old }
{
    put_float(out, v.x);
    put_float(&mut out[4..], v.y);
}
