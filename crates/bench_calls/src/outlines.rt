// Points from flat coordinates, and back.
ghost use Rattle.std.specs.Prelude.{◌+◌, ◌*◌, ◌≤◌, length};

use floats::b2_math::B2vec2;
use shape_definitions::b2_polygon_shape::B2polygonShape;
use shape_definitions::refusal::Refusal;

pub fn point(xs: &[f32], i: usize) -> B2vec2
    requires { 2 * i + 2 ≤ length xs.now }
{
    let at = 2 * i;
    B2vec2 {
        x: xs[at],
        y: xs[at + 1],
    }
}

// The first n points, and zeros after them.
pub fn points(xs: &[f32], n: usize) -> [B2vec2; 8]
    requires { (n ≤ 8) × (2 * n ≤ length xs.now) }
{
    let mut ps = [B2vec2 { x: 0.0, y: 0.0 }; 8];
    for i in 0..n {
        ps[i] = point(xs, i);
    }
    ps
}

pub fn put_point(out: &mut [f32], p: B2vec2)
    requires { 2 ≤ length out.old }
{
    out[0] = p.x;
    out[1] = p.y;
}

// Eight points at the front of an output.
pub fn put_points(out: &mut [f32], ps: [B2vec2; 8])
    requires { 16 ≤ length out.old }
{
    for (i, p) in ps.iter().enumerate() {
        put_point(&mut out[2 * i..], *p);
    }
}

// An accepted outline's corners, normals and centroid at the front of out: 1, or 256 and the refusal with nothing
// written.
pub fn put_answer(answer: Result<B2polygonShape, Refusal>, out: &mut [f32]) -> u32
    requires { 34 ≤ length out.old }
{
    match answer {
        Ok(shape) => {
            put_points(out, shape.m_vertices);
            put_points(&mut out[16..], shape.m_normals);
            put_point(&mut out[32..], shape.m_centroid);
            1
        }
        Err(why) => 256 + u32::from(u8::from(why)),
    }
}
