// Numbers, points, outlines and walls of a request, read at word i.
ghost use Rattle.std.specs.Prelude.{◌≡◌, ◌+◌, ◌*◌, ◌≤◌, length, take, cond};
ghost use Rattle.wire.specs.Records.{float_at, vector_at, points_at, rotation_at};
ghost use Rattle.wire.specs.Records.{polygon_at, edge_at, edge_known};

use crate::words;
use floats::b2_math::{B2Rot, B2vec2};
use lines::fields;
use shape_definitions::b2_edge_shape::B2edgeShape;
use shape_definitions::b2_polygon_shape::B2polygonShape;

pub fn float(input: &[u8], i: usize) -> f32
    requires { 4 * i + 4 ≤ length input.now }
    ensures { result ≡ float_at input.now i }
{
    fields::float(input, 4 * i)
}

pub fn vector(input: &[u8], i: usize) -> B2vec2
    requires { 4 * i + 8 ≤ length input.now }
    ensures { result ≡ vector_at input.now i }
{
    fields::vector(input, 4 * i)
}

// n points, in the first places.
pub fn points(input: &[u8], i: usize, n: usize) -> [B2vec2; 8]
    requires { (4 * i + 8 * n ≤ length input.now) × (n ≤ 8) }
    ensures { (take n result ≡ points_at input.now i n) × (length result ≡ 8) }
{
    fields::points(input, 4 * i, n)
}

pub fn rotation(input: &[u8], i: usize) -> B2Rot
    requires { 4 * i + 8 ≤ length input.now }
    ensures { result ≡ rotation_at input.now i }
{
    fields::rotation(input, 4 * i)
}

pub fn polygon(input: &[u8], i: usize) -> B2polygonShape
    requires { 4 * i + 144 ≤ length input.now }
    ensures { result ≡ polygon_at input.now i }
{
    let radius = float(input, i);
    let centroid = vector(input, i + 1);
    let count = words::word(input, i + 3) as usize;
    let vertices = points(input, i + 4, 8);
    let normals = points(input, i + 20, 8);
    B2polygonShape {
        m_radius: radius,
        m_centroid: centroid,
        m_vertices: vertices,
        m_normals: normals,
        m_count: count,
    }
}

pub fn edge(input: &[u8], i: usize) -> B2edgeShape
    requires { 4 * i + 40 ≤ length input.now }
    ensures { result ≡ edge_at input.now i }
{
    let radius = float(input, i);
    let one_sided = words::word(input, i + 1) == 1;
    let v0 = vector(input, i + 2);
    let v1 = vector(input, i + 4);
    let v2 = vector(input, i + 6);
    let v3 = vector(input, i + 8);
    B2edgeShape {
        m_radius: radius,
        m_vertex0: v0,
        m_vertex1: v1,
        m_vertex2: v2,
        m_vertex3: v3,
        m_one_sided: one_sided,
    }
}

// Whether the word of a wall's flag is one.
pub fn edge_known(input: &[u8], i: usize) -> bool
    requires { 4 * i + 8 ≤ length input.now }
    ensures { result ≡ edge_known input.now i }
{
    words::word(input, i + 1) < 2
}

// The wall, where the word of its flag is one.
pub fn known_edge(input: &[u8], i: usize) -> Option<B2edgeShape>
    requires { 4 * i + 40 ≤ length input.now }
    ensures { result ≡ cond (edge_known input.now i) (Some (edge_at input.now i)) None }
{
    if edge_known(input, i) {
        Some(edge(input, i))
    } else {
        None
    }
}
