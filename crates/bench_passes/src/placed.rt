// Placed shapes from numbers, each with its placement after it: a circle's centre and radius; a wall's four vertices
// and radius; an outline's eight corners, eight normals, centroid and radius. A case without numbers has none but 0.
ghost use Rattle.std.specs.Prelude.{◌+◌, ◌≤◌, length};

use crate::numbers::{CASES, origin, placement, vector};
use crate::passes;
use floats::b2_math::{B2Transform, B2vec2};
use shape_definitions::b2_circle_shape::B2circleShape;
use shape_definitions::b2_edge_shape::B2edgeShape;
use shape_definitions::b2_polygon_shape::B2polygonShape;

// How many numbers each shape has with its placement.
const CIRCLE: usize = 7;

const EDGE: usize = 13;

const POLYGON: usize = 39;

#[derive(Clone, Copy)]
pub struct Placed<S> {
    pub shape: S,
    pub place: B2Transform,
}

fn eight(x: &[f32], i: usize) -> [B2vec2; 8]
    requires { i + 16 ≤ length x.now }
{
    [
        vector(x, i),
        vector(x, i + 2),
        vector(x, i + 4),
        vector(x, i + 6),
        vector(x, i + 8),
        vector(x, i + 10),
        vector(x, i + 12),
        vector(x, i + 14),
    ]
}

fn circle(x: &[f32], i: usize) -> B2circleShape
    requires { i + 3 ≤ length x.now }
{
    let m_p = vector(x, i);
    B2circleShape {
        m_radius: x[i + 2],
        m_p,
    }
}

fn edge(x: &[f32], i: usize, m_one_sided: bool) -> B2edgeShape
    requires { i + 9 ≤ length x.now }
{
    let m_vertex0 = vector(x, i);
    let m_vertex1 = vector(x, i + 2);
    let m_vertex2 = vector(x, i + 4);
    let m_vertex3 = vector(x, i + 6);
    B2edgeShape {
        m_radius: x[i + 8],
        m_vertex0,
        m_vertex1,
        m_vertex2,
        m_vertex3,
        m_one_sided,
    }
}

fn polygon(x: &[f32], i: usize, m_count: usize) -> B2polygonShape
    requires { i + 35 ≤ length x.now }
{
    let m_vertices = eight(x, i);
    let m_normals = eight(x, i + 16);
    let m_centroid = vector(x, i + 32);
    B2polygonShape {
        m_radius: x[i + 34],
        m_centroid,
        m_vertices,
        m_normals,
        m_count,
    }
}

fn placed_circle(x: &[f32], i: usize) -> Placed<B2circleShape>
    requires { i + 7 ≤ length x.now }
{
    Placed {
        shape: circle(x, i),
        place: placement(x, i + 3),
    }
}

fn placed_edge(x: &[f32], i: usize, m_one_sided: bool) -> Placed<B2edgeShape>
    requires { i + 13 ≤ length x.now }
{
    Placed {
        shape: edge(x, i, m_one_sided),
        place: placement(x, i + 9),
    }
}

fn placed_polygon(x: &[f32], i: usize, m_count: usize) -> Placed<B2polygonShape>
    requires { i + 39 ≤ length x.now }
{
    Placed {
        shape: polygon(x, i, m_count),
        place: placement(x, i + 35),
    }
}

fn no_circle() -> Placed<B2circleShape> {
    Placed {
        shape: B2circleShape {
            m_radius: 0.0,
            m_p: B2vec2 { x: 0.0, y: 0.0 },
        },
        place: origin(),
    }
}

fn no_edge(m_one_sided: bool) -> Placed<B2edgeShape> {
    let zero = B2vec2 { x: 0.0, y: 0.0 };
    Placed {
        shape: B2edgeShape {
            m_radius: 0.0,
            m_vertex0: zero,
            m_vertex1: zero,
            m_vertex2: zero,
            m_vertex3: zero,
            m_one_sided,
        },
        place: origin(),
    }
}

fn no_polygon(m_count: usize) -> Placed<B2polygonShape> {
    let zero = B2vec2 { x: 0.0, y: 0.0 };
    Placed {
        shape: B2polygonShape {
            m_radius: 0.0,
            m_centroid: zero,
            m_vertices: [zero; 8],
            m_normals: [zero; 8],
            m_count,
        },
        place: origin(),
    }
}

pub fn all_circles(x: &[f32]) -> [Placed<B2circleShape>; CASES] {
    passes::all(
        x.len() / CIRCLE,
        no_circle(),
        |k| placed_circle(x, k * CIRCLE),
    )
}

pub fn all_edges(x: &[f32], m_one_sided: bool) -> [Placed<B2edgeShape>; CASES] {
    passes::all(
        x.len() / EDGE,
        no_edge(m_one_sided),
        |k| placed_edge(x, k * EDGE, m_one_sided),
    )
}

pub fn all_polygons(x: &[f32], m_count: usize) -> [Placed<B2polygonShape>; CASES] {
    passes::all(
        x.len() / POLYGON,
        no_polygon(m_count),
        |k| placed_polygon(x, k * POLYGON, m_count),
    )
}
