// The pieces of a body: those of a chain are walls, and any other body is its own only one.
ghost use Rattle.std.specs.Prelude.{◌≡◌, ◌-◌, ◌<◌, min};
ghost use Rattle.record_definitions.specs.World as worlds;

use crate::world;
use floats::b2_common::B2_POLYGON_RADIUS;
use record_definitions::world::{Body, CHAIN, Chain};
use shape_definitions::b2_edge_shape::B2edgeShape;

// The pieces of a chain past its first, by its count of points: at most six.
pub fn further_pieces(count: usize) -> usize
    ensures { result ≡ min (count - 1) worlds.most_pieces - 1 }
{
    if count < 2 {
        return 0;
    }
    if count > 8 {
        return 6;
    }
    count - 2
}

// Piece i of a chain: the wall from its point i to the next, with its neighbours for ghost points.
fn piece_wall(chain: Chain, i: usize) -> B2edgeShape
    requires { i < worlds.most_pieces }
    ensures { result ≡ worlds.piece_wall chain i }
{
    let points = chain.points;
    let v0 = points[i];
    let v1 = points[i + 1];
    let v2 = points[i + 2];
    let v3 = points[i + 3];
    B2edgeShape {
        m_radius: B2_POLYGON_RADIUS,
        m_vertex0: v0,
        m_vertex1: v1,
        m_vertex2: v2,
        m_vertex3: v3,
        m_one_sided: true,
    }
}

// Piece i of a body, where the body is.
pub fn piece_of(body: Body, i: usize) -> Body
    requires { i < worlds.most_pieces }
    ensures { result ≡ worlds.piece_of body i }
{
    if body.kind != CHAIN {
        return body;
    }
    let chain = body.chain;
    let xf = body.xf;
    let wall = piece_wall(chain, i);
    world::placed(world::wall_body(wall), xf)
}
