// Bodies, pairs and the world: what a new shape, a placement and a fresh program make of them.
ghost use Rattle.std.specs.Prelude.{◌≡◌, ◌<◌};
ghost use Rattle.contact_definitions.specs.Manifold.{default_id};
ghost use Rattle.record_definitions.specs.World as worlds;

use contact_definitions::b2_collision::{B2contactFeature, B2contactId, CountedIds};
use floats::b2_common::B2_POLYGON_RADIUS;
use floats::b2_math::{B2Rot, B2Transform, B2vec2};
use record_definitions::world::{
    Ages, Body, CHAIN, CIRCLE, Chain, Kept, NO_BODY, OUTLINE, Pair, WALL, World,
};
use shape_definitions::b2_circle_shape::B2circleShape;
use shape_definitions::b2_edge_shape::B2edgeShape;
use shape_definitions::b2_polygon_shape::B2polygonShape;

// At the origin, unturned.
pub fn at_origin() -> B2Transform
    ensures { result ≡ worlds.at_origin }
{
    B2Transform {
        p: B2vec2 { x: 0.0, y: 0.0 },
        q: B2Rot { s: 0.0, c: 1.0 },
    }
}

pub fn blank_circle() -> B2circleShape
    ensures { result ≡ worlds.blank_circle }
{
    B2circleShape {
        m_radius: 0.0,
        m_p: B2vec2 { x: 0.0, y: 0.0 },
    }
}

pub fn blank_outline() -> B2polygonShape
    ensures { result ≡ worlds.blank_outline }
{
    let origin = B2vec2 { x: 0.0, y: 0.0 };
    let places = [origin; 8];
    B2polygonShape {
        m_radius: B2_POLYGON_RADIUS,
        m_centroid: origin,
        m_vertices: places,
        m_normals: places,
        m_count: 0,
    }
}

pub fn blank_wall() -> B2edgeShape
    ensures { result ≡ worlds.blank_wall }
{
    let origin = B2vec2 { x: 0.0, y: 0.0 };
    B2edgeShape {
        m_radius: B2_POLYGON_RADIUS,
        m_vertex0: origin,
        m_vertex1: origin,
        m_vertex2: origin,
        m_vertex3: origin,
        m_one_sided: false,
    }
}

pub fn blank_chain() -> Chain
    ensures { result ≡ worlds.blank_chain }
{
    let origin = B2vec2 { x: 0.0, y: 0.0 };
    let points = [origin; 10];
    Chain { points, count: 0 }
}

// No shape.
pub fn blank_body() -> Body
    ensures { result ≡ worlds.blank_body }
{
    Body {
        kind: NO_BODY,
        xf: at_origin(),
        circle: blank_circle(),
        outline: blank_outline(),
        wall: blank_wall(),
        chain: blank_chain(),
    }
}

pub fn circle_body(circle: B2circleShape) -> Body
    ensures { result ≡ worlds.circle_body circle }
{
    Body {
        kind: CIRCLE,
        xf: at_origin(),
        circle,
        outline: blank_outline(),
        wall: blank_wall(),
        chain: blank_chain(),
    }
}

pub fn outline_body(outline: B2polygonShape) -> Body
    ensures { result ≡ worlds.outline_body outline }
{
    Body {
        kind: OUTLINE,
        xf: at_origin(),
        circle: blank_circle(),
        outline,
        wall: blank_wall(),
        chain: blank_chain(),
    }
}

pub fn wall_body(wall: B2edgeShape) -> Body
    ensures { result ≡ worlds.wall_body wall }
{
    Body {
        kind: WALL,
        xf: at_origin(),
        circle: blank_circle(),
        outline: blank_outline(),
        wall,
        chain: blank_chain(),
    }
}

pub fn chain_body(chain: Chain) -> Body
    ensures { result ≡ worlds.chain_body chain }
{
    Body {
        kind: CHAIN,
        xf: at_origin(),
        circle: blank_circle(),
        outline: blank_outline(),
        wall: blank_wall(),
        chain,
    }
}

// The body at another place.
pub fn placed(body: Body, xf: B2Transform) -> Body
    ensures { result ≡ worlds.placed body xf }
{
    let mut moved = body;
    moved.xf = xf;
    moved
}

// The id of a point that is none.
pub fn default_id() -> B2contactId
    ensures { result ≡ default_id }
{
    B2contactId {
        cf: B2contactFeature {
            index_a: 0,
            index_b: 0,
            type_a: 0,
            type_b: 0,
        },
    }
}

// No test yet.
pub fn fresh_kept() -> Kept
    ensures { result ≡ worlds.fresh_kept }
{
    let none = default_id();
    Kept {
        ids: CountedIds {
            count: 0,
            first: none,
            second: none,
        },
        ages: Ages {
            first: 0,
            second: 0,
        },
        touches: 0,
    }
}

pub fn fresh_pair() -> Pair
    ensures { result ≡ worlds.fresh_pair }
{
    let kept = fresh_kept();
    let pieces = [kept; 7];
    Pair { pieces }
}

pub fn fresh_world() -> World
    ensures { result ≡ worlds.fresh_world }
{
    let body = blank_body();
    let pair = fresh_pair();
    let bodies = [body; 8];
    let pairs = [pair; 64];
    World { bodies, pairs }
}

// The pairs without those of one body, in either order.
pub fn forget(pairs: [Pair; 64], id: usize) -> [Pair; 64]
    requires { id < 8 }
    ensures { result ≡ worlds.forget id pairs }
{
    let fresh = fresh_pair();
    let mut ps = pairs;
    for j in 0..8 {
        ps[8 * id + j] = fresh;
        ps[8 * j + id] = fresh;
    }
    ps
}
