// The state: eight bodies, and for each ordered pair of them what its last test left.
use contact_definitions::b2_collision::CountedIds;
use floats::b2_math::{B2Transform, B2vec2};
use shape_definitions::b2_circle_shape::B2circleShape;
use shape_definitions::b2_edge_shape::B2edgeShape;
use shape_definitions::b2_polygon_shape::B2polygonShape;

// A body's kind is that of the frame that defines it: 1 circle, 2 outline, 3 wall, 7 chain; 0 where there is no shape.
// The shapes of the other kinds are blank.
pub const NO_BODY: u8 = 0;

pub const CIRCLE: u8 = 1;

pub const OUTLINE: u8 = 2;

pub const WALL: u8 = 3;

pub const CHAIN: u8 = 7;

// Ids are 0 to 7.
pub const LARGEST_ID: u8 = 7;

// Turn numbers are 0 to 4,095.
pub const LARGEST_TURN: usize = 4095;

// A chain of walls: the point before, count points, the point after; places past them hold the origin.
#[derive(Clone, Copy)]
pub struct Chain {
    pub points: [B2vec2; 10],
    pub count: usize,
}

#[derive(Clone, Copy)]
pub struct Body {
    pub kind: u8,
    pub xf: B2Transform,
    pub circle: B2circleShape,
    pub outline: B2polygonShape,
    pub wall: B2edgeShape,
    pub chain: Chain,
}

// The ages of a contact's points; those past the count are none.
#[derive(Clone, Copy)]
pub struct Ages {
    pub first: u32,
    pub second: u32,
}

// What is kept of a test: the ids of the contact's points and their ages, and the touches.
#[derive(Clone, Copy)]
pub struct Kept {
    pub ids: CountedIds,
    pub ages: Ages,
    pub touches: u32,
}

// What a pair keeps: for each piece of its first body, its last test. A chain has up to seven pieces, any other body is
// its own first one.
#[derive(Clone, Copy)]
pub struct Pair {
    pub pieces: [Kept; 7],
}

// The pair of bodies a and b stands at 8 * a + b.
#[derive(Clone, Copy)]
pub struct World {
    pub bodies: [Body; 8],
    pub pairs: [Pair; 64],
}
