// Frames 01 to 04 and 06: a body is defined and placed. A caller has compared the frame's length with its kind.
ghost use Rattle.std.specs.Prelude.{◌≡◌, ◌+◌, ◌*◌, ◌≤◌, length};
ghost use Rattle.headings.specs.Headings.{quarter_waves};
ghost use Rattle.lines.specs.Fields.{byte_at};
ghost use Rattle.shape_definitions.specs.Answers.{edge_answered};
ghost use Rattle.record_definitions.specs.declared.world.Body.{Body};
ghost use Rattle.record_definitions.specs.declared.world.Pair.{Pair};
ghost use Rattle.record_definitions.specs.World.{blank_wall};
ghost use Rattle.record_definitions.specs.Frame.{wall_at, circle_change, outline_change, wall_change, place_change};
ghost use Rattle.record_definitions.specs.Frame.{placed_at, turn_at, turn_change};
ghost use Rattle.frames.specs.Made.{of_body};

use crate::changes::BodyChange;
use crate::world;
use floats::b2_math::B2Transform;
use floats::ranges;
use headings::turns;
use lines::fields;
use record_definitions::world::{Body, LARGEST_TURN, NO_BODY};
use shape_definitions::b2_circle_shape::B2circleShape;
use shape_definitions::b2_edge_shape::B2edgeShape;
use shape_definitions::refusal::Refusal;
use shape_ranges::circle_range;
use shapes::{b2_edge_shape, b2_polygon_shape};

// 01 id x y radius
pub fn circle_frame(bytes: &[u8]) -> Result<BodyChange, Refusal>
    requires { length bytes.now ≡ 14 }
    ensures { (body : Body) (pair : Pair) → of_body body result pair ≡ circle_change body pair bytes.now }
{
    let m_p = fields::vector(bytes, 2);
    let m_radius = fields::float(bytes, 10);
    let circle = B2circleShape { m_radius, m_p };
    if !circle_range::circle_in_range(circle) {
        return Err(Refusal::ShapeOutOfRange);
    }
    Ok(BodyChange::Defined(world::circle_body(circle)))
}

// 02 id count points
pub fn outline_frame(bytes: &[u8]) -> Result<BodyChange, Refusal>
    requires { (byte_at bytes.now 2 ≤ 8) × (length bytes.now ≡ 3 + 8 * byte_at bytes.now 2) }
    ensures { (body : Body) (pair : Pair) → of_body body result pair ≡ outline_change body pair bytes.now }
{
    let count = fields::byte(bytes, 2) as usize;
    let points = fields::points(bytes, 3, count);
    let shape = b2_polygon_shape::b2_polygon_shape_set_core(world::blank_outline(), points, count)?;
    Ok(BodyChange::Defined(world::outline_body(shape)))
}

// The wall of a frame: two-sided, or with a ghost point before and after it.
fn wall_read(bytes: &[u8]) -> Result<B2edgeShape, Refusal>
    requires { (19 ≤ length bytes.now) × ((byte_at bytes.now 2 ≡ 0 → ⊥) → 35 ≤ length bytes.now) }
    ensures { edge_answered blank_wall result ≡ wall_at bytes.now }
{
    let v0 = fields::vector(bytes, 3);
    let v1 = fields::vector(bytes, 11);
    if fields::byte(bytes, 2) == 0 {
        return b2_edge_shape::b2_set_two_sided(world::blank_wall(), v0, v1);
    }
    let v2 = fields::vector(bytes, 19);
    let v3 = fields::vector(bytes, 27);
    b2_edge_shape::b2_set_one_sided(world::blank_wall(), v0, v1, v2, v3)
}

// 03 id flag points
pub fn wall_frame(bytes: &[u8]) -> Result<BodyChange, Refusal>
    requires { (19 ≤ length bytes.now) × ((byte_at bytes.now 2 ≡ 0 → ⊥) → 35 ≤ length bytes.now) }
    ensures { (body : Body) (pair : Pair) → of_body body result pair ≡ wall_change body pair bytes.now }
{
    let shape = wall_read(bytes)?;
    Ok(BodyChange::Defined(world::wall_body(shape)))
}

// The body at another place, where that is in range.
fn moved(body: Body, xf: B2Transform) -> Result<BodyChange, Refusal>
    ensures { (pair : Pair) → of_body body result pair ≡ placed_at body pair xf }
{
    if !ranges::transform_in_range(xf) {
        return Err(Refusal::PlacementOutOfRange);
    }
    Ok(BodyChange::Moved(world::placed(body, xf)))
}

// 04 id x y sine cosine
pub fn place_frame(body: Body, bytes: &[u8]) -> Result<BodyChange, Refusal>
    requires { length bytes.now ≡ 18 }
    ensures { (pair : Pair) → of_body body result pair ≡ place_change body pair bytes.now }
{
    if body.kind == NO_BODY {
        return Err(Refusal::NoShape);
    }
    moved(body, fields::placement(bytes, 2))
}

// Two bytes, highest first.
fn turn_number(bytes: &[u8], at: usize) -> usize
    requires { at ≤ 200 }
    ensures { result ≡ turn_at bytes.now at }
{
    fields::byte(bytes, at) as usize * 256 + fields::byte(bytes, at + 1) as usize
}

// 06 id x y turn number: the heading comes from the lent table.
pub fn turn_frame(body: Body, bytes: &[u8], sines: &[f32]) -> Result<BodyChange, Refusal>
    requires { (length bytes.now ≡ 12) × (sines.now ≡ quarter_waves) }
    ensures { (pair : Pair) → of_body body result pair ≡ turn_change body pair bytes.now }
{
    if body.kind == NO_BODY {
        return Err(Refusal::NoShape);
    }
    let number = turn_number(bytes, 10);
    if number > LARGEST_TURN {
        return Err(Refusal::UnknownTurn);
    }
    let p = fields::vector(bytes, 2);
    let q = turns::heading(sines, number);
    moved(body, B2Transform { p, q })
}
