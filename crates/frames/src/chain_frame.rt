// Frame 07: a chain of walls is defined. A caller has compared the frame's length with its count.
ghost use Rattle.std.specs.Prelude.{◌≡◌, not, List, ℕ, ◌+◌, ◌*◌, ◌≤◌, length, take};
ghost use Rattle.floats.specs.Ranges.{point_in_range};
ghost use Rattle.lines.specs.Fields.{byte_at};
ghost use Rattle.shape_definitions.specs.Polygon.{all_points};
ghost use Rattle.shape_definitions.specs.Refusal.{refusal_number};
ghost use Rattle.contact_definitions.specs.Searches.{some_below};
ghost use Rattle.record_definitions.specs.declared.world.Body.{Body};
ghost use Rattle.record_definitions.specs.declared.world.Pair.{Pair};
ghost use Rattle.record_definitions.specs.Frame as definitions;
ghost use Rattle.frames.specs.Made.{of_body};

use crate::changes::BodyChange;
use crate::world;
use floats::b2_common::B2_LINEAR_SLOP;
use floats::b2_math::B2vec2;
use floats::{b2_math, ranges};
use lines::fields;
use record_definitions::world::Chain;
use shape_definitions::refusal::Refusal;

// The point before, the points and the point after.
fn chain_read(bytes: &[u8]) -> Chain
    requires { (byte_at bytes.now 2 ≤ 8) × (length bytes.now ≡ 19 + 8 * byte_at bytes.now 2) }
    ensures { result ≡ definitions.chain_at bytes.now }
{
    let count = fields::byte(bytes, 2) as usize;
    let points = fields::points(bytes, 3, count + 2);
    Chain { points, count }
}

// Whether the first n points are in range.
fn all_in_range(points: [B2vec2; 10], n: usize) -> bool
    requires { n ≤ 10 }
    ensures { result ≡ all_points point_in_range (take n points) }
{
    for i in 0..n {
        if !ranges::point_in_range(points[i]) {
            return false;
        }
    }
    true
}

// Whether one of the first n pieces is no longer than 0.005.
fn some_short(chain: Chain, n: usize) -> bool
    requires { n ≤ 7 }
    ensures { result ≡ some_below (λ (i : ℕ). not (definitions.long_piece chain i)) n }
{
    let points = chain.points;
    for i in 0..n {
        let length = b2_math::b2_distance_vec2_squared(points[i + 2], points[i + 1]);
        if !(length > B2_LINEAR_SLOP * B2_LINEAR_SLOP) {
            return true;
        }
    }
    false
}

// What a chain is refused for, whatever frame it was read from.
fn check_chain(chain: Chain) -> Result<(), Refusal>
    requires { chain.count ≤ 8 }
    ensures { (bytes : List ℕ) → chain ≡ definitions.chain_at bytes
        → refusal_number result ≡ definitions.chain_refusal bytes }
{
    let count = chain.count;
    if count < 2 {
        return Err(Refusal::ChainTooFew);
    }
    let points = chain.points;
    if !all_in_range(points, count + 2) {
        return Err(Refusal::ShapeOutOfRange);
    }
    if some_short(chain, count - 1) {
        return Err(Refusal::ChainTooNear);
    }
    Ok(())
}

// 07 id count, the point before, the points, the point after
pub fn chain_frame(bytes: &[u8]) -> Result<BodyChange, Refusal>
    requires { (byte_at bytes.now 2 ≤ 8) × (length bytes.now ≡ 19 + 8 * byte_at bytes.now 2) }
    ensures { (body : Body) (pair : Pair) → of_body body result pair ≡ definitions.chain_change body pair bytes.now }
{
    let chain = chain_read(bytes);
    check_chain(chain)?;
    Ok(BodyChange::Defined(world::chain_body(chain)))
}
