// World points as a call (b2_world_manifold_initialize of Box2D's b2_collision.cpp): 7 for a count above 2; nothing for
// no points; 9 for a number of the manifold or a radius out of range; 6 for a placement.
ghost use Rattle.std.specs.Prelude.{◌≡◌, ◌&&◌, ◌<◌, ◌≤◌};
ghost use Rattle.floats.specs.Ranges.{radius_in_range};
ghost use Rattle.contact_definitions.specs.WorldManifold.{manifold_in_range, world_of_kind};
ghost use Rattle.contact_definitions.specs.WorldManifold.{b2_world_manifold_initialize};
ghost use Rattle.contact_definitions.specs.Answers.{world_answered};
ghost use Rattle.collision.specs.WorldAnswer.{world_written};

use crate::{pair_ranges, world_points};
use contact_definitions::b2_collision::{B2manifold, B2manifoldType, B2worldManifold};
use floats::b2_common::B2_MAX_MANIFOLD_POINTS;
use floats::b2_math::B2Transform;
use floats::ranges;
use shape_definitions::refusal::Refusal;

// Tested together, so that the compiler can do it side by side; then the second point, where it is counted.
fn numbers_in_range(m: B2manifold, radius_a: f32, radius_b: f32) -> bool
    requires { (0 < m.point_count) × (m.point_count ≤ 2) }
    ensures { result ≡ (manifold_in_range m && radius_in_range radius_a && radius_in_range radius_b) }
{
    let p0 = m.points[0];
    let normal = ranges::local_normal_in_range(m.local_normal);
    let point = ranges::contact_point_in_range(m.local_point);
    let first = ranges::contact_point_in_range(p0.local_point);
    let a_in = ranges::radius_in_range(radius_a);
    let b_in = ranges::radius_in_range(radius_b);
    if !(normal & point & first & a_in & b_in) {
        return false;
    }
    if m.point_count == 1 {
        return true;
    }
    let p1 = m.points[1];
    ranges::contact_point_in_range(p1.local_point)
}

// By the kind of the manifold.
fn world_of_kind(
    kind: B2manifoldType,
    old: B2worldManifold,
    m: B2manifold,
    xf_a: B2Transform,
    radius_a: f32,
    xf_b: B2Transform,
    radius_b: f32,
) -> B2worldManifold
    requires { (0 < m.point_count) × (m.point_count ≤ 2) }
    ensures { result ≡ world_of_kind kind old m xf_a radius_a xf_b radius_b }
{
    match kind {
        B2manifoldType::ECircles => {
            world_points::world_of_circles(old, m, xf_a, radius_a, xf_b, radius_b)
        }
        B2manifoldType::EFaceA => {
            world_points::world_of_face::<false>(old, m, xf_a, radius_a, xf_b, radius_b)
        }
        B2manifoldType::EFaceB => {
            world_points::world_of_face::<true>(old, m, xf_b, radius_b, xf_a, radius_a)
        }
    }
}

// The world manifold of m, from the one that was given.
pub fn b2_world_manifold_initialize_core(
    old: B2worldManifold,
    m: B2manifold,
    xf_a: B2Transform,
    radius_a: f32,
    xf_b: B2Transform,
    radius_b: f32,
) -> Result<B2worldManifold, Refusal>
    ensures { world_answered old result ≡ b2_world_manifold_initialize old m xf_a radius_a xf_b radius_b }
{
    let count = m.point_count;
    if count > B2_MAX_MANIFOLD_POINTS {
        return Err(Refusal::CountOutOfRange);
    }
    if count == 0 {
        return Ok(old);
    }
    if !numbers_in_range(m, radius_a, radius_b) {
        return Err(Refusal::ContactOutOfRange);
    }
    if !pair_ranges::placements_in_range(xf_a, xf_b) {
        return Err(Refusal::PlacementOutOfRange);
    }
    let kind = m.manifold_type;
    Ok(world_of_kind(kind, old, m, xf_a, radius_a, xf_b, radius_b))
}

// The same, with the caller's record changed through a reference.
pub fn b2_world_manifold_initialize(
    world: &mut B2worldManifold,
    m: B2manifold,
    xf_a: B2Transform,
    radius_a: f32,
    xf_b: B2Transform,
    radius_b: f32,
) -> Result<(), Refusal>
    ensures { world_written world.new result
        ≡ b2_world_manifold_initialize world.old m xf_a radius_a xf_b radius_b }
{
    *world = b2_world_manifold_initialize_core(*world, m, xf_a, radius_a, xf_b, radius_b)?;
    Ok(())
}
