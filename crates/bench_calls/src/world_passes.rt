// World points as a program of Rattle asks for them: manifolds, placements and radii stand in an array, and a pass asks
// one after another, each on the world manifold of the last.
use crate::world_records;
use crate::world_records::World;
use bench_passes::passes;
use contact_definitions::b2_collision::B2worldManifold;
use contacts::b2_collision;

// All cases have manifolds of one kind, with one count.
#[unsafe(no_mangle)]
pub extern "C" fn pass_world_points(
    old: World,
    x: &[f32],
    kind: u32,
    count: usize,
    order: &[u32],
) -> World {
    let all = world_records::all_questions(x, kind, count);
    let left = passes::pass(B2worldManifold::from(old), order, |world, k| {
        let q = all[k];
        b2_collision::b2_world_manifold_initialize_core(
            world, q.m, q.xf_a, q.radius_a, q.xf_b, q.radius_b,
        )
    });
    left.into()
}
