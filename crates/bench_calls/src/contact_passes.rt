// The contact calls as a program of Rattle makes them: shapes stand in arrays, and a pass calls one after another, each
// on the answer of the last.
use crate::manifolds::Manifold;
use bench_passes::clip_records::Clip;
use bench_passes::state_records::States;
use bench_passes::{clip_passes, pair_passes, state_passes};

#[unsafe(no_mangle)]
pub extern "C" fn pass_circles(old: Manifold, a: &[f32], b: &[f32], order: &[u32]) -> Manifold {
    pair_passes::circles(old.into(), a, b, order).into()
}

#[unsafe(no_mangle)]
pub extern "C" fn pass_polygon_and_circle(
    old: Manifold,
    a: &[f32],
    count_a: usize,
    b: &[f32],
    order: &[u32],
) -> Manifold {
    pair_passes::polygon_and_circle(old.into(), a, count_a, b, order).into()
}

#[unsafe(no_mangle)]
pub extern "C" fn pass_polygons(
    old: Manifold,
    a: &[f32],
    count_a: usize,
    b: &[f32],
    count_b: usize,
    order: &[u32],
) -> Manifold {
    pair_passes::polygons(old.into(), a, count_a, b, count_b, order).into()
}

#[unsafe(no_mangle)]
pub extern "C" fn pass_edge_and_circle(
    old: Manifold,
    a: &[f32],
    one_sided: bool,
    b: &[f32],
    order: &[u32],
) -> Manifold {
    pair_passes::edge_and_circle(old.into(), a, one_sided, b, order).into()
}

#[unsafe(no_mangle)]
pub extern "C" fn pass_edge_and_polygon(
    old: Manifold,
    a: &[f32],
    one_sided: bool,
    b: &[f32],
    count_b: usize,
    order: &[u32],
) -> Manifold {
    pair_passes::edge_and_polygon(old.into(), a, one_sided, b, count_b, order).into()
}

#[unsafe(no_mangle)]
pub extern "C" fn pass_clip(old: Clip, x: &[f32], order: &[u32]) -> Clip {
    clip_passes::clip(old, x, order)
}

#[unsafe(no_mangle)]
pub extern "C" fn pass_point_states(x: &[u8], order: &[u32]) -> States {
    state_passes::states(x, order)
}
