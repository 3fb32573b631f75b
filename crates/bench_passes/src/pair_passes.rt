// Passes over pairs of shapes: each call on the manifold of the last.
use crate::passes::Left;
use crate::{passes, placed};
use contact_definitions::b2_collision::B2manifold;
use contacts::{b2_collide_circle, b2_collide_edge, b2_collide_polygon};

pub fn circles(old: B2manifold, a: &[f32], b: &[f32], order: &[u32]) -> Left<B2manifold> {
    let all_a = placed::all_circles(a);
    let all_b = placed::all_circles(b);
    passes::pass(old, order, |m, k| {
        let a = all_a[k];
        let b = all_b[k];
        b2_collide_circle::b2_collide_circles(m, a.shape, a.place, b.shape, b.place)
    })
}

pub fn polygon_and_circle(
    old: B2manifold,
    a: &[f32],
    count_a: usize,
    b: &[f32],
    order: &[u32],
) -> Left<B2manifold> {
    let all_a = placed::all_polygons(a, count_a);
    let all_b = placed::all_circles(b);
    passes::pass(old, order, |m, k| {
        let a = all_a[k];
        let b = all_b[k];
        b2_collide_circle::b2_collide_polygon_and_circle(m, a.shape, a.place, b.shape, b.place)
    })
}

pub fn polygons(
    old: B2manifold,
    a: &[f32],
    count_a: usize,
    b: &[f32],
    count_b: usize,
    order: &[u32],
) -> Left<B2manifold> {
    let all_a = placed::all_polygons(a, count_a);
    let all_b = placed::all_polygons(b, count_b);
    passes::pass(old, order, |m, k| {
        let a = all_a[k];
        let b = all_b[k];
        b2_collide_polygon::b2_collide_polygons(m, a.shape, a.place, b.shape, b.place)
    })
}

pub fn edge_and_circle(
    old: B2manifold,
    a: &[f32],
    one_sided: bool,
    b: &[f32],
    order: &[u32],
) -> Left<B2manifold> {
    let all_a = placed::all_edges(a, one_sided);
    let all_b = placed::all_circles(b);
    passes::pass(old, order, |m, k| {
        let a = all_a[k];
        let b = all_b[k];
        b2_collide_edge::b2_collide_edge_and_circle(m, a.shape, a.place, b.shape, b.place)
    })
}

pub fn edge_and_polygon(
    old: B2manifold,
    a: &[f32],
    one_sided: bool,
    b: &[f32],
    count_b: usize,
    order: &[u32],
) -> Left<B2manifold> {
    let all_a = placed::all_edges(a, one_sided);
    let all_b = placed::all_polygons(b, count_b);
    passes::pass(old, order, |m, k| {
        let a = all_a[k];
        let b = all_b[k];
        b2_collide_edge::b2_collide_edge_and_polygon(m, a.shape, a.place, b.shape, b.place)
    })
}
