// Clipping, world points and point states.
ghost use Rattle.wire.specs.Words.{Written};
ghost use Rattle.test_entries.specs.Points.{clip_answer, world_points_answer, point_states_answer};

use contact_definitions::b2_collision::Clip;
use contacts::b2_collision;
use wire::answers::Answered;
use wire::{contact_answers, contact_records, records, words};

// 12, two clip vertices (the output places), two clip vertices, normal, offset, index: the number of points, and the
// places after the call.
pub fn clip(input: &[u8], out: &mut [u8]) -> u32
    ensures { Written (clip_answer input.now) out.old result out.new }
{
    if input.len() != 68 {
        return 0;
    }
    let old = contact_records::clip_vertices(input, 1);
    let ends = contact_records::clip_vertices(input, 7);
    let normal = records::vector(input, 13);
    let offset = records::float(input, 15);
    let index = words::word(input, 16) as usize;
    let answer = b2_collision::b2_clip_segment_to_line(old, ends, normal, offset, index);
    let given = Clip { out: old, count: 0 };
    contact_answers::put_clip(out, Answered::of(given, answer))
}

// 13, a world manifold, a manifold, placement A, radius A, placement B, radius B: the world points.
pub fn world_points(input: &[u8], out: &mut [u8]) -> u32
    ensures { Written (world_points_answer input.now) out.old result out.new }
{
    if input.len() != 140 {
        return 0;
    }
    let old = contact_records::world_manifold(input, 1);
    let Some(m) = contact_records::known_manifold(input, 9) else {
        return 0;
    };
    let xfa = contact_records::transform(input, 25);
    let radius_a = records::float(input, 29);
    let xfb = contact_records::transform(input, 30);
    let radius_b = records::float(input, 34);
    let answer = b2_collision::b2_world_manifold_initialize_core(
        old, m, xfa, radius_a, xfb, radius_b,
    );
    contact_answers::put_world(out, Answered::of(old, answer))
}

// 14, four states, the old manifold, the new manifold: the states of both manifolds' points.
pub fn states(input: &[u8], out: &mut [u8]) -> u32
    ensures { Written (point_states_answer input.now) out.old result out.new }
{
    if input.len() != 148 {
        return 0;
    }
    let Some(given) = contact_records::known_states(input, 1) else {
        return 0;
    };
    let Some(m1) = contact_records::known_manifold(input, 5) else {
        return 0;
    };
    let Some(m2) = contact_records::known_manifold(input, 21) else {
        return 0;
    };
    let answer = b2_collision::b2_get_point_states(given, m1, m2);
    contact_answers::put_states(out, Answered::of(given, answer))
}
