// Outlines: the builder, boxes and the convexity test.
ghost use Rattle.wire.specs.Words.{Written};
ghost use Rattle.test_entries.specs.Outlines.{set_answer, box_answer, box_angle_answer, validate_answer};

use shapes::b2_polygon_shape;
use wire::answers::{self, Answered};
use wire::{records, words};

// 1, an outline, n, n points: the outline of the points.
pub fn set(input: &[u8], out: &mut [u8]) -> u32
    ensures { Written (set_answer input.now) out.old result out.new }
{
    if input.len() < 152 {
        return 0;
    }
    let n = words::word(input, 37) as usize;
    if input.len() != 4 * (38 + 2 * n) {
        return 0;
    }
    let old = records::polygon(input, 1);
    let points = records::points(input, 38, n.min(8));
    let answer = b2_polygon_shape::b2_polygon_shape_set_core(old, points, n);
    answers::put_polygon(out, Answered::of(old, answer))
}

// 2, an outline, hx, hy: a box.
pub fn set_as_box(input: &[u8], out: &mut [u8]) -> u32
    ensures { Written (box_answer input.now) out.old result out.new }
{
    if input.len() != 156 {
        return 0;
    }
    let old = records::polygon(input, 1);
    let hx = records::float(input, 37);
    let hy = records::float(input, 38);
    let answer = b2_polygon_shape::b2_polygon_shape_set_as_box(old, hx, hy);
    answers::put_polygon(out, Answered::of(old, answer))
}

// 3, an outline, hx, hy, the centre, sine, cosine: a box that is turned and moved.
pub fn set_as_box_angle(input: &[u8], out: &mut [u8]) -> u32
    ensures { Written (box_angle_answer input.now) out.old result out.new }
{
    if input.len() != 172 {
        return 0;
    }
    let old = records::polygon(input, 1);
    let hx = records::float(input, 37);
    let hy = records::float(input, 38);
    let center = records::vector(input, 39);
    let q = records::rotation(input, 41);
    let answer = b2_polygon_shape::b2_polygon_shape_set_as_box_angle(old, hx, hy, center, q);
    answers::put_polygon(out, Answered::of(old, answer))
}

// 4, an outline: whether it is convex.
pub fn validate(input: &[u8], out: &mut [u8]) -> u32
    ensures { Written (validate_answer input.now) out.old result out.new }
{
    if input.len() != 148 {
        return 0;
    }
    let shape = records::polygon(input, 1);
    let convex = b2_polygon_shape::b2_polygon_shape_validate(shape);
    let answer = [
        answers::refusal_word(convex),
        u32::from(convex.unwrap_or(false)),
    ];
    words::put_words(out, &answer)
}
