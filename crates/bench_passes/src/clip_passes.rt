// Passes over segments: each clipped over what was left of the last.
ghost use Rattle.std.specs.Prelude.{◌+◌, ◌≤◌, length};

use crate::numbers::CASES;
use crate::{clip_records, passes};
use contact_definitions::b2_collision::{B2clipVertex, B2contactFeature, B2contactId, Clip};
use contacts::b2_collision;
use floats::b2_math::B2vec2;

// How many numbers a segment and its line have: two ends, the normal and the offset.
const SEGMENT: usize = 7;

// A segment and the line that it is clipped to, whose vertex has an index.
#[derive(Clone, Copy)]
struct Segment {
    ends: [B2clipVertex; 2],
    normal: B2vec2,
    offset: f32,
    index: usize,
}

// A corner of an edge, met by face 1.
fn end_of(x: f32, y: f32, index: usize) -> B2clipVertex {
    B2clipVertex {
        v: B2vec2 { x, y },
        id: B2contactId {
            cf: B2contactFeature {
                index_a: 1,
                index_b: (index % 8) as u8,
                type_a: 1,
                type_b: 0,
            },
        },
    }
}

fn segment_at(x: &[f32], i: usize, index: usize) -> Segment
    requires { (i + 7 ≤ length x.now) × (index ≤ 8) }
{
    Segment {
        ends: [
            end_of(x[i], x[i + 1], index),
            end_of(x[i + 2], x[i + 3], index + 1),
        ],
        normal: B2vec2 {
            x: x[i + 4],
            y: x[i + 5],
        },
        offset: x[i + 6],
        index,
    }
}

fn all_segments(x: &[f32]) -> [Segment; CASES] {
    let none = Segment {
        ends: [end_of(0.0, 0.0, 0), end_of(0.0, 0.0, 0)],
        normal: B2vec2 { x: 0.0, y: 0.0 },
        offset: 0.0,
        index: 0,
    };
    passes::all(
        x.len() / SEGMENT,
        none,
        |k| segment_at(x, k * SEGMENT, k % 8),
    )
}

pub fn clip(old: clip_records::Clip, x: &[f32], order: &[u32]) -> clip_records::Clip {
    let segments = all_segments(x);
    let left = passes::pass(Clip::from(old), order, |last, k| {
        let s = segments[k];
        b2_collision::b2_clip_segment_to_line(last.out, s.ends, s.normal, s.offset, s.index)
    });
    left.into()
}
