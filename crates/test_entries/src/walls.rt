// Walls.
ghost use Rattle.wire.specs.Words.{Written};
ghost use Rattle.test_entries.specs.Walls.{one_sided_answer, two_sided_answer};

use shapes::b2_edge_shape;
use wire::answers::{self, Answered};
use wire::records;

// 5, a wall, v0, v1, v2, v3: a wall that is met from one side.
pub fn set_one_sided(input: &[u8], out: &mut [u8]) -> u32
    ensures { Written (one_sided_answer input.now) out.old result out.new }
{
    if input.len() != 76 {
        return 0;
    }
    let Some(old) = records::known_edge(input, 1) else {
        return 0;
    };
    let v0 = records::vector(input, 11);
    let v1 = records::vector(input, 13);
    let v2 = records::vector(input, 15);
    let v3 = records::vector(input, 17);
    let answer = b2_edge_shape::b2_set_one_sided(old, v0, v1, v2, v3);
    answers::put_edge(out, Answered::of(old, answer))
}

// 6, a wall, v1, v2: a wall that is met from both sides.
pub fn set_two_sided(input: &[u8], out: &mut [u8]) -> u32
    ensures { Written (two_sided_answer input.now) out.old result out.new }
{
    if input.len() != 60 {
        return 0;
    }
    let Some(old) = records::known_edge(input, 1) else {
        return 0;
    };
    let v1 = records::vector(input, 11);
    let v2 = records::vector(input, 13);
    let answer = b2_edge_shape::b2_set_two_sided(old, v1, v2);
    answers::put_edge(out, Answered::of(old, answer))
}
