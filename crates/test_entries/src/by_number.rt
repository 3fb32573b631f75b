// The entry of a number, by which C asks, or 0 where none has it.
ghost use Rattle.wire.specs.Words.{Written};
ghost use Rattle.test_entries.specs.ByNumber.{shape_answer, contact_answer};

use crate::{outlines, pairs, points, walls};

// 1 to 6 make and test shapes.
pub fn shape_call(entry: u32, input: &[u8], out: &mut [u8]) -> u32
    ensures { Written (shape_answer entry input.now) out.old result out.new }
{
    match entry {
        1 => outlines::set(input, out),
        2 => outlines::set_as_box(input, out),
        3 => outlines::set_as_box_angle(input, out),
        4 => outlines::validate(input, out),
        5 => walls::set_one_sided(input, out),
        6 => walls::set_two_sided(input, out),
        _ => 0,
    }
}

// 7 to 14 are contact calls.
pub fn contact_call(entry: u32, input: &[u8], out: &mut [u8]) -> u32
    ensures { Written (contact_answer entry input.now) out.old result out.new }
{
    match entry {
        7 => pairs::circles(input, out),
        8 => pairs::polygon_and_circle(input, out),
        9 => pairs::polygons(input, out),
        10 => pairs::edge_and_circle(input, out),
        11 => pairs::edge_and_polygon(input, out),
        12 => points::clip(input, out),
        13 => points::world_points(input, out),
        14 => points::states(input, out),
        _ => 0,
    }
}
