// Two bodies measured with a tolerance.
ghost use Rattle.wire.specs.Words.{Written};
ghost use Rattle.test_entries.specs.Measured.{measured_circles_answer, measured_boxes_answer};

use measured_bodies::export;
use wire::measured_records;

// 20, two measured circles: the refusal, the verdict, the touching pair and the pair apart.
pub fn circles(input: &[u8], out: &mut [u8]) -> u32
    ensures { Written (measured_circles_answer input.now) out.old result out.new }
{
    if input.len() != 52 {
        return 0;
    }
    let a = measured_records::measured_circle(input, 1);
    let b = measured_records::measured_circle(input, 7);
    let answer = export::netxurbil_measured_circles(a, b);
    measured_records::put_circles_answer(out, answer)
}

// 21, two measured boxes: the same of boxes.
pub fn boxes(input: &[u8], out: &mut [u8]) -> u32
    ensures { Written (measured_boxes_answer input.now) out.old result out.new }
{
    if input.len() != 68 {
        return 0;
    }
    let a = measured_records::measured_box(input, 1);
    let b = measured_records::measured_box(input, 9);
    let answer = export::netxurbil_measured_boxes(a, b);
    measured_records::put_boxes_answer(out, answer)
}
