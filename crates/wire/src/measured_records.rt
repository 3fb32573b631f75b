// Measured circles and boxes of a request, read at word i, and the answers about two of them, as words.
ghost use Rattle.std.specs.Prelude.{◌≡◌, ◌+◌, ◌*◌, ◌≤◌, length};
ghost use Rattle.wire.specs.Words.{Written};
ghost use Rattle.wire.specs.MeasuredRecords.{span_at, measured_circle_at, measured_box_at};
ghost use Rattle.wire.specs.MeasuredRecords.{circles_answer_words, boxes_answer_words};

use crate::words;
use measured_definitions::{BoxesAnswer, CirclesAnswer, MeasuredBox, MeasuredCircle, Span};

fn span(input: &[u8], i: usize) -> Span
    requires { 4 * i + 8 ≤ length input.now }
    ensures { result ≡ span_at input.now i }
{
    let lowest = words::word(input, i).cast_signed();
    let highest = words::word(input, i + 1).cast_signed();
    Span { lowest, highest }
}

pub fn measured_circle(input: &[u8], i: usize) -> MeasuredCircle
    requires { 4 * i + 24 ≤ length input.now }
    ensures { result ≡ measured_circle_at input.now i }
{
    let x = span(input, i);
    let y = span(input, i + 2);
    let radius = span(input, i + 4);
    MeasuredCircle { x, y, radius }
}

pub fn measured_box(input: &[u8], i: usize) -> MeasuredBox
    requires { 4 * i + 32 ≤ length input.now }
    ensures { result ≡ measured_box_at input.now i }
{
    let x = span(input, i);
    let y = span(input, i + 2);
    let hx = span(input, i + 4);
    let hy = span(input, i + 6);
    MeasuredBox { x, y, hx, hy }
}

// Two writers, as C has two records of answers.
pub fn put_circles_answer(out: &mut [u8], answer: CirclesAnswer) -> u32
    ensures { Written (circles_answer_words answer) out.old result out.new }
{
    let t = answer.touching;
    let ta = t.a;
    let tb = t.b;
    let s = answer.apart;
    let sa = s.a;
    let sb = s.b;
    let whole = [
        answer.refusal,
        answer.verdict,
        ta.x.cast_unsigned(),
        ta.y.cast_unsigned(),
        ta.radius.cast_unsigned(),
        tb.x.cast_unsigned(),
        tb.y.cast_unsigned(),
        tb.radius.cast_unsigned(),
        sa.x.cast_unsigned(),
        sa.y.cast_unsigned(),
        sa.radius.cast_unsigned(),
        sb.x.cast_unsigned(),
        sb.y.cast_unsigned(),
        sb.radius.cast_unsigned(),
    ];
    words::put_words(out, &whole)
}

pub fn put_boxes_answer(out: &mut [u8], answer: BoxesAnswer) -> u32
    ensures { Written (boxes_answer_words answer) out.old result out.new }
{
    let t = answer.touching;
    let ta = t.a;
    let tb = t.b;
    let s = answer.apart;
    let sa = s.a;
    let sb = s.b;
    let whole = [
        answer.refusal,
        answer.verdict,
        ta.x.cast_unsigned(),
        ta.y.cast_unsigned(),
        ta.hx.cast_unsigned(),
        ta.hy.cast_unsigned(),
        tb.x.cast_unsigned(),
        tb.y.cast_unsigned(),
        tb.hx.cast_unsigned(),
        tb.hy.cast_unsigned(),
        sa.x.cast_unsigned(),
        sa.y.cast_unsigned(),
        sa.hx.cast_unsigned(),
        sa.hy.cast_unsigned(),
        sb.x.cast_unsigned(),
        sb.y.cast_unsigned(),
        sb.hx.cast_unsigned(),
        sb.hy.cast_unsigned(),
    ];
    words::put_words(out, &whole)
}
