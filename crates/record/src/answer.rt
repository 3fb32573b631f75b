// Answers, written to the front of a lent buffer: as bytes, for the export, and as lines, for the program. Each part of
// a test's result, and each line, is written into what the parts before it leave of the buffer.
ghost use Rattle.std.specs.Prelude.{◌≡◌, ◌*◌, ◌≤◌, min, length, take};
ghost use Rattle.algebra.specs.Buffer.{over};
ghost use Rattle.lines.specs.Buffers.{Put};
ghost use Rattle.lines.specs.Hex.{line_of};
ghost use Rattle.record_definitions.specs.Answer.{names_bytes, states_bytes, head_bytes, point_bytes, touch_bytes};
ghost use Rattle.record_definitions.specs.Answer.{answer_bytes, said_bytes, touch_lines, said_line, longest_answer};
ghost use Rattle.record_definitions.specs.Answer.{longest_line, most_further, longest_said};
ghost use Rattle.record_definitions.specs.Server.{step_bytes};
ghost use Rattle.record_definitions.specs.declared.frame.Answer.TheVariants.{Refused};
ghost use Rattle.shape_definitions.specs.Refusal.{number_of};

use contact_definitions::b2_collision::PointStates;
use lines::{fields, hex};
use record_definitions::frame::{Answer, Said};
use record_definitions::touch::{Touch, TouchPoint};
use shape_definitions::refusal::Refusal;

// Where each part of a test's result ends: its head, the normal, the first point, and the second.
const HEAD: usize = 13;

const NORMAL: usize = HEAD + 8;

// A point: its place, its separation and its age.
const POINT: usize = 16;

const FIRST_POINT: usize = NORMAL + POINT;

pub const LONGEST_ANSWER: usize = FIRST_POINT + POINT;

// The characters of the longest line: its digits and the line feed.
const LONGEST_LINE: usize = 2 * LONGEST_ANSWER + 1;

// The results of a chain behind its first piece, and the characters of all its lines.
const MOST_FURTHER: usize = 6;

pub const LONGEST_SAID: usize = (1 + MOST_FURTHER) * LONGEST_LINE;

// The kind of the frame, both ids, the point count and the kind of the contact.
fn put_names(out: &mut [u8], t: Touch)
    requires { 5 ≤ length out.old }
    ensures { out.new ≡ over (names_bytes t) out.old }
{
    out[0] = 5;
    out[1] = t.a;
    out[2] = t.b;
    out[3] = t.count;
    out[4] = t.kind;
}

// The two old states, then the two new ones.
fn put_states(out: &mut [u8], s: PointStates)
    requires { 4 ≤ length out.old }
    ensures { out.new ≡ over (states_bytes s) out.old }
{
    out[0] = u8::from(s.old0);
    out[1] = u8::from(s.old1);
    out[2] = u8::from(s.new0);
    out[3] = u8::from(s.new1);
}

// What every result has.
fn put_head(out: &mut [u8], t: Touch)
    requires { 13 ≤ length out.old }
    ensures { out.new ≡ over (head_bytes t) out.old }
{
    put_names(out, t);
    put_states(&mut out[5..], t.states);
    fields::put_number(&mut out[9..], t.touches);
}

// Its place, then its separation, then its age.
fn put_point(out: &mut [u8], p: TouchPoint)
    requires { 16 ≤ length out.old }
    ensures { out.new ≡ over (point_bytes p) out.old }
{
    fields::put_vector(out, p.p);
    fields::put_float(&mut out[8..], p.separation);
    fields::put_number(&mut out[12..], p.age);
}

// How many bytes the result has.
fn put_touch(out: &mut [u8], t: Touch) -> usize
    requires { longest_answer ≤ length out.old }
    ensures put { Put (touch_bytes t) out.old result out.new }
    ensures upper_bound { result ≤ longest_answer }
{
    put_head(out, t);
    if t.count == 0 {
        return HEAD;
    }
    fields::put_vector(&mut out[HEAD..], t.normal);
    put_point(&mut out[NORMAL..], t.first);
    if t.count == 1 {
        return FIRST_POINT;
    }
    put_point(&mut out[FIRST_POINT..], t.second);
    LONGEST_ANSWER
}

// `00`; `ff` and the refusal; or the result of a test.
fn put_answer(out: &mut [u8], answer: Answer) -> usize
    requires { longest_answer ≤ length out.old }
    ensures put { Put (answer_bytes answer) out.old result out.new }
    ensures upper_bound { result ≤ longest_answer }
{
    match answer {
        Answer::Accepted => {
            out[0] = 0;
            1
        }
        Answer::Refused(number) => {
            out[0] = 255;
            out[1] = number;
            2
        }
        Answer::Tested(t) => put_touch(out, t),
    }
}

// How many bytes.
pub fn put_said(out: &mut [u8], said: Said) -> usize
    requires { longest_answer ≤ length out.old }
    ensures put { Put (said_bytes said) out.old result out.new }
    ensures upper_bound { result ≤ longest_answer }
{
    put_answer(out, said.answer)
}

// How many characters.
pub fn put_answer_line(out: &mut [u8], answer: Answer) -> usize
    requires { longest_line ≤ length out.old }
    ensures put { Put (line_of (answer_bytes answer)) out.old result out.new }
    ensures upper_bound { result ≤ longest_line }
{
    let mut bytes = [0u8; LONGEST_ANSWER];
    let n = put_answer(&mut bytes, answer);
    hex::put_line(out, &bytes[..n])
}

// That of a refusal.
pub fn put_refusal_line(out: &mut [u8], why: Refusal) -> usize
    requires { longest_line ≤ length out.old }
    ensures put { Put (line_of (answer_bytes (Refused (number_of why)))) out.old result out.new }
    ensures upper_bound { result ≤ longest_line }
{
    put_answer_line(out, Answer::Refused(u8::from(why)))
}

// The bytes of a step's end.
const STEP: usize = 5;

// `0a` and the step number.
fn put_step(out: &mut [u8], steps: u32)
    requires { 5 ≤ length out.old }
    ensures { out.new ≡ over (step_bytes steps) out.old }
{
    out[0] = 10;
    fields::put_number(&mut out[1..], steps);
}

// How many characters.
pub fn put_step_line(out: &mut [u8], steps: u32) -> usize
    requires { longest_line ≤ length out.old }
    ensures { Put (line_of (step_bytes steps)) out.old result out.new }
{
    let mut bytes = [0u8; STEP];
    put_step(&mut bytes, steps);
    hex::put_line(out, &bytes)
}

// A line for each of the first n results.
fn put_touch_lines(out: &mut [u8], touches: [Touch; MOST_FURTHER], n: usize) -> usize
    requires { most_further * longest_line ≤ length out.old }
    ensures put { Put (touch_lines (take n touches)) out.old result out.new }
    ensures upper_bound { result ≤ most_further * longest_line }
{
    // A count past the row says the whole row.
    let last = n.min(MOST_FURTHER);
    let mut at = 0usize;
    for i in 0..last {
        at += put_answer_line(&mut out[at..], Answer::Tested(touches[i]));
    }
    at
}

// The answer's line, and one for each further piece of a chain. The further results are looked at only where there are
// some.
pub fn put_said_line(out: &mut [u8], said: Said) -> usize
    requires { longest_said ≤ length out.old }
    ensures { Put (said_line said) out.old result out.new }
{
    let first = put_answer_line(out, said.answer);
    if said.further == 0 {
        return first;
    }
    first + put_touch_lines(&mut out[first..], said.more, said.further)
}
