// What the export for the C match server says (crate record_c): four frames in, the bytes of the test line out.
ghost use Rattle.std.specs.Prelude.{◌≡◌, [], ◌∷◌, ◌+◌, ◌≤◌};
ghost use Rattle.lines.specs.Fields.{byte_at};
ghost use Rattle.lines.specs.Hex.{largest_frame};
ghost use Rattle.shape_definitions.specs.Refusal.{malformed_frame};
ghost use Rattle.record_definitions.specs.declared.frame.Answer.TheVariants.{Refused};
ghost use Rattle.record_definitions.specs.World.{fresh_world};
ghost use Rattle.record_definitions.specs.Answer.{said_alone};
ghost use Rattle.record_definitions.specs.Frame.{frame_length};
ghost use Rattle.record_definitions.specs.Export as Export;
ghost use Rattle.record.specs.BothChanges.{both_changes};

use crate::answer;
use crate::answer::LONGEST_ANSWER;
use frames::frame::PLACEMENT_LENGTH;
use frames::{changes, frame, world};
use lines::fields;
use record_definitions::frame::{Answer, Change, Said};
use shape_definitions::refusal::Refusal;

// What is returned for a refusal: its number above this one.
const REFUSAL_BASE: u32 = 256;

// The number of a refusal, 0 for another answer.
fn refusal_in(said: Said) -> u8
    ensures { result ≡ Export.refusal_in said }
{
    match said.answer {
        Answer::Accepted => 0,
        Answer::Refused(number) => number,
        Answer::Tested(_) => 0,
    }
}

// Where the outline that begins at a place ends, by its count; there where it has more than eight points.
fn outline_end(frames: &[u8], at: usize) -> usize
    requires { at ≤ 200 }
    ensures { (result ≡ at + frame_length 2 (byte_at frames.now (at + 2))) × (result ≤ at + largest_frame) }
{
    at + frame::frame_length(2, fields::byte(frames, at + 2)).unwrap_or(0)
}

// Whether a frame of this kind, for this id, begins here.
fn begins(frames: &[u8], at: usize, kind: u8, id: u8) -> bool
    requires { at ≤ 200 }
    ensures { result ≡ Export.begins frames.now at kind id }
{
    let k = fields::byte(frames, at);
    let i = fields::byte(frames, at + 1);
    (k == kind) & (i == id)
}

// Whether the four frames begin where they should, no outline of more than eight points.
fn begin_all(frames: &[u8], first: usize, outline: usize, second: usize) -> bool
    requires { (first ≤ 200) × (outline ≤ 200) × (second ≤ 200) }
    ensures { result ≡ Export.begin_all frames.now first outline second }
{
    let some_first = first != 0;
    let some_second = second != outline;
    let f0 = begins(frames, 0, 2, 0);
    let f1 = begins(frames, first, 4, 0);
    let f2 = begins(frames, outline, 2, 1);
    let f3 = begins(frames, second, 4, 1);
    some_first & some_second & f0 & f1 & f2 & f3
}

// What two frames make of a body: the first defines its shape, the second places it. Neither needs the table of sines.
fn both_changes<'a>(shape: &'a [u8], placement: &'a [u8]) -> Change
    requires { (byte_at shape.now 0 ≡ 2) × (byte_at placement.now 0 ≡ 4) }
    ensures { result ≡ both_changes shape.now placement.now }
{
    let blank = world::blank_body();
    let fresh = world::fresh_pair();
    let c = frame::frame(blank, blank, fresh, shape, &[]);
    if refusal_in(c.said) != 0 {
        return c;
    }
    frame::frame(c.body, blank, fresh, placement, &[])
}

// What a fresh program says of the test of two bodies that four frames define and place, or of the first frame that is
// refused. Each of the four changes its own body alone, and no pair: two bodies stand for the world.
fn run<'a>(f0: &'a [u8], f1: &'a [u8], f2: &'a [u8], f3: &'a [u8]) -> Said
    requires { Export.FourFrames f0.now f1.now f2.now f3.now }
    ensures { result ≡ Export.last_said fresh_world f0.now
        (f1.now ∷ f2.now ∷ f3.now ∷ Export.test_frame ∷ []) }
{
    let a = both_changes(f0, f1);
    if refusal_in(a.said) != 0 {
        return a.said;
    }
    let b = both_changes(f2, f3);
    if refusal_in(b.said) != 0 {
        return b.said;
    }
    let fresh = world::fresh_pair();
    let c = frame::frame(a.body, b.body, fresh, b"\x05\x00\x01", &[]);
    c.said
}

// Refusal 10.
fn malformed() -> Said
    ensures { result ≡ said_alone (Refused malformed_frame) }
{
    changes::said_alone(Answer::Refused(u8::from(Refusal::MalformedFrame)))
}

// What is said of an input: 10 where it is not the four frames in their order, and else what they say.
fn export_said(frames: &[u8]) -> Said
    ensures { result ≡ Export.export_said frames.now }
{
    let first = outline_end(frames, 0);
    let outline = first + PLACEMENT_LENGTH;
    let second = outline_end(frames, outline);
    if frames.len() != second + PLACEMENT_LENGTH {
        return malformed();
    }
    if !begin_all(frames, first, outline, second) {
        return malformed();
    }
    run(
        &frames[..first],
        &frames[first..outline],
        &frames[outline..second],
        &frames[second..],
    )
}

// 13, 37 or 53, the bytes written to the front of the output; or 256 and a refusal, and the output as it was.
pub fn netxurbil_test(frames: &[u8], out: &mut [u8]) -> u32
    ensures { (result ≡ Export.export_number frames.now out.old)
        × (out.new ≡ Export.export_output frames.now out.old) }
{
    if out.len() < LONGEST_ANSWER {
        return REFUSAL_BASE + u32::from(u8::from(Refusal::ContactOutOfRange));
    }
    let said = export_said(frames);
    let number = refusal_in(said);
    if number != 0 {
        return REFUSAL_BASE + u32::from(number);
    }
    answer::put_said(out, said) as u32
}
