// Input that comes in pieces: the server, and the line so far.
ghost use Rattle.std.specs.Prelude.{◌≡◌, ◌≤◌, ◌<◌, ◌%◌, min, length, take};
ghost use Rattle.lines.specs.Fields.{byte_at};
ghost use Rattle.lines.specs.Hex.{largest_frame};
ghost use Rattle.record_definitions.specs.Answer.{longest_said};
ghost use Rattle.record_definitions.specs.Server.{next_step, reply_line};
ghost use Rattle.record_definitions.specs.Reading.{kept_length, with_character, begin, reading, FedAs};
ghost use Rattle.record.specs.Decoding.{Named};

use crate::answer;
use crate::answer::LONGEST_SAID;
use frames::changes::BodyChange;
use frames::frame::TEST;
use frames::{counts, frame, world};
use headings::turns;
use lines::hex::{LARGEST_FRAME, LINE_FEED};
use lines::{fields, hex};
use record_definitions::frame::Answer;
use record_definitions::reader::{Fed, KEPT_LENGTH, Reader};
use record_definitions::server::Server;
use record_definitions::world::CHAIN;

// The state before any input.
pub fn start() -> Reader
    ensures { reading result ≡ begin }
{
    let world = world::fresh_world();
    let server = Server { world, steps: 0 };
    let line = [0u8; KEPT_LENGTH];
    Reader {
        server,
        line,
        len: 0,
    }
}

// The place of a body that a frame names: below 8, whatever the byte.
fn place(bytes: &[u8], at: usize) -> usize
    ensures { (result ≡ byte_at bytes.now at % 8) × (result < 8) }
{
    (fields::byte(bytes, at) % 8) as usize
}

// A line that was read: the bytes that it says, their kind, and the places of the two bodies that they name.
#[derive(Clone, Copy)]
pub struct Names {
    pub count: usize,
    pub kind: u8,
    pub first: usize,
    pub second: usize,
}

fn decode(line: &[u8], bytes: &mut [u8]) -> Names
    requires { largest_frame ≤ length bytes.old }
    ensures { Named line.now result bytes.new }
{
    let count = hex::unhex(line, bytes).unwrap_or(0);
    let kind = fields::byte(&bytes[..count], 0);
    let first = place(&bytes[..count], 1);
    let second = place(&bytes[..count], 2);
    Names {
        count,
        kind,
        first,
        second,
    }
}

// One more character of a line, of which the first are kept; how many are.
fn keep(line: &mut [u8; KEPT_LENGTH], len: usize, x: u8) -> usize
    requires { (len ≤ kept_length) × (length line.old ≡ kept_length) }
    ensures { (take result line.new ≡ with_character (take len line.old) x)
        × (result ≤ kept_length) × (length line.new ≡ kept_length) }
{
    if len < KEPT_LENGTH {
        line[len] = x;
        return len + 1;
    }
    len
}

// The input in a piece, up to where the output has no room for another answer: an empty line ends a step, any other is
// a frame. The table of sines is named once and lent to every frame.
pub fn feed(s: Reader, chunk: &[u8], out: &mut [u8]) -> Fed
    ensures { FedAs reply_line longest_said s chunk.now out.old result out.new }
{
    let sines = turns::sines();
    let mut w = s.server.world;
    let mut steps = s.server.steps;
    let mut line = s.line;
    // A count past the row says the whole row.
    let mut len = s.len.min(KEPT_LENGTH);
    let mut at = 0usize;
    let mut i = 0usize;
    while i < chunk.len() {
        if out.len() - at < LONGEST_SAID {
            break;
        }
        let x = chunk[i];
        i += 1;
        if x == LINE_FEED {
            if len != 0 {
                let mut bytes = [0u8; LARGEST_FRAME];
                let d = decode(&line[..len], &mut bytes);
                len = 0;
                let n = d.count;
                let a = d.first;
                let b = d.second;
                let k = 8 * a + b;
                if d.kind != TEST {
                    match frame::body_frame(w.bodies[a], &bytes[..n], &sines) {
                        Ok(change) => {
                            at += answer::put_answer_line(&mut out[at..], Answer::Accepted);
                            match change {
                                BodyChange::Defined(body) => {
                                    w.bodies[a] = body;
                                    w.pairs = world::forget(w.pairs, a);
                                }
                                BodyChange::Moved(body) => w.bodies[a] = body,
                            }
                        }
                        Err(why) => at += answer::put_refusal_line(&mut out[at..], why),
                    }
                } else if w.bodies[a].kind == CHAIN {
                    match frame::chain_test(w.bodies[a], w.bodies[b], w.pairs[k], &bytes[..n]) {
                        Ok(made) => {
                            at += answer::put_said_line(&mut out[at..], made.said);
                            w.pairs[k] = made.pair;
                        }
                        Err(why) => at += answer::put_refusal_line(&mut out[at..], why),
                    }
                } else {
                    match frame::test_frame(w.bodies[a], w.bodies[b], w.pairs[k], &bytes[..n]) {
                        Ok(made) => {
                            let answer = Answer::Tested(made.touch);
                            at += answer::put_answer_line(&mut out[at..], answer);
                            w.pairs[k] = made.pair;
                        }
                        Err(why) => at += answer::put_refusal_line(&mut out[at..], why),
                    }
                }
            } else {
                steps = counts::one_more(steps);
                at += answer::put_step_line(&mut out[at..], steps);
            }
        } else {
            len = keep(&mut line, len, x);
        }
    }
    let server = Server { world: w, steps };
    let reader = Reader { server, line, len };
    Fed {
        reader,
        taken: i,
        written: at,
    }
}
