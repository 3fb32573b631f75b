// The root, unit vectors and headings.
ghost use Rattle.wire.specs.Words.{Written};
ghost use Rattle.test_entries.specs.Numbers.{root_answer, normalize_answer, heading_answer};
ghost use Rattle.test_entries.specs.Numbers.{root_step_answer, given};

use floats::b2_math::B2vec2;
use floats::{b2_math, bits};
use headings::turns;
use record_definitions::world::LARGEST_TURN;
use shape_definitions::refusal::Refusal;
use sqrt::root;
use sqrt::root::Rooted;
use wire::words;

// 15, x: the root.
pub fn root(input: &[u8], out: &mut [u8]) -> u32
    ensures { Written (root_answer input.now) out.old result out.new }
{
    if input.len() != 8 {
        return 0;
    }
    let x = bits::f32_from_bits(words::word(input, 1));
    let answer = [0, bits::f32_to_bits(b2_math::b2_sqrt(x))];
    words::put_words(out, &answer)
}

// 16, x, y: the length that was found, the vector made unit, and whether there was a length of at least B2_EPSILON.
pub fn normalize(input: &[u8], out: &mut [u8]) -> u32
    ensures { Written (normalize_answer input.now) out.old result out.new }
{
    if input.len() != 12 {
        return 0;
    }
    let x = bits::f32_from_bits(words::word(input, 1));
    let y = bits::f32_from_bits(words::word(input, 2));
    let n = b2_math::b2_normalize(B2vec2 { x, y });
    let answer = [
        0,
        bits::f32_to_bits(n.length),
        bits::f32_to_bits(n.v.x),
        bits::f32_to_bits(n.v.y),
        u32::from(n.had_length),
    ];
    words::put_words(out, &answer)
}

// 17, turn number: the sine and the cosine of its heading; 14 and two zeros where it is above 4,095.
pub fn heading(input: &[u8], out: &mut [u8]) -> u32
    ensures { Written (heading_answer input.now) out.old result out.new }
{
    if input.len() != 8 {
        return 0;
    }
    let number = words::word(input, 1) as usize;
    if number > LARGEST_TURN {
        let answer = [u32::from(u8::from(Refusal::UnknownTurn)), 0, 0];
        return words::put_words(out, &answer);
    }
    let sines = turns::sines();
    let q = turns::heading(&sines, number);
    let answer = [0, bits::f32_to_bits(q.s), bits::f32_to_bits(q.c)];
    words::put_words(out, &answer)
}

// The step is a word of the answer, so a number.
fn put_step(step: u32, r: f32, out: &mut [u8]) -> u32
    ensures { Written (given step r) out.old result out.new }
{
    let answer = [0, step, bits::f32_to_bits(r)];
    words::put_words(out, &answer)
}

// 18, x: the step that gave the root, 0 special, 1 exact, 2 rounded, and the root.
pub fn root_step(input: &[u8], out: &mut [u8]) -> u32
    ensures { Written (root_step_answer input.now) out.old result out.new }
{
    if input.len() != 8 {
        return 0;
    }
    let x = bits::f32_from_bits(words::word(input, 1));
    match root::root_by_steps(x) {
        Rooted::Special(r) => put_step(0, r, out),
        Rooted::Exact(r) => put_step(1, r, out),
        Rooted::Rounded(r) => put_step(2, r, out),
    }
}
