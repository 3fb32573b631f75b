// Any frame: its length by its kind, the refusals that look at no body, and then its kind.
ghost use Rattle.std.specs.Prelude.{◌≡◌, ◌<◌, IfSome, unwrap_or};
ghost use Rattle.headings.specs.Headings.{quarter_waves};
ghost use Rattle.lines.specs.Fields.{byte_at};
ghost use Rattle.shape_definitions.specs.Refusal.{number_of, refusal_number};
ghost use Rattle.record_definitions.specs.declared.world.Body.{Body};
ghost use Rattle.record_definitions.specs.declared.world.Pair.{Pair};
ghost use Rattle.record_definitions.specs.World.{chain_kind};
ghost use Rattle.record_definitions.specs.Frame as definitions;
ghost use Rattle.frames.specs.Made.{of_body, of_test, of_chain_test};

use crate::changes::{BodyChange, ChainMade, TestMade};
use crate::{body_frames, chain_frame, chain_test, changes, test_frame};
use lines::fields;
use record_definitions::frame::{Answer, Change};
use record_definitions::world::{Body, CHAIN, LARGEST_ID, Pair};
use shape_definitions::refusal::Refusal;

// By the count, of at most eight points.
fn outline_length(count: u8) -> Option<usize>
    ensures length { unwrap_or result 0 ≡ definitions.outline_length count }
    ensures some { IfSome result (λ n. 0 < n) }
{
    if count <= 8 {
        Some(3 + 8 * count as usize)
    } else {
        None
    }
}

// By the flag.
fn wall_length(flag: u8) -> Option<usize>
    ensures length { unwrap_or result 0 ≡ definitions.wall_length flag }
    ensures some { IfSome result (λ n. 0 < n) }
{
    match flag {
        0 => Some(19),
        1 => Some(35),
        _ => None,
    }
}

// By the count, of at most eight points, with the one before and the one after.
fn chain_length(count: u8) -> Option<usize>
    ensures length { unwrap_or result 0 ≡ definitions.chain_length count }
    ensures some { IfSome result (λ n. 0 < n) }
{
    if count <= 8 {
        Some(19 + 8 * count as usize)
    } else {
        None
    }
}

// The kind of a test.
pub const TEST: u8 = 5;

// The bytes of frame 04.
pub const PLACEMENT_LENGTH: usize = 18;

// By the kind and the third byte: the count of an outline or a chain, the flag of a wall. None where there is no such
// frame.
pub fn frame_length(kind: u8, third: u8) -> Option<usize>
    ensures length { unwrap_or result 0 ≡ definitions.frame_length kind third }
    ensures some { IfSome result (λ n. 0 < n) }
{
    match kind {
        1 => Some(14),
        2 => outline_length(third),
        3 => wall_length(third),
        4 => Some(PLACEMENT_LENGTH),
        5 => Some(3),
        6 => Some(12),
        7 => chain_length(third),
        _ => None,
    }
}

// Of a known kind, and just as long as such a frame is.
fn well_formed(bytes: &[u8]) -> bool
    ensures { result ≡ definitions.well_formed bytes.now }
{
    match frame_length(fields::byte(bytes, 0), fields::byte(bytes, 2)) {
        Some(size) => bytes.len() == size,
        None => false,
    }
}

// Whether an id that it names is none: a test names two.
fn names_unknown(bytes: &[u8]) -> bool
    ensures { result ≡ definitions.names_unknown bytes.now }
{
    if fields::byte(bytes, 1) > LARGEST_ID {
        return true;
    }
    if fields::byte(bytes, 0) == 5 {
        return fields::byte(bytes, 2) > LARGEST_ID;
    }
    false
}

// The refusals that look at no body.
fn check_frame(bytes: &[u8]) -> Result<(), Refusal>
    ensures { refusal_number result ≡ definitions.frame_refusal bytes.now }
{
    if !well_formed(bytes) {
        return Err(Refusal::MalformedFrame);
    }
    if names_unknown(bytes) {
        return Err(Refusal::UnknownId);
    }
    Ok(())
}

// What a frame that is no test makes of the body that its first id names. Frame 06 alone reads the lent table: who
// sends none may lend an empty one.
pub fn body_frame(body: Body, bytes: &[u8], sines: &[f32]) -> Result<BodyChange, Refusal>
    requires { (byte_at bytes.now 0 ≡ 5 → ⊥) × (byte_at bytes.now 0 ≡ 6 → sines.now ≡ quarter_waves) }
    ensures { (b : Body) (pair : Pair)
        → of_body body result pair ≡ definitions.change body b pair bytes.now }
{
    check_frame(bytes)?;
    let kind = fields::byte(bytes, 0);
    match kind {
        1 => body_frames::circle_frame(bytes),
        2 => body_frames::outline_frame(bytes),
        3 => body_frames::wall_frame(bytes),
        4 => body_frames::place_frame(body, bytes),
        6 => body_frames::turn_frame(body, bytes, sines),
        _ => chain_frame::chain_frame(bytes),
    }
}

// What a test of a body that is no chain makes of the pair; the second body is the one that its third byte names.
pub fn test_frame(a: Body, b: Body, pair: Pair, bytes: &[u8]) -> Result<TestMade, Refusal>
    requires { (byte_at bytes.now 0 ≡ 5) × (a.kind ≡ chain_kind → ⊥) }
    ensures { of_test result a pair ≡ definitions.change a b pair bytes.now }
{
    check_frame(bytes)?;
    test_frame::test_frame(fields::byte(bytes, 1), fields::byte(bytes, 2), a, b, pair)
}

// What a test of a chain says and changes.
pub fn chain_test(a: Body, b: Body, pair: Pair, bytes: &[u8]) -> Result<ChainMade, Refusal>
    requires { (byte_at bytes.now 0 ≡ 5) × (a.kind ≡ chain_kind) }
    ensures { of_chain_test result a pair ≡ definitions.change a b pair bytes.now }
{
    check_frame(bytes)?;
    chain_test::chain_test(fields::byte(bytes, 1), fields::byte(bytes, 2), a, b, pair)
}

// A refusal changes nothing.
fn refused(why: Refusal, body: Body, pair: Pair) -> Change
    ensures { result ≡ definitions.refused (number_of why) body pair }
{
    Change {
        said: changes::said_alone(Answer::Refused(u8::from(why))),
        body,
        pair,
        forget: false,
    }
}

// Any frame, for whoever sends few: a change whole, with all that is said of it.
pub fn frame(a: Body, b: Body, pair: Pair, bytes: &[u8], sines: &[f32]) -> Change
    requires { byte_at bytes.now 0 ≡ 6 → sines.now ≡ quarter_waves }
    ensures { result ≡ definitions.change a b pair bytes.now }
{
    if fields::byte(bytes, 0) != TEST {
        return match body_frame(a, bytes, sines) {
            Ok(BodyChange::Defined(body)) => Change {
                said: changes::said_alone(Answer::Accepted),
                body,
                pair,
                forget: true,
            },
            Ok(BodyChange::Moved(body)) => Change {
                said: changes::said_alone(Answer::Accepted),
                body,
                pair,
                forget: false,
            },
            Err(why) => refused(why, a, pair),
        };
    }
    if a.kind == CHAIN {
        return match chain_test(a, b, pair, bytes) {
            Ok(made) => Change {
                said: made.said,
                body: a,
                pair: made.pair,
                forget: false,
            },
            Err(why) => refused(why, a, pair),
        };
    }
    match test_frame(a, b, pair, bytes) {
        Ok(made) => Change {
            said: changes::said_alone(Answer::Tested(made.touch)),
            body: a,
            pair: made.pair,
            forget: false,
        },
        Err(why) => refused(why, a, pair),
    }
}
