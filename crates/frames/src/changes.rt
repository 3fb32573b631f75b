// What a frame makes, by how it is answered, and what is said of it.
ghost use Rattle.std.specs.Prelude.{◌≡◌};
ghost use Rattle.record_definitions.specs.Answer as answers;

use contact_definitions::b2_collision::{B2pointState, PointStates};
use floats::b2_math::B2vec2;
use record_definitions::frame::{Answer, Said};
use record_definitions::touch::{Touch, TouchPoint};
use record_definitions::world::{Body, Pair};

// In the place of a piece that is none.
pub fn blank_touch() -> Touch
    ensures { result ≡ answers.blank_touch }
{
    let origin = B2vec2 { x: 0.0, y: 0.0 };
    let point = TouchPoint {
        p: origin,
        separation: 0.0,
        age: 0,
    };
    Touch {
        a: 0,
        b: 0,
        count: 0,
        kind: 0,
        states: PointStates {
            old0: B2pointState::B2NullState,
            old1: B2pointState::B2NullState,
            new0: B2pointState::B2NullState,
            new1: B2pointState::B2NullState,
        },
        touches: 0,
        normal: origin,
        first: point,
        second: point,
    }
}

// An answer with no results of further pieces.
pub fn said_alone(answer: Answer) -> Said
    ensures { result ≡ answers.said_alone answer }
{
    let blank = blank_touch();
    let more = [blank; 6];
    Said {
        answer,
        further: 0,
        more,
    }
}

// What a frame that is no test makes of its body.
#[derive(Clone, Copy)]
pub enum BodyChange {
    // A new shape: the body's pairs are forgotten.
    Defined(Body),
    // A new placement.
    Moved(Body),
}

// What a test of a body that is no chain makes: its result, and the pair with what is kept of it.
#[derive(Clone, Copy)]
pub struct TestMade {
    pub touch: Touch,
    pub pair: Pair,
}

// What a test of a chain makes: the results of all pieces, and the pair.
#[derive(Clone, Copy)]
pub struct ChainMade {
    pub said: Said,
    pub pair: Pair,
}
