// Frame 05 of a chain: a test of each piece.
ghost use Rattle.std.specs.Prelude.{◌≡◌, ◌<◌};
ghost use Rattle.record_definitions.specs.World.{chain_kind, most_pieces};
ghost use Rattle.record_definitions.specs.Touch as results;
ghost use Rattle.record_definitions.specs.Frame as definitions;
ghost use Rattle.frames.specs.Made.{of_chain_test, AnsweredAs};

use crate::changes::ChainMade;
use crate::test_frame::{PieceMade, PieceRefused};
use crate::{changes, pieces, test_frame};
use record_definitions::frame::{Answer, Said};
use record_definitions::world::{Body, Pair};
use shape_definitions::refusal::Refusal;

// Piece i of the body, with what the pair keeps of it.
fn piece_tested(
    ida: u8,
    idb: u8,
    a: Body,
    b: Body,
    pair: Pair,
    i: usize,
) -> Result<PieceMade, PieceRefused>
    requires { i < most_pieces }
    ensures { AnsweredAs result (results.piece_tested ida idb a b pair i) }
{
    let old = pair.pieces;
    test_frame::tested(ida, idb, pieces::piece_of(a, i), b, old[i])
}

// All pieces, one after the other: the first refusal; or a result for each, and each keeps its own.
fn pieces_tested(ida: u8, idb: u8, a: Body, b: Body, pair: Pair) -> Result<ChainMade, Refusal>
    requires { a.kind ≡ chain_kind }
    ensures { of_chain_test result a pair
        ≡ definitions.test_answered a pair (results.piece_tested ida idb a b pair 0)
        (definitions.further_tests ida idb a b pair) }
{
    let chain = a.chain;
    let further = pieces::further_pieces(chain.count);
    let first = piece_tested(ida, idb, a, b, pair, 0)?;
    let mut kepts = pair.pieces;
    kepts[0] = first.kept;
    let blank = changes::blank_touch();
    let mut more = [blank; 6];
    for j in 0..further {
        let made = piece_tested(ida, idb, a, b, pair, j + 1)?;
        kepts[j + 1] = made.kept;
        more[j] = made.touch;
    }
    Ok(ChainMade {
        said: Said {
            answer: Answer::Tested(first.touch),
            further,
            more,
        },
        pair: Pair { pieces: kepts },
    })
}

// 05 a b, where a is a chain
pub fn chain_test(ida: u8, idb: u8, a: Body, b: Body, pair: Pair) -> Result<ChainMade, Refusal>
    requires { a.kind ≡ chain_kind }
    ensures { of_chain_test result a pair ≡ definitions.test_change ida idb a b pair }
{
    test_frame::check_test(ida, idb, a.kind, b.kind)?;
    pieces_tested(ida, idb, a, b, pair)
}
