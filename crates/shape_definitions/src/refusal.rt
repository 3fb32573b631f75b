// Document 01, "Numbers a call can be turned down with": what a call is turned down for, and its number. 0 is no
// refusal; specs/Refusal has the numbers for the contracts.
ghost use Rattle.std.specs.Prelude.{◌≡◌};
ghost use Rattle.shape_definitions.specs.Refusal.{number_of};

// The number of no refusal, where a record has one.
pub const ACCEPTED: u8 = 0;

#[derive(Clone, Copy, Debug, PartialEq, Eq)]
pub enum Refusal {
    // Outline without 3 to 8 points.
    WrongNumberOfPoints,
    // A shape number outside its range.
    ShapeOutOfRange,
    // Fewer than three points after welding.
    TooFewAfterWelding,
    // The walk is not back after eight corners, or back with fewer than three.
    WalkNotClosed,
    // A squared edge not above 2^-46, or an area not above 2^-23.
    EdgeOrAreaTooSmall,
    // A placement out of range, or a box's sine or cosine.
    PlacementOutOfRange,
    // A record's count out of range.
    CountOutOfRange,
    // Wall against circle, the circle over the middle, squared length not above 0 (underflow).
    WallTooShort,
    // A clip or world-point number out of range, or an export output under 53 bytes.
    ContactOutOfRange,
    // Odd digits, another character, empty or overlong line, unknown kind or flag, wrong length.
    MalformedFrame,
    // Id above 07.
    UnknownId,
    // No shape under the id.
    NoShape,
    // A pair not listed.
    PairNotListed,
    // A turn number above 4,095.
    UnknownTurn,
    // A chain of fewer than two points.
    ChainTooFew,
    // Two neighbouring points of a chain too near.
    ChainTooNear,
    // A measured number outside its limits, or a lowest above its highest.
    MeasureOutOfLimits,
}

impl From<Refusal> for u8 {
    ghost from_gives = { λ why number. number ≡ number_of why };

    fn from(why: Refusal) -> u8 {
        match why {
            Refusal::WrongNumberOfPoints => 1,
            Refusal::ShapeOutOfRange => 2,
            Refusal::TooFewAfterWelding => 3,
            Refusal::WalkNotClosed => 4,
            Refusal::EdgeOrAreaTooSmall => 5,
            Refusal::PlacementOutOfRange => 6,
            Refusal::CountOutOfRange => 7,
            Refusal::WallTooShort => 8,
            Refusal::ContactOutOfRange => 9,
            Refusal::MalformedFrame => 10,
            Refusal::UnknownId => 11,
            Refusal::NoShape => 12,
            Refusal::PairNotListed => 13,
            Refusal::UnknownTurn => 14,
            Refusal::ChainTooFew => 15,
            Refusal::ChainTooNear => 16,
            Refusal::MeasureOutOfLimits => 17,
        }
    }
}
