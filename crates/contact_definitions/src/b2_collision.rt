// Manifolds, clip vertices, world manifolds and point states (Box2D's b2_collision.h). Kinds have document 01's numbers.
ghost use Rattle.std.specs.Prelude.{◌≡◌, ◌<◌, MatchResult};
ghost use Rattle.contact_definitions.specs.Manifold.{feature_number, kind_number};
ghost use Rattle.contact_definitions.specs.PointStates.{state_number};

use floats::b2_math::B2vec2;

// What of a shape meets another in a contact point.
#[derive(Clone, Copy)]
pub enum B2contactFeatureType {
    EVertex,
    EFace,
}

impl From<B2contactFeatureType> for u8 {
    ghost from_gives = { λ kind number. number ≡ feature_number kind };

    fn from(kind: B2contactFeatureType) -> u8 {
        match kind {
            B2contactFeatureType::EVertex => 0,
            B2contactFeatureType::EFace => 1,
        }
    }
}

// The two features that meet in a contact point: a place on each shape, and the number of its feature's type. A number,
// since a given manifold may hold any: the type would ask more of callers.
#[derive(Clone, Copy, PartialEq, Eq)]
pub struct B2contactFeature {
    pub index_a: u8,
    pub index_b: u8,
    pub type_a: u8,
    pub type_b: u8,
}

#[derive(Clone, Copy, PartialEq, Eq)]
pub struct B2contactId {
    pub cf: B2contactFeature,
}

// The age is document 02's, request 06: at how many tests the point has persisted. No contact call sets it.
#[derive(Clone, Copy)]
pub struct B2manifoldPoint {
    pub local_point: B2vec2,
    pub normal_impulse: f32,
    pub tangent_impulse: f32,
    pub id: B2contactId,
    pub age: u32,
}

// A number that is none of a kind of manifold, or none of a point state.
#[derive(Clone, Copy, Debug, PartialEq, Eq)]
pub struct UnknownNumber(pub u32);

#[derive(Clone, Copy)]
pub enum B2manifoldType {
    ECircles,
    EFaceA,
    EFaceB,
}

impl From<B2manifoldType> for u8 {
    ghost from_gives = { λ kind number. number ≡ kind_number kind };

    fn from(kind: B2manifoldType) -> u8 {
        match kind {
            B2manifoldType::ECircles => 0,
            B2manifoldType::EFaceA => 1,
            B2manifoldType::EFaceB => 2,
        }
    }
}

impl TryFrom<u32> for B2manifoldType {
    type Error = UnknownNumber;

    ghost try_from_gives = { λ number result.
        MatchResult result (λ kind. kind_number kind ≡ number) (λ none. (none.0 ≡ number) × (2 < number)) };

    fn try_from(number: u32) -> Result<Self, UnknownNumber> {
        match number {
            0 => Ok(B2manifoldType::ECircles),
            1 => Ok(B2manifoldType::EFaceA),
            2 => Ok(B2manifoldType::EFaceB),
            _ => Err(UnknownNumber(number)),
        }
    }
}

#[derive(Clone, Copy)]
pub struct B2manifold {
    pub points: [B2manifoldPoint; 2],
    pub local_normal: B2vec2,
    pub local_point: B2vec2,
    pub manifold_type: B2manifoldType,
    pub point_count: usize,
}

#[derive(Clone, Copy)]
pub struct B2worldManifold {
    pub normal: B2vec2,
    pub points: [B2vec2; 2],
    pub separations: [f32; 2],
}

#[derive(Clone, Copy)]
pub enum B2pointState {
    B2NullState,
    B2AddState,
    B2PersistState,
    B2RemoveState,
}

impl From<B2pointState> for u8 {
    ghost from_gives = { λ kind number. number ≡ state_number kind };

    fn from(kind: B2pointState) -> u8 {
        match kind {
            B2pointState::B2NullState => 0,
            B2pointState::B2AddState => 1,
            B2pointState::B2PersistState => 2,
            B2pointState::B2RemoveState => 3,
        }
    }
}

impl TryFrom<u32> for B2pointState {
    type Error = UnknownNumber;

    ghost try_from_gives = { λ number result.
        MatchResult result (λ state. state_number state ≡ number) (λ none. (none.0 ≡ number) × (3 < number)) };

    fn try_from(number: u32) -> Result<Self, UnknownNumber> {
        match number {
            0 => Ok(B2pointState::B2NullState),
            1 => Ok(B2pointState::B2AddState),
            2 => Ok(B2pointState::B2PersistState),
            3 => Ok(B2pointState::B2RemoveState),
            _ => Err(UnknownNumber(number)),
        }
    }
}

#[derive(Clone, Copy)]
pub struct B2clipVertex {
    pub v: B2vec2,
    pub id: B2contactId,
}

// The states of both points of an old and of a new manifold.
#[derive(Clone, Copy)]
pub struct PointStates {
    pub old0: B2pointState,
    pub old1: B2pointState,
    pub new0: B2pointState,
    pub new1: B2pointState,
}

// The ids of the points that a manifold counts, where the points themselves are not kept; those past the count are
// none. The count is a byte: the touch record keeps many of these.
#[derive(Clone, Copy)]
pub struct CountedIds {
    pub count: u8,
    pub first: B2contactId,
    pub second: B2contactId,
}

// What is left of a segment: the output places, and how many ends were written there. Both places are there, whatever
// the count: the contract says what those past it hold.
#[derive(Clone, Copy)]
pub struct Clip {
    pub out: [B2clipVertex; 2],
    pub count: usize,
}
