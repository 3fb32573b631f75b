// Walls (Box2D's b2_edge_shape.h): the segment from vertex 1 to vertex 2. A one-sided wall has ghost points before and
// after it.
ghost use Rattle.std.specs.Prelude.{◌≡◌};
ghost use Rattle.shape_definitions.specs.Answers.{edge_answered};
ghost use Rattle.shape_definitions.specs.Edge.{b2_set_one_sided, b2_set_two_sided};

use floats::b2_math::B2vec2;
use floats::ranges;
use shape_definitions::b2_edge_shape::B2edgeShape;
use shape_definitions::refusal::Refusal;

// A wall from v1 to v2 that is met from one side, with the ghost points v0 and v3.
pub fn b2_set_one_sided(
    old: B2edgeShape,
    v0: B2vec2,
    v1: B2vec2,
    v2: B2vec2,
    v3: B2vec2,
) -> Result<B2edgeShape, Refusal>
    ensures { edge_answered old result ≡ b2_set_one_sided old v0 v1 v2 v3 }
{
    let in0 = ranges::point_in_range(v0);
    let in1 = ranges::point_in_range(v1);
    let in2 = ranges::point_in_range(v2);
    let in3 = ranges::point_in_range(v3);
    if !(in0 & in1 & in2 & in3) {
        return Err(Refusal::ShapeOutOfRange);
    }
    Ok(B2edgeShape {
        m_vertex0: v0,
        m_vertex1: v1,
        m_vertex2: v2,
        m_vertex3: v3,
        m_one_sided: true,
        ..old
    })
}

// A wall from v1 to v2 that is met from both sides; its ghost points are kept.
pub fn b2_set_two_sided(old: B2edgeShape, v1: B2vec2, v2: B2vec2) -> Result<B2edgeShape, Refusal>
    ensures { edge_answered old result ≡ b2_set_two_sided old v1 v2 }
{
    let in1 = ranges::point_in_range(v1);
    let in2 = ranges::point_in_range(v2);
    if !(in1 & in2) {
        return Err(Refusal::ShapeOutOfRange);
    }
    Ok(B2edgeShape {
        m_vertex1: v1,
        m_vertex2: v2,
        m_one_sided: false,
        ..old
    })
}
