// Whether the numbers of a circle are in their ranges.
ghost use Rattle.std.specs.Prelude.{◌≡◌};
ghost use Rattle.shape_definitions.specs.Circle.{circle_in_range};

use floats::ranges;
use shape_definitions::b2_circle_shape::B2circleShape;

pub fn circle_in_range(shape: B2circleShape) -> bool
    ensures { result ≡ circle_in_range shape }
{
    let radius = ranges::radius_in_range(shape.m_radius);
    let centre = ranges::point_in_range(shape.m_p);
    radius & centre
}
