// What the contact calls turn down: an outline's count (7), a shape's numbers that are out of range (2), and else a
// placement (6).
ghost use Rattle.std.specs.Prelude.{◌≡◌, cond};
ghost use Rattle.contact_definitions.specs.Manifold.{miscounted};
ghost use Rattle.shape_definitions.specs.declared.refusal.Refusal.TheVariants.{ShapeOutOfRange, PlacementOutOfRange};

use floats::b2_settings::B2_MAX_POLYGON_VERTICES;
use shape_definitions::refusal::Refusal;

// Where something is out of range: the placements, where the shapes' numbers are in range, or else those.
pub fn out_of_range(shapes: bool) -> Refusal
    ensures { result ≡ cond shapes PlacementOutOfRange ShapeOutOfRange }
{
    if shapes {
        Refusal::PlacementOutOfRange
    } else {
        Refusal::ShapeOutOfRange
    }
}

// Whether an outline has fewer than 3 or more than 8 corners.
pub fn miscounted(count: usize) -> bool
    ensures { result ≡ miscounted count }
{
    let few = count < 3;
    let many = count > B2_MAX_POLYGON_VERTICES;
    few | many
}
