// The corner after a corner, and how many places a row of corners is filled to.
ghost use Rattle.std.specs.Prelude.{◌≡◌, ◌<◌, ◌≤◌};
ghost use Rattle.shape_definitions.specs.Outline.{place_after};

// The place after i, the first after the last.
pub fn after(i: usize, count: usize) -> usize
    requires { (i < count) × (count ≤ 8) }
    ensures { (result < count) × (result ≡ place_after count i) }
{
    let next = i + 1;
    if next < count { next } else { 0 }
}

// 4 or 8: rows are worked out so far, that the compiler takes four places at a time.
pub fn padded(count: usize) -> usize
    requires { count ≤ 8 }
    ensures { (count ≤ result) × (result ≤ 8) }
{
    if count <= 4 { 4 } else { 8 }
}
