// Counts of 32 bits: touches, ages, steps.
ghost use Rattle.std.specs.Prelude.{◌≡◌};
ghost use Rattle.record_definitions.specs.World.{one_more};

// One more; the largest holds.
pub fn one_more(n: u32) -> u32
    ensures { result ≡ one_more n }
{
    n.saturating_add(1)
}
