// The ages of a contact's points: found from those of the last contact, by id, and set in the manifold.
ghost use Rattle.std.specs.Prelude.{◌≡◌};
ghost use Rattle.record_definitions.specs.Ages as definitions;

use crate::counts;
use contact_definitions::b2_collision::{B2contactId, B2manifold, CountedIds};
use contacts::b2_collision;
use record_definitions::world::{Ages, Kept};

// One more than the age of the first old point that has this id; 0 where none has.
fn next_age(kept: Kept, id: B2contactId) -> u32
    ensures { result ≡ definitions.next_age kept id }
{
    let old = kept.ids;
    let ages = kept.ages;
    if old.count == 0 {
        return 0;
    }
    if b2_collision::same_id(old.first, id) {
        return counts::one_more(ages.first);
    }
    if old.count == 1 {
        return 0;
    }
    if b2_collision::same_id(old.second, id) {
        return counts::one_more(ages.second);
    }
    0
}

// Those of both points of a new contact.
pub fn ages_of(kept: Kept, new: CountedIds) -> Ages
    ensures { result ≡ definitions.ages_of kept new }
{
    Ages {
        first: next_age(kept, new.first),
        second: next_age(kept, new.second),
    }
}

// The manifold with these ages: nothing else sets them.
pub fn with_ages(m: B2manifold, ages: Ages) -> B2manifold
    ensures { result ≡ definitions.with_ages m ages }
{
    let mut p = m.points[0];
    let mut q = m.points[1];
    p.age = ages.first;
    q.age = ages.second;
    let local_normal = m.local_normal;
    let local_point = m.local_point;
    let manifold_type = m.manifold_type;
    B2manifold {
        points: [p, q],
        local_normal,
        local_point,
        manifold_type,
        point_count: m.point_count,
    }
}
