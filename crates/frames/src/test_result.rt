// The result of a test: its touches, and what is printed of its contact.
ghost use Rattle.std.specs.Prelude.{◌≡◌};
ghost use Rattle.contact_definitions.specs.Manifold.{kind_number};
ghost use Rattle.record_definitions.specs.Touch as results;

use crate::counts;
use contact_definitions::b2_collision::{B2manifold, B2manifoldType, B2worldManifold, PointStates};
use record_definitions::touch::{Touch, TouchPoint};

// By the number of points before and now: one more touch where a pair that had no point gets one.
pub fn touches_after(touches: u32, before: u8, now: usize) -> u32
    ensures { result ≡ results.touches_after touches before now }
{
    if before > 0 {
        return touches;
    }
    if now == 0 {
        return touches;
    }
    counts::one_more(touches)
}

// 00 circles, 01 face A, 02 face B.
fn kind_number(kind: B2manifoldType) -> u8
    ensures { result ≡ kind_number kind }
{
    match kind {
        B2manifoldType::ECircles => 0,
        B2manifoldType::EFaceA => 1,
        B2manifoldType::EFaceB => 2,
    }
}

// The kind as printed: 0 where there is no point.
fn shown_kind(m: B2manifold) -> u8
    ensures { result ≡ results.shown_kind m }
{
    let count = m.point_count;
    let kind = m.manifold_type;
    if count == 0 {
        return 0;
    }
    kind_number(kind)
}

// The result under the ids that the frame gives.
pub fn touch_of(
    ida: u8,
    idb: u8,
    m: B2manifold,
    states: PointStates,
    touches: u32,
    w: B2worldManifold,
) -> Touch
    ensures { result ≡ results.touch_of ida idb m states touches w }
{
    let count = m.point_count;
    let normal = w.normal;
    let points = w.points;
    let separations = w.separations;
    let p = points[0];
    let q = points[1];
    let first = m.points[0];
    let second = m.points[1];
    Touch {
        a: ida,
        b: idb,
        count: (count % 256) as u8,
        kind: shown_kind(m),
        states,
        touches,
        normal,
        first: TouchPoint {
            p,
            separation: separations[0],
            age: first.age,
        },
        second: TouchPoint {
            p: q,
            separation: separations[1],
            age: second.age,
        },
    }
}
