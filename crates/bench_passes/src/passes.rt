// A pass over the cases of an order, and the cases in an array.
ghost use Rattle.std.specs.Prelude.{◌<◌, ℕ};

use crate::numbers::CASES;
use shape_definitions::refusal::{ACCEPTED, Refusal};

// What the last call of a pass left, and what it was refused with.
#[derive(Clone, Copy)]
pub struct Left<T> {
    pub value: T,
    pub refused: Option<Refusal>,
}

impl<T: Copy> Left<T> {
    // The number of the refusal, 0 where there is none.
    pub fn refusal(self) -> u8 {
        match self.refused {
            Some(why) => u8::from(why),
            None => ACCEPTED,
        }
    }
}

// A call for each case of the order, on what the last left.
pub fn pass<T: Copy, F: Fn(T, usize) -> Result<T, Refusal>>(
    old: T,
    order: &[u32],
    call: F,
) -> Left<T>
    requires { (value : T) (k : ℕ) → k < 1024 → F.pre call value k }
{
    let mut value = old;
    let mut refused = None;
    for k in order {
        match call(value, (*k % 1024) as usize) {
            Ok(made) => {
                value = made;
                refused = None;
            }
            Err(why) => refused = Some(why),
        }
    }
    Left { value, refused }
}

// The cases below n, each by its place; a case without numbers is none.
pub fn all<T: Copy, F: Fn(usize) -> T>(n: usize, none: T, at: F) -> [T; CASES]
    requires { (k : ℕ) → k < n → F.pre at k }
{
    let mut all = [none; CASES];
    for k in 0..n.min(CASES) {
        all[k] = at(k);
    }
    all
}
