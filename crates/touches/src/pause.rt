// A short wait, for what the system says can be had later.
use std::io::{Error, ErrorKind};
use std::rt::Clock;
use std::thread;
use std::time::Duration;

// Whether the call that failed so may be made again; then a hundredth of a second has passed.
pub fn later(rt: &impl Clock, why: &Error) -> bool {
    match why.kind() {
        ErrorKind::WouldBlock | ErrorKind::Interrupted => {
            thread::sleep(rt, Duration::from_millis(10));
            true
        }
        _ => false,
    }
}
