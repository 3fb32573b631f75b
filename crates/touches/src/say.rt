// What is said on standard error where a read or a write fails.
ghost use Rattle.std.specs.Prelude.{◌+◌, ◌<◌, ◌≤◌, length};

use lines::hex::LINE_FEED;
use std::io::Error;

// The system's reason alone, without the number that std prints behind it.
fn reason(said: &str) -> &str {
    match said.split_once(" (os error ") {
        Some((reason, _number)) => reason,
        None => said,
    }
}

// A line: what failed, after how many answers, and the system's reason.
pub fn failed(rt: &(impl Eprint + AllocGlobal), what: &str, answers: u64, why: &Error) {
    let ending = if answers == 1 { "" } else { "s" };
    let said = why.to_string(rt.alloc());
    let reason = match &said {
        Ok(said) => reason(said.as_str()),
        Err(_no_memory) => "no memory to say why",
    };
    let _ = eprintln!(rt; "touches: {what} failed after {answers} answer{ending}: {reason}");
}

// The characters of a part of an output whose line feeds a byte can count.
const PART: usize = 224;

// The line feeds of such a part, counted in a byte, so that the compiler takes 32 characters at once.
fn few(part: &[u8]) -> u8
    requires { length part.now ≤ 224 }
    ensures { result ≤ length part.now }
{
    let mut n = 0u8;
    for x in part {
        if *x == LINE_FEED {
            n += 1;
        }
    }
    n
}

// How many answers an output has, each ended by its line feed.
pub fn answers(output: &[u8]) -> usize
    ensures { result ≤ length output.now }
{
    let mut n = 0usize;
    let mut from = 0usize;
    while from < output.len() {
        let end = output.len().min(from + PART);
        n += usize::from(few(&output[from..end]));
        from = end;
    }
    n
}
