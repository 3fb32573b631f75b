// The C entry points for tests: every call behind a number, on byte slices.

#![tactic(auto)]

ghost use Rattle.wire.specs.Words.{Written};
ghost use Rattle.test_calls.specs.Entries.{answer};
ghost use Rattle.test_calls.specs.Measured.{measured_answer};

use wire::words;

// The number of words written: 0, and the output as it was, for a malformed request or an output too short for the
// answer.
#[unsafe(no_mangle)]
pub extern "C" fn calls(input: &[u8], out: &mut [u8]) -> u32
    ensures { Written (answer input.now) out.old result out.new }
{
    if input.len() < 4 {
        return 0;
    }
    let entry = words::word(input, 0);
    match entry {
        15 => test_entries::numbers::root(input, out),
        16 => test_entries::numbers::normalize(input, out),
        17 => test_entries::numbers::heading(input, out),
        18 => test_entries::numbers::root_step(input, out),
        _ => {
            if entry < 7 {
                test_entries::by_number::shape_call(entry, input, out)
            } else {
                test_entries::by_number::contact_call(entry, input, out)
            }
        }
    }
}

// Measured bodies by numbers of their own, 20 and 21; what is written is as `calls` says.
#[unsafe(no_mangle)]
pub extern "C" fn measured_calls(input: &[u8], out: &mut [u8]) -> u32
    ensures { Written (measured_answer input.now) out.old result out.new }
{
    if input.len() < 4 {
        return 0;
    }
    let entry = words::word(input, 0);
    match entry {
        20 => test_entries::measured::circles(input, out),
        21 => test_entries::measured::boxes(input, out),
        _ => 0,
    }
}
