// The program `touches`: frames on standard input, a line each, and their answers on standard output. Where a read or a
// write fails it ends, and says so on standard error.

#![tactic(auto)]

mod pause;
mod say;

ghost use Rattle.std.specs.Prelude.{◌≡◌, ◌<◌, ◌≤◌, length, drop, IfOk, IfSome};
ghost use Rattle.record_definitions.specs.Answer.{longest_said};
ghost use Rattle.record_definitions.specs.Server.{reply_line};
ghost use Rattle.record_definitions.specs.Reading.{reading, after, printed};

use lines::hex::LINE_FEED;
use record::feed;
use record_definitions::reader::Reader;
use std::io;
use std::io::{ErrorKind, Read, Write};
use std::rt::Clock;

// How often a write is tried that the system says can be made later: for about a minute.
const PATIENCE: u32 = 6000;

// Hands to an output what some input prints, but for the bytes that are done, and says how many of them it took. No
// contract can say what a write does; this one has each call prove what it is handed.
fn put<'a>(
    rt: &impl Clock,
    to: &mut impl Write,
    s: Reader,
    input: &'a [u8],
    done: usize,
    rest: &'a [u8],
) -> io::Result<usize>
    requires { rest.now ≡ drop done (printed reply_line (reading s) input.now) }
    ensures { IfOk result (λ n. (0 < n) × (n ≤ length rest.now)) }
{
    let mut patience = PATIENCE;
    loop {
        match to.write(rest) {
            Ok(0) => return Err(io::Error::from(ErrorKind::WriteZero)),
            Ok(n) => return Ok(n),
            Err(why) => {
                let again = pause::later(rt, &why);
                patience -= 1;
                if !again || patience == 0 {
                    return Err(why);
                }
            }
        }
    }
}

// A read or a write failed, which was said on standard error.
#[derive(Clone, Copy)]
pub struct Failed;

// Writes what some input prints, part after part as the system takes it: the answers written so far.
fn put_out<'a>(
    rt: &(impl Clock + Eprint + AllocGlobal),
    to: &mut impl Write,
    s: Reader,
    input: &'a [u8],
    output: &'a [u8],
    before: u64,
) -> Result<u64, Failed>
    requires { output.now ≡ printed reply_line (reading s) input.now }
{
    let mut done = 0usize;
    while done < output.len() {
        match put(rt, to, s, input, done, &output[done..]) {
            Ok(n) => done += n,
            Err(why) => {
                let answers = before.wrapping_add(say::answers(&output[..done]) as u64);
                say::failed(rt, "writing", answers, &why);
                return Err(Failed);
            }
        }
    }
    Ok(before.wrapping_add(say::answers(output) as u64))
}

// The state after a piece of input, and the answers so far.
#[derive(Clone, Copy)]
pub struct Going {
    pub reader: Reader,
    pub answers: u64,
}

// A whole piece of input: what it prints is written, as often as the output is full. It ends early where a write fails.
fn piece(
    rt: &(impl Clock + Eprint + AllocGlobal),
    to: &mut impl Write,
    mut s: Reader,
    chunk: &[u8],
    out: &mut [u8],
    before: u64,
) -> Result<Going, Failed>
    requires { longest_said ≤ length out.old }
    ensures { IfOk result (λ g. reading g.reader ≡ after (reading s) chunk.now) }
{
    let mut answers = before;
    let mut from = 0usize;
    while from < chunk.len() {
        let f = feed::feed(s, &chunk[from..], out);
        let taken = f.taken;
        let written = f.written;
        let end = from + taken;
        answers = put_out(rt, to, s, &chunk[from..end], &out[..written], answers)?;
        s = f.reader;
        from = end;
    }
    Ok(Going { reader: s, answers })
}

// One read: how many bytes it brought, or None where the input has ended. Where it failed the program ends, unless the
// system says that there is something to read later.
fn input(
    rt: &(impl Clock + Eprint + AllocGlobal),
    from: &mut impl Read,
    chunk: &mut [u8],
    answers: u64,
) -> Result<Option<usize>, Failed>
    requires { 0 < length chunk.old }
    ensures { IfOk result (λ got. IfSome got (λ n. n ≤ length chunk.new)) }
{
    match from.read(chunk) {
        Ok(0) => Ok(None),
        Ok(n) => Ok(Some(n)),
        Err(why) => {
            if pause::later(rt, &why) {
                return Ok(Some(0));
            }
            say::failed(rt, "reading", answers, &why);
            Err(Failed)
        }
    }
}

// Piece after piece; at the end a line that has begun gets the line feed that it lacks. Nothing says that an input
// ends: the count of pieces does, after 2^64 - 1 of them.
fn all(
    rt: &(impl Clock + Eprint + AllocGlobal),
    from: &mut impl Read,
    to: &mut impl Write,
    chunk: &mut [u8],
    out: &mut [u8],
) -> Result<(), Failed>
    requires { (0 < length chunk.old) × (longest_said ≤ length out.old) }
{
    let mut reader = feed::start();
    let mut answers = 0u64;
    for _ in 0..u64::MAX {
        let Some(n) = input(rt, from, chunk, answers)? else {
            if reader.len != 0 {
                piece(rt, to, reader, &[LINE_FEED], out, answers)?;
            }
            return Ok(());
        };
        let g = piece(rt, to, reader, &chunk[..n], out, answers)?;
        reader = g.reader;
        answers = g.answers;
    }
    Ok(())
}

fn main(rt: HostRuntime) {
    let mut chunk = [0u8; 65536];
    let mut out = [0u8; 65536];
    // A failure was said where it came; it ends the program as the end of the input does.
    let _ = all(&rt, &mut rt.stdin(), &mut rt.stdout(), &mut chunk, &mut out);
}
