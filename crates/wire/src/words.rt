// Words of four bytes, highest first.
ghost use Rattle.std.specs.Prelude.{◌≡◌, ◌+◌, ◌*◌, ◌<◌, ◌≤◌, length};
ghost use Rattle.wire.specs.Words.{word_at, Written};

use lines::fields;

// The word at place i of a request.
pub fn word(bytes: &[u8], i: usize) -> u32
    requires { 4 * i + 4 ≤ length bytes.now }
    ensures { result ≡ word_at bytes.now i }
{
    fields::number(bytes, 4 * i)
}

// All the words at the front of an output with room for them, and their number; else 0, and the output as it was: the
// number that C gets.
pub fn put_words(out: &mut [u8], words: &[u32]) -> u32
    requires { length words.now ≤ 64 }
    ensures { Written words.now out.old result out.new }
{
    let n = words.len();
    if out.len() < 4 * n {
        return 0;
    }
    for (i, word) in words.iter().enumerate() {
        fields::put_number(&mut out[4 * i..], *word);
    }
    n as u32
}
