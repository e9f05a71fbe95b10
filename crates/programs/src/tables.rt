// Tables of words. A table has a line for each code: its two digits, a blank and the words. It is a byte string, since
// a `match` with a text in each arm is dear to check.
ghost use Rattle.std.specs.Prelude.{◌≤◌, length, IfSome};

use crate::printing::print;
use std::io;

// The words of a code.
fn words_of(table: &[u8], code: u8) -> Option<&[u8]>
    ensures { IfSome result (λ words. length words.now ≤ length table.now) }
{
    let head = [b'0' + code / 10, b'0' + code % 10, b' '];
    table
        .split(|b| *b == b'\n')
        .find_map(|line| line.strip_prefix(&head))
}

// Prints the words of a code; nothing where the table has none.
pub fn print_words(rt: &impl Print, code: u8, table: &[u8]) -> io::Result<()> {
    match words_of(table, code) {
        Some(words) => print(rt, words),
        None => Ok(()),
    }
}
