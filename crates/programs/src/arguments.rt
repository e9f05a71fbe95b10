// The words of the command line: as they were given, as numbers and as paths.
ghost use Rattle.std.specs.Prelude.{◌≤◌, ◌<◌, length, IfSome, IfOk};

use crate::printing::{Complained, Complaints, complain, print};
use std::env::FillError;
use std::io;
use std::rt::Env;

// The longest word that is read, in bytes.
pub const MAX_WORD: usize = 4096;

// How many arguments there are, the program's own name among them.
pub fn arg_count(rt: &impl Env) -> usize {
    (0..usize::MAX)
        .find(|i| matches!(rt.arg(*i, &mut []), Err(FillError::NotPresent)))
        .unwrap_or(usize::MAX)
}

// Argument i, at the start of a buffer; none where it is missing or longer than the buffer.
pub fn read_word<'a>(rt: &impl Env, i: usize, text: &'a mut [u8]) -> Option<&'a [u8]>
    ensures { IfSome result (λ word. length word.now ≤ length text.old) }
{
    let n = rt.arg(i, text).ok()?;
    Some(&text[..n])
}

// Argument i as it was given, and the end of the line, on standard error.
pub fn complain_word<R: Env + Complaints>(rt: &R, i: usize) -> Complained {
    let mut text = [0u8; MAX_WORD];
    if let Some(word) = read_word(rt, i, &mut text) {
        complain(rt, word);
    }
    complain(rt, b"\n")
}

// Argument i as it was given, on standard output, where an error is handed on.
pub fn print_word<R: Env + Print>(rt: &R, i: usize) -> io::Result<()> {
    let mut text = [0u8; MAX_WORD];
    match read_word(rt, i, &mut text) {
        Some(word) => print(rt, word),
        None => Ok(()),
    }
}

// ---- numbers

// A decimal number of at most `most`. `parse` would take a sign too.
fn decimal(text: &[u8], most: u32) -> Option<u32>
    ensures { IfSome result (λ n. n ≤ most) }
{
    let mut value = 0u32;
    for d in text {
        let digit = char::from(*d).to_digit(10)?;
        value = value.checked_mul(10)?.checked_add(digit)?;
    }
    if value <= most { Some(value) } else { None }
}

// The number from 1 to `most` that argument i is.
pub fn number_at(rt: &impl Env, i: usize, most: u32) -> Option<u32>
    ensures { IfSome result (λ n. (1 ≤ n) × (n ≤ most)) }
{
    let mut text = [0u8; MAX_WORD];
    let n = decimal(read_word(rt, i, &mut text)?, most)?;
    if 1 <= n { Some(n) } else { None }
}

// ---- paths

// Argument i, the path of `what`, at the start of a buffer; a complaint where it is missing, empty or too long.
pub fn path_of<'a, R: Env + Complaints>(
    rt: &R,
    i: usize,
    what: &[u8],
    path: &'a mut [u8],
) -> Result<&'a [u8], Complained>
    ensures { IfOk result (λ p. (0 < length p.now) × (length p.now ≤ length path.old)) }
{
    let wrong: &[u8] = match rt.arg(i, path) {
        Ok(0) => b": the name is empty\n",
        Ok(n) => return Ok(&path[..n]),
        Err(FillError::TooLong) => b": File name too long\n",
        Err(FillError::NotPresent) => b": Invalid argument\n",
    };
    complain(rt, what);
    Err(complain(rt, wrong))
}
