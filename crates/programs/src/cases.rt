// The file `cases` that a replay reads: opened, read piece by piece, and what a case comes to.
ghost use Rattle.std.specs.Prelude.{◌≡◌, ◌≤◌, ◌<◌, length, take, IfOk, IfSome};
ghost use Rattle.programs.specs.Cases.{judged};
ghost use Rattle.programs.specs.declared.cases.Outcome.TheVariants.{End};

use crate::files::read_file;
use crate::printing::{Complained, Complaints, fail, print};
use std::fs::File;
use std::io;
use std::io::Read;
use std::rt::Files;

// What a case comes to. An `Option<bool>` would name none of the three.
#[derive(Clone, Copy)]
pub enum Outcome {
    Agrees,
    Differs,
    // The file ends, or is broken.
    End,
}

impl From<bool> for Outcome {
    ghost from_gives = { λ agrees outcome. outcome ≡ judged agrees };

    fn from(agrees: bool) -> Outcome {
        if agrees {
            Outcome::Agrees
        } else {
            Outcome::Differs
        }
    }
}

// The file ends within a case, or a case is too long.
pub fn broken(rt: &impl Print) -> io::Result<Outcome>
    ensures { IfOk result (λ outcome. outcome ≡ End) }
{
    print(rt, b"the file of cases is broken\n")?;
    Ok(Outcome::End)
}

// Tries n cases, or fewer where the file ends; how many agree.
pub fn count_agreeing<F: FnMut(u64) -> io::Result<Outcome>>(
    n: u64,
    mut try_case: F,
) -> io::Result<u64>
    requires { F.IsAlwaysCallable try_case }
    ensures { IfOk result (λ agree. agree ≤ n) }
{
    let mut agree = 0;
    for k in 0..n {
        match try_case(k)? {
            Outcome::Agrees => agree += 1,
            Outcome::Differs => {}
            Outcome::End => break,
        }
    }
    Ok(agree)
}

// ---- pieces of memory

// The first n bytes of an area; all where it has fewer.
pub fn first_mut(area: &mut [u8], n: usize) -> &mut [u8]
    ensures { result.now ≡ take n area.old }
{
    let n = n.min(area.len());
    &mut area[..n]
}

// ---- the file

// The file, for reading; a complaint where it cannot be opened.
pub fn open_cases<R: Files + Complaints>(rt: &R) -> Result<R::File, Complained> {
    File::open(rt, "cases").map_err(|error| fail(rt, b"cases", &error))
}

// Reads n bytes to the start of a buffer; none where the file has fewer or the buffer is shorter.
pub fn read_piece<'a>(
    file: &mut impl Read,
    n: usize,
    space: &'a mut [u8],
) -> io::Result<Option<&'a [u8]>>
    ensures { IfOk result (λ found. IfSome found (λ bytes. (length bytes.now ≡ n) × (n ≤ length space.old))) }
{
    let found = read_file(file, first_mut(space, n))?;
    Ok(if found == n { Some(&space[..n]) } else { None })
}

// A number of two bytes; none where the file ends.
pub fn read_count(file: &mut impl Read) -> io::Result<Option<u16>>
    ensures { IfOk result (λ found. IfSome found (λ n. n < 65536)) }
{
    let mut size = [0u8; 2];
    Ok(if read_file(file, &mut size)? == 2 {
        Some(u16::from_le_bytes(size))
    } else {
        None
    })
}

// A record: a byte that says how many of its bytes follow.
pub fn read_record<'a>(file: &mut impl Read, record: &'a mut [u8]) -> io::Result<Option<&'a [u8]>>
    ensures { IfOk result (λ found. IfSome found (λ bytes. length bytes.now < 256)) }
{
    let mut size = [0u8; 1];
    match read_piece(file, 1, &mut size)? {
        Some(&[n]) => read_piece(file, usize::from(n), record),
        _ => Ok(None),
    }
}

// The last line: how many cases agree.
pub fn print_total(rt: &impl Print, agree: u64, what: &[u8]) -> io::Result<()> {
    print!(rt; "{agree}")?;
    print(rt, what)
}
