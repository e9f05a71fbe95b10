// Files: read whole, and made where there are none. A file that is there is never written to.
ghost use Rattle.std.specs.Prelude.{◌≤◌, length, IfOk};
ghost use Rattle.std.specs.Io.{ReadsAtMost};

use crate::arguments::{MAX_WORD, path_of};
use crate::printing::{Complained, Complaints, complain, fail};
use std::fs::{File, OpenFile, OpenOptions};
use std::io::{ErrorKind, Read, Write};
use std::rt::{Env, Files};
use std::{fs, io, str};

// ---- paths

// A path as the text that std opens files by.
fn path_text(path: &[u8]) -> io::Result<&str> {
    str::from_utf8(path).map_err(|_| io::Error::new(
        ErrorKind::InvalidInput,
        "the name is not UTF-8",
    ))
}

// ---- reading

// Reads until the buffer is full or the file ends; how many bytes stand at its start. `read_exact` does not tell how
// many came before the end, and `read_to_end` takes a `Vec`.
pub fn read_file(file: &mut impl Read, space: &mut [u8]) -> io::Result<usize>
    ensures { ReadsAtMost result space.new }
{
    let mut n = 0;
    while n < space.len() {
        match file.read(&mut space[n..])? {
            0 => break,
            k => n += k,
        }
    }
    Ok(n)
}

// Opens the file at a path and reads it.
fn open_and_read<'a>(rt: &impl Files, path: &[u8], space: &'a mut [u8]) -> io::Result<&'a [u8]>
    ensures { IfOk result (λ text. length text.now ≤ length space.old) }
{
    let mut file = File::open(rt, path_text(path)?)?;
    let n = read_file(&mut file, space)?;
    Ok(&space[..n])
}

// What is read of the file that argument i names.
pub fn read_arg<'a, R: Env + Files + Complaints>(
    rt: &R,
    i: usize,
    what: &[u8],
    space: &'a mut [u8],
) -> Result<&'a [u8], Complained>
    ensures { IfOk result (λ text. length text.now ≤ length space.old) }
{
    let mut path = [0u8; MAX_WORD];
    let path = path_of(rt, i, what, &mut path)?;
    open_and_read(rt, path, space).map_err(|error| fail(rt, path, &error))
}

// ---- writing

// Makes a file where there is none, for writing.
fn create<R: Files>(rt: &R, path: &[u8]) -> io::Result<R::File> {
    OpenOptions::new()
        .write(true)
        .create_new(true)
        .open(rt, path_text(path)?)
}

// Complains that a file cannot be made.
fn fail_to_create(rt: &impl Complaints, path: &[u8], error: &io::Error) -> Complained {
    if error.kind() != ErrorKind::AlreadyExists {
        return fail(rt, path, error);
    }
    complain(rt, path);
    complain(rt, b": the name is taken, and nothing is written over\n")
}

// Removes a file that the program made.
pub fn remove<R: Files + Complaints>(rt: &R, path: &[u8]) {
    if let Err(error) = path_text(path).and_then(|text| fs::remove_file(rt, text)) {
        fail(rt, path, &error);
    }
}

// Writes to a file that was just made, and closes it. `sync_all` tells what else only closing it would find: std's
// closing is silent.
fn fill<F: Write + OpenFile + Drop>(mut file: F, text: &[u8]) -> io::Result<()> {
    file.write_all(text)?;
    file.sync_all()
}

// Makes a file of the bytes at a path that names nothing. Where that fails, nothing is left of it.
pub fn write_new<R: Files + Complaints>(
    rt: &R,
    path: &[u8],
    text: &[u8],
) -> Result<(), Complained> {
    let file = create(rt, path).map_err(|error| fail_to_create(rt, path, &error))?;
    fill(file, text).map_err(|error| {
        let complained = fail(rt, path, &error);
        remove(rt, path);
        complained
    })
}
