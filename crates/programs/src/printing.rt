// Bytes to standard output, and complaints to standard error.
use std::fmt::InlineText;
use std::io;
use std::rt::Stderr;

// ---- standard output

pub fn print(rt: &impl Print, text: &[u8]) -> io::Result<()> {
    rt.write_all(text)
}

// Bytes in hexadecimal, two digits each.
pub fn print_bytes(rt: &impl Print, s: &[u8]) -> io::Result<()> {
    for b in s {
        print!(rt; "{b:02x}")?;
    }
    Ok(())
}

// ---- standard error

// A runtime that lends its standard error. `Eprint` takes text alone, and a word of the command line need not be text.
pub trait Complaints {
    type Stream: Print + Drop;

    fn stderr(&self) -> Self::Stream;
}

impl Complaints for HostRuntime {
    type Stream = Stderr;

    fn stderr(&self) -> Stderr {
        HostRuntime::stderr(self)
    }
}

// What failed is on standard error.
#[derive(Clone, Copy)]
pub struct Complained;

// A complaint that cannot be written is lost: what it is about is answered all the same.
pub fn complain(rt: &impl Complaints, text: &[u8]) -> Complained {
    let _ = rt.stderr().write_all(text);
    Complained
}

// What std puts behind the system's words for an error, before its number.
const NUMBER: &str = " (os error ";

// What failed, and why in the system's words.
pub fn fail(rt: &impl Complaints, what: &[u8], error: &io::Error) -> Complained {
    let text = InlineText::<128>::of(error);
    let text = text.as_str();
    let words = text.split_once(NUMBER).map_or(text, |(words, _)| words);
    complain(rt, what);
    complain(rt, b": ");
    complain(rt, words.as_bytes());
    complain(rt, b"\n")
}
