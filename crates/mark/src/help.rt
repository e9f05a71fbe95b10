// What the program says of itself.
use programs::printing::{Complaints, print};
use std::io;

fn write_usage(to: &impl Print) -> io::Result<()> {
    print(
        to,
        b"usage: mark BOOK
       mark BOOK RUN [LIMIT]
       mark BOOK RUN --list
       mark --elaborate BOOK RUN LIMIT OUT_RUN OUT_TAIL
       mark --help | -h | --version
",
    )
}

// The usage, as a complaint.
pub(crate) fn usage(rt: &impl Complaints) {
    let _ = write_usage(&rt.stderr());
}

pub(crate) fn help(rt: &impl Print) -> io::Result<()> {
    write_usage(rt)?;
    print(
        rt,
        b"
mark BOOK lists the terms of a book: number, sort and term.
mark BOOK RUN marks a run over a book, under a limit of visits: 1000000 where none is given.
mark BOOK RUN --list lists the steps of a run: number, rule, premises, literals and arguments.
mark --elaborate writes the elaboration of the accepted steps to two files, whose names are not taken,
and marks it again.
Verdict 0 says that no step was refused, and not more: see 'What verdict 0 means' in the README.
",
    )
}

pub(crate) fn version(rt: &impl Print) -> io::Result<()> {
    print(rt, b"mark 0.1.0\n")
}
