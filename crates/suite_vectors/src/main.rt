// Reads the test file of each case in the file `cases`, and writes one line for the case: NAME,NUMBER,PLACE where the file is refused, else
// NAME,read,COUNT and after it, for each test in order, how many edges it covers. tools/suite_vectors.py makes the cases and the lines expected.
//
// A case is a head of 48 bytes and the bytes of the text. The head is `EDGES LENGTH NAME`, blanks up to 47 bytes, and byte 10: the number of
// edges of the old program and the length of the text, of six digits each, and a name of at most 32 bytes without blanks.
#![tactic(auto)]

ghost use Rattle.std.specs.Prelude.{◌≤◌};

use std::io;
use std::io::{Read, Write};

// Prints how many edges each of the first `count` tests covers.
fn covered<W: Write>(to: &mut W, rows: &[u64], count: usize) -> io::Result<()>
    requires { count ≤ 200 }
{
    for i in 0..count {
        files::print_field(to, coverage::ones(rows, i))?;
    }
    Ok(())
}

// What the reader says of a text. The tables are full of ones before, so that a word it leaves out is seen in the counts.
fn read_text<W: Write>(to: &mut W, text: &[u8], edges: usize) -> io::Result<()> {
    let mut tests = [18446744073709551615usize; 400];
    let mut rows = [18446744073709551615u64; 3200];
    if 1024 < edges {
        return Ok(());
    }
    match suite::read_tests(text, edges, &mut tests, &mut rows) {
        Ok(count) => {
            to.write_all(b",read")?;
            files::print_field(to, count)?;
            covered(to, &rows, count)
        }
        Err(refusal) => {
            files::print_field(to, refusal.fault.number())?;
            files::print_field(to, refusal.place)
        }
    }
}

// What the reader says of the text in the next n bytes. The buffer has one byte more than a test file may have.
fn read_next<R: Read, W: Write>(
    cases: &mut R,
    to: &mut W,
    n: usize,
    edges: usize,
) -> io::Result<()> {
    let mut buffer = [0u8; 65537];
    let came = files::fill(cases, &mut buffer, n)?;
    read_text(to, text::front(&buffer, came), edges)
}

// The next case, and whether there was one.
fn one_case<R: Read, W: Write>(cases: &mut R, to: &mut W) -> io::Result<bool> {
    let mut head = [0u8; 48];
    let came = files::fill(cases, &mut head, 48)?;
    if came < 48 {
        return Ok(false);
    }
    to.write_all(files::field(&head, b' ', 2))?;
    read_next(
        cases,
        to,
        files::six_digits(files::field(&head, b' ', 1)),
        files::six_digits(files::field(&head, b' ', 0)),
    )?;
    to.write_all(b"\n")?;
    Ok(true)
}

// Nothing says that a file ends, so the cases are counted, from more than there are.
fn all_cases<R: Read, W: Write>(cases: &mut R, to: &mut W) -> io::Result<()> {
    for _ in 0..100000 {
        if !one_case(cases, to)? {
            return Ok(());
        }
    }
    Ok(())
}

fn main(rt: HostRuntime) -> io::Result<()> {
    match files::open(&rt, "cases")? {
        Some(mut cases) => all_cases(&mut cases, &mut rt.stdout()),
        None => Ok(()),
    }
}
