// Writes the table of the fewest and the most edges that leave a node, a line for each kind: KIND,FEWEST,MOST. Then
// reads the old and the new program file of each case in the file `cases`, and writes one line for the case: NAME,read, or, for the first of
// the two that is refused, NAME,old,NUMBER,PLACE or NAME,new,NUMBER,PLACE. tools/read_vectors.py makes the cases and the lines expected.
//
// A case is a head of 48 bytes, the bytes of the old text and the bytes of the new one. The head is `OLD NEW NAME`, blanks up to 47 bytes, and
// byte 10: the lengths of the two texts, of six digits each, and a name of at most 32 bytes without blanks.
#![tactic(auto)]

use answer::Refusal;
use reader::Counts;
use std::io;
use std::io::{Read, Write};

fn refused<W: Write>(to: &mut W, name: &[u8], file: &[u8], refusal: Refusal) -> io::Result<()> {
    to.write_all(name)?;
    files::print_answer(to, file, refusal.fault.number(), refusal.place)
}

fn told<W: Write>(
    to: &mut W,
    name: &[u8],
    old: Result<Counts, Refusal>,
    new: Result<Counts, Refusal>,
) -> io::Result<()> {
    match (old, new) {
        (Err(refusal), _) => refused(to, name, b",old", refusal),
        (Ok(_), Err(refusal)) => refused(to, name, b",new", refusal),
        (Ok(_), Ok(_)) => {
            to.write_all(name)?;
            to.write_all(b",read\n")
        }
    }
}

// What the reader says of the text in the first n bytes.
fn read_front(buffer: &[u8], n: usize) -> Result<Counts, Refusal> {
    let mut work = [0usize; 8128];
    reader::read_into(text::front(buffer, n), &mut work)
}

// What the reader says of the text in the next n bytes. The buffer has one byte more than a program file may have.
fn read_next<R: Read>(cases: &mut R, n: usize) -> io::Result<Result<Counts, Refusal>> {
    let mut buffer = [0u8; 65537];
    let came = files::fill(cases, &mut buffer, n)?;
    Ok(read_front(&buffer, came))
}

// The next case, and whether there was one.
fn one_case<R: Read, W: Write>(cases: &mut R, to: &mut W) -> io::Result<bool> {
    let mut head = [0u8; 48];
    let came = files::fill(cases, &mut head, 48)?;
    if came < 48 {
        return Ok(false);
    }
    let old = read_next(cases, files::six_digits(files::field(&head, b' ', 0)))?;
    let new = read_next(cases, files::six_digits(files::field(&head, b' ', 1)))?;
    told(to, files::field(&head, b' ', 2), old, new)?;
    Ok(true)
}

// Nothing says that a file ends, so the cases are counted, from more than there are.
fn all_cases<R: Read, W: Write>(cases: &mut R, to: &mut W) -> io::Result<()> {
    for _ in 0..100000 {
        if !one_case(cases, to)? {
            return Ok(());
        }
    }
    Ok(())
}

// The line of a kind in the table of degrees.
fn degrees<W: Write>(to: &mut W, letter: &[u8], kind: usize) -> io::Result<()> {
    let d = reader::degrees_of(kind);
    files::print_answer(to, letter, d.fewest, d.most)
}

fn main(rt: HostRuntime) -> io::Result<()> {
    let mut to = rt.stdout();
    degrees(&mut to, b"E", 0)?;
    degrees(&mut to, b"S", 1)?;
    degrees(&mut to, b"C", 2)?;
    degrees(&mut to, b"X", 3)?;
    match files::open(&rt, "cases")? {
        Some(mut cases) => all_cases(&mut cases, &mut to),
        None => Ok(()),
    }
}
