// Runs the calls of the library on each case in the file `cases`, and writes for the case: `case,NAME`; the sheet and the record lines of
// all tests, or `refused,NUMBER,PLACE`; where a sheet was written, what is answered for an output one byte short and for one just long enough,
// and whether the bytes that must stay are as they were; and `check,NUMBER,PLACE`, the answer of the check of the case's sheet.
// tools/job_vectors.py makes the cases and the lines expected.
//
// A case is a head of 64 bytes and four texts: the old program, the new one, the tests and a sheet. The head has the lengths of the texts, of
// six digits and a blank each, and a name of at most 32 bytes without blanks, with blanks up to 63 bytes, and byte 10.
#![tactic(auto)]

use std::io;
use std::io::{Read, Write};

// The texts of a job.
#[derive(Clone, Copy)]
struct Texts<'a> {
    old: &'a [u8],
    new: &'a [u8],
    tests: &'a [u8],
}

impl<'a> Texts<'a> {
    fn sheet(&self, out: &mut [u8]) -> u64 {
        rivetyellow::ry_sheet(self.old, self.new, self.tests, out)
    }

    fn record(&self, i: usize, out: &mut [u8]) -> u64 {
        rivetyellow::ry_record(self.old, self.new, self.tests, i, out)
    }

    fn check(&self, sheet: &[u8]) -> u64 {
        rivetyellow::ry_check(self.old, self.new, self.tests, sheet)
    }
}

// The number and the place of an answer.
fn number_of(answer: u64) -> usize {
    (answer / 4294967296) as usize
}

fn place_of(answer: u64) -> usize {
    (answer % 4294967296) as usize
}

// Prints the record line of the test i, and says whether there is one.
fn one_record<W: Write>(to: &mut W, job: &Texts, i: usize, out: &mut [u8]) -> io::Result<bool> {
    let answer = job.record(i, out);
    if number_of(answer) != 0 {
        return Ok(false);
    }
    to.write_all(text::front(out, place_of(answer)))?;
    Ok(true)
}

// Prints the record lines of all tests. There are no more than 200.
fn all_records<W: Write>(to: &mut W, job: &Texts, out: &mut [u8]) -> io::Result<()> {
    for i in 0..201 {
        if !one_record(to, job, i, out)? {
            return Ok(());
        }
    }
    Ok(())
}

fn print_room<W: Write>(to: &mut W, word: &[u8], answer: u64, is_kept: bool) -> io::Result<()> {
    to.write_all(word)?;
    files::print_field(to, number_of(answer))?;
    files::print_field(to, place_of(answer))?;
    if is_kept {
        return to.write_all(b",kept\n");
    }
    to.write_all(b",altered\n")
}

// What is answered for an output of n bytes, and whether the bytes of `out` from the place on stay.
fn one_room<W: Write>(
    to: &mut W,
    job: &Texts,
    out: &mut [u8],
    n: usize,
    from: usize,
    word: &[u8],
) -> io::Result<()> {
    if out.len() < n {
        return Ok(());
    }
    out.fill(170);
    let answer = job.sheet(&mut out[..n]);
    print_room(to, word, answer, files::untouched(out, from))
}

// The same for one byte short of the n that were written, and for n.
fn rooms<W: Write>(to: &mut W, job: &Texts, out: &mut [u8], n: usize) -> io::Result<()> {
    if n == 0 {
        return Ok(());
    }
    one_room(to, job, out, n - 1, 0, b"short")?;
    one_room(to, job, out, n, n, b"exact")
}

// Prints all that the selector writes for the texts, or its refusal.
fn selection<W: Write>(to: &mut W, job: &Texts, out: &mut [u8]) -> io::Result<()> {
    let answer = job.sheet(out);
    let number = number_of(answer);
    let place = place_of(answer);
    if number != 0 {
        return files::print_answer(to, b"refused", number, place);
    }
    to.write_all(text::front(out, place))?;
    all_records(to, job, out)?;
    rooms(to, job, out, place)
}

fn whole_case<W: Write>(to: &mut W, job: &Texts, sheet: &[u8]) -> io::Result<()> {
    let mut out = [0u8; 65536];
    selection(to, job, &mut out)?;
    let answer = job.check(sheet);
    files::print_answer(to, b"check", number_of(answer), place_of(answer))
}

// The length of the text k of a case, by its head.
fn length_of(head: &[u8], k: usize) -> usize {
    files::six_digits(files::field(head, b' ', k))
}

// Each buffer has one byte more than a text may have.
fn read_case<R: Read, W: Write>(cases: &mut R, to: &mut W, head: &[u8]) -> io::Result<()> {
    let mut old = [0u8; 65537];
    let mut new = [0u8; 65537];
    let mut tests = [0u8; 65537];
    let mut sheet = [0u8; 65537];
    let o = files::fill(cases, &mut old, length_of(head, 0))?;
    let n = files::fill(cases, &mut new, length_of(head, 1))?;
    let t = files::fill(cases, &mut tests, length_of(head, 2))?;
    let s = files::fill(cases, &mut sheet, length_of(head, 3))?;
    let job = Texts {
        old: text::front(&old, o),
        new: text::front(&new, n),
        tests: text::front(&tests, t),
    };
    whole_case(to, &job, text::front(&sheet, s))
}

// The next case, and whether there was one.
fn one_case<R: Read, W: Write>(cases: &mut R, to: &mut W) -> io::Result<bool> {
    let mut head = [0u8; 64];
    let came = files::fill(cases, &mut head, 64)?;
    if came < 64 {
        return Ok(false);
    }
    to.write_all(b"case,")?;
    to.write_all(files::field(&head, b' ', 4))?;
    to.write_all(b"\n")?;
    read_case(cases, to, &head)?;
    Ok(true)
}

// Nothing says that a file ends, so the cases are counted, from more than there are.
fn all_cases<R: Read, W: Write>(cases: &mut R, to: &mut W) -> io::Result<()> {
    for _ in 0..100000 {
        if !one_case(cases, to)? {
            return Ok(());
        }
    }
    Ok(())
}

fn main(rt: HostRuntime) -> io::Result<()> {
    match files::open(&rt, "cases")? {
        Some(mut cases) => all_cases(&mut cases, &mut rt.stdout()),
        None => Ok(()),
    }
}
