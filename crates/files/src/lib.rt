// What the programs share: files that arguments name, cases in a file, outputs, and numbers in print.
#![tactic(auto)]

ghost use Rattle.std.specs.Prelude.{◌≡◌, [], ◌++◌, ◌∷◌, ◌≤◌, ◌<◌, drop, take, get_or, length, codes, decimal, IfOk, OnOk};
ghost use Rattle.std.specs.Io.KnownBytes.{Appends, Consumes, IsAtEnd};
ghost use Rattle.rules.specs.Text.{all_bytes, split};
ghost use Rattle.files.specs.Marks.{is_mark};

use std::env::FillError;
use std::io::{ErrorKind, Read, Write};
use std::rt::{Env, Files};
use std::{fs, io, str};

// Says on standard error what failed, and why.
fn fail(rt: &impl Eprint, what: &str, why: &io::Error) -> io::Result<()> {
    eprintln!(rt; "{what}: {why}")
}

// Opens the file that the path names. Where it cannot, a line on standard error says why.
pub fn open<R: Files + Eprint>(rt: &R, path: &str) -> io::Result<Option<R::File>> {
    match fs::open(rt, path) {
        Ok(file) => Ok(Some(file)),
        Err(e) => {
            fail(rt, path, &e)?;
            Ok(None)
        }
    }
}

// Fills the buffer, and answers how many bytes came: fewer than it has room for only where the input ends.
fn read_full<R: Read>(reader: &mut R, buffer: &mut [u8]) -> io::Result<usize>
    ensures within { IfOk result (λ n. n ≤ length buffer.new) }
    ensures bytes { IfOk result (λ n. Consumes (R.remaining reader.old) (R.remaining reader.new) (take n buffer.new)) }
    ensures end { IfOk result (λ n. n < length buffer.new → IsAtEnd (R.remaining reader.new)) }
{
    let mut done = 0;
    while done < buffer.len() {
        let n = reader.read(&mut buffer[done..])?;
        if n == 0 {
            return Ok(done);
        }
        done += n;
    }
    Ok(done)
}

// Reads the file that the path names, as far as the buffer goes, and answers how many bytes came. Where it cannot, a line on standard error says
// why.
fn load_path<R: Files + Eprint>(
    rt: &R,
    path: &str,
    buffer: &mut [u8],
) -> io::Result<Option<usize>> {
    let Some(mut file) = open(rt, path)? else {
        return Ok(None);
    };
    match read_full(&mut file, buffer) {
        Ok(size) => Ok(Some(size)),
        Err(e) => {
            fail(rt, path, &e)?;
            Ok(None)
        }
    }
}

// Says on standard error that an argument does not name a file, and answers that nothing came.
fn no_argument<R: Eprint>(rt: &R, why: ErrorKind) -> io::Result<Option<usize>> {
    fail(rt, "argument", &io::Error::from(why))?;
    Ok(None)
}

// The same of the file that argument i names.
pub fn load<R: Files + Env + Eprint>(
    rt: &R,
    i: usize,
    buffer: &mut [u8],
) -> io::Result<Option<usize>> {
    let mut path = [0u8; 4096];
    match rt.arg(i, &mut path) {
        Ok(n) => match str::from_utf8(&path[..n]) {
            Ok(path) => load_path(rt, path, buffer),
            Err(_) => no_argument(rt, ErrorKind::InvalidData),
        },
        Err(FillError::NotPresent) => no_argument(rt, ErrorKind::NotFound),
        Err(FillError::TooLong) => no_argument(rt, ErrorKind::InvalidFilename),
    }
}

// Whether the program was started with a word i; its own name is word 0.
fn has_word<R: Env>(rt: &R, i: usize) -> bool {
    let mut none = [0u8; 0];
    !matches!(rt.arg(i, &mut none), Err(FillError::NotPresent))
}

// Whether the program was started with n words, its own name among them; else a line, for standard error, says how it is used.
pub fn has_args<R: Env, W: Write>(rt: &R, to: &mut W, n: usize, usage: &[u8]) -> io::Result<bool> {
    if (n == 0 || has_word(rt, n - 1)) && !has_word(rt, n) {
        return Ok(true);
    }
    to.write_all(usage)?;
    Ok(false)
}

// ---- cases, one after another in a file

// The field k between the bytes b, empty where there are not so many.
#[tactic(auto, using(crate::proofs::Laws::fields))]
pub fn field(s: &[u8], b: u8, k: usize) -> &[u8]
    ensures { result.now ≡ get_or (split b s.now) k [] }
{
    let mut rest = s;
    for i in 0..k {
        let n = text::find(rest, b);
        if rest.len() <= n {
            return text::front(rest, 0);
        }
        rest = text::after(rest, n + 1);
    }
    text::first(rest, b)
}

// The number that six digits spell, three by three: text::value goes only to 65,536, and a text may be longer.
pub fn six_digits(s: &[u8]) -> usize {
    1000 * text::value(text::front(s, 3)) + text::value(text::after(s, 3))
}

// Reads the next n bytes into the buffer, if it has room for them, and answers how many came.
pub fn fill<R: Read>(reader: &mut R, buffer: &mut [u8], n: usize) -> io::Result<usize>
    ensures within { IfOk result (λ m. m ≤ n) }
    ensures bytes { IfOk result (λ m. Consumes (R.remaining reader.old) (R.remaining reader.new) (take m buffer.new)) }
    ensures end { n ≤ length buffer.old → IfOk result (λ m. m < n → IsAtEnd (R.remaining reader.new)) }
{
    if buffer.len() < n {
        return Ok(0);
    }
    read_full(reader, &mut buffer[..n])
}

// ---- outputs that were filled with 170

// Whether every byte from the place on is 170 still.
#[tactic(auto, using(crate::proofs::Laws::marks))]
pub fn untouched(out: &[u8], from: usize) -> bool
    ensures { result ≡ all_bytes is_mark (drop from out.now) }
{
    for x in text::after(out, from) {
        if *x != 170 {
            return false;
        }
    }
    true
}

// ---- print

// Prints a comma and the number.
pub fn print_field<W: Write>(to: &mut W, n: usize) -> io::Result<()>
    ensures { OnOk result (Appends (W.contents to.old) (W.contents to.new) (codes "," ++ decimal n)) }
{
    write!(to, ",{n}")
}

// Prints a line: the word, and the number and place of an answer.
pub fn print_answer<W: Write>(
    to: &mut W,
    word: &[u8],
    number: usize,
    place: usize,
) -> io::Result<()>
    ensures { OnOk result (Appends (W.contents to.old) (W.contents to.new)
        (word.now ++ (codes "," ++ decimal number) ++ (codes "," ++ decimal place) ++ codes "\n")) }
{
    to.write_all(word)?;
    print_field(to, number)?;
    print_field(to, place)?;
    to.write_all(b"\n")
}
