// Texts as slices of bytes, and tables as slices of numbers: scans, parts, fields, numbers, and writing. Every function takes any slice and
// any place: a part that goes past the end is cut there, a read past the end is 0, and a store past the end does nothing. A writer requires
// only that the next place can be counted.
#![tactic(auto)]

ghost use Rattle.std.specs.Prelude.{◌≡◌, ◌∷◌, [], ◌+◌, ◌-◌, ◌*◌, ◌%◌, ◌^◌, ◌≤◌, ◌<◌, eqb, min, not, position, take, drop, get_or, set, length, replicate};
ghost use Rattle.std.proofs.lemmas.List.Edits.{sets};
ghost use Rattle.std.specs.List.{list_all};
ghost use lib.Pointwise.{pointwise};
ghost use Rattle.rules.specs.Text.{
  all_bytes,
  between as within,
  decimal,
  is_label,
  is_name,
  is_number,
  is_word,
  name_byte,
  same as same_bytes,
  same_label,
  value as value_of,
};
ghost use Rattle.laws.specs.Tests.{choose, has};
ghost use Rattle.laws.specs.Bits.{bit_in};
ghost use Rattle.laws.specs.BitSets.{with_bit};
ghost use Rattle.rules.specs.SuiteFile.{hex_byte};
ghost use Rattle.text.specs.Hash.{hash_of};
ghost use Rattle.text.specs.Puts.{Puts};
ghost use Rattle.text.specs.Scans.{
  blanks,
  class_byte,
  ends_differ,
  in_common,
  last_byte,
  plain_byte,
  sized as is_sized,
  span,
};

// The bytes of a sheet's first line.
pub const SHEET_HEAD: [u8; 7] = *b"sheet,1";

// How many bytes stand before the first b: all of them, where there is none.
#[tactic(auto, using(crate::proofs::Laws::finds))]
pub fn find(s: &[u8], b: u8) -> usize
    ensures { result ≡ span b s.now }
{
    let mut rest = s;
    while let Some((block, more)) = rest.split_first_chunk::<16>() {
        if block_has(block, b) {
            break;
        }
        rest = more;
    }
    s.len() - rest.len() + find_short(rest, b)
}

// The place of the first b.
fn place_of(s: &[u8], b: u8) -> Option<usize>
    ensures { result ≡ position (λ x. eqb x b) s.now }
{
    s.iter().position(|x| *x == b)
}

// The same as find, byte by byte: the quicker where the first b is not far.
#[tactic(auto, using(crate::proofs::Laws::find_place))]
pub fn find_short(s: &[u8], b: u8) -> usize
    ensures { result ≡ span b s.now }
{
    place_of(s, b).unwrap_or(s.len())
}

// Whether the two hold the same bytes.
#[tactic(auto, using(crate::specs::Runs::numbers_same))]
pub fn same_long(a: &[u8], b: &[u8]) -> bool
    ensures { result ≡ same_bytes a.now b.now }
{
    a == b
}

// The same, by the last byte first: the quicker where they mostly differ, as names do by a number at their end.
#[tactic(auto, using(crate::proofs::Laws::sames))]
pub fn same(a: &[u8], b: &[u8]) -> bool
    ensures { result ≡ same_bytes a.now b.now }
{
    a.len() == b.len() && last_byte(a) == last_byte(b) && same_long(a, b)
}

// The place of the first byte that is no blank.
fn bare_place(s: &[u8]) -> Option<usize>
    ensures { result ≡ position (λ x. not (eqb x 32)) s.now }
{
    s.iter().position(|x| *x != b' ')
}

// What stands behind the blanks at the front.
#[tactic(auto, using(crate::proofs::Labels::bare_behind))]
fn past_blanks(s: &[u8]) -> &[u8]
    ensures { result.now ≡ drop (blanks s.now) s.now }
{
    after(s, bare_place(s).unwrap_or(s.len()))
}

// How many bytes at the front of both are the same and no blanks.
#[tactic(auto, using(crate::proofs::Labels::commons))]
fn common(a: &[u8], b: &[u8]) -> usize
    ensures { result ≡ in_common a.now b.now }
{
    let n = a.len().min(b.len());
    for i in 0..n {
        if a[i] != b[i] || a[i] == b' ' {
            return i;
        }
    }
    n
}

// Whether two labels match, from one run of blanks in both to the next. Where the bytes between them differ, or blanks stand in just one label,
// nothing but blanks may be left of either. Never inlined: nearly all labels are told without it.
#[inline(never)]
#[tactic(auto, using(crate::proofs::Labels::matches))]
fn same_squeezed(a: &[u8], b: &[u8]) -> bool
    ensures { result ≡ same_label a.now b.now }
{
    let mut x = past_blanks(a);
    let mut y = past_blanks(b);
    loop {
        let n = common(x, y);
        let p = after(x, n);
        let q = after(y, n);
        x = past_blanks(p);
        y = past_blanks(q);
        if x.len() == p.len() || y.len() == q.len() {
            return x.is_empty() && y.is_empty();
        }
    }
}

// The last byte: a blank, where there is none.
#[tactic(auto, using(crate::proofs::Labels::ends))]
fn last_byte(s: &[u8]) -> u8
    ensures { result ≡ last_byte s.now }
{
    s.last().copied().unwrap_or(b' ')
}

// Whether the last bytes of two labels are no blanks and differ: then the labels do not match.
#[tactic(auto, using(crate::proofs::Labels::ends))]
fn ends_differ(a: &[u8], b: &[u8]) -> bool
    ensures { result ≡ ends_differ a.now b.now }
{
    let x = last_byte(a);
    let y = last_byte(b);
    (x != b' ') & (y != b' ') & (x != y)
}

// Whether two labels match: blanks at both ends, and how many stand in a row, are left aside. Equal bytes are told first, then last bytes that
// differ: nearly all labels end there.
#[tactic(auto, using(crate::proofs::Labels::labels))]
pub fn same_label(a: &[u8], b: &[u8]) -> bool
    ensures { result ≡ same_label a.now b.now }
{
    same_long(a, b) || !ends_differ(a, b) && same_squeezed(a, b)
}

// The part of s from start, len long, cut at the end of s.
pub fn part<T>(s: &[T], start: usize, len: usize) -> &[T]
    ensures { result.now ≡ take len (drop start s.now) }
{
    front(after(s, start), len)
}

// The first n, or all where there are fewer.
pub fn front<T>(s: &[T], n: usize) -> &[T]
    ensures { result.now ≡ take n s.now }
{
    &s[..n.min(s.len())]
}

// What stands after the first n.
pub fn after<T>(s: &[T], n: usize) -> &[T]
    ensures { result.now ≡ drop n s.now }
{
    &s[n.min(s.len())..]
}

// What stands at i, or 0 past the end.
pub fn get(s: &[usize], i: usize) -> usize
    ensures { result ≡ get_or s.now i 0 }
{
    s.get(i).copied().unwrap_or(0)
}

// Puts v at i; past the end, nothing.
pub fn put(s: &mut [usize], i: usize, v: usize)
    ensures { s.new ≡ set s.old i v }
{
    if i < s.len() {
        s[i] = v;
    }
}

// Whether the bit i of the words is set.
#[tactic(auto, using(crate::proofs::Laws::bits))]
pub fn bit_at(s: &[usize], i: usize) -> bool
    ensures { result ≡ bit_in s.now i }
{
    (get(s, i / 64) >> (i % 64)) % 2 == 1
}

// Sets the bit i of the words.
#[tactic(auto, using(crate::proofs::Laws::bits))]
pub fn set_bit(s: &mut [usize], i: usize)
    ensures { s.new ≡ with_bit s.old i }
{
    let k = i / 64;
    if k < s.len() {
        s[k] |= 1 << (i % 64);
    }
}

// Makes every number 0.
pub fn clear(s: &mut [usize])
    ensures { s.new ≡ replicate (length s.old) 0 }
{
    s.fill(0);
}

// Puts what s holds at the front of d, as far as d goes. A loop, since the library's method compiles to `memmove`, which no host is asked for.
#[tactic(auto, using(crate::proofs::Laws::stores))]
fn put_front<T: Copy>(d: &mut [T], s: &[T])
    ensures { d.new ≡ sets d.old 0 s.now }
{
    for i in 0..s.len().min(d.len()) {
        d[i] = s[i];
    }
}

// Puts what s holds into d from at on, as far as d goes.
#[tactic(auto, using(crate::proofs::Laws::stores))]
pub fn copy<T: Copy>(d: &mut [T], at: usize, s: &[T])
    ensures { d.new ≡ sets d.old at s.now }
{
    if at < d.len() {
        put_front(&mut d[at..], s);
    }
}

// Whether putting what s holds into d from at on would change nothing. For numbers, `numbers_same` (specs/Runs) says it by the rules' test.
#[tactic(auto, using(crate::proofs::Laws::stores))]
pub fn same_run<T: Copy + Eq>(d: &[T], at: usize, s: &[T]) -> bool
    ensures { result ≡ pointwise T.eq (sets d.now at s.now) d.now }
{
    let room = after(d, at);
    let n = s.len().min(room.len());
    s[..n] == room[..n]
}

// ---- bytes and fields

// What a byte may be: one of a name, of a label or of a word, a lower-case hexadecimal digit, a decimal digit.
#[derive(Clone, Copy, Debug, PartialEq, Eq)]
pub enum Class {
    Name,
    Label,
    Word,
    Hex,
    Digit,
}

// Whether x is from a to b. This and the next four have no branches, so that the machine takes many bytes at once.
#[tactic(auto, using(crate::proofs::Laws::classes))]
fn between(a: u8, b: u8, x: u8) -> bool
    ensures { result ≡ within a b x }
{
    (a <= x) & (x <= b)
}

// Whether x is a byte of a name.
#[tactic(auto, using(crate::proofs::Laws::classes))]
fn name_byte(x: u8) -> bool
    ensures { result ≡ name_byte x }
{
    between(b'A', b'Z', x) | between(b'a', b'z', x) | between(b'0', b'9', x) | (x == b'_')
}

// Whether x is from a to 126, and no comma.
#[tactic(auto, using(crate::proofs::Laws::classes))]
fn plain_byte(a: u8, x: u8) -> bool
    ensures { result ≡ plain_byte a x }
{
    between(a, 126, x) & (x != b',')
}

// Whether x is a lower-case hexadecimal digit.
#[tactic(auto, using(crate::proofs::Laws::classes))]
fn hex_byte(x: u8) -> bool
    ensures { result ≡ hex_byte x }
{
    between(b'0', b'9', x) | between(b'a', b'f', x)
}

// Whether x is of the class.
#[tactic(auto, using(crate::proofs::Laws::classes))]
fn in_class(class: Class, x: u8) -> bool
    ensures { result ≡ class_byte class x }
{
    match class {
        Class::Name => name_byte(x),
        Class::Label => plain_byte(32, x),
        Class::Word => plain_byte(33, x),
        Class::Hex => hex_byte(x),
        Class::Digit => between(b'0', b'9', x),
    }
}

// ---- blocks of 16 bytes: each byte is looked at, whatever stands before it, so that the machine takes them all at once

// Whether b is one of the bytes of a block.
#[tactic(auto, using(crate::proofs::Laws::finds))]
fn block_has(block: &[u8; 16], b: u8) -> bool
    ensures { result ≡ has block.now b }
{
    let mut hit = false;
    for x in block {
        hit |= *x == b;
    }
    hit
}

// Whether the bytes of a block are all of the class.
#[tactic(auto, using(crate::proofs::Laws::alls))]
fn block_in(class: Class, block: &[u8; 16]) -> bool
    ensures { result ≡ all_bytes (class_byte class) block.now }
{
    let mut all = true;
    for x in block {
        all &= in_class(class, *x);
    }
    all
}

// Whether every byte is of the class. The last 16 are looked at whole, although some may have been looked at before.
#[tactic(auto, using(crate::proofs::Laws::alls))]
pub fn all_in(class: Class, s: &[u8]) -> bool
    ensures { result ≡ all_bytes (class_byte class) s.now }
{
    let mut rest = s;
    while let Some((block, more)) = rest.split_first_chunk::<16>() {
        if !block_in(class, block) {
            return false;
        }
        rest = more;
    }
    match s.split_last_chunk::<16>() {
        Some((_, last)) => block_in(class, last),
        None => all_short(class, rest),
    }
}

// The same, byte by byte.
fn all_short(class: Class, s: &[u8]) -> bool
    ensures { result ≡ list_all (class_byte class) s.now }
{
    s.iter().all(|x| in_class(class, *x))
}

// Whether there are from 1 to `most` bytes, all of the class.
#[tactic(auto, using(crate::proofs::Laws::sizes))]
fn sized(class: Class, most: usize, s: &[u8]) -> bool
    ensures { result ≡ is_sized class most s.now }
{
    1 <= s.len() && s.len() <= most && all_in(class, s)
}

// Whether the bytes are a name.
#[tactic(auto, using(crate::proofs::Laws::sizes))]
pub fn is_name(s: &[u8]) -> bool
    ensures { result ≡ is_name s.now }
{
    sized(Class::Name, 12, s)
}

// Whether the bytes are a label.
#[tactic(auto, using(crate::proofs::Laws::sizes))]
pub fn is_label(s: &[u8]) -> bool
    ensures { result ≡ is_label s.now }
{
    sized(Class::Label, 60, s)
}

// Whether the bytes are a word.
#[tactic(auto, using(crate::proofs::Laws::sizes))]
pub fn is_word(s: &[u8]) -> bool
    ensures { result ≡ is_word s.now }
{
    sized(Class::Word, 8, s)
}

// The field splitter: the first of the fields between the bytes b. It is returned as the part of the caller's slice that holds it, not as
// offsets; the fields behind it are those of `after(s, r.len() + 1)`, where b stands behind r.
#[tactic(auto, using(crate::proofs::Laws::first_is))]
pub fn first(s: &[u8], b: u8) -> &[u8]
    ensures { result.now ≡ take (span b s.now) s.now }
{
    front(s, find(s, b))
}

// The same, byte by byte: the quicker where the field is a short one.
#[tactic(auto, using(crate::proofs::Laws::first_is))]
pub fn first_short(s: &[u8], b: u8) -> &[u8]
    ensures { result.now ≡ take (span b s.now) s.now }
{
    front(s, find_short(s, b))
}

// v with the digit b behind it, or 65,536 where that is more.
fn with_digit(v: usize, b: u8) -> usize
    requires { v ≤ 65536 }
    ensures { result ≡ min (v * 10 + (b - 48)) 65536 }
{
    (v * 10 + usize::from(b.saturating_sub(48))).min(65536)
}

// The number that the digits spell, or 65,536 where it is more.
#[tactic(auto, using(crate::proofs::Laws::values))]
pub fn value(s: &[u8]) -> usize
    ensures { result ≡ min (value_of s.now) 65536 }
{
    let mut v = 0;
    for b in s {
        v = with_digit(v, *b);
    }
    v
}

// The number that the bytes are, or 65,536 where it is more; none, where they are no number: digits, of which the first is 0 only where it is the
// only one.
#[tactic(auto, using(crate::proofs::Laws::numbers))]
pub fn number(s: &[u8]) -> Option<usize>
    ensures { result ≡ choose (is_number s.now) (Some (min (value_of s.now) 65536)) None }
{
    let first = *s.first()?;
    if first == b'0' && 1 < s.len() {
        return None;
    }
    let mut v = 0;
    for b in s {
        if !in_class(Class::Digit, *b) {
            return None;
        }
        v = with_digit(v, *b);
    }
    Some(v)
}

// A number below 4,096 for some bytes.
#[tactic(auto, using(crate::proofs::Laws::hashes))]
pub fn hash(s: &[u8]) -> usize
    ensures { result ≡ hash_of s.now }
{
    let mut h = 0;
    for x in s {
        h = (h * 31 + usize::from(*x)) % 4096;
    }
    h
}

// Stores b at the place `at`, if it is inside out; the next place either way.
#[tactic(auto, using(crate::proofs::Laws::writes))]
pub fn put_byte(out: &mut [u8], at: usize, b: u8) -> usize
    requires { at + 1 < 2 ^ 64 }
    ensures { Puts out.old at (b ∷ []) result out.new }
{
    if at < out.len() {
        out[at] = b;
    }
    at + 1
}

// Stores the bytes of s from the place `at` on, as far as out goes; the place behind them.
#[tactic(auto, using(crate::proofs::Laws::writes))]
pub fn put_bytes(out: &mut [u8], at: usize, s: &[u8]) -> usize
    requires { at + length s.now < 2 ^ 64 }
    ensures { Puts out.old at s.now result out.new }
{
    copy(out, at, s);
    at + s.len()
}

// The last digit of x.
fn last_digit(x: usize) -> u8
    ensures { result ≡ 48 + x % 10 }
{
    48 + (x % 10) as u8
}

// Stores x, one digit, at the place `at`, if that is inside out; the next place either way.
fn put_one(out: &mut [u8], at: usize, x: usize) -> usize
    requires { (x < 10) × (at + length (decimal x) < 2 ^ 64) }
    ensures { Puts out.old at (decimal x) result out.new }
{
    put_byte(out, at, last_digit(x))
}

// Stores x, two digits.
fn put_two(out: &mut [u8], at: usize, x: usize) -> usize
    requires { (10 ≤ x) × (x < 100) × (at + length (decimal x) < 2 ^ 64) }
    ensures { Puts out.old at (decimal x) result out.new }
{
    let next = put_one(out, at, x / 10);
    put_byte(out, next, last_digit(x))
}

// Stores x, three digits.
fn put_three(out: &mut [u8], at: usize, x: usize) -> usize
    requires { (100 ≤ x) × (x < 1000) × (at + length (decimal x) < 2 ^ 64) }
    ensures { Puts out.old at (decimal x) result out.new }
{
    let next = put_two(out, at, x / 10);
    put_byte(out, next, last_digit(x))
}

// Stores x, any number of digits.
fn put_digits(out: &mut [u8], at: usize, x: usize) -> usize
    requires { at + length (decimal x) < 2 ^ 64 }
    ensures { Puts out.old at (decimal x) result out.new }
{
    if x < 10 {
        return put_one(out, at, x);
    }
    let next = put_digits(out, at, x / 10);
    put_byte(out, next, last_digit(x))
}

// Stores x in decimal from the place `at` on, as far as out goes; the place behind it. Few numbers have more than three digits: the others do
// without a recursion, which is quicker.
pub fn put_decimal(out: &mut [u8], at: usize, x: usize) -> usize
    requires { at + length (decimal x) < 2 ^ 64 }
    ensures { Puts out.old at (decimal x) result out.new }
{
    if x < 10 {
        put_one(out, at, x)
    } else if x < 100 {
        put_two(out, at, x)
    } else if x < 1000 {
        put_three(out, at, x)
    } else {
        put_digits(out, at, x)
    }
}
