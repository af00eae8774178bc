// checksheet OLD NEW TESTS SHEET: checks a sheet, and prints `passed` or `refused,NUMBER,PLACE`.
#![tactic(auto)]

use std::io;
use std::io::Write;

fn check<W: Write>(
    to: &mut W,
    old: &[u8],
    new: &[u8],
    tests: &[u8],
    sheet: &[u8],
) -> io::Result<()> {
    let answer = rivetyellow::ry_check(old, new, tests, sheet);
    let number = (answer / 4294967296) as usize;
    let place = (answer % 4294967296) as usize;
    if number == 0 {
        return to.write_all(b"passed\n");
    }
    files::print_answer(to, b"refused", number, place)
}

// Each buffer has one byte more than a text may have, so that one that is too long is refused and not cut.
fn main(rt: HostRuntime) -> io::Result<()> {
    if !files::has_args(
        &rt,
        &mut rt.stderr(),
        5,
        b"usage: checksheet OLD NEW TESTS SHEET\n",
    )? {
        return Ok(());
    }
    let mut old = [0u8; 65537];
    let Some(o) = files::load(&rt, 1, &mut old)? else {
        return Ok(());
    };
    let mut new = [0u8; 65537];
    let Some(n) = files::load(&rt, 2, &mut new)? else {
        return Ok(());
    };
    let mut tests = [0u8; 65537];
    let Some(t) = files::load(&rt, 3, &mut tests)? else {
        return Ok(());
    };
    let mut sheet = [0u8; 65537];
    let Some(s) = files::load(&rt, 4, &mut sheet)? else {
        return Ok(());
    };
    check(
        &mut rt.stdout(),
        text::front(&old, o),
        text::front(&new, n),
        text::front(&tests, t),
        text::front(&sheet, s),
    )
}
