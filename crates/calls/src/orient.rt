// orient AX AY BX BY CX CY: -1, 0 or 1.
use crate::{answers, words};
use numbers::words::number;
use orientation::{Sign, orientation};

fn turn(out: &mut [u8], at: usize, sign: Sign) -> usize {
    match sign {
        Sign::Negative => answers::word(out, at, b"-1"),
        Sign::Zero => answers::word(out, at, b"0"),
        Sign::Positive => answers::word(out, at, b"1"),
    }
}

pub fn answer(line: &[u8], from: usize, out: &mut [u8], at: usize) -> usize {
    let mut n = [0; 6];
    if words::numbers(line, from, &mut n) != line.len() {
        return answers::malformed(out, at);
    }
    match orientation(
        number(n[0]),
        number(n[1]),
        number(n[2]),
        number(n[3]),
        number(n[4]),
        number(n[5]),
    ) {
        Err(refusal) => answers::refused(out, at, refusal),
        Ok(sign) => turn(out, at, sign),
    }
}
