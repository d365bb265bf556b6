// nextup X: the next number.
use crate::{answers, words};
use numbers::next_up;
use numbers::words::{number, word};

pub fn answer(line: &[u8], from: usize, out: &mut [u8], at: usize) -> usize {
    let mut n = [0; 1];
    if words::numbers(line, from, &mut n) != line.len() {
        return answers::malformed(out, at);
    }
    answers::bits(out, at, word(next_up(number(n[0]))))
}
