// The long sum: an array of words, the lowest first, each below 2^32 and held in a u64, so that a product of two words and a carry fits.
ghost use Rattle.std.specs.Prelude.{◌≡◌, ◌+◌, ◌*◌, ◌^◌, ◌-◌, ◌<◌, ◌≤◌, ◌*ℤ◌};
ghost use Rattle.numbers.specs.Exact.{whole};
ghost use Rattle.orientation.specs.Words.{value, words, weight, total, cross, three, Long, SmallThree, Within, Added};
ghost use Rattle.orientation.specs.Orientation.{sign_of, signed_area};

use crate::Sign;
use crate::parts::part_of;
use numbers::Coordinate;

// Room for six products of two finite numbers.
const WORDS: usize = 132;

const WORD: u64 = 0x1_0000_0000;

fn nothing() -> [u64; WORDS]
    ensures { Within 0 result }
{
    [0u64; WORDS]
}

// w is added at the word i.
fn add_at(acc: &mut [u64; WORDS], i: usize, w: u64)
    requires long { Long acc.old }
    requires i_le_words { (i ≤ words) × (w ≤ 2 ^ 64 - 2 ^ 32) }
    requires i_bound { value acc.old + w * weight i < weight words }
    ensures long_2 { Long acc.new }
    ensures acc_after { value acc.new ≡ value acc.old + w * weight i }
{
    let mut carry = w;
    for j in i..WORDS {
        if carry == 0 {
            return;
        }
        let t = acc[j] + carry;
        acc[j] = t % WORD;
        carry = t / WORD;
    }
}

#[derive(Clone, Copy)]
struct Three {
    a: u64,
    b: u64,
    c: u64,
}

// y * 2^r in three words.
fn spread(y: u64, r: u64) -> Three
    requires { (y < 2 ^ 53) × (r < 32) }
    ensures small_three { SmallThree result.a result.b result.c }
    ensures c_value { three result.a result.b result.c ≡ y * 2 ^ r }
{
    let p = 1u64 << r;
    let low = y % WORD * p;
    let high = y / WORD * p + low / WORD;
    Three {
        a: low % WORD,
        b: high % WORD,
        c: high / WORD,
    }
}

// The word x times the three words of y is added at the word q.
#[tactic(auto, using(crate::proofs::Products::row_sum))]
fn add_row(acc: &mut [u64; WORDS], q: usize, x: u64, y: Three)
    requires long { Long acc.old }
    requires q_bound { (q + 2 ≤ words) × (x < 2 ^ 32) × SmallThree y.a y.b y.c }
    requires q_bound_2 { value acc.old + x * three y.a y.b y.c * weight q < weight words }
    ensures long_2 { Long acc.new }
    ensures acc_after { value acc.new ≡ value acc.old + x * three y.a y.b y.c * weight q }
{
    add_at(acc, q, x * y.a);
    add_at(acc, q + 1, x * y.b);
    add_at(acc, q + 2, x * y.c);
}

// One product, x * y * 2^shift, is added: the sum is handed over and handed back.
fn add_product(acc: [u64; WORDS], x: u64, y: u64, shift: u64) -> [u64; WORDS]
    requires within { Within 5 acc }
    requires x_bound { (x < 2 ^ 53) × (y < 2 ^ 53) × (shift ≤ 4090) }
    ensures long { Long result }
    ensures result_value { value result ≡ value acc + x * y * 2 ^ shift }
{
    let mut sum = acc;
    let q = (shift / 32) as usize;
    let t = spread(y, shift % 32);
    add_row(&mut sum, q, x % WORD, t);
    add_row(&mut sum, q + 1, x / WORD, t);
    sum
}

// The same to a sum that is lent. Only this calls it, so that the two are compiled as one: half of the copies fall away.
fn add_lent(acc: &mut [u64; WORDS], x: u64, y: u64, shift: u64)
    requires within { Within 5 acc.old }
    requires x_bound { (x < 2 ^ 53) × (y < 2 ^ 53) × (shift ≤ 4090) }
    ensures long { Long acc.new }
    ensures acc_after { value acc.new ≡ value acc.old + x * y * 2 ^ shift }
{
    *acc = add_product(*acc, x, y, shift);
}

// x * y is added to pos - neg. To take it away, exchange the two.
fn add_term(pos: &mut [u64; WORDS], neg: &mut [u64; WORDS], x: f64, y: f64)
    requires { Within 5 pos.old × Within 5 neg.old }
    ensures { Added 1 (whole x *ℤ whole y) pos.old neg.old pos.new neg.new }
{
    let a = part_of(x);
    let b = part_of(y);
    if a.minus != b.minus {
        add_lent(neg, a.digits, b.digits, a.shift + b.shift);
    } else {
        add_lent(pos, a.digits, b.digits, a.shift + b.shift);
    }
}

// The cross product of a and b is added to pos - neg.
fn add_cross(pos: &mut [u64; WORDS], neg: &mut [u64; WORDS], a: Coordinate, b: Coordinate)
    requires { Within 4 pos.old × Within 4 neg.old }
    ensures { Added 2 (cross a b) pos.old neg.old pos.new neg.new }
{
    add_term(pos, neg, a.x, b.y);
    add_term(neg, pos, a.y, b.x);
}

// The sign of p - n, by the highest word that differs.
fn compare(p: &[u64; WORDS], n: &[u64; WORDS]) -> Sign
    requires { Long p.now × Long n.now }
    ensures { result ≡ sign_of (total p.now n.now) }
{
    for i in (0..WORDS).rev() {
        let x = p[i];
        let y = n[i];
        if y < x {
            return Sign::Positive;
        }
        if x < y {
            return Sign::Negative;
        }
    }
    Sign::Zero
}

// The cross products of p0 and p1, p1 and p2, p2 and p0: the same sum, with no difference to be taken first.
pub fn exact_sign(p0: Coordinate, p1: Coordinate, p2: Coordinate) -> Sign
    ensures { result ≡ signed_area p0 p1 p2 }
{
    let mut pos = nothing();
    let mut neg = nothing();
    add_cross(&mut pos, &mut neg, p0, p1);
    add_cross(&mut pos, &mut neg, p1, p2);
    add_cross(&mut pos, &mut neg, p2, p0);
    compare(&pos, &neg)
}
