// How often each record is listed, as far as it matters: not at all, once, more than once.
ghost use Rattle.std.specs.Prelude.{◌≡◌};
ghost use Rattle.acceptance.specs.Seen.{again, seen_at, noted, tallied};

#[tactic(auto, unfolding(crate::specs::Seen::seen_at))]
pub fn seen_at(seen: &[u32], r: u32) -> u32
    ensures { result ≡ seen_at seen.now r }
{
    let at = r as usize;
    if at < seen.len() {
        return seen[at];
    }
    0
}

#[tactic(auto, unfolding(crate::specs::Seen::again))]
fn once_more(n: u32) -> u32
    ensures { result ≡ again n }
{
    if n == 0 {
        return 1;
    }
    2
}

// A record beyond the places is not noted.
#[tactic(auto, unfolding(crate::specs::Seen::noted, crate::specs::Seen::seen_at))]
fn note(seen: &mut [u32], r: u32)
    ensures { seen.new ≡ noted seen.old r }
{
    let at = r as usize;
    if at < seen.len() {
        seen[at] = once_more(seen[at]);
    }
}

// Every record of the list noted.
#[tactic(auto, using(results::proofs::Backwards::one_back), unfolding(crate::specs::Seen::tallied))]
pub fn tally(seen: &mut [u32], list: &[u32])
    ensures { seen.new ≡ tallied seen.old list.now }
{
    for &r in list.iter().rev() {
        note(seen, r);
    }
}
