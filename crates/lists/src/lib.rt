// A list in a lent slice: its first n places. Where there is no such place, or no room, nothing changes.
#![tactic(auto)]

ghost use Rattle.std.specs.Prelude.{◌≡◌};
ghost use Rattle.lists.specs.Lists.{inserted, removed};

// Puts v in at a place of the list, which may be the one behind its last: the members from there on move up by one.
#[tactic(auto, using(crate::proofs::Laws::moved_up), unfolding(crate::specs::Lists::inserted))]
pub fn insert_at(s: &mut [u32], n: usize, at: usize, v: u32)
    ensures { s.new ≡ inserted s.old n at v }
{
    if at <= n && n < s.len() {
        s.copy_within(at..n, at + 1);
        s[at] = v;
    }
}

// Takes out what stands at a place of the list: the members behind it move down by one.
#[tactic(auto, using(crate::proofs::Laws::moved_down), unfolding(crate::specs::Lists::removed))]
pub fn remove_at(s: &mut [u32], n: usize, at: usize)
    ensures { s.new ≡ removed s.old n at }
{
    if at < n && n <= s.len() {
        s.copy_within(at + 1..n, at);
    }
}
