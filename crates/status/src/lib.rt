// The status in a lent array: its first n places hold the members, from the bottom. Members come and go by `lists::insert_at` and `remove_at`.
#![tactic(auto)]

ghost use Rattle.std.specs.Prelude.{◌≡◌, eqb, length, take};
ghost use Rattle.lists.specs.Lists.{slot};
ghost use Rattle.status.specs.Status.{member, below};

// The members: an array shorter than n has no more than it holds.
fn members_of(status: &[u32], n: usize) -> &[u32]
    ensures { result.now ≡ take n status.now }
{
    &status[..n.min(status.len())]
}

// How many members there are.
pub fn count(status: &[u32], n: usize) -> usize
    ensures { result ≡ length (take n status.now) }
{
    members_of(status, n).len()
}

// The member at a place.
pub fn member_at(status: &[u32], n: usize, k: usize) -> Option<u32>
    ensures { result ≡ member (take n status.now) k }
{
    if n <= k {
        return None;
    }
    if status.len() <= k {
        return None;
    }
    Some(status[k])
}

// The member just below a place.
pub fn below_at(status: &[u32], n: usize, k: usize) -> Option<u32>
    ensures { result ≡ below (take n status.now) k }
{
    if k == 0 {
        return None;
    }
    member_at(status, n, k - 1)
}

// The place of record o; the number of members where it is none.
pub fn slot_of(status: &[u32], n: usize, o: u32) -> usize
    ensures { result ≡ slot (λ m. eqb m o) (take n status.now) }
{
    let members = members_of(status, n);
    members
        .iter()
        .position(|m| *m == o)
        .unwrap_or(members.len())
}
