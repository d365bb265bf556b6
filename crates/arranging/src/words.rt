// A number by its bits: its place in IEEE 754's totalOrder.
ghost use Rattle.std.specs.Prelude.{◌≡◌};
ghost use Rattle.arranging.specs.Order as Order;
ghost use Rattle.arranging.specs.Steps.{word_of};

// The least word that has the sign bit.
const SIGN_BIT: u64 = 0x8000_0000_0000_0000;

#[tactic(auto, unfolding(crate::specs::Order::rank))]
pub fn rank(w: u64) -> u64
    ensures { result ≡ Order.rank w }
{
    if w < SIGN_BIT {
        return SIGN_BIT + w;
    }
    u64::MAX - w
}

// The number at a place.
#[tactic(auto, unfolding(crate::specs::Steps::word_of))]
pub fn word_of(rank: u64) -> u64
    ensures { result ≡ word_of rank }
{
    if rank < SIGN_BIT {
        return u64::MAX - rank;
    }
    rank - SIGN_BIT
}
