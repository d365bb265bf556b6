// The positions of the result events (`order_events`): those of a list in event order, and where each record stands among them.
// The arrays for both are lent; a list or an order that does not fit changes nothing.
#![tactic(auto)]

mod listed;
pub mod ordering;
pub mod places;
