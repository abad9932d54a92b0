//! What orders take of who gives them.
ghost use Rattle.std.specs.Prelude.{◌≡◌, ◌∷◌, []};
ghost use Rattle.fl_labels.specs.Cap.{cap_cmp};
ghost use Rattle.fl_labels.specs.SetBy as set;
ghost use Rattle.fl_bench.specs.Process.{order_takes};
ghost use Rattle.fl_bench.specs.Taken.{caps_in};

use fl_jobs::job::Order;
use fl_labels::cap::Cap;
use std::cmp::Ordering;

/// At most two capabilities, rising.
#[derive(Clone, Copy, Debug, PartialEq, Eq)]
pub enum Taken {
    Nothing,
    One([Cap; 1]),
    Two([Cap; 2]),
}

impl Taken {
    // Both capabilities, in either order, or one where they are the same.
    fn both(first: Cap, second: Cap) -> Self
        ensures { caps_in result ≡ set.members (set.of_list {R = cap_cmp} (first ∷ second ∷ [])) }
    {
        match first.cmp(&second) {
            Ordering::Less => Taken::Two([first, second]),
            Ordering::Equal => Taken::One([first]),
            Ordering::Greater => Taken::Two([second, first]),
        }
    }

    /// What the order takes: each capability that whoever gives it must have in effect. Takes no
    /// memory.
    #[tactic(auto, using(crate::proofs::Listing::none, crate::proofs::Listing::one))]
    pub fn by(order: Order) -> Self
        ensures { caps_in result ≡ set.members (order_takes order) }
    {
        match order {
            Order::Tag(_) | Order::Group => Taken::Nothing,
            Order::Put(group, cap) => Taken::both(Cap::Grow(group), cap),
            Order::MakeLogin(cap, _) => Taken::One([cap]),
            Order::OpenGroup(group) => Taken::both(Cap::Use(group), Cap::Grow(group)),
        }
    }

    /// The capabilities, rising.
    pub fn as_slice(&self) -> &[Cap]
        ensures { result.now ≡ caps_in self.now }
    {
        match self {
            Taken::Nothing => &[],
            Taken::One(caps) => &caps[..],
            Taken::Two(caps) => &caps[..],
        }
    }
}
