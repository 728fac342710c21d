//! The first member in an order of classes.

ghost use Rattle.std.specs.Prelude.{◌≡◌};
ghost use Rattle.member_table.specs.Search.{first_found, of_class, comes_before};

use crate::table::MemberRow;
use search_orders::Order;

/// Whether a rank is there and comes before another one, if that is there.
fn comes_before(rank: u32, other: u32) -> bool
    ensures { result ≡ comes_before rank other }
{
    rank != 0 && (other == 0 || rank < other)
}

/// Of some members that of the class that an order has first, and of this class the first one. Takes no memory, and as
/// long as the members are many.
pub fn find_first(members: &[MemberRow], order: &Order) -> Option<MemberRow>
    ensures { result ≡ first_found (of_class members.now) order.now }
{
    let mut first = None;
    let mut least = 0;
    for member in members {
        let rank = order.rank(member.class);
        if comes_before(rank, least) {
            first = Some(*member);
            least = rank;
        }
    }
    first
}
