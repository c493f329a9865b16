ghost use Rattle.std.specs.Prelude.{int_lt};
ghost use Rattle.std.proofs.Common.{rules};

use crate::order::Order;

/// The order by value alone: the smaller value is better, the band is ignored.
#[derive(Clone, Copy)]
pub struct Plain;

impl Order for Plain {
    type Rank = i32;

    ghost rank = { λ _ _ v. v };

    ghost better = { λ _ a b. int_lt a b };

    ghost never = { Prim.search rules };

    ghost chains = { Prim.search rules };

    ghost level = { Prim.search rules };

    fn rank(&self, _band: u8, value: i32) -> i32 {
        value
    }

    fn is_better(&self, a: i32, b: i32) -> bool {
        a < b
    }
}
