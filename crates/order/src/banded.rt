ghost use Rattle.order.specs.Bands.{sooner};
ghost use Rattle.order.specs.BandsLemmas.{level_alike};
ghost use Rattle.std.proofs.Common.{rules};

use crate::order::Order;

/// The order by band: the smaller band is better, and of equal bands the smaller value.
#[derive(Clone, Copy)]
pub struct Banded;

/// A band, and a value within it; ranks go by the band, and within one by the value.
#[derive(Clone, Copy, PartialEq, Eq, PartialOrd, Ord, Debug)]
pub struct BandRank {
    pub band: u8,
    pub value: i32,
}

impl Order for Banded {
    type Rank = BandRank;

    ghost rank = { λ _ b v. record { band = b; value = v } };

    ghost better = { λ _ a b. sooner a b };

    ghost never = { Prim.search rules };

    ghost chains = { Prim.search rules };

    ghost level = { λ o. level_alike };

    fn rank(&self, band: u8, value: i32) -> BandRank {
        BandRank { band, value }
    }

    fn is_better(&self, a: BandRank, b: BandRank) -> bool {
        a < b
    }
}
