//! The order of the worked pair, whose pages have 4,096 bytes and whose BARs have 64 blocks.

ghost use Rattle.vfm_cases.specs.Pair.{pair, pair_joined};
ghost use Rattle.vfm_order_cases.specs.Along.{IsOrdered};

/// Both devices by way of PRE_COPY, and home.
pub fn pair_is_ordered()
    ensures { IsOrdered pair pair_joined }
{}
