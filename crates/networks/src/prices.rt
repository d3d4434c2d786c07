// The congestion price at a bus of any network.
ghost use Rattle.std.specs.Prelude.{◌≡◌, ◌≤◌, unsigned_abs};
ghost use Rattle.networks.specs.Meaning.{congestion_price_at};

use crate::network::Network;
use quantities::CongestionPrice;

// The shadow price of each constraint times its factor at the bus, together. Beyond the buses it is nought.
pub fn congestion_price<N: Network>(network: &N, bus: u16) -> CongestionPrice
    ensures value { result.0 ≡ congestion_price_at (N.Network.meaning network.now) bus }
    ensures bound { unsigned_abs result.0 ≤ 8000000000 }
{
    let price = (0..network.constraints())
        .map(|constraint| {
            let shadow_price = network.shadow_price(constraint);
            let factor = network.factor(constraint, bus);
            shadow_price.times_factor(factor).0
        })
        .sum();
    CongestionPrice(price)
}
