// Which buses hang from which.
ghost use Rattle.std.specs.Prelude.{◌≤◌, ◌↔◌, length, IsTrue};
ghost use Rattle.networks.specs.Descent.{upper, Falling, Under};

// Whether the bus is `top` or a descendant of it. Entry k of `uppers` is the upper bus of bus k + 1.
// A loop is plainer here than a chain, since each step looks up the bus that the last one gave.
pub(super) fn is_under(uppers: &[u16], top: u16, bus: u16) -> bool
    requires falling { Falling uppers.now }
    requires within { bus ≤ length uppers.now }
    ensures { IsTrue result ↔ (Under (upper uppers.now) top bus) }
{
    let mut reached = bus;
    while reached > top {
        reached = uppers[usize::from(reached) - 1];
    }
    reached == top
}
