ghost use Rattle.std.specs.Prelude.{◌≡◌, ◌<◌};
ghost use Rattle.event_sim.specs.Orders as spec;

/// Where a numbered order of so many assigns begins.
pub fn begins(count: usize, order: u64) -> usize
    requires { 0 < count }
    ensures { result ≡ spec.begins count order }
{
    if order < 2 {
        0
    } else {
        (order % count as u64) as usize
    }
}
