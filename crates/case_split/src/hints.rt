ghost use Rattle.std.specs.Prelude.{◌≡◌, ◌+◌, ◌*◌, ◌<◌, true, length};
ghost use Rattle.tree_check.specs.Valid.{listed};

use refutation::Fact;

/// The number of a pair of inputs.
pub fn pair(inputs: u32, i: u32, j: u32) -> usize
    ensures { result ≡ i * inputs + j }
{
    i as usize * inputs as usize + j as usize
}

/// Whether the fact that was last listed for the pair is there, and shows that `x_i - x_j <= w`.
pub fn tells(latest: &[usize], facts: &[Fact], pair: usize, i: u32, j: u32, w: i64) -> bool
    ensures { result ≡ true → listed facts.now i j w ≡ true }
{
    let Some(place) = latest.get(pair) else {
        return false;
    };
    match facts.get(*place) {
        Some(fact) => {
            u32::from(fact.from) == i && u32::from(fact.to) == j && i64::from(fact.bound) <= w
        }
        None => false,
    }
}

/// Notes the place of the fact that is next for the pair.
pub fn note(latest: &mut [usize], pair: usize, place: usize)
    ensures { length latest.new ≡ length latest.old }
{
    if pair < latest.len() {
        latest[pair] = place;
    }
}
