//! What all networks that are made from numbers have in common.
ghost use Rattle.std.specs.Prelude.{◌≡◌, ◌≤◌, ℕ, length};
ghost use Rattle.net_model.specs.Early.{AreEarly};
ghost use Rattle.net_model.specs.Rules.{IsNetwork};
ghost use Rattle.big_input.specs.Generated.{big_network, big_times, output_count};

/// Each of them keeps the rules of networks.
pub fn big_networks_are_networks()
    ensures { (n : ℕ) → 1 ≤ n → n ≤ 16384 → IsNetwork (big_network n) }
{}

/// Each has eight inputs, and a time below 16 for each of them.
pub fn big_times_are_early()
    ensures count { (n : ℕ) → length (big_times n) ≡ length (big_network n).inputs }
    ensures early { (n : ℕ) → AreEarly (big_times n) }
{}
