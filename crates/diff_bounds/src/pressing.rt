ghost use Rattle.std.specs.Prelude.{◌≡◌, ◌≢◌, ◌≤◌, ◌<◌, ◌+◌, ◌*◌, ◌-◌, ◌⊎◌, ℕ, length, get_or, map, IfSome, IfNone, List};
ghost use Rattle.refutation.specs.Path.{MeetsAll};
ghost use Rattle.refutation.specs.declared.assumption.Assumption.{Assumption};
ghost use Rattle.diff_bounds.specs.Bounds.{integers};
ghost use Rattle.diff_bounds.specs.Pressing.{pressed, above, AreNear};

/// The least number above the floor.
fn next_above(numbers: &[u64], floor: u64) -> Option<u64>
    ensures there { IfSome result (λ next. (k : ℕ) × (k < length numbers.now) × (get_or numbers.now k 0 ≡ next)) }
    ensures higher { IfSome result (λ next. floor < next) }
    ensures least { IfSome result (λ next. (k : ℕ) → k < length numbers.now → (get_or numbers.now k 0 ≤ floor) ⊎ (next ≤ get_or numbers.now k 0)) }
    ensures none { IfNone result ((k : ℕ) → k < length numbers.now → get_or numbers.now k 0 ≤ floor) }
{
    let mut found = None;
    for number in numbers {
        let is_above = *number > floor;
        if is_above {
            found = match found {
                None => Some(*number),
                Some(next) => Some(if *number < next { *number } else { next }),
            };
        }
    }
    found
}

/// A number, lowered where it is above the floor.
fn pressed(number: u64, floor: u64, by: u64) -> u64
    requires room { (number ≤ floor) ⊎ (by ≤ number) }
    ensures { result ≡ pressed floor by number }
{
    if floor < number { number - by } else { number }
}

/// Lowers each number above the floor.
fn lower_above(numbers: &mut [u64], floor: u64, by: u64)
    requires room { (k : ℕ) → k < length numbers.now → (get_or numbers.now k 0 ≤ floor) ⊎ (by ≤ get_or numbers.now k 0) }
    ensures { (k : ℕ) → k < length numbers.old → get_or numbers.new k 0 ≡ pressed floor by (get_or numbers.old k 0) }
{
    for number in numbers.iter_mut() {
        let lower = pressed(*number, floor, by);
        *number = lower;
    }
}

/// The least number.
fn least_of(numbers: &[u64]) -> u64
    requires some { 0 < length numbers.now }
    ensures there { (k : ℕ) × (k < length numbers.now) × (get_or numbers.now k 0 ≡ result) }
    ensures least { (k : ℕ) → k < length numbers.now → result ≤ get_or numbers.now k 0 }
{
    let mut least = numbers[0];
    for number in numbers {
        if *number < least {
            least = *number;
        }
    }
    least
}

/// Takes the same off each number.
fn lower_all(numbers: &mut [u64], by: u64)
    requires room { (k : ℕ) → k < length numbers.now → by ≤ get_or numbers.now k 0 }
    ensures { (k : ℕ) → k < length numbers.old → get_or numbers.new k 0 ≡ get_or numbers.old k 0 - by }
{
    for number in numbers.iter_mut() {
        *number -= by;
    }
}

/// Presses the gap above the floor, and returns what the next number has become.
fn press_gap(numbers: &mut [u64], floor: u64, next: u64) -> u64
    requires higher { floor < next }
    requires there { (k : ℕ) × (k < length numbers.now) × (get_or numbers.now k 0 ≡ next) }
    requires least { (k : ℕ) → k < length numbers.now → (get_or numbers.now k 0 ≤ floor) ⊎ (next ≤ get_or numbers.now k 0) }
    ensures near { result ≤ floor + 1000001 }
    ensures fewer { above result numbers.new < above floor numbers.old }
    ensures zeros { (k : ℕ) → k < length numbers.old → get_or numbers.old k 0 ≡ 0 → get_or numbers.new k 0 ≡ 0 }
    ensures keeps { (edges : List Assumption) → AreNear (length numbers.old) edges → MeetsAll (integers numbers.old) edges → MeetsAll (integers numbers.new) edges }
{
    let by = (next - floor).saturating_sub(1_000_001);
    lower_above(numbers, floor, by);
    next - by
}

/// The same solution with its least number 0 and no gap greater than 1,000,001.
pub(crate) fn press(numbers: &mut [u64])
    requires some { 0 < length numbers.now }
    requires few { length numbers.now ≤ 64 }
    ensures zero { (k : ℕ) × (k < length numbers.old) × (get_or numbers.new k 0 ≡ 0) }
    ensures small { (k : ℕ) → k < length numbers.old → get_or numbers.new k 0 ≤ 63000063 }
    ensures keeps { (edges : List Assumption) → AreNear (length numbers.old) edges → MeetsAll (integers numbers.old) edges → MeetsAll (integers numbers.new) edges }
{
    let least = least_of(numbers);
    lower_all(numbers, least);
    let mut floor = 0;
    while let Some(next) = next_above(numbers, floor) {
        floor = press_gap(numbers, floor, next);
    }
}
