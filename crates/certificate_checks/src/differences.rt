//! Bounds on differences of inputs.
ghost use Rattle.std.specs.Prelude.{◌≡◌};

use diff_bounds::{
    Added, Bounds, least_bounds_are_shortest_sums, met_exactly_without_negative_cycles,
};
use rl_time::NoMemory;
use std::alloc::Global;
use std::process::Abort;
use std::test::Fail;

// What an assumption is known to do, with the numbers of its chain in ascending order.
fn add(
    rt: &impl Abort,
    alloc: Global,
    bounds: &mut Bounds,
    i: u32,
    j: u32,
    w: i64,
) -> Result<(&'static str, Vec<u32>), NoMemory>
    ensures { bounds.new.inputs ≡ bounds.old.inputs }
{
    assert!(rt; i < bounds.inputs() && j < bounds.inputs());
    assert!(rt; w >= -1_000_001 && w <= 1_000_001);
    assert!(rt; bounds.assumptions().len() < 65_536);
    let mut numbers = Vec::new(alloc);
    let word = match bounds.add(i, j, w)? {
        Added::Fresh => "fresh",
        Added::Held => "held",
        Added::Contradiction(chain) => {
            numbers.extend_from_slice(chain.numbers())?;
            "contradiction"
        }
    };
    numbers.sort()?;
    Ok((word, numbers))
}

#[test]
fn two_inputs(rt: HostRuntime) -> Result<(), Fail> {
    let mut bounds = Bounds::new(rt.alloc(), 2)?;
    for (i, j, w, word, numbers) in [
        (0, 1, -1, "fresh", [].as_slice()),
        (1, 0, 0, "contradiction", [0, 1].as_slice()),
        (1, 0, 1, "fresh", [].as_slice()),
        (1, 0, 2, "held", [].as_slice()),
        (0, 0, -1, "contradiction", [3].as_slice()),
    ] {
        let added = add(&rt, rt.alloc(), &mut bounds, i, j, w)?;
        assert_eq!(rt; added.0, word, "at {i} {j} {w}");
        assert_eq!(rt; added.1.as_slice(), numbers, "at {i} {j} {w}");
    }
    assert!(rt; bounds.inputs() == 2);
    assert_eq!(rt; bounds.assumptions().len(), 3);
    assert_eq!(rt; bounds.least(0, 1), Some(-1));
    assert_eq!(rt; bounds.least(1, 0), Some(1));
    assert_eq!(rt; bounds.least(1, 1), Some(0));
    let chain = bounds.chain(0, 1)?;
    assert!(rt; matches!(&chain, Some(numbers) if numbers.numbers() == [0].as_slice()));
    assert_eq!(rt; bounds.solution()?.as_slice(), [0, 1].as_slice());
    assert_eq!(rt; bounds.kept(), [0, 1].as_slice());
    met_exactly_without_negative_cycles();
    least_bounds_are_shortest_sums();
    Ok(())
}

// Bounds that the others imply, between those that they don't, as they come and go.
#[test]
fn held_between_fresh(rt: HostRuntime) -> Result<(), Fail> {
    let mut bounds = Bounds::new(rt.alloc(), 3)?;
    for (i, j, w, word) in [
        (0, 1, 5, "fresh"),
        (1, 2, 4, "fresh"),
        (0, 2, 9, "held"),
        (0, 2, 8, "fresh"),
        (0, 2, 8, "held"),
    ] {
        let added = add(&rt, rt.alloc(), &mut bounds, i, j, w)?;
        assert_eq!(rt; added.0, word, "at {i} {j} {w}");
    }
    for least in [Some(8), Some(8), Some(9), Some(9), None] {
        assert!(rt; bounds.inputs() == 3);
        assert_eq!(rt; bounds.least(0, 2), least);
        assert!(rt; bounds.assumptions().len() > 0);
        bounds.undo();
    }
    assert_eq!(rt; bounds.assumptions().len(), 0);
    Ok(())
}

#[test]
fn sixty_four_inputs_far_apart(rt: HostRuntime) -> Result<(), Fail> {
    let mut bounds = Bounds::new(rt.alloc(), 64)?;
    for i in 0..63 {
        assert_eq!(rt;
            add(&rt, rt.alloc(), &mut bounds, i, i + 1, -1_000_001)?.0,
            "fresh"
        );
    }
    assert!(rt; bounds.inputs() == 64);
    assert_eq!(rt; bounds.least(0, 63), Some(-63_000_063));
    for (i, number) in bounds.solution()?.iter().enumerate() {
        assert_eq!(rt; *number, 1_000_001 * i as u64);
    }
    let last = add(&rt, rt.alloc(), &mut bounds, 63, 0, 1_000_001)?;
    assert_eq!(rt; last.0, "contradiction");
    assert_eq!(rt; last.1.len(), 64);
    for (place, number) in last.1.iter().enumerate() {
        assert_eq!(rt; *number as usize, place);
    }
    for _ in 0..63 {
        assert!(rt; bounds.assumptions().len() > 0);
        bounds.undo();
    }
    assert!(rt; bounds.inputs() == 64);
    assert_eq!(rt; bounds.least(0, 63), None);
    assert!(rt; bounds.chain(0, 63)?.is_none());
    Ok(())
}
