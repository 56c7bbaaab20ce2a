//! What the decider finds of outputs whose cases are known.
ghost use Rattle.std.specs.Prelude.{◌≤◌, All, length};
ghost use Rattle.spike_eval.specs.Premises.{NameInputs};

use case_split::{Verdict, decide};
use net_lang::read_network;
use net_model::{Assume, Network};
use std::alloc::Global;
use std::process::Abort;
use std::test::Fail;
use term_store::Store;
use tree_check::check;

/// A network of these inputs, whose output y is this expression.
fn network(rt: &impl Abort, alloc: Global, inputs: &[u8], body: &[u8]) -> Result<Network, Fail> {
    let mut text = Vec::from_slice(alloc, b"racenet 1\ninput ")?;
    text.extend_from_slice(inputs)?;
    text.extend_from_slice(b"\noutput y = ")?;
    text.extend_from_slice(body)?;
    text.extend_from_slice(b"\n")?;
    assert!(rt; text.len() <= 1048576);
    Ok(read_network(alloc, &text)?)
}

/// What is found of the outputs of two networks, in a word, and how many items the tree has, or how many times there are. The checker
/// accepts a tree that shows them to be equal.
fn found(
    rt: &impl Abort,
    alloc: Global,
    inputs: (&[u8], usize),
    bodies: (&[u8], &[u8]),
    premises: &[Assume],
    budget: u32,
) -> Result<(&'static str, usize), Fail>
    requires names { NameInputs inputs.1 premises.now }
    requires few { length premises.now ≤ 128 }
    requires small { All (λ p. p.by ≤ 1000000) premises.now }
    requires some_budget { 1 ≤ budget }
    requires small_budget { budget ≤ 1000000 }
{
    let first = network(rt, alloc, inputs.0, bodies.0)?;
    let second = network(rt, alloc, inputs.0, bodies.1)?;
    first.rules();
    second.rules();
    assert!(rt; first.inputs().len() == inputs.1);
    assert!(rt; second.inputs().len() == inputs.1);
    let mut store = Store::new(alloc)?;
    match decide(alloc, &first, &second, 0, premises, budget, &mut store)? {
        Verdict::Equal(tree) => {
            assert_eq!(rt; check(alloc, &first, &second, 0, premises, &tree), Ok(()));
            Ok(("equal", tree.items().len()))
        }
        Verdict::Different(times) => Ok(("different", times.len())),
        Verdict::Undecided(tree) => Ok(("undecided", tree.items().len())),
    }
}

const TWO: (&[u8], usize) = (b"a b", 2);

#[test]
fn the_cases_of_max(rt: HostRuntime) -> Result<(), Fail> {
    let alloc = rt.alloc();
    let max: (&[u8], &[u8]) = (b"max(a, b)", b"min(lt(b, lt(b, a)), lt(a, lt(a, b)))");
    assert_eq!(rt; found(&rt, alloc, TWO, max, &[], 5)?, ("equal", 5));
    assert_eq!(rt; found(&rt, alloc, TWO, max, &[], 4)?, ("undecided", 3));
    assert_eq!(rt; found(&rt, alloc, TWO, max, &[], 3)?, ("undecided", 3));
    assert_eq!(rt; found(&rt, alloc, TWO, max, &[], 2)?, ("undecided", 1));
    assert_eq!(rt; found(&rt, alloc, TWO, max, &[], 1)?, ("undecided", 1));
    Ok(())
}

#[test]
fn differences(rt: HostRuntime) -> Result<(), Fail> {
    let alloc = rt.alloc();
    let two: (&[u8], &[u8]) = (b"min(a, b)", b"max(a, b)");
    assert_eq!(rt; found(&rt, alloc, TWO, two, &[], 1)?, ("different", 2));
    let never: (&[u8], &[u8]) = (b"a", b"never");
    assert_eq!(rt; found(&rt, alloc, TWO, never, &[], 1)?, ("different", 2));
    let far: (&[u8], &[u8]) = (b"min(inc(a, 1000000), b)", b"b");
    assert_eq!(rt; found(&rt, alloc, TWO, far, &[], 3)?, ("different", 2));
    Ok(())
}

#[test]
fn no_split_is_needed(rt: HostRuntime) -> Result<(), Fail> {
    let alloc = rt.alloc();
    let same: (&[u8], &[u8]) = (b"min(a, inc(a, 3))", b"max(a, a)");
    assert_eq!(rt; found(&rt, alloc, TWO, same, &[], 1)?, ("equal", 1));
    let never: (&[u8], &[u8]) = (b"lt(a, a)", b"never");
    assert_eq!(rt; found(&rt, alloc, TWO, never, &[], 1)?, ("equal", 1));
    Ok(())
}

#[test]
fn premises(rt: HostRuntime) -> Result<(), Fail> {
    let alloc = rt.alloc();
    let up_to = Assume {
        from: 0,
        to: 1,
        by: 0,
    };
    let first: (&[u8], &[u8]) = (b"min(a, b)", b"a");
    assert_eq!(rt; found(&rt, alloc, TWO, first, &[up_to], 1)?, ("equal", 1));
    assert_eq!(rt; found(&rt, alloc, TWO, first, &[], 1)?, ("different", 2));
    Ok(())
}

#[test]
fn min_from_the_left_and_from_the_right(rt: HostRuntime) -> Result<(), Fail> {
    let alloc = rt.alloc();
    let three: (&[u8], &[u8]) = (b"min(min(a, b), c)", b"min(a, min(b, c))");
    assert_eq!(rt;
        found(&rt, alloc, (b"a b c", 3), three, &[], 9)?,
        ("equal", 9)
    );
    assert_eq!(rt;
        found(&rt, alloc, (b"a b c", 3), three, &[], 8)?,
        ("undecided", 7)
    );
    let four: (&[u8], &[u8]) = (b"min(min(min(a, b), c), d)", b"min(a, min(b, min(c, d)))");
    assert_eq!(rt;
        found(&rt, alloc, (b"a b c d", 4), four, &[], 23)?,
        ("equal", 23)
    );
    assert_eq!(rt;
        found(&rt, alloc, (b"a b c d", 4), four, &[], 22)?,
        ("undecided", 21)
    );
    Ok(())
}
