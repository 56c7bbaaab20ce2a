//! The verdicts on trees of cases, by texts.
ghost use Rattle.std.specs.Prelude.{◌≤◌, All};
ghost use Rattle.spike_eval.specs.Premises.{NameInputs};

use net_lang::read_network;
use net_model::{Assume, Network};
use refutation::{read_tree, what_is_spelled_are_trees};
use std::alloc::Global;
use std::process::Abort;
use std::test::Fail;
use tree_check::{CheckFault, check};

/// A network of the inputs a and b, whose output y is this expression.
fn of_two(rt: &impl Abort, alloc: Global, body: &[u8]) -> Result<Network, Fail> {
    let mut text = Vec::from_slice(alloc, b"racenet 1\ninput a b\noutput y = ")?;
    text.extend_from_slice(body)?;
    text.extend_from_slice(b"\n")?;
    assert!(rt; text.len() <= 1048576);
    Ok(read_network(alloc, &text)?)
}

/// Checks the verdict on a tree of these lines, for the outputs of two networks of the inputs a and b.
fn check_verdict(
    rt: &impl Abort,
    alloc: Global,
    bodies: (&[u8], &[u8]),
    premises: &[Assume],
    lines: &[u8],
    wanted: Result<(), CheckFault>,
) -> Result<(), Fail>
    requires names { NameInputs 2 premises.now }
    requires small { All (λ p. p.by ≤ 1000000) premises.now }
{
    let first = of_two(rt, alloc, bodies.0)?;
    let second = of_two(rt, alloc, bodies.1)?;
    first.rules();
    second.rules();
    assert!(rt; first.inputs().len() == 2);
    assert!(rt; second.inputs().len() == 2);
    let mut text = Vec::from_slice(alloc, b"racetree 1\ntree y\n")?;
    text.extend_from_slice(lines)?;
    text.extend_from_slice(b"end\n")?;
    assert!(rt; text.len() <= 67108864);
    let trees = read_tree(alloc, &text)?;
    what_is_spelled_are_trees();
    for named in &trees {
        assert_eq!(rt;
            check(alloc, &first, &second, 0, premises, &named.tree),
            wanted
        );
    }
    Ok(())
}

const MAX: (&[u8], &[u8]) = (b"max(a, b)", b"min(lt(b, lt(b, a)), lt(a, lt(a, b)))");

#[test]
fn the_cases_of_max(rt: HostRuntime) -> Result<(), Fail> {
    let alloc = rt.alloc();
    let tree =
        b"split 0 1 0\nsplit 1 0 0\nleaf\nfact 0 1 0 : 0\nfact 1 0 0 : 1\nleaf\nfact 0 1 -1 : 1\nleaf\nfact 1 0 -1 : 0\n";
    check_verdict(&rt, alloc, MAX, &[], tree, Ok(()))?;
    let tree =
        b"split 0 1 0\nsplit 1 0 0\nleaf\nfact 0 1 0 : 0\nfact 1 0 0 : 1\nleaf\nfact 0 1 -1 : 1\nleaf\nfact 1 0 -2 : 0\n";
    check_verdict(&rt, alloc, MAX, &[], tree, Err(CheckFault::BadChain(4, 0)))
}

#[test]
fn faults_of_shape(rt: HostRuntime) -> Result<(), Fail> {
    let alloc = rt.alloc();
    check_verdict(
        &rt,
        alloc,
        MAX,
        &[],
        b"split 0 1 0\nopen\n",
        Err(CheckFault::Shape(2)),
    )?;
    check_verdict(
        &rt,
        alloc,
        MAX,
        &[],
        b"open\nopen\n",
        Err(CheckFault::Shape(1)),
    )?;
    check_verdict(
        &rt,
        alloc,
        MAX,
        &[],
        b"split 0 2 0\nopen\nopen\n",
        Err(CheckFault::Shape(0)),
    )?;
    check_verdict(
        &rt,
        alloc,
        MAX,
        &[],
        b"leaf\nfact 2 0 0 : 0\n",
        Err(CheckFault::Shape(0)),
    )
}

#[test]
fn faults_of_items(rt: HostRuntime) -> Result<(), Fail> {
    let alloc = rt.alloc();
    check_verdict(
        &rt,
        alloc,
        MAX,
        &[],
        b"open\n",
        Err(CheckFault::StillOpen(0)),
    )?;
    check_verdict(
        &rt,
        alloc,
        MAX,
        &[],
        b"leaf\n",
        Err(CheckFault::NotDecided(0, 1)),
    )?;
    check_verdict(
        &rt,
        alloc,
        (b"a", b"min(a, b)"),
        &[],
        b"leaf\n",
        Err(CheckFault::NotDecided(0, 2)),
    )?;
    check_verdict(
        &rt,
        alloc,
        (b"a", b"b"),
        &[],
        b"leaf\n",
        Err(CheckFault::Unequal(0)),
    )?;
    let one_way = b"split 0 1 0\nleaf\nfact 0 1 0 : 0\nopen\n";
    check_verdict(
        &rt,
        alloc,
        (b"a", b"b"),
        &[],
        one_way,
        Err(CheckFault::Unequal(1)),
    )?;
    let zero = b"split 0 0 0\nclosed 0\nopen\n";
    check_verdict(
        &rt,
        alloc,
        (b"a", b"a"),
        &[],
        zero,
        Err(CheckFault::NotNegative(1)),
    )
}

#[test]
fn closed_items(rt: HostRuntime) -> Result<(), Fail> {
    let alloc = rt.alloc();
    check_verdict(
        &rt,
        alloc,
        (b"a", b"a"),
        &[],
        b"split 0 0 -1\nclosed 0\nleaf\n",
        Ok(()),
    )
}

#[test]
fn premises(rt: HostRuntime) -> Result<(), Fail> {
    let alloc = rt.alloc();
    let up_to = Assume {
        from: 0,
        to: 1,
        by: 0,
    };
    let tree = b"leaf\nfact 0 1 0 : 0\n";
    check_verdict(&rt, alloc, (b"min(a, b)", b"a"), &[up_to], tree, Ok(()))?;
    let split = b"split 1 0 0\nleaf\nfact 0 1 0 : 0\nfact 1 0 0 : 1\nleaf\nfact 0 1 -1 : 1\n";
    check_verdict(&rt, alloc, (b"min(a, b)", b"a"), &[up_to], split, Ok(()))?;
    check_verdict(
        &rt,
        alloc,
        (b"min(a, b)", b"a"),
        &[],
        tree,
        Err(CheckFault::BadChain(0, 0)),
    )
}
