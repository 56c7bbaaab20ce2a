//! Terms in a store, and networks written of them.
ghost use Rattle.std.specs.Prelude.{◌≡◌, IfOk};
ghost use Rattle.net_model.specs.Rules.{names_of};

use crate::texts::chain;
use net_lang::{Name, Network, print_network, read_network};
use rl_time::NoMemory;
use std::alloc::Global;
use std::test::Fail;
use term_store::{
    Node, Store, StoreError, Term, network_names_are_ports, network_terms_are_few, reached,
};

#[test]
fn a_held_node_has_its_place(rt: HostRuntime) -> Result<(), Fail> {
    let mut store = Store::new(rt.alloc())?;
    store.reserve(4)?;
    let a = store.intern(Node::Input(0))?;
    let b = store.intern(Node::Input(1))?;
    assert!(rt; a.0 < store.len());
    let min = store.intern(Node::Min(a, b))?;
    assert!(rt; a.0 < store.len());
    assert!(rt; b.0 < store.len());
    let again = store.intern(Node::Min(a, b))?;
    assert_eq!(rt; (a, b, min, again), (Term(0), Term(1), Term(2), Term(2)));
    assert_eq!(rt; store.len(), 3);
    Ok(())
}

#[test]
fn a_released_store_has_its_places_again(rt: HostRuntime) -> Result<(), Fail> {
    let mut store = Store::new(rt.alloc())?;
    let a = store.intern(Node::Input(0))?;
    let b = store.intern(Node::Input(1))?;
    assert!(rt; a.0 < store.len());
    store.intern(Node::Min(a, b))?;
    let mark = store.mark();
    assert!(rt; a.0 < store.len());
    assert!(rt; b.0 < store.len());
    assert_eq!(rt; store.intern(Node::Lt(a, b)), Ok(Term(3)));
    assert!(rt; mark.0 <= store.len());
    store.release(mark);
    assert_eq!(rt; store.len(), 3);
    assert!(rt; a.0 < store.len());
    assert!(rt; b.0 < store.len());
    assert_eq!(rt; store.intern(Node::Max(a, b)), Ok(Term(3)));
    Ok(())
}

#[test]
fn a_full_store_answers_for_what_it_holds(rt: HostRuntime) -> Result<(), Fail> {
    let mut store = Store::new(rt.alloc())?;
    let a = store.intern(Node::Input(0))?;
    for cycles in 1..262144 {
        assert!(rt; a.0 < store.len());
        let place = store.intern(Node::Inc(a, cycles))?;
        assert_eq!(rt; place, Term(cycles));
    }
    assert!(rt; a.0 < store.len());
    assert_eq!(rt; store.intern(Node::Inc(a, 262144)), Err(StoreError::Full));
    assert!(rt; a.0 < store.len());
    assert_eq!(rt; store.intern(Node::Inc(a, 1)), Ok(Term(1)));
    Ok(())
}

#[test]
fn shared_lets_are_planted_once(rt: HostRuntime) -> Result<(), Fail> {
    for (lets, nodes) in [(12, 25), (64, 129)] {
        let n = chain(&rt, rt.alloc(), lets)?;
        let mut store = Store::new(rt.alloc())?;
        let places = store.build(rt.alloc(), &n)?;
        assert_eq!(rt; store.len(), nodes);
        assert_eq!(rt; places.as_slice(), [Term(nodes - 1)].as_slice());
    }
    Ok(())
}

#[test]
fn outputs_share_their_terms(rt: HostRuntime) -> Result<(), Fail> {
    let text =
        b"racenet 1\ninput a b c\noutput y = min(a, b)\noutput z = inc(min(a, b), 0)\noutput w = b\n";
    let n = read_network(rt.alloc(), text)?;
    let mut store = Store::new(rt.alloc())?;
    let places = store.build(rt.alloc(), &n)?;
    assert_eq!(rt; store.len(), 4);
    assert_eq!(rt; places.as_slice(), [Term(3), Term(3), Term(1)].as_slice());
    let marks = reached(rt.alloc(), &store, &places)?;
    assert_eq!(rt; marks.as_slice(), [true, true, false, true].as_slice());
    Ok(())
}

// The names of a network's outputs, in order.
fn output_names(alloc: Global, n: &Network) -> Result<Vec<Name>, NoMemory>
    ensures names { IfOk result (λ names. names.items ≡ names_of n.now.outputs) }
{
    let mut names = Vec::new(alloc);
    for output in n.outputs() {
        names.push(Name::new(alloc, output.name().bytes())?)?;
    }
    Ok(names)
}

#[test]
fn roots_are_written_out_as_lets(rt: HostRuntime) -> Result<(), Fail> {
    let text = b"racenet 1
input a b c
let m = min(a, b)
let unused = max(a, c)
output y = lt(inc(m, 2), max(m, c))
output z = inc(m, 0)
output w = c
output v = never
";
    let n = read_network(rt.alloc(), text)?;
    let mut store = Store::new(rt.alloc())?;
    let roots = store.build(rt.alloc(), &n)?;
    let names = output_names(rt.alloc(), &n)?;
    assert!(rt; names.len() == roots.len());
    n.rules();
    network_terms_are_few();
    network_names_are_ports();
    let written = store.extract(rt.alloc(), &roots, n.inputs(), &names)?;
    let printed = print_network(rt.alloc(), &written)?;
    let lets = b"racenet 1
input a b c
let _0 = min(a, b)
let _1 = inc(_0, 2)
let _2 = max(_0, c)
let _3 = lt(_1, _2)
output y = _3
output z = _0
output w = c
output v = never
";
    assert_eq!(rt; printed.as_slice(), lets.as_slice());
    Ok(())
}

#[test]
fn what_no_root_reaches_goes(rt: HostRuntime) -> Result<(), Fail> {
    let text =
        b"racenet 1\ninput a b\nlet m = min(a, b)\noutput y = inc(max(b, a), 2)\noutput z = b\n";
    let n = read_network(rt.alloc(), text)?;
    let mut store = Store::new(rt.alloc())?;
    let roots = store.build(rt.alloc(), &n)?;
    assert_eq!(rt; roots.as_slice(), [Term(4), Term(1)].as_slice());
    let places = store.compact(rt.alloc(), &roots)?;
    assert_eq!(rt; places.as_slice(), [Term(3), Term(1)].as_slice());
    assert_eq!(rt; store.len(), 4);
    assert_eq!(rt; store.node(Term(2)), Node::Max(Term(1), Term(0)));
    assert_eq!(rt; store.node(Term(3)), Node::Inc(Term(2), 2));
    Ok(())
}
