//! The terms of tables.
ghost use Rattle.std.specs.Prelude.{◌≡◌, ◌≤◌, [], ◌∷◌, length, IfOk};
ghost use Rattle.func_table.specs.Sound.{AreSound};

use crate::texts::table_of_two;
use causality::check_rows;
use func_table::{Name, Table, read_table};
use minterm::{synth, table_names_are_ports};
use net_lang::print_network;
use rl_time::NoMemory;
use std::alloc::Global;
use std::process::Abort;
use std::test::Fail;
use term_store::{Node, Store, Term};

/// The table of a text, if its rows are sound.
fn sound_table(alloc: Global, text: &[u8]) -> Result<Table, Fail>
    requires { length text.now ≤ 1048576 }
    ensures { IfOk result (λ table. AreSound table.rows) }
{
    let table = read_table(alloc, text)?;
    check_rows(&table)?;
    Ok(table)
}

/// A table of these rows of two inputs.
fn of_two(rt: &impl Abort, alloc: Global, rows: &[u8]) -> Result<Table, Fail>
    ensures { IfOk result (λ table. AreSound table.rows) }
{
    let text = table_of_two(rt, alloc, rows)?;
    sound_table(alloc, &text)
}

fn check_nodes(rt: &impl Abort, store: &Store, nodes: &[Node]) {
    assert_eq!(rt; store.len() as usize, nodes.len());
    for (place, node) in nodes.iter().enumerate() {
        assert_eq!(rt; store.node(Term(place as u32)), *node);
    }
}

#[test]
fn no_rows_are_never(rt: HostRuntime) -> Result<(), Fail> {
    let table = of_two(&rt, rt.alloc(), b"")?;
    let mut store = Store::new(rt.alloc())?;
    let place = synth(rt.alloc(), &table, &mut store)?;
    assert_eq!(rt; place, Term(2));
    check_nodes(&rt, &store, &[Node::Input(0), Node::Input(1), Node::Never]);
    Ok(())
}

#[test]
fn numbers_come_at_once(rt: HostRuntime) -> Result<(), Fail> {
    let table = of_two(&rt, rt.alloc(), b"0 3 -> 5\n")?;
    let mut store = Store::new(rt.alloc())?;
    let place = synth(rt.alloc(), &table, &mut store)?;
    assert_eq!(rt; place, Term(7));
    let nodes = [
        Node::Input(0),
        Node::Input(1),
        Node::Inc(Term(0), 5),
        Node::Inc(Term(1), 2),
        Node::Max(Term(2), Term(3)),
        Node::Min(Term(2), Term(3)),
        Node::Inc(Term(5), 1),
        Node::Lt(Term(4), Term(6)),
    ];
    check_nodes(&rt, &store, &nodes);
    Ok(())
}

#[test]
fn what_a_store_holds_stays(rt: HostRuntime) -> Result<(), Fail> {
    let table = of_two(&rt, rt.alloc(), b"0 - -> 2\n")?;
    let mut store = Store::new(rt.alloc())?;
    store.intern(Node::Never)?;
    store.intern(Node::Input(1))?;
    store.intern(Node::Input(0))?;
    assert!(rt; store.len() <= 131072);
    let place = synth(rt.alloc(), &table, &mut store)?;
    assert_eq!(rt; place, Term(4));
    let nodes = [
        Node::Never,
        Node::Input(1),
        Node::Input(0),
        Node::Inc(Term(2), 2),
        Node::Lt(Term(3), Term(1)),
    ];
    check_nodes(&rt, &store, &nodes);
    Ok(())
}

#[test]
fn rows_are_joined_at_the_end(rt: HostRuntime) -> Result<(), Fail> {
    let table = of_two(&rt, rt.alloc(), b"0 3 -> 5\n1 0 -> 4\n")?;
    let mut store = Store::new(rt.alloc())?;
    let place = synth(rt.alloc(), &table, &mut store)?;
    assert_eq!(rt; place, Term(14));
    let nodes = [
        Node::Input(0),
        Node::Input(1),
        Node::Inc(Term(0), 5),
        Node::Inc(Term(1), 2),
        Node::Max(Term(2), Term(3)),
        Node::Min(Term(2), Term(3)),
        Node::Inc(Term(5), 1),
        Node::Lt(Term(4), Term(6)),
        Node::Inc(Term(0), 3),
        Node::Inc(Term(1), 4),
        Node::Max(Term(8), Term(9)),
        Node::Min(Term(8), Term(9)),
        Node::Inc(Term(11), 1),
        Node::Lt(Term(10), Term(12)),
        Node::Min(Term(7), Term(13)),
    ];
    check_nodes(&rt, &store, &nodes);
    Ok(())
}

fn output_name(alloc: Global, table: &Table) -> Result<Vec<Name>, NoMemory>
    ensures { IfOk result (λ names. names.items ≡ table.now.output ∷ []) }
{
    let mut names = Vec::new(alloc);
    names.push(Name::new(alloc, table.output().bytes())?)?;
    Ok(names)
}

#[test]
fn a_term_is_written_as_a_network(rt: HostRuntime) -> Result<(), Fail> {
    let table = of_two(&rt, rt.alloc(), b"0 - -> 2\n")?;
    let mut store = Store::new(rt.alloc())?;
    let place = synth(rt.alloc(), &table, &mut store)?;
    let outputs = output_name(rt.alloc(), &table)?;
    table.rules();
    table_names_are_ports();
    let network = store.extract(rt.alloc(), &[place], table.inputs(), &outputs)?;
    let text = print_network(rt.alloc(), &network)?;
    let expected = b"racenet 1\ninput a b\nlet _0 = inc(a, 2)\nlet _1 = lt(_0, b)\noutput y = _1\n";
    assert_eq!(rt; text.as_slice(), expected.as_slice());
    Ok(())
}

/// The rows `0 k 0 0 .. -> 255` for each k.
fn full_table(rt: &impl Abort, alloc: Global) -> Result<Table, Fail>
    ensures { IfOk result (λ table. AreSound table.rows) }
{
    let mut text = Vec::from_slice(
        alloc,
        b"racetable 1\ninputs a b c d e f g h i j k l m n o p\noutput y\n",
    )?;
    for second in 0..256u32 {
        let row = format!(in alloc; "0 {second} 0 0 0 0 0 0 0 0 0 0 0 0 0 0 -> 255\n")?;
        text.extend_from_slice(row.as_bytes())?;
    }
    assert!(rt; text.len() <= 1048576);
    sound_table(alloc, &text)
}

// 16 inputs, 15 + 255 delays of inputs, in each row 15 joins by max and as many by min, an inc and an
// lt, and 255 joins of the rows.
#[test]
fn the_greatest_table_has_room(rt: HostRuntime) -> Result<(), Fail> {
    let table = full_table(&rt, rt.alloc())?;
    let mut store = Store::new(rt.alloc())?;
    let place = synth(rt.alloc(), &table, &mut store)?;
    assert_eq!(rt; (store.len(), place), (8733, Term(8732)));
    Ok(())
}
