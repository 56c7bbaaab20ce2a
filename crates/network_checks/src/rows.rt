//! Soundness of rows, and the tables of networks.
ghost use Rattle.std.specs.Prelude.{◌≤◌, length};

use crate::texts::table_of_two;
use causality::{RowFault, TabError, check_rows, tabulate};
use func_table::{print_table, read_table};
use net_lang::read_network;
use std::alloc::Global;
use std::process::Abort;
use std::test::Fail;

fn check_verdict(
    rt: &impl Abort,
    alloc: Global,
    text: &[u8],
    wanted: Result<(), RowFault>,
) -> Result<(), Fail>
    requires { length text.now ≤ 1048576 }
{
    let table = read_table(alloc, text)?;
    assert_eq!(rt; check_rows(&table), wanted);
    Ok(())
}

/// The verdict on rows of two inputs.
fn check_two(
    rt: &impl Abort,
    alloc: Global,
    rows: &[u8],
    wanted: Result<(), RowFault>,
) -> Result<(), Fail> {
    let text = table_of_two(rt, alloc, rows)?;
    check_verdict(rt, alloc, &text, wanted)
}

#[test]
fn sound_rows(rt: HostRuntime) -> Result<(), Fail> {
    let alloc = rt.alloc();
    check_two(&rt, alloc, b"", Ok(()))?;
    check_two(&rt, alloc, b"0 3 -> 5\n1 0 -> 4\n", Ok(()))?;
    check_two(&rt, alloc, b"0 3 -> 5\n0 - -> 3\n", Ok(()))?;
    check_two(&rt, alloc, b"0 - -> 3\n0 3 -> 5\n- 0 -> 2\n", Ok(()))
}

#[test]
fn rows_that_are_not_in_order(rt: HostRuntime) -> Result<(), Fail> {
    let alloc = rt.alloc();
    check_two(&rt, alloc, b"0 6 -> 5\n", Err(RowFault::Acausal(1, 2)))?;
    check_two(&rt, alloc, b"6 0 -> 5\n", Err(RowFault::Acausal(1, 1)))?;
    check_two(&rt, alloc, b"1 2 -> 3\n", Err(RowFault::NoZero(1)))?;
    check_two(&rt, alloc, b"- - -> 3\n", Err(RowFault::NoZero(1)))?;
    check_two(&rt, alloc, b"1 6 -> 5\n", Err(RowFault::NoZero(1)))?;
    let twice_and_late = b"0 1 -> 1\n0 1 -> 1\n2 0 -> 1\n";
    check_two(&rt, alloc, twice_and_late, Err(RowFault::Acausal(3, 1)))
}

#[test]
fn rows_that_match_the_same_times(rt: HostRuntime) -> Result<(), Fail> {
    let alloc = rt.alloc();
    let conflict = b"0 3 -> 5\n1 0 -> 4\n0 - -> 2\n";
    check_two(&rt, alloc, conflict, Err(RowFault::Conflict(1, 3)))?;
    check_two(
        &rt,
        alloc,
        b"0 1 -> 1\n0 1 -> 1\n",
        Err(RowFault::Same(1, 2)),
    )?;
    check_two(
        &rt,
        alloc,
        b"0 1 -> 2\n0 1 -> 1\n",
        Err(RowFault::Conflict(1, 2)),
    )?;
    check_two(&rt, alloc, b"0 - -> 2\n- 0 -> 2\n", Ok(()))?;
    let crossed = b"0 0 -> 0\n0 1 -> 1\n0 1 -> 1\n0 0 -> 0\n";
    check_two(&rt, alloc, crossed, Err(RowFault::Same(2, 3)))
}

/// The table of a network's first output, as it is printed.
fn check_table(
    rt: &impl Abort,
    alloc: Global,
    network: &[u8],
    window: u32,
    printed: &[u8],
) -> Result<(), Fail>
    requires text { length network.now ≤ 1048576 }
    requires small { window ≤ 1000000 }
{
    let network = read_network(alloc, network)?;
    network.rules();
    let table = tabulate(alloc, &network, 0, window)?;
    assert_eq!(rt; check_rows(&table), Ok(()));
    let text = print_table(alloc, &table)?;
    assert_eq!(rt; text.as_slice(), printed);
    Ok(())
}

fn check_no_table(
    rt: &impl Abort,
    alloc: Global,
    network: &[u8],
    window: u32,
    error: TabError,
) -> Result<(), Fail>
    requires text { length network.now ≤ 1048576 }
    requires small { window ≤ 1000000 }
{
    let network = read_network(alloc, network)?;
    network.rules();
    assert_eq!(rt; tabulate(alloc, &network, 0, window).err(), Some(error));
    Ok(())
}

#[test]
fn networks_are_tabulated(rt: HostRuntime) -> Result<(), Fail> {
    let alloc = rt.alloc();
    let earlier = b"racenet 1\ninput a b\noutput y = min(a, b)\n";
    let rows = b"racetable 1\ninputs a b\noutput y\n0 0 -> 0\n0 - -> 0\n- 0 -> 0\n";
    check_table(&rt, alloc, earlier, 1, rows)?;
    let before = b"racenet 1\ninput a b\noutput y = lt(a, b)\n";
    let rows = b"racetable 1\ninputs a b\noutput y\n0 - -> 0\n";
    check_table(&rt, alloc, before, 1, rows)?;
    let later = b"racenet 1\ninput a b\noutput y = max(a, b)\n";
    let rows =
        b"racetable 1\ninputs a b\noutput y\n0 0 -> 0\n0 1 -> 1\n0 2 -> 2\n1 0 -> 1\n2 0 -> 2\n";
    check_table(&rt, alloc, later, 2, rows)?;
    let never = b"racenet 1\ninput a\noutput y = never\noutput z = a\n";
    check_table(&rt, alloc, never, 5, b"racetable 1\ninputs a\noutput y\n")
}

#[test]
fn the_widest_windows(rt: HostRuntime) -> Result<(), Fail> {
    let alloc = rt.alloc();
    let three = b"racenet 1\ninput a b c\noutput y = min(a, min(b, c))\n";
    let rows =
        b"racetable 1\ninputs a b c\noutput y\n0 0 0 -> 0\n0 0 - -> 0\n0 - 0 -> 0\n0 - - -> 0\n- 0 0 -> 0\n- 0 - -> 0\n- - 0 -> 0\n";
    check_table(&rt, alloc, three, 38, rows)?;
    check_no_table(&rt, alloc, three, 39, TabError::TooWide)?;
    let one = b"racenet 1\ninput a\noutput y = a\n";
    check_table(
        &rt,
        alloc,
        one,
        65534,
        b"racetable 1\ninputs a\noutput y\n0 -> 0\n",
    )?;
    check_no_table(&rt, alloc, one, 65535, TabError::TooWide)?;
    check_no_table(&rt, alloc, one, 1000000, TabError::TooWide)?;
    let many = b"racenet 1\ninput a b c d e f g h i j k l m n o p q\noutput y = a\n";
    check_no_table(&rt, alloc, many, 0, TabError::TooWide)
}

#[test]
fn late_values_and_many_rows(rt: HostRuntime) -> Result<(), Fail> {
    let alloc = rt.alloc();
    let late = b"racenet 1\ninput a\noutput y = inc(a, 256)\n";
    check_no_table(&rt, alloc, late, 0, TabError::TooLate(256))?;
    let last = b"racenet 1\ninput a\noutput y = inc(a, 255)\n";
    check_table(
        &rt,
        alloc,
        last,
        0,
        b"racetable 1\ninputs a\noutput y\n0 -> 255\n",
    )?;
    let later = b"racenet 1\ninput a b\noutput y = max(a, b)\n";
    check_no_table(&rt, alloc, later, 128, TabError::TooManyRows)?;
    let both = b"racenet 1\ninput a b\noutput y = max(inc(a, 2), b)\n";
    check_no_table(&rt, alloc, both, 254, TabError::TooLate(256))
}
