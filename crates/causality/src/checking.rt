ghost use Rattle.std.specs.Prelude.{◌≡◌, ◌<◌, ◌≤◌, length, OnOk, IfErr};
ghost use Rattle.std.specs.List.{list_any, position, AllByRecursion};
ghost use Rattle.func_table.specs.Sound.{is_zero, IsInOrder, AreSound};
ghost use Rattle.causality.specs.Places.{is_greater, agree, entries_agree, places_agree};
ghost use Rattle.causality.specs.Faults.{pair_fault, IsOrderFault, IsRowFault};

use crate::fault::RowFault;
use func_table::{Row, Table};

/// Whether the rows of a table are sound: each in order, and no two of them match the same times. A fault is the first:
/// the rows are judged one after the other, a row without an entry 0 before its entries; then the pairs, by the later row
/// and then by the earlier one. It takes no memory, and lists no times.
pub fn check_rows(t: &Table) -> Result<(), RowFault>
    ensures sound { OnOk result (AreSound t.now.rows) }
    ensures fault { IfErr result (IsRowFault t.now.rows) }
{
    check_order(t)?;
    check_pairs(t)
}

/// Whether each row is in order.
fn check_order(t: &Table) -> Result<(), RowFault>
    ensures in_order { OnOk result (AllByRecursion IsInOrder t.now.rows) }
    ensures fault { IfErr result (IsRowFault t.now.rows) }
{
    t.rules();
    let mut number = 0;
    for row in t.rows() {
        number += 1;
        check_row(row, number)?;
    }
    Ok(())
}

/// Whether a row is in order, whose number is this.
fn check_row(row: &Row, number: u32) -> Result<(), RowFault>
    requires { length row.now.entries ≤ 16 }
    ensures in_order { OnOk result (IsInOrder row.now) }
    ensures fault { IfErr result (IsOrderFault row.now number) }
{
    if !has_zero(row.entries()) {
        return Err(RowFault::NoZero(number));
    }
    match first_greater(row.entries(), row.out()) {
        Some(place) => Err(RowFault::Acausal(number, place as u32 + 1)),
        None => Ok(()),
    }
}

fn is_zero(entry: Option<u8>) -> bool
    ensures { result ≡ is_zero entry }
{
    matches!(entry, Some(0))
}

fn has_zero(entries: &[Option<u8>]) -> bool
    ensures { result ≡ list_any is_zero entries.now }
{
    entries.iter().any(|entry| is_zero(*entry))
}

fn is_greater(out: u8, entry: Option<u8>) -> bool
    ensures { result ≡ is_greater out entry }
{
    match entry {
        Some(e) => out < e,
        None => false,
    }
}

fn first_greater(entries: &[Option<u8>], out: u8) -> Option<usize>
    ensures { result ≡ position (is_greater out) entries.now }
{
    entries.iter().position(|entry| is_greater(out, *entry))
}

/// Whether no two rows match the same times.
fn check_pairs(t: &Table) -> Result<(), RowFault>
    requires { AllByRecursion IsInOrder t.now.rows }
    ensures sound { OnOk result (AreSound t.now.rows) }
    ensures fault { IfErr result (IsRowFault t.now.rows) }
{
    t.rules();
    let rows = t.rows();
    for later in 0..rows.len() {
        if let Some(earlier) = first_agreeing(&rows[..later], &rows[later]) {
            // of rows that match the same times, those of one output are the same
            let are_same = rows[earlier].out() == rows[later].out();
            return Err(pair_fault(earlier, later, are_same));
        }
    }
    Ok(())
}

/// The fault of two rows that match the same times, at these places.
fn pair_fault(earlier: usize, later: usize, are_same: bool) -> RowFault
    requires earlier_small { earlier < 256 }
    requires later_small { later < 256 }
    ensures { result ≡ pair_fault earlier later are_same }
{
    let (first, second) = (earlier as u32 + 1, later as u32 + 1);
    if are_same {
        RowFault::Same(first, second)
    } else {
        RowFault::Conflict(first, second)
    }
}

/// The place of the first row that agrees with a later one in every place.
fn first_agreeing(rows: &[Row], later: &Row) -> Option<usize>
    ensures { result ≡ position (λ r. places_agree r later.now) rows.now }
{
    rows.iter().position(|row| places_agree(row, later))
}

/// Whether two rows in order, of as many entries, match the same times: by their places, the row of the smaller output
/// first.
fn places_agree(r: &Row, s: &Row) -> bool
    ensures { result ≡ places_agree r.now s.now }
{
    if r.out() <= s.out() {
        entries_agree(r.out(), r.entries(), s.entries())
    } else {
        entries_agree(s.out(), s.entries(), r.entries())
    }
}

fn entries_agree(out: u8, first: &[Option<u8>], second: &[Option<u8>]) -> bool
    ensures { result ≡ entries_agree out first.now second.now }
{
    first.iter().zip(second).all(|(a, b)| agree(out, *a, *b))
}

/// Whether some time matches an entry of a row with this output, and an entry of a row with no smaller one.
fn agree(out: u8, first: Option<u8>, second: Option<u8>) -> bool
    ensures { result ≡ agree out first second }
{
    match (first, second) {
        (Some(a), Some(b)) => a == b,
        (Some(_), None) => false,
        (None, Some(b)) => out < b,
        (None, None) => true,
    }
}
