//! Laws of the rows of tables.
ghost use Rattle.std.specs.Prelude.{◌≡◌, ◌≢◌, ◌≤◌, ◌⊎◌, ◌↔◌, ℕ, IsTrue, List, length};
ghost use Rattle.rl_time.specs.declared.time.Time.{Time};
ghost use Rattle.func_table.specs.Table.{Row, Table};
ghost use Rattle.func_table.specs.Rules.{IsTable};
ghost use Rattle.func_table.specs.Function.{table_function};
ghost use Rattle.func_table.specs.Sound.{IsInOrder, Conflict, AreSound};
ghost use Rattle.spike_eval.specs.Causal.{IsCausal, IsInvariant};
ghost use Rattle.causality.specs.declared.fault.RowFault.{RowFault};
ghost use Rattle.causality.specs.declared.fault.TabError.{TabError};
ghost use Rattle.causality.specs.declared.fault.TabError.TheVariants.{NoMemory};
ghost use Rattle.causality.specs.Places.{entries_agree};
ghost use Rattle.causality.specs.Faults.{IsRowFault};
ghost use Rattle.causality.specs.Window.{window_rows, IsInReach, IsCause};

use func_table::the_matching_row_decides;

/// The rows of a table are sound, or they have a fault.
pub fn sound_or_fault()
    ensures one { (t : Table) → IsTable t → AreSound t.rows ⊎ ((f : RowFault) × IsRowFault t.rows f) }
    ensures never_both { (rows : List Row) (f : RowFault) → AreSound rows → IsRowFault rows f → ⊥ }
{}

/// Rows have at most one fault.
pub fn one_row_fault()
    ensures { (rows : List Row) (f g : RowFault) → IsRowFault rows f → IsRowFault rows g → f ≡ g }
{}

/// Two rows in order, of as many entries, match the same times exactly where their entries agree in every place.
pub fn conflict_by_places()
    ensures { (r s : Row) → IsInOrder r → IsInOrder s → length r.entries ≡ length s.entries → r.out ≤ s.out →
        (Conflict r s ↔ IsTrue (entries_agree r.out r.entries s.entries)) }
{}

/// The function of sound rows is causal: up to any cycle, it depends only on what the inputs do up to that cycle.
pub fn tables_are_causal()
    ensures { (rows : List Row) → AreSound rows → IsCausal (table_function rows) }
{
    the_matching_row_decides();
}

/// The function of rows is invariant: where all inputs come one cycle later, so does the output. Rows that are not sound
/// have it too.
pub fn tables_are_invariant()
    ensures { (rows : List Row) → IsInvariant (table_function rows) }
{}

/// A function has at most one cause for having no table within a window, other than running out of memory, and none where its rows
/// are a table's.
pub fn one_window_cause()
    ensures one { (f : List Time → Time) (w n : ℕ) (d e : TabError) → IsCause f w n d → IsCause f w n e → d ≢ NoMemory → e ≢ NoMemory → d ≡ e }
    ensures none { (f : List Time → Time) (w n : ℕ) (e : TabError) → IsInReach f w n → length (window_rows f w n) ≤ 256 → IsCause f w n e → e ≡ NoMemory }
{}

/// A function has a table within a window, of at most 256 rows, or a cause that it has none.
pub fn a_window_or_a_cause()
    ensures { (f : List Time → Time) (w n : ℕ) →
        (IsInReach f w n × (length (window_rows f w n) ≤ 256)) ⊎ ((e : TabError) × (e ≢ NoMemory) × IsCause f w n e) }
{}
