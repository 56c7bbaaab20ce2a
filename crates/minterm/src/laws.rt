//! What the term of a table is.
ghost use Rattle.std.specs.Prelude.{◌≡◌, ◌≤◌, ◌∷◌, [], List, length};
ghost use Rattle.rl_time.specs.declared.time.Time.{Time};
ghost use Rattle.func_table.specs.Table.{Table};
ghost use Rattle.func_table.specs.Rules.{IsTable};
ghost use Rattle.func_table.specs.Sound.{AreSound};
ghost use Rattle.func_table.specs.Function.{table_function};
ghost use Rattle.term_store.specs.Tree.{value, span};
ghost use Rattle.term_store.specs.Subterms.{AreNetworkTerms, register_bits};
ghost use Rattle.term_store.specs.Ports.{ArePorts};
ghost use Rattle.minterm.specs.Minterms.{synthesised};

use term_store::short_delays_need_few_bits;

/// The term of a table with sound rows has the table's value, at one time for each input.
pub fn the_term_has_the_tables_values()
    ensures { (t : Table) (x : List Time) → IsTable t → AreSound t.rows → length x ≡ length t.inputs →
        value x (synthesised t) ≡ table_function t.rows x }
{}

/// The term of a table has no more distinct operators than a network may have, is at most 256 cycles
/// later than an input, and needs no more register bits than a module may have.
pub fn table_terms_are_few()
    ensures terms { (t : Table) → IsTable t → AreNetworkTerms (length t.inputs) (synthesised t ∷ []) }
    ensures short { (t : Table) → IsTable t → span (synthesised t) ≤ 256 }
    ensures bits { (t : Table) → IsTable t → register_bits (synthesised t ∷ []) ≤ 65536 }
{
    short_delays_need_few_bits();
}

/// The names of a table are such as a network with one output may have.
pub fn table_names_are_ports()
    ensures { (t : Table) → IsTable t → ArePorts t.inputs (t.output ∷ []) }
{}
