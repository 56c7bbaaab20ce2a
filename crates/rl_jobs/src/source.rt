use func_table::Table;
use net_lang::Network;

/// What a file spells.
#[derive(Drop)]
pub enum Source {
    OfNetwork(Network),
    OfTable(Table),
}
