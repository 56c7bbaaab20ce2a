ghost use Rattle.std.specs.Prelude.{◌≡◌};

/// Why a text spells no module. Each holds the number of a line, from 1. `Syntax`: a bad byte, or the first place at
/// which no permitted statement begins. The others are of the first statement that breaks a rule. `Name`: a name may not
/// be declared there, or isn't declared, or is of another kind. `Order`: a wire is used before its assign, a target is
/// given twice, or something has no declaration, assign or always statement at the end. `Width`: a register's width
/// isn't kept. `Limit`: too many, or no, inputs or outputs, or more than 65,536 wires or register bits.
#[derive(Clone, Copy, Debug, PartialEq, Eq)]
pub enum VerilogError {
    Syntax(u32),
    Name(u32),
    Order(u32),
    Width(u32),
    Limit(u32),
    NoMemory,
}

impl From<rl_time::NoMemory> for VerilogError {
    ghost use Rattle.verilog_read.specs.declared.error.VerilogError.TheVariants.{NoMemory};

    ghost from_gives = { λ _ e. e ≡ NoMemory };

    fn from(_e: rl_time::NoMemory) -> VerilogError {
        VerilogError::NoMemory
    }
}
