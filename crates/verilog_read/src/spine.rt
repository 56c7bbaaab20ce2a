//! The first part of an expression, and those that are joined to it.
ghost use Rattle.std.specs.Prelude.{◌≡◌, IfOk, false};
ghost use Rattle.verilog_syntax.specs.View.{expression};
ghost use Rattle.verilog_read.specs.Joined.{is_joined, IsTakenApart, IsSpine};

use crate::joint::{Halves, Joint};
use rl_time::NoMemory;
use std::alloc::Global;
use verilog_syntax::Written;

/// Takes an expression apart at the last sign outside of groups.
fn halves(written: Written<'_>) -> Halves<'_>
    ensures { IsTakenApart (expression written.entry) result }
{
    match written {
        Written::And(a, b) => Halves::Joined(
            Box::into_inner(a),
            Joint {
                is_and: true,
                part: Box::into_inner(b),
            },
        ),
        Written::Or(a, b) => Halves::Joined(
            Box::into_inner(a),
            Joint {
                is_and: false,
                part: Box::into_inner(b),
            },
        ),
        single => Halves::Single(single),
    }
}

/// The first part of an expression, which is no `&` and no `|`, and what is joined to it, the last part first.
pub fn spine<'a>(
    alloc: Global,
    written: Written<'a>,
) -> Result<(Written<'a>, Vec<Joint<'a>>), NoMemory>
    ensures spine { IfOk result (λ x. IsSpine (expression written.entry) (expression x.0) x.1.items) }
    ensures single { IfOk result (λ x. is_joined (expression x.0) ≡ false) }
{
    let mut joints = Vec::new(alloc);
    let mut rest = halves(written);
    loop {
        match rest {
            Halves::Single(first) => return Ok((first, joints)),
            Halves::Joined(before, joint) => {
                joints.push(joint)?;
                rest = halves(before);
            }
        }
    }
}
