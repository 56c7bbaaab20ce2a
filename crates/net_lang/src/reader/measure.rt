//! Measures of an expression as it is written.
ghost use Rattle.std.specs.Prelude.{◌≡◌, ◌≤◌, ◌+◌, ◌&&◌, min, max, IfOk};
ghost use Rattle.rl_text.specs.Numbers.{number_of};
ghost use Rattle.rl_text.specs.NameMap.{find};
ghost use Rattle.net_lang.specs.Known.{IsSmall, found_formula, found_span, is_value, span_at, finds_all, written_joins, written_delays};
ghost use Rattle.net_lang.specs.Written.{expression};
ghost use Rattle.net_model.specs.View.{formula};

use super::scope::{Known, Measured, Place, Scope};
use super::written::Written;
use net_model::Expr;
use rl_text::capped_number;
use rl_time::NoMemory;
use std::alloc::Global;

/// Of a name, by what is known of it.
fn of_name(known: Option<Known>) -> Measured
    ensures known { result.known ≡ is_value known }
    ensures joins { result.joins ≡ 0 }
    ensures delays { result.delays ≡ 0 }
    ensures span { result.span ≡ span_at known }
{
    let (known, span) = match known {
        None => (false, 0),
        Some(known) => (!matches!(known.place, Place::Output), known.span),
    };
    Measured {
        known,
        joins: 0,
        delays: 0,
        span,
    }
}

/// Of an operator with two operands.
fn of_join(a: Measured, b: Measured) -> Measured
    requires joins { (a.joins ≤ 20000) × (b.joins ≤ 20000) }
    requires delays { (a.delays ≤ 20000) × (b.delays ≤ 20000) }
    ensures known { result.known ≡ (a.known && b.known) }
    ensures joins { result.joins ≡ min (a.joins + b.joins + 1) 20000 }
    ensures delays { result.delays ≡ min (a.delays + b.delays) 20000 }
    ensures span { result.span ≡ max a.span b.span }
{
    Measured {
        known: a.known && b.known,
        joins: (a.joins + b.joins + 1).min(20000),
        delays: (a.delays + b.delays).min(20000),
        span: a.span.max(b.span),
    }
}

/// Of a delay by the number that these digits write.
fn of_delay(a: Measured, digits: &[u8]) -> Measured
    requires delays { a.delays ≤ 20000 }
    requires span { a.span ≤ 1000001 }
    ensures known { result.known ≡ a.known }
    ensures joins { result.joins ≡ a.joins }
    ensures delays { result.delays ≡ min (a.delays + 1) 20000 }
    ensures span { result.span ≡ min (a.span + min (number_of digits.now) 1000001) 1000001 }
{
    Measured {
        known: a.known,
        joins: a.joins,
        delays: (a.delays + 1).min(20000),
        span: (a.span + capped_number(digits, 1000001)).min(1000001),
    }
}

/// Measures of an expression.
pub fn measure(written: &Written<'_>, scope: &Scope<'_>) -> Measured
    requires { IsSmall (find scope.now) }
    ensures known { result.known ≡ finds_all (find scope.now) (expression written.now) }
    ensures joins { result.joins ≡ min (written_joins (expression written.now)) 20000 }
    ensures delays { result.delays ≡ min (written_delays (expression written.now)) 20000 }
    ensures span { result.span ≡ min (found_span (find scope.now) (expression written.now)) 1000001 }
{
    match written {
        Written::Never => Measured {
            known: true,
            joins: 0,
            delays: 0,
            span: 0,
        },
        Written::Name(name) => of_name(scope.get(name)),
        Written::Min(a, b) => of_join(measure(a, scope), measure(b, scope)),
        Written::Max(a, b) => of_join(measure(a, scope), measure(b, scope)),
        Written::Lt(a, b) => of_join(measure(a, scope), measure(b, scope)),
        Written::Inc(a, n) => of_delay(measure(a, scope), n),
    }
}

/// The expression, with its names looked up.
pub fn resolve(alloc: Global, written: &Written<'_>, scope: &Scope<'_>) -> Result<Expr, NoMemory>
    requires small { IsSmall (find scope.now) }
    requires short { found_span (find scope.now) (expression written.now) ≤ 1000000 }
    ensures { IfOk result (λ e. formula e ≡ found_formula (find scope.now) (expression written.now)) }
{
    match written {
        Written::Never => Ok(Expr::Never),
        Written::Name(name) => match scope.get(name) {
            None => Ok(Expr::Never),
            Some(known) => match known.place {
                Place::Input(i) => Ok(Expr::Input(i as u32)),
                Place::Let(j) => Ok(Expr::Named(j as u32)),
                Place::Output => Ok(Expr::Never),
            },
        },
        Written::Min(a, b) => {
            let a = resolve(alloc, a, scope)?;
            let b = resolve(alloc, b, scope)?;
            Ok(Expr::Min(Box::new(alloc, a)?, Box::new(alloc, b)?))
        }
        Written::Max(a, b) => {
            let a = resolve(alloc, a, scope)?;
            let b = resolve(alloc, b, scope)?;
            Ok(Expr::Max(Box::new(alloc, a)?, Box::new(alloc, b)?))
        }
        Written::Lt(a, b) => {
            let a = resolve(alloc, a, scope)?;
            let b = resolve(alloc, b, scope)?;
            Ok(Expr::Lt(Box::new(alloc, a)?, Box::new(alloc, b)?))
        }
        Written::Inc(a, n) => {
            let a = resolve(alloc, a, scope)?;
            Ok(Expr::Inc(Box::new(alloc, a)?, capped_number(n, 1000001)))
        }
    }
}
