ghost use Rattle.std.specs.Prelude.{◌≡◌, ◌&&◌, ◌||◌};
ghost use Rattle.action_eval.specs.Builtins.{binary_value};

use pr_value::{Value, cap_add, cap_div, cap_mul, cap_sub, number_in, truth_in};
use rule_ast::BinOp;

/// What an operator makes of two values. It takes no memory.
pub fn binary(op: BinOp, a: &Value, b: &Value) -> Value
    ensures { result ≡ binary_value op a.now b.now }
{
    let m = number_in(a);
    let n = number_in(b);
    match op {
        BinOp::Add => Value::Num(cap_add(m, n)),
        BinOp::Sub => Value::Num(cap_sub(m, n)),
        BinOp::Mul => Value::Num(cap_mul(m, n)),
        BinOp::Div => Value::Num(cap_div(m, n)),
        BinOp::Equal => Value::Truth(a.same(b)),
        BinOp::NotEqual => Value::Truth(!a.same(b)),
        BinOp::Less => Value::Truth(m < n),
        BinOp::LessEqual => Value::Truth(m <= n),
        BinOp::Greater => Value::Truth(m > n),
        BinOp::GreaterEqual => Value::Truth(m >= n),
        BinOp::And => Value::Truth(both(truth_in(a), truth_in(b))),
        BinOp::Or => Value::Truth(either(truth_in(a), truth_in(b))),
    }
}

fn both(a: bool, b: bool) -> bool
    ensures { result ≡ (a && b) }
{
    a && b
}

fn either(a: bool, b: bool) -> bool
    ensures { result ≡ (a || b) }
{
    a || b
}
