// What a trial prints.
ghost use Rattle.std.specs.Prelude.{◌≡◌, ◌++◌, IfOk, OnOk, OnErr};
ghost use Rattle.trial_gen.specs.Summaries.{line, summary_text};

use pr_value::{Memory, Text};
use std::alloc::Global;
use std::string::ToString;

/// What a trial counts where it comes to a plan, and the plan's cost.
#[derive(Clone, Copy)]
pub struct Summary {
    pub files: u64,
    /// Classes of trees whose root is no enforcer.
    pub classes: u64,
    /// Their expressions.
    pub expressions: u64,
    /// Goals whose alternatives were listed.
    pub unfolded: u64,
    /// All goals.
    pub reachable: u64,
    pub cost: u64,
}

/// Appends a line for each number. Nothing is appended where memory is wanting.
pub fn push_summary(alloc: Global, summary: Summary, out: &mut Text) -> Result<(), Memory>
    ensures ok { OnOk result (out.new ≡ out.old ++ summary_text summary) }
    ensures err { OnErr result (out.new ≡ out.old) }
{
    let text = summary_of(alloc, summary)?;
    out.push_bytes(text.as_slice())?;
    Ok(())
}

fn summary_of(alloc: Global, summary: Summary) -> Result<Text, Memory>
    ensures { IfOk result (λ text. text ≡ summary_text summary) }
{
    let mut text = Text::new(alloc);
    push_line(alloc, b"files", summary.files, &mut text)?;
    push_line(alloc, b"classes", summary.classes, &mut text)?;
    push_line(alloc, b"expressions", summary.expressions, &mut text)?;
    push_line(alloc, b"goals unfolded", summary.unfolded, &mut text)?;
    push_line(alloc, b"goals reachable", summary.reachable, &mut text)?;
    push_line(alloc, b"cost", summary.cost, &mut text)?;
    Ok(text)
}

fn push_line(alloc: Global, name: &[u8], number: u64, out: &mut Text) -> Result<(), Memory>
    ensures { OnOk result (out.new ≡ out.old ++ line name.now number) }
{
    let digits = number.to_string(alloc)?;
    out.push_bytes(name)?;
    out.push_bytes(b" ")?;
    out.push_bytes(digits.as_bytes())?;
    out.push_bytes(b"\n")?;
    Ok(())
}
