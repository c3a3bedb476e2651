// The questions that every service puts to a sheet first: those of its lines in their order (3 and 16), then 4 for an
// interval. What they ask is in sheet/specs/Answer.antt and sheet/specs/Questions.antt. A crate of its own for the
// check's time.
#![tactic(auto)]

ghost use Rattle.std.specs.Prelude.{◌≡◌, ℕ, length};
ghost use Rattle.laws.specs.Says.{Says};
ghost use Rattle.refusal.specs.Number.{answer_of};
ghost use Rattle.questions.specs.Lines.{Answered};
ghost use Rattle.sheet.specs.Answer.{first_of, types_answer, ops_answer, edges_answer, sheet_answer};
ghost use Rattle.sheet.specs.Questions.{AskedAt};
ghost use Rattle.sheet.specs.Sheet.{Interval};

use refusal::Refusal;
use sheet::{Field, Sheet, edge_answer, number_answer, op_answer, type_answer};

// ---- the lines of a sheet in their order

// What lines answer, the first one that refuses for all.
fn first_refusal<T: Copy, F: Fn(T) -> Result<(), Refusal>>(
    lines: &[T],
    answer: F,
) -> Result<(), Refusal>
    requires { F.IsAlwaysCallable answer }
    ensures { (f : ℕ → ℕ) → Answered (F.post answer) lines.now f → answer_of result ≡ first_of (length lines.now) f }
{
    for line in lines {
        answer(*line)?;
    }
    Ok(())
}

// What the line with the count of types and their lines answer.
#[tactic(auto, using(sheet::specs::Facts::accepted_most, std::proofs::lemmas::Grind::common_steps))]
fn types_answer(sheet: Sheet) -> Result<(), Refusal>
    ensures { answer_of result ≡ types_answer sheet }
{
    number_answer(Field::Types, sheet.type_count)?;
    let types = sheet.types;
    first_refusal(&types[..sheet.type_count], |resource| type_answer(resource))
}

// What the line with the count of operations and their lines answer.
#[tactic(auto, using(sheet::specs::Facts::accepted_most, std::proofs::lemmas::Grind::common_steps))]
fn ops_answer(sheet: Sheet) -> Result<(), Refusal>
    ensures { answer_of result ≡ ops_answer sheet }
{
    number_answer(Field::Operations, sheet.op_count)?;
    let ops = sheet.ops;
    first_refusal(
        &ops[..sheet.op_count],
        |op| op_answer(sheet.type_count, sheet.horizon, op),
    )
}

// What the line with the count of edges and their lines answer.
#[tactic(auto, using(sheet::specs::Facts::accepted_most, std::proofs::lemmas::Grind::common_steps))]
fn edges_answer(sheet: Sheet) -> Result<(), Refusal>
    ensures { answer_of result ≡ edges_answer sheet }
{
    number_answer(Field::Edges, sheet.edge_count)?;
    let edges = sheet.edges;
    first_refusal(
        &edges[..sheet.edge_count],
        |edge| edge_answer(sheet.op_count, edge),
    )
}

// What the sheet answers: the refusal of the first line that refuses.
#[tactic(auto, unfolding(sheet::specs::Answer::sheet_answer))]
pub fn answer(sheet: Sheet) -> Result<(), Refusal>
    ensures { answer_of result ≡ sheet_answer sheet }
{
    number_answer(Field::Horizon, sheet.horizon)?;
    number_answer(Field::Cap, sheet.cap)?;
    types_answer(sheet)?;
    ops_answer(sheet)?;
    edges_answer(sheet)
}

// ---- question 4

// Whether the interval is in 1 to the cap.
fn interval_in_range(sheet: Sheet, interval: usize) -> bool
    ensures { Says (Interval sheet interval) result }
{
    1 <= interval && interval <= sheet.cap
}

// The sheet's questions and 4, which every service at an interval asks first.
pub fn asked(sheet: Sheet, interval: usize) -> Result<(), Refusal>
    ensures { AskedAt sheet interval (answer_of result) }
{
    answer(sheet)?;
    if !interval_in_range(sheet, interval) {
        return Err(Refusal::IntervalOutOfRange);
    }
    Ok(())
}
