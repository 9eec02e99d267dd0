// The plan file: the operator count (5 bits), then each operator's kind (2) and operand (5, 3 or 0 by its
// kind).
ghost use Rattle.std.specs.Prelude.{◌≡◌, ◌+◌, ◌^◌, ◌≤◌, ◌<◌, length};
ghost use Rattle.refusals.specs.Inner.Refusals.{fault_of};
ghost use Rattle.lists.specs.Refusal.{first};
ghost use Rattle.packed.specs.Field.{bits_in, bytes_for};
ghost use Rattle.plan.specs.File.{operator_count, kind_at, operand_bits, operand_at, operator_fault};
ghost use Rattle.plan.specs.Plan.{max_operators};
ghost use Rattle.plan_file.specs.Inner.Parts.{of_size, operand_fault, end_faults, operators_faults};
ghost use Rattle.plan_file.specs.Inner.Parts.{plan_file_fault};

use packed::{bytes_for, field, fill_set};
use plan::Plan;
use refusals::Refusal;

pub fn operator_count(file: &[u8]) -> usize
    requires { 0 < length file.now }
    ensures { result ≡ operator_count file.now }
{
    field(file, 0, 5) as usize
}

// The bits of the operand that follows a kind.
fn operand_width(kind: u32) -> usize
    ensures { result ≡ operand_bits kind }
{
    match kind {
        Plan::SCAN => 5,
        Plan::EXTEND => 3,
        _ => 0,
    }
}

// The bit position past the operator at a position.
pub fn next_place(file: &[u8], at: usize) -> usize
    requires { (at < 2 ^ 32) × (at + 2 ≤ bits_in file.now) }
    ensures is { result ≡ at + 2 + operand_bits (kind_at file.now at) }
    ensures near { result ≤ at + 7 }
{
    at + 2 + operand_width(field(file, at, 2))
}

// The operand of the operator at a position.
pub fn operand(file: &[u8], at: usize) -> u32
    requires { (at < 2 ^ 32) × (at + 2 + operand_bits (kind_at file.now at) ≤ bits_in file.now) }
    ensures { result ≡ operand_at file.now at }
{
    field(file, at + 2, operand_width(field(file, at, 2)))
}

// Refuses a scan that names an edge not below m and an extend that names a vertex not below n.
#[tactic(auto, unfolding(lists::specs::Refusal::first))]
fn check_operand(kind: u32, operand: usize, n: usize, m: usize) -> Result<(), Refusal>
    ensures { fault_of result ≡ operand_fault kind operand n m }
{
    if kind == Plan::SCAN && m <= operand || kind == Plan::EXTEND && n <= operand {
        return Err(Refusal::PlanOperator);
    }
    Ok(())
}

// Field by field, refuses an operator at a position whose bits run out, one of kind 3, and one that names an
// edge or vertex that the query lacks.
fn check_operator(file: &[u8], at: usize, n: usize, m: usize) -> Result<(), Refusal>
    requires { at < 2 ^ 32 }
    ensures { fault_of result ≡ operator_fault (of_size n m) file.now at }
{
    if file.len() < bytes_for(at + 2) {
        return Err(Refusal::PlanShort);
    }
    let kind = field(file, at, 2);
    if kind == Plan::NO_KIND {
        return Err(Refusal::PlanOperator);
    }
    if file.len() < bytes_for(next_place(file, at)) {
        return Err(Refusal::PlanShort);
    }
    check_operand(kind, operand(file, at) as usize, n, m)
}

// Refuses a file of which a byte follows those of the plan's bits, or a fill bit is set.
#[tactic(auto, unfolding(lists::specs::Refusal::first))]
fn check_end(file: &[u8], end: usize) -> Result<(), Refusal>
    requires { (end < 2 ^ 32) × (bytes_for end ≤ length file.now) }
    ensures { fault_of result ≡ first (end_faults file.now end) }
{
    if bytes_for(end) < file.len() || fill_set(file, end) {
        return Err(Refusal::PlanLong);
    }
    Ok(())
}

// Refuses the first operator at fault, then the file's end. `at` is the place of operator i.
fn check_operators(file: &[u8], count: usize, n: usize, m: usize) -> Result<(), Refusal>
    requires { (count ≤ max_operators) × (0 < length file.now) }
    ensures { fault_of result ≡ first (operators_faults (of_size n m) file.now count) }
{
    let mut at = 5;
    for _i in 0..count {
        check_operator(file, at, n, m)?;
        at = next_place(file, at);
    }
    check_end(file, at)
}

// Refuses a plan file with one of the faults 12, 13, 14, for a query of n vertices and m edges.
pub fn check_file(file: &[u8], n: usize, m: usize) -> Result<(), Refusal>
    ensures { fault_of result ≡ plan_file_fault (of_size n m) file.now }
{
    if file.len() < 1 {
        return Err(Refusal::PlanShort);
    }
    let count = operator_count(file);
    if count == 0 {
        return Err(Refusal::PlanOperator);
    }
    check_operators(file, count, n, m)
}
