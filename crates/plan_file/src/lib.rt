// The operation Check plan, refusals 12 to 18: the operators of a plan file read, and its rules tested
// over the pile of covered sets (document 01, 'Operations and their refusals'). What the rules are stands
// in `plan`.
#![tactic(auto)]

ghost use Rattle.std.specs.Prelude.{◌≡◌, ◌≤◌};
ghost use Rattle.refusals.specs.Inner.Refusals.{fault_of};
ghost use Rattle.packed.specs.Field.{bits_in};
ghost use Rattle.plan.specs.File.{operator_count, place, check_fault, check_answer};
ghost use Rattle.plan.specs.Inner.Struct.{plan_struct};

use plan::{CheckedPlan, Plan};
use refusals::Refusal;

mod file;
mod rules;

// The plan of a file that has all its bits. `at` is the place of operator i.
pub fn plan_of(file: &[u8]) -> Plan
    requires { place file.now (operator_count file.now) ≤ bits_in file.now }
    ensures { result ≡ plan_struct file.now }
{
    let count = file::operator_count(file);
    let mut kinds = [0u32; Plan::MAX_OPERATORS];
    let mut operands = [0u32; Plan::MAX_OPERATORS];
    let mut at = 5;
    for i in 0..count {
        kinds[i] = packed::field(file, at, 2);
        operands[i] = file::operand(file, at);
        at = file::next_place(file, at);
    }
    Plan::new(count, kinds, operands)
}

// Check plan's refusal: the query's, then 12, 14, 13, then by the rules 15, 16, 17, 15, 18.
pub fn check_plan_file(query: &[u8], plan: &[u8]) -> Result<(), Refusal>
    ensures { fault_of result ≡ check_fault query.now plan.now }
{
    query_file::check_query(query)?;
    let q = query_file::query_of(query);
    file::check_file(plan, q.vertices, q.edges)?;
    rules::check_rules(q, plan_of(plan))
}

// Check plan.
pub fn check_plan(query: &[u8], plan: &[u8]) -> CheckedPlan
    ensures { result ≡ check_answer query.now plan.now }
{
    match check_plan_file(query, plan) {
        Err(refusal) => CheckedPlan {
            refusal: refusal.number(),
            operators: 0,
        },
        Ok(()) => CheckedPlan {
            refusal: 0,
            operators: file::operator_count(plan),
        },
    }
}
