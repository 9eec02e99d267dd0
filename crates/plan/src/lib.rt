// What a plan is: operators in postfix order over a pile of results (document 01, 'What each operator
// means'; 000, section 4.1). `specs/` says what a plan file holds and when it is refused, `proofs/` has
// the laws; here is the plan as a struct. `plan_file` reads and checks one, `planner` draws one,
// `executor` runs one.
#![tactic(auto)]

ghost use Rattle.std.specs.Prelude.{◌≡◌, ◌<◌};
ghost use Rattle.query.specs.Inner.Struct.{as_edge};
ghost use Rattle.query.specs.Inner.Mask.{MaskOf};
ghost use Rattle.plan.specs.Inner.Struct.{operator_is, operator_in};
ghost use Rattle.plan.specs.Plan.{max_operators, ends};

use query::{Edge, set};

#[derive(Clone, Copy)]
pub enum Operator {
    Scan(usize),
    Extend(usize),
    Join,
}

// A plan in postfix order; every number past the last operator is 0.
#[derive(Clone, Copy)]
pub struct Plan {
    // How many there are.
    pub operators: usize,
    // What each is: a scan, an extend or a join. Kinds and operands are two arrays of numbers, as the
    // definition `plan_struct` reads them off the file; `operator` makes an `Operator` of one of them.
    pub kinds: [u32; Plan::MAX_OPERATORS],
    // The query edge of a scan, the new vertex of an extend, 0 of a join.
    pub operands: [u32; Plan::MAX_OPERATORS],
}

// What Check plan answers: a refusal with 0, or 0 with the operator count.
#[derive(Drop)]
pub struct CheckedPlan {
    // 0 where the plan is accepted. A number, as the definition `check_answer` gives it.
    pub refusal: u32,
    // How many operators it has.
    pub operators: usize,
}

impl Plan {
    pub const MAX_OPERATORS: usize = 31;

    pub const SCAN: u32 = 0;

    pub const EXTEND: u32 = 1;
    // No operator is of this kind.
    pub const NO_KIND: u32 = 3;

    // The plan of so many operators, by the kind and the operand of each.
    pub fn new(
        operators: usize,
        kinds: [u32; Plan::MAX_OPERATORS],
        operands: [u32; Plan::MAX_OPERATORS],
    ) -> Self
        ensures { result ≡ record { operators = operators; kinds = kinds; operands = operands } }
    {
        Plan {
            operators,
            kinds,
            operands,
        }
    }

    // The operator of an index below the count.
    pub fn operator(self, i: usize) -> Operator
        requires { i < max_operators }
        ensures { operator_is result ≡ operator_in self i }
    {
        let kind = self.kinds[i];
        let operand = self.operands[i] as usize;
        if kind == Plan::SCAN {
            return Operator::Scan(operand);
        }
        if kind == Plan::EXTEND {
            return Operator::Extend(operand);
        }
        Operator::Join
    }
}

// The set of an edge's two ends.
pub fn ends(e: Edge) -> u32
    requires { (e.source < 32) × (e.target < 32) }
    ensures { MaskOf result (ends (as_edge e)) }
{
    set::only(e.source) | set::only(e.target)
}
