// The refusals: an enum, each with the number by which callers from outside know it. The conditions, and the
// order in which faults are looked for, are definitions of each operation and have the numbers. No operation
// gives 23 any more. `specs/Inner/Refusals.antt` has the numbers as a definition, and the fault that an
// outcome stands for; `proofs/Laws.antt` that no refusal has the number 0.
#![tactic(auto)]

ghost use Rattle.std.specs.Prelude.{◌≡◌};
ghost use Rattle.refusals.specs.Inner.Refusals.{number};

#[derive(Clone, Copy, PartialEq, Eq)]
pub enum Refusal {
    // The graph file is shorter than 5 bytes or than its own size.
    GraphShort,

    // It is longer than its own size, or a fill bit is set.
    GraphLong,

    // An edge has a vertex outside 0 to N - 1, or label 0.
    GraphEdge,

    // The edges do not ascend strictly.
    GraphOrder,

    // The store is shorter than the graph's words.
    StoreSmall,

    // The query file is shorter than 2 bytes or than its own size.
    QueryShort,

    // It is longer than its own size, or a fill bit is set.
    QueryLong,

    // It has not 2 to 8 vertices and 1 to 24 edges.
    QueryLimits,

    // An edge has a vertex not below n, or equal ends.
    QueryEdge,

    // The edges do not ascend strictly.
    QueryOrder,

    // The query is not connected.
    QueryApart,

    // The plan file's bits run out.
    PlanShort,

    // It has a further byte, or a fill bit is set.
    PlanLong,

    // No operator, kind 3, or an edge or vertex that the query lacks.
    PlanOperator,

    // Too few results for an operator, or more than one at the end.
    PlanPile,

    // An extend by a covered vertex, or with no edge to the covered ones.
    PlanExtend,

    // A join of sides that share no vertex, of which one has none of its own, or with an edge that neither has.
    PlanJoin,

    // The plan leaves a query vertex uncovered.
    PlanUncovered,

    // No accepted graph file loads to this store.
    StoreDamaged,

    // The run needs more scratch.
    ScratchSmall,

    // The rows do not fit the match list.
    ListSmall,

    // The records are fewer than the plan's operators.
    RecordsShort,

    // The drawn plan's bytes do not fit.
    PlanBytes,

    // A vertex has a first day above its last.
    QueryDays,

    // A pair has equal vertices or one not below n, or the pairs do not ascend strictly.
    QueryPair,

    // The change file is not of its own size, or one of its changes is no edge of the graph or out of order.
    ChangesFile,

    // An edge is added that is there, or one is taken away that is not.
    ChangesEdge,

    // The edited graph has more edges than a graph may have.
    ChangesMany,

    // A number that the run would give or record passes 64 bits.
    RunNumbers,

    // The query has more vertices than All orderings takes.
    OrderingsLarge,

    // The words are too few for all orderings.
    OrderingsWords,

    // The list or its numbers are not those of a match list.
    SheetRows,

    // The page is not 1 to the page count.
    SheetPage,

    // The bytes are fewer than a page's.
    SheetBytes,
}

impl Refusal {
    // Its number.
    pub fn number(self) -> u32
        ensures { result ≡ number self }
    {
        match self {
            Refusal::GraphShort => 1,
            Refusal::GraphLong => 2,
            Refusal::GraphEdge => 3,
            Refusal::GraphOrder => 4,
            Refusal::StoreSmall => 5,
            Refusal::QueryShort => 6,
            Refusal::QueryLong => 7,
            Refusal::QueryLimits => 8,
            Refusal::QueryEdge => 9,
            Refusal::QueryOrder => 10,
            Refusal::QueryApart => 11,
            Refusal::PlanShort => 12,
            Refusal::PlanLong => 13,
            Refusal::PlanOperator => 14,
            Refusal::PlanPile => 15,
            Refusal::PlanExtend => 16,
            Refusal::PlanJoin => 17,
            Refusal::PlanUncovered => 18,
            Refusal::StoreDamaged => 19,
            Refusal::ScratchSmall => 20,
            Refusal::ListSmall => 21,
            Refusal::RecordsShort => 22,
            Refusal::PlanBytes => 24,
            Refusal::QueryDays => 25,
            Refusal::QueryPair => 26,
            Refusal::ChangesFile => 27,
            Refusal::ChangesEdge => 28,
            Refusal::ChangesMany => 29,
            Refusal::RunNumbers => 30,
            Refusal::OrderingsLarge => 31,
            Refusal::OrderingsWords => 32,
            Refusal::SheetRows => 33,
            Refusal::SheetPage => 34,
            Refusal::SheetBytes => 35,
        }
    }
}
