//! Laws of formed lists. Each function does nothing: its contract is the law.
ghost use Rattle.arr_ops.specs.Laws.{BlocksFit, IndependentCommute, MergingSaves, NumbersStayTyped, OrdersAreFound, OrdersAreLegal, PlansKeepMemory};

/// Every legal plan of a formed list, block after block in list order, leaves what the list leaves
/// (docs/PLANS.md, "Legal plans").
pub fn plans_keep_memory()
    ensures { PlansKeepMemory }
{}

/// Two operations of a formed list that do not depend leave the same memory in either order
/// (docs/PLANS.md, "Dependence").
pub fn independent_operations_commute()
    ensures { IndependentCommute }
{}

/// What an operation of a formed list reads is of its type, from every memory that fits the list
/// (docs/LANGUAGE.md, "Types").
pub fn numbers_stay_typed()
    ensures { NumbersStayTyped }
{}

/// One block costs at most what two blocks cost that have its operations between them (docs/PLANS.md, "Cost").
pub fn merging_saves()
    ensures { MergingSaves }
{}

/// Before each block of a legal plan of a formed list the memory fits the block's operations: each base that they need is there with
/// its type, numbers of that type and every element that they name, and what they create or print into is not there (docs/PLANS.md, "Legal plans").
pub fn blocks_fit()
    ensures { BlocksFit }
{}

/// The order of a partition, where its blocks are fusible each in itself, is a legal plan of the same blocks (docs/PLANS.md, "The order of a partition").
pub fn orders_are_legal()
    ensures { OrdersAreLegal }
{}

/// Where the blocks of a legal plan stand in any other order, they are a partition that has an order (docs/PLANS.md, "The order of a partition").
pub fn orders_are_found()
    ensures { OrdersAreFound }
{}
