//! Laws of the definitions that the contracts cite. Each function does nothing; its contract is the law.

ghost use Rattle.cranelift_module.specs.Laws.{OneMoreCall, AllCalls, MarksOfState, DefinitionsOfState, FunctionsInAnyOrder, DataInAnyOrder, MergeAssociates, MergeCommutes, MergeRepeats, FunctionFromTarget, DataFromTarget};

/// The state that a list of calls leaves, seen as a whole, is the state that the calls leave one by one. The marks of
/// an identifier, picked out of the list, are those that this state has.
pub fn state_laws()
    ensures one_more { OneMoreCall }
    ensures all { AllCalls }
    ensures marks { MarksOfState }
    ensures definitions { DefinitionsOfState }
{}

/// Merging linkages is associative, commutative and idempotent.
pub fn merge_laws()
    ensures associates { MergeAssociates }
    ensures commutes { MergeCommutes }
    ensures repeats { MergeRepeats }
{}

/// Accepted calls in another order leave each name the same row: a function with its linkage and signature, a data
/// object with its linkage and both marks.
pub fn order_laws()
    ensures functions { FunctionsInAnyOrder }
    ensures data_objects { DataInAnyOrder }
{}

/// A target that is made of an identifier stands for that identifier.
pub fn target_laws()
    ensures function { FunctionFromTarget }
    ensures data_object { DataFromTarget }
{}
