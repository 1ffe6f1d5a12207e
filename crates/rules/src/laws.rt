// What holds of every run, each the contract of a function that does nothing.
ghost use Rattle.rules.specs.Laws.{Total, Settled, Single, NoTrace, Promises};

// Every call has an outcome.
pub fn total()
    ensures { Total }
{}

// A call has one outcome, and leaves one book.
pub fn settled()
    ensures { Settled }
{}

// A history leads to one book at most.
pub fn single()
    ensures { Single }
{}

// Refused calls and draws leave no trace.
pub fn no_trace()
    ensures { NoTrace }
{}

// All is kept that is promised.
pub fn promises()
    ensures { Promises }
{}
