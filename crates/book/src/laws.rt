// What holds of every table, the contract of a function that does nothing.
ghost use Rattle.book.specs.Law.{Faithful};

// Two plain books that one table shows differ at most in their closings.
pub fn faithful()
    ensures { Faithful }
{}
