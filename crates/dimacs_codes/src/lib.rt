// A fault of a text in numbers: its code and its position.
#![tactic(auto)]

ghost use Rattle.std.specs.Prelude.{◌≡◌};
ghost use Rattle.dimacs.specs.Reading.{fault_numbers};

use dimacs::TextFault;

// The number of a fault.
pub fn code(fault: TextFault) -> u32
    ensures { result ≡ (fault_numbers fault).0 }
{
    match fault {
        TextFault::NoProblemLine(_) => 21,
        TextFault::SecondProblemLine(_) => 22,
        TextFault::MalformedWord(_) => 23,
        TextFault::PastDeclared(_) => 24,
        TextFault::VariableTwice(_) => 25,
        TextFault::LongClause(_) => 26,
        TextFault::VarsOutOfRange(_) => 27,
        TextFault::UnclosedClause(_) => 28,
        TextFault::WrongClauseCount(_) => 29,
    }
}

// The byte position beside it.
pub fn position(fault: TextFault) -> usize
    ensures { result ≡ (fault_numbers fault).1 }
{
    match fault {
        TextFault::NoProblemLine(at)
        | TextFault::SecondProblemLine(at)
        | TextFault::MalformedWord(at)
        | TextFault::PastDeclared(at)
        | TextFault::VariableTwice(at)
        | TextFault::LongClause(at)
        | TextFault::VarsOutOfRange(at)
        | TextFault::UnclosedClause(at)
        | TextFault::WrongClauseCount(at) => at,
    }
}
