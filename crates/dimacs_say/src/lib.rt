// A text's fault on standard error: a line of digits for programs, and one in words for people.
#![tactic(auto)]

use dimacs::TextFault;
use trouble::say;

// The first line for programs: code and position, eight digits each.
fn say_numbers(rt: &HostRuntime, fault: TextFault) {
    let mut out = [0u8; 17];
    let n = dimacs_lines::put_fault(&mut out, 0, fault);
    say(rt, &out[..n]);
}

fn say_place(rt: &HostRuntime, before: &[u8], text: &[u8], at: usize) {
    let place = text::place_of(text, at.min(text.len()));
    say(rt, before);
    let _ = rt.stderr().print(place.line);
    say(rt, b", column ");
    let _ = rt.stderr().print(place.column);
    say(rt, b": ");
}

// What a person can act on.
fn words(fault: TextFault) -> &'static [u8] {
    match fault {
        TextFault::NoProblemLine(_) =>
            b"the problem line is missing; a line \"p cnf VARIABLES CLAUSES\" stands before all clauses",
        TextFault::SecondProblemLine(_) =>
            b"a second problem line; a text has one, before all clauses",
        TextFault::MalformedWord(_) =>
            b"a malformed word; literals are numbers such as 5 and -5, 0 closes a clause, the problem line is \"p cnf VARIABLES CLAUSES\"",
        TextFault::PastDeclared(_) =>
            b"a literal past the variable count that the problem line declares",
        TextFault::VariableTwice(_) =>
            b"a variable that its clause has already; a clause names a variable once",
        TextFault::LongClause(_) => b"the 257th literal of a clause; a clause has at most 256",
        TextFault::VarsOutOfRange(_) => b"a variable count outside 1 to 2,048",
        TextFault::UnclosedClause(_) =>
            b"the text ends inside a clause; the 0 that closes it is missing",
        TextFault::WrongClauseCount(_) =>
            b"the text ends with more or fewer clauses than its problem line declares",
    }
}

// Two lines. The second, for people, has these words before the number of the faulty word's line.
pub fn say_fault(rt: &HostRuntime, before: &[u8], text: &[u8], fault: TextFault) {
    say_numbers(rt, fault);
    say_place(rt, before, text, dimacs_codes::position(fault));
    say(rt, words(fault));
    say(rt, b"\n");
}
