// Starts that cannot begin. From a compiled rule comes a set of bytes and a number of steps, such that the walk from a start whose byte is
// not in the set makes exactly so many steps and reaches no end. A caller that looks for a match then passes over whole stretches of such
// starts, adds the steps of each, and finds what it would have found by walking them (`skipping`).
//
// The set is found by following the machine on a walk in which every byte fails: groups are opened, branches tried one after the other,
// rounds begun, and the byte item that each way ends at gives its bytes to the set and its steps to the number. At such a start no way takes
// a byte, so the position never changes and the steps do not depend on the subject. That is why the answer is one number and not a bound: the
// budget counts skipped starts as if they were walked.
//
// What is followed is at most NODES nodes, with at most PENDING of them waiting. A rule that has more before its first byte, or that can get to
// its end, to a reference or to an assertion other than the text's start without taking one, has no such set, and every start is walked.
#![tactic(auto)]

mod finding;
mod nodes;

pub use finding::find_opening;

// The bytes that a start from 1 on can begin with, and the steps of one that cannot. No steps: nothing is known. Not any: no byte can begin,
// so that no start but 0 can.
#[derive(Clone, Copy, Debug, PartialEq, Eq)]
pub struct Opening {
    pub cost: u32,
    pub any: bool,
    pub set: [u32; 8],
}
