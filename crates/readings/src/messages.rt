// Messages to the one who started the program.
use office::say;

pub(crate) fn usage(rt: &HostRuntime) {
    say(
        rt,
        b"usage: readings [--page] RULE-FILE LINES-FILE [FLAGS [BUDGET]]\n\
\n\
Says of every line how many readings the rule has of it. A line with two or more is shown with\n\
each of them, - standing under what the reading took and ^ under what a group of it took. A group\n\
that has a name is called by it. A line that is not matched is shown with - under what fits and ^\n\
under the place where that ends, and the rule with ^ under what was expected there.\n\
\n\
--page      write a page for a browser, HTML with no script: the counts, then the lines that are\n            \
ambiguous, not matched, exhausted or too long (the lines are read twice)\n\
RULE-FILE   the rule is what stands before its first line end\n\
LINES-FILE  lines of up to 65535 bytes, ended by 0A (a 0D before it is a byte of the line)\n\
FLAGS       0 to 31, or letters: s (a dot in the rule takes every byte), m (^ and $ at each 0A),\n            \
i (A to Z and a to z match each other), x (blanks in the rule, and # up to the line's\n            \
end, are skipped), D (the depot profile, which refuses some rules: no references, no\n            \
repeat without upper bound of what may take no bytes, and no range but of digits, of\n            \
upper or of lower letters); - for none, as without it\n\
BUDGET      the steps that each start in a line may take, 0 to 100000; without it 100000\n\
\n\
Readings are counted from every start in the line: (\\d+) has three on 12. For readings of whole\n\
lines the rule begins with ^ and ends with $.\n\
A byte outside 20 to 7E (hex) is shown as a dot. A line over 64 bytes is shown in windows of 64\n\
columns, the first of each named. Up to 1000 readings of a line are shown.\n",
    );
}

pub(crate) fn unwritten(rt: &HostRuntime) {
    say(rt, b"readings: the report could not be written\n");
}
