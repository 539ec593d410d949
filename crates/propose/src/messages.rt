// Messages to the one who started the program.
use office::say;

pub(crate) fn usage(rt: &HostRuntime) {
    say(
        rt,
        b"usage: propose RULE-FILE LINES-FILE [FLAGS [BUDGET]]\n\
\n\
Makes a proposal of each line that the rule matches: the choices of the match, by which a box that\n\
is exhausted on the line can check that reading. Every proposal that is written was checked: it is\n\
accepted with the match's row by every check whose budget has the steps that are told.\n\
\n\
RULE-FILE   the rule is what stands before its first line end\n\
LINES-FILE  lines of up to 65535 bytes, ended by 0A (a 0D before it is a byte of the line)\n\
FLAGS       0 to 31, or letters: s (a dot in the rule takes every byte), m (^ and $ at each 0A),\n            \
i (A to Z and a to z match each other), x (blanks in the rule, and # up to the line's\n            \
end, are skipped), D (the depot profile, which refuses some rules: no references, no\n            \
repeat without upper bound of what may take no bytes, and no range but of digits, of\n            \
upper or of lower letters); - for none, as without it\n\
BUDGET      the steps that each start in a line may take, 0 to 100000; without it 100000\n\
\n\
For each line one is written: its number, from 1, a blank, the proposal in hexadecimal digits, a\n\
blank, and the steps of its path. A line that has none has - in place of the proposal, and then why:\n\
not matched, exhausted, too long, no room, or not made. A rule that no check follows is refused.\n",
    );
}
