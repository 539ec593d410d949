// Messages to the one who started the program.
use office::say;

pub(crate) fn usage(rt: &HostRuntime) {
    say(
        rt,
        b"usage: card write RULE-FILE CARD-FILE [FLAGS [BUDGET]]\n       \
card show CARD-FILE\n\
\n\
Writes a card: the bytes of a rule with its flags, its budget and the number of its groups, which\n\
can be kept and sent. Shows what a card says, or why it is none.\n\
\n\
RULE-FILE   the rule is what stands before its first line end\n\
CARD-FILE   a card has at most 1064 bytes. It is written into a new file: no file is written over\n\
FLAGS       0 to 31, or letters: s (a dot in the rule takes every byte), m (^ and $ at each 0A),\n            \
i (A to Z and a to z match each other), x (blanks in the rule, and # up to the line's\n            \
end, are skipped), D (the depot profile, which refuses some rules: no references, no\n            \
repeat without upper bound of what may take no bytes, and no range but of digits, of\n            \
upper or of lower letters); - for none, as without it\n\
BUDGET      the steps that each start in a line may take, 0 to 65535; without it 65535\n\
\n\
What is written is shown, too. A byte of the rule outside 20 to 7E (hex) is shown as \\xHH, with ^\n\
under it.\n",
    );
}

// An argument that stands for no flags.
pub(crate) fn say_no_flags(rt: &HostRuntime) {
    say(
        rt,
        b"card: FLAGS are a number from 0 to 31, letters out of s, m, i, x and D, or - for none\n",
    );
}

// An argument that stands for no budget.
pub(crate) fn say_no_budget(rt: &HostRuntime) {
    say(rt, b"card: BUDGET is a number from 0 to 65535\n");
}
