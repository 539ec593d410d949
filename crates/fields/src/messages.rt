// Messages to the one who started the program.
use office::say;

pub(crate) fn usage(rt: &HostRuntime) {
    say(
        rt,
        b"usage: fields [--page] [-f FLAGS] [-b BUDGET] [-s TEXT] RULE-FILE LINES-FILE [NAME ..]\n\
\n\
Writes a table in columns between tabs: a head, and for every line its number, a word and what the\n\
groups of these names took of it; without names, all groups that have one.\n\
\n\
--page      write a page for a browser, HTML with no script: the counts, then the lines that are\n            \
not matched, ambiguous, undecided, exhausted or too long (the lines are read twice)\n\
-f FLAGS    0 to 31, or letters: s (a dot in the rule takes every byte), m (^ and $ at each 0A),\n            \
i (A to Z and a to z match each other), x (blanks in the rule, and # up to the line's\n            \
end, are skipped), D (the depot profile, which refuses some rules: no references, no\n            \
repeat without upper bound of what may take no bytes, and no range but of digits, of\n            \
upper or of lower letters); - for none, as without it\n\
-b BUDGET   the steps that each start in a line may take, 0 to 100000; without it 100000\n\
-s TEXT     what stands for a group that took nothing, up to 4096 bytes; without it nothing\n\
RULE-FILE   the rule is what stands before its first line end\n\
LINES-FILE  lines of up to 65535 bytes, ended by 0A (a 0D before it is a byte of the line)\n\
\n\
The word is matched; ambiguous, where another reading from the match's start to its end gives one of\n\
the fields another value; undecided, where there were too many readings or steps to know; not\n\
matched; exhausted, where the budget ran out before a match; or too long. The last three have no\n\
fields.\n\
In a field \\t, \\n, \\r and \\\\ stand for a tab, 0A, 0D and a backslash, and \\xHH for any other byte\n\
outside 20 to 7E (hex).\n",
    );
}
