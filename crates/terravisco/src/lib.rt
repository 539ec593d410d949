// The C interface: the calls, with each outcome as six numbers, or eleven for an explanation (`answers`), the field lookup, and rule cards.
// `include/terravisco.h` is its header.
#![tactic(auto)]

ghost use Rattle.std.specs.Prelude.{◌≡◌, length};
ghost use Rattle.semantics.specs.Calls.{match_call, list_call, scan_call, explain_call};
ghost use Rattle.semantics.specs.Batches.{batch_call};
ghost use Rattle.semantics.specs.Checks.{check_call};
ghost use Rattle.frame.specs.Inputs.{call_of};
ghost use Rattle.lookup.specs.Lookup.{lookup};
ghost use Rattle.card_format.specs.Cards.{write_call, read_call};
ghost use Rattle.answers.specs.Answers.{match_numbers, list_numbers, batch_numbers, check_numbers, explain_numbers};
ghost use Rattle.answers.specs.Cards.{write_numbers, read_numbers};
ghost use Rattle.terravisco.specs.Answers.{field_numbers, Answered};
ghost use Rattle.terravisco.specs.Cards.{CardAnswered};

use answers::{
    tell_batch, tell_check, tell_explanation, tell_listing, tell_match, tell_read, tell_written,
};
use lookup::Found;

// One match. This call and the three that are written like it stay apart: C calls each by its name, with its parameters.
pub fn terravisco_match(
    rule: &[u8],
    flags: u32,
    subject: &[u8],
    budget: u32,
    rule_area: &mut [u32],
    work_area: &mut [u32],
    res: &mut [u32],
    names: &mut [u8],
    answer: &mut [u32; 6],
)
    ensures { Answered match_numbers (match_call (call_of rule.now flags subject.now budget rule_area.old work_area.old res.old names.old)) answer.new rule_area.new work_area.new res.new names.new }
{
    let outcome = matching::match_line(
        rule, flags, subject, budget, rule_area, work_area, res, names,
    );
    tell_match(answer, outcome);
}

// One listing.
pub fn terravisco_list(
    rule: &[u8],
    flags: u32,
    subject: &[u8],
    budget: u32,
    rule_area: &mut [u32],
    work_area: &mut [u32],
    res: &mut [u32],
    names: &mut [u8],
    answer: &mut [u32; 6],
)
    ensures { Answered list_numbers (list_call (call_of rule.now flags subject.now budget rule_area.old work_area.old res.old names.old)) answer.new rule_area.new work_area.new res.new names.new }
{
    let outcome = listing::list_readings(
        rule, flags, subject, budget, rule_area, work_area, res, names,
    );
    tell_listing(answer, outcome);
}

// All successive matches.
pub fn terravisco_match_all(
    rule: &[u8],
    flags: u32,
    subject: &[u8],
    budget: u32,
    rule_area: &mut [u32],
    work_area: &mut [u32],
    res: &mut [u32],
    names: &mut [u8],
    answer: &mut [u32; 6],
)
    ensures { Answered list_numbers (scan_call (call_of rule.now flags subject.now budget rule_area.old work_area.old res.old names.old)) answer.new rule_area.new work_area.new res.new names.new }
{
    let outcome = scanning::match_all(
        rule, flags, subject, budget, rule_area, work_area, res, names,
    );
    tell_listing(answer, outcome);
}

// One match for each line of a buffer.
pub fn terravisco_match_lines(
    rule: &[u8],
    flags: u32,
    buffer: &[u8],
    budget: u32,
    rule_area: &mut [u32],
    work_area: &mut [u32],
    res: &mut [u32],
    names: &mut [u8],
    answer: &mut [u32; 6],
)
    ensures { Answered batch_numbers (batch_call (call_of rule.now flags buffer.now budget rule_area.old work_area.old res.old names.old)) answer.new rule_area.new work_area.new res.new names.new }
{
    let outcome = batching::match_lines(
        rule, flags, buffer, budget, rule_area, work_area, res, names,
    );
    tell_batch(answer, outcome);
}

// One check of a proposed reading.
pub fn terravisco_check(
    rule: &[u8],
    flags: u32,
    subject: &[u8],
    budget: u32,
    proposal: &[u8],
    rule_area: &mut [u32],
    work_area: &mut [u32],
    res: &mut [u32],
    names: &mut [u8],
    answer: &mut [u32; 6],
)
    ensures { Answered check_numbers (check_call proposal.now (call_of rule.now flags subject.now budget rule_area.old work_area.old res.old names.old)) answer.new rule_area.new work_area.new res.new names.new }
{
    let outcome = checking::check(
        rule, flags, subject, budget, proposal, rule_area, work_area, res, names,
    );
    tell_check(answer, outcome);
}

// One explanation of why a line does not fit.
pub fn terravisco_explain(
    rule: &[u8],
    flags: u32,
    subject: &[u8],
    budget: u32,
    rule_area: &mut [u32],
    work_area: &mut [u32],
    names: &mut [u8],
    marks: &mut [u8],
    answer: &mut [u32; 11],
)
    ensures { Answered explain_numbers (explain_call (call_of rule.now flags subject.now budget rule_area.old work_area.old marks.old names.old)) answer.new rule_area.new work_area.new marks.new names.new }
{
    let outcome = explaining::explain(
        rule, flags, subject, budget, rule_area, work_area, names, marks,
    );
    tell_explanation(answer, outcome);
}

// One field: which text it is a part of, from where and up to where. C cannot be handed a slice of Rattle's, so it gets the numbers.
pub fn terravisco_field(
    name: &[u8],
    names: &[u8],
    line: &[u8],
    kind: u32,
    row: &[u32],
    standing: &[u8],
    field: &mut [u64; 3],
)
    ensures { field.new ≡ field_numbers (length standing.now) (lookup name.now names.now line.now kind row.now) }
{
    match lookup::find(name, names, line, kind, row) {
        Found::Taken(from, to) => *field = [0, from as u64, to as u64],
        Found::Standing => *field = [1, 0, standing.len() as u64],
        Found::Nothing => *field = [1, 0, 0],
    }
}

// Writes the card of a rule.
pub fn terravisco_card_write(
    rule: &[u8],
    flags: u32,
    budget: u32,
    rule_area: &mut [u32],
    card: &mut [u8],
    answer: &mut [u32; 6],
)
    ensures { CardAnswered write_numbers (write_call rule.now flags budget rule_area.old card.old) answer.new rule_area.new card.new }
{
    let outcome = cards::write_card(rule, flags, budget, rule_area, card);
    tell_written(answer, outcome);
}

// Reads a card.
pub fn terravisco_card_read(
    card: &[u8],
    rule_area: &mut [u32],
    rule_bytes: &mut [u8],
    answer: &mut [u32; 9],
)
    ensures { CardAnswered read_numbers (read_call card.now rule_area.old rule_bytes.old) answer.new rule_area.new rule_bytes.new }
{
    let outcome = cards::read_card(card, rule_area, rule_bytes);
    tell_read(answer, outcome);
}
