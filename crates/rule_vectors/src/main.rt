// Reads rules and writes what the reader says of each. A line of input has two words, the flags in decimal and the rule's bytes in hex. A line of
// output is 'sound' and the number of groups, or the refusal's number, 'at' and its place.
#![tactic(auto)]

ghost use Rattle.std.specs.Prelude.{◌≤◌, length};
ghost use Rattle.syntax.specs.Limits.{rule_limit, rule_area_need};

use vectors::{cut, decode, number, put, put_refusal};

// Greater flags are held at this.
const FLAGS_MOST: u32 = 1000;

// One rule's verdict.
fn tell(rt: &HostRuntime, rule: &[u8], flags: u32, area: &mut [u32])
    requires { (length rule.now ≤ rule_limit) × (rule_area_need ≤ length area.old) }
{
    match reader::compile(rule, flags, false, area) {
        Ok(compiled) => {
            put(rt, "sound ");
            put(rt, compiled.groups);
            put(rt, "\n");
        }
        Err(f) => put_refusal(rt, f),
    }
}

// The verdict on the rule of a line.
fn tell_line(rt: &HostRuntime, line: &[u8], area: &mut [u32])
    requires { rule_area_need ≤ length area.old }
{
    let mut rule = [0u8; 1000];
    let (flags, digits) = cut(line, b' ');
    let n = decode(digits, &mut rule);
    tell(rt, &rule[..n], number(flags, FLAGS_MOST), area);
}

fn tell_lines(rt: &HostRuntime, input: &[u8], area: &mut [u32])
    requires { rule_area_need ≤ length area.old }
{
    let mut rest = input;
    while !rest.is_empty() {
        let (line, behind) = cut(rest, b'\n');
        tell_line(rt, line, area);
        rest = behind;
    }
}

fn main(rt: HostRuntime) {
    let mut buffer = vectors::input_buffer();
    let mut input = rt.stdin();
    let n = vectors::read_full(&mut input, &mut buffer);
    let mut area = [0u32; 16384];
    tell_lines(&rt, &buffer[..n], &mut area);
}
