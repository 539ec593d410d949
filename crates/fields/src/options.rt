// The options that the program is started with.
ghost use Rattle.std.specs.Prelude.{◌<◌, IfSome};

use frame::BUDGET_LIMIT;
use office::{arg, asks_for_page, decimal, flags};
use std::env::Env;

// Behind so many arguments no option is looked for.
const LAST: usize = 100;

// Whether a page is asked for, the flags, the budget, the place of the standing text among the arguments, if there is one, and that of the rule's file,
// which comes first behind the options.
#[derive(Clone, Copy, Debug, PartialEq, Eq)]
pub struct Options {
    pub paged: bool,
    pub flags: u32,
    pub budget: u32,
    pub text: Option<usize>,
    pub at: usize,
}

// The letter of an option, and `-` for an argument that looks like an option and has no letter; none for one that does not.
fn letter(rt: &HostRuntime, argument: usize) -> Option<u8> {
    let mut text = io::buffer();
    let n = arg(rt, argument, &mut text);
    match &text[..n] {
        [b'-', letter] => Some(*letter),
        [b'-', ..] => Some(b'-'),
        _ => None,
    }
}

impl Options {
    // The same with an option and its argument, if it has one that it may have. A standing text must not be longer than the buffer.
    fn with(self, rt: &HostRuntime, letter: u8, argument: usize) -> Option<Options> {
        let mut buffer = io::buffer();
        let n = rt.arg(argument, &mut buffer).ok()?;
        let value = &buffer[..n];
        let mut options = self;
        match letter {
            b'f' => options.flags = flags(value)?,
            b'b' => options.budget = decimal(value, BUDGET_LIMIT)?,
            b's' => options.text = Some(argument),
            _ => return None,
        }
        Some(options)
    }
}

// Reads the options, up to the first argument that is none.
pub(crate) fn read_options(rt: &HostRuntime) -> Option<Options>
    ensures { IfSome result (λ o. o.at < 200) }
{
    let paged = asks_for_page(rt);
    // options that have a letter begin behind the word that asks for a page
    let first = if paged { 2 } else { 1 };
    let mut options = Options {
        paged,
        flags: 0,
        budget: BUDGET_LIMIT,
        text: None,
        at: first,
    };
    for at in (first..LAST).step_by(2) {
        let Some(option) = letter(rt, at) else {
            return Some(Options { at, ..options });
        };
        options = options.with(rt, option, at + 1)?;
    }
    None
}
