// The registers of the groups, which a caller of many lines keeps from one to the next.
ghost use Rattle.std.specs.Prelude.{◌≡◌, ◌++◌, ◌*◌, ◌≤◌, length, drop, replicate};
ghost use Rattle.syntax.specs.Limits.{unset};

use index::UNSET;

// Unsets the registers of the first groups.
pub fn unset_groups(regs: &mut [u32], groups: u32)
    requires { 2 * groups ≤ length regs.old }
    ensures { regs.new ≡ replicate (2 * groups) unset ++ drop (2 * groups) regs.old }
{
    let all = 2 * groups as usize;
    regs[..all].fill(UNSET);
}
