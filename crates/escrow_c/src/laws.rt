//! Laws of the numbers, each the contract of a call that does nothing.

ghost use Rattle.escrow_c.specs.Numbers.{CommandsHaveNumbers, NumbersTellReplies};

/// Each command is that of some numbers, so every command can be asked by them. The call does
/// nothing; its contract is the law.
pub fn commands_have_numbers()
    ensures each { CommandsHaveNumbers }
{}

/// Two replies of the same numbers are one, so nothing is lost in them. The call does nothing; its
/// contract is the law.
pub fn numbers_tell_replies()
    ensures one { NumbersTellReplies }
{}
